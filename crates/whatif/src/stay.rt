// How the copy ends, and what it has beyond the present run.
ghost use Rattle.std.specs.Prelude.{◌≡◌, true, false, ◌||◌, List, ℕ, ◌*◌, ◌≤◌, length};
ghost use Rattle.book.specs.Book.{Book};
ghost use Rattle.rows.specs.Table.{Table};
ghost use Rattle.rules.specs.Fact.{Two, Three};
ghost use Rattle.rules.proofs.Inside.{Inside};
ghost use Rattle.said.specs.Layout.{layout_of, Placed, total_rows};
ghost use Rattle.verdict.specs.Verdict.{clash_in};
ghost use Rattle.verdict.specs.Conclude.{end_of, came};
ghost use Rattle.verdict.specs.declared.end.End.TheVariants as end;
ghost use Rattle.saturation.specs.Lists.{Same, over};
ghost use Rattle.saturation.specs.Run.{outcome_on, Admitted, Drawn};
ghost use Rattle.whatif.specs.Minus.{Listed, lessened};
ghost use Rattle.whatif.specs.Answer.{stayed};

use super::copy::Redrawn;
use super::remove::remove;
use book::header::Counts;
use book::refusal::Refusal;
use said::layout::{Layout, layout_of};
use saturation::enter::Task;
use saturation::lists::Lists;
use saturation::run::{Drawing, read_off};
use verdict::conclude::clear_all;
use verdict::end::End;
use verdict::verdict::clash;

// The copy concludes what the present run, which ended with `first`, does: it clashes, or has nothing beyond it.
fn stay(
    t: &[u64],
    layout: Layout,
    says: &[u64],
    leaves: &[u32],
    denied: bool,
    first: End,
    lists: &mut Lists,
) -> End
    requires table { Table layout.size t.now }
    requires placed { Placed layout × (total_rows layout * 8 ≤ length says.now) × (layout.concepts ≤ length leaves.now) }
    ensures same { Same lists.old lists.new }
    ensures outcome { over (came result) lists.new ≡ over (stayed (clash_in layout t.now says.now leaves.now || denied) (end_of first)) lists.old }
{
    clear_all(lists.types, lists.edges, lists.pairs);
    let End::Finished(a, b, c) = first else {
        return first;
    };
    let clashes = clash(t, layout, says, leaves) | denied;
    if clashes {
        return End::Clash(a, b);
    }
    if lists.pairs.len() < 2 * (c as usize) {
        return End::Refused(Refusal::ShortPairList);
    }
    End::Finished(0, 0, 0)
}

// How the copy ends: its lists are read off, or, where nothing moved, left empty.
pub fn read_on(
    t: &[u64],
    counts: Counts,
    task: Task,
    says: &[u64],
    leaves: &[u32],
    labels: &[u32],
    again: Redrawn,
    first: End,
    lists: &mut Lists,
) -> End
    requires inside { (B : Book) × Inside B × (B.counts ≡ counts) × Drawn counts B task.budget says.now leaves.now labels.now t.now again.used again.denied }
    requires counts_in_bounds { (total_rows (layout_of counts) * 8 ≤ length says.now) × (counts.concepts ≤ length leaves.now) }
    requires admitted { Admitted task.budget lists.old.types.now lists.old.edges.now }
    ensures same { Same lists.old lists.new }
    ensures pairs_after { again.moved ≡ true → (B : Book) → Inside B → B.counts ≡ counts → Drawn counts B task.budget says.now leaves.now labels.now t.now again.used again.denied → over (came result) lists.new ≡ over (outcome_on B task.budget) lists.old }
    ensures pairs_after_2 { again.moved ≡ false → over (came result) lists.new ≡ over (stayed (clash_in (layout_of counts) t.now says.now leaves.now || again.denied) (end_of first)) lists.old }
{
    if again.moved {
        let drawn = Drawing {
            used: again.used,
            taken: 0,
            denies: true,
            denied: again.denied,
        };
        return read_off(t, counts, task, says, leaves, labels, drawn, lists);
    }
    stay(
        t,
        layout_of(counts),
        says,
        leaves,
        again.denied,
        first,
        lists,
    )
}

// What the present run listed is taken out of what the copy did, where anything moved.
pub fn lessen(moved: bool, first: End, second: End, lists: &Lists, more: &mut Lists) -> End
    requires { moved ≡ true → (t e p a b c : ℕ) → first ≡ end.Finished t e p → second ≡ end.Finished a b c → ((T : List Two) × (E : List Three) × (P : List Two) × Listed first lists.now T E P) × ((T : List Two) × (E : List Three) × (P : List Two) × Listed second more.old T E P) }
    ensures same { Same more.old more.new }
    ensures more_pairs_after { moved ≡ false → over (came result) more.new ≡ over (came second) more.old }
    ensures more_pairs_after_2 { moved ≡ true → ((t e p : ℕ) → second ≡ end.Finished t e p → ⊥) → over (came result) more.new ≡ over (came second) more.old }
    ensures more_pairs_after_3 { moved ≡ true → (T : List Two) (E : List Three) (P : List Two) (U : List Two) (F : List Three) (Q : List Two) → Listed first lists.now T E P → Listed second more.old U F Q → over (came result) more.new ≡ over (lessened T E P U F Q) more.old }
{
    if moved {
        return remove(first, second, lists, more);
    }
    second
}
