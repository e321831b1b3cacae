// What a run listed, without what another did.
ghost use Rattle.std.specs.Prelude.{◌≡◌, List, ℕ};
ghost use Rattle.rules.specs.Fact.{Two, Three};
ghost use Rattle.verdict.specs.Conclude.{came};
ghost use Rattle.saturation.specs.Lists.{Same, over};
ghost use Rattle.verdict.specs.declared.end.End.TheVariants as end;
ghost use Rattle.whatif.specs.Minus.{Listed, lessened};

use super::subtract::subtract;
use saturation::lists::Lists;
use verdict::end::End;

// Where both runs finished, what stands in the lists of the first is taken out of those of the second: how the second then ends.
pub fn remove(first: End, second: End, lists: &Lists, more: &mut Lists) -> End
    requires { (t e p a b c : ℕ) → first ≡ end.Finished t e p → second ≡ end.Finished a b c → ((T : List Two) × (E : List Three) × (P : List Two) × Listed first lists.now T E P) × ((T : List Two) × (E : List Three) × (P : List Two) × Listed second more.old T E P) }
    ensures same { Same more.old more.new }
    ensures more_pairs_after { ((t e p : ℕ) → second ≡ end.Finished t e p → ⊥) → over (came result) more.new ≡ over (came second) more.old }
    ensures more_pairs_after_2 { (T : List Two) (E : List Three) (P : List Two) (U : List Two) (F : List Three) (Q : List Two) → Listed first lists.now T E P → Listed second more.old U F Q → over (came result) more.new ≡ over (lessened T E P U F Q) more.old }
{
    let End::Finished(t, e, p) = first else {
        return second;
    };
    let End::Finished(a, b, c) = second else {
        return second;
    };
    let u = subtract(
        more.types,
        2 * (a as usize),
        lists.types,
        2 * (t as usize),
        2,
    );
    let f = subtract(
        more.edges,
        3 * (b as usize),
        lists.edges,
        3 * (e as usize),
        3,
    );
    let q = subtract(
        more.pairs,
        2 * (c as usize),
        lists.pairs,
        2 * (p as usize),
        2,
    );
    End::Finished((u / 2) as u32, (f / 3) as u32, (q / 2) as u32)
}
