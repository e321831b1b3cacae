// Words for the tables, as many as a book's counts ask for, as a run allots them, and rows beside them for what the statement says.
ghost use Rattle.std.specs.Prelude.{◌≡◌, ℕ, ◌+◌, ◌*◌, ◌≤◌, ◌<◌};
ghost use Rattle.book.specs.Read.{value, as_read};
ghost use Rattle.book.specs.Reader.{rest};
ghost use Rattle.book.specs.Within.{Within};
ghost use Rattle.book.specs.declared.statement.Statement.{Statement};
ghost use Rattle.rules.specs.Meaning.{conclusions};
ghost use Rattle.rules.specs.Spoken.{anyone};
ghost use Rattle.rules.proofs.Inside.{Inside};
ghost use Rattle.effect.specs.Copy.{larger};
ghost use Rattle.tables.specs.Open.{book_of, Open};
ghost use Rattle.saturation.specs.Lists.{Same, over};
ghost use Rattle.saturation.specs.Run.{heard_book, outcome_on, Admitted, Holding};
ghost use Rattle.whatif.specs.Begun.{with_read};
ghost use Rattle.whatif.specs.Answer.{left, effect_by};

use super::answer::{Prospect, begin};
use super::copy::{Going, draw_further};
use super::stay::{lessen, read_on};
use book::header::Counts;
use book::refusal::Refusal;
use book::statement::Statement;
use heed::names::Names;
use saturation::allot::wanted;
use saturation::enter::Task;
use saturation::lists::Lists;
use saturation::run::{draw, read_off};
use tables::opened::OpenBook;
use verdict::end::End;

// What is asked: the counts of a checked book, where its statements start, the budget, and what was read of the record.
#[derive(Clone, Copy)]
pub struct Job {
    pub counts: Counts,
    pub from: usize,
    pub budget: u32,
    pub read: Result<(Statement, usize), Refusal>,
}

// A run in tables of so many words for links, words for what is said, bytes for chains, labels and leaves; and where that finishes, the run of the copy.
// Never inlined, so that each size has a frame of its own and a small book does not walk over the largest.
#[inline(never)]
fn run_in<const T: usize, const S: usize, const C: usize, const L: usize, const K: usize>(
    book: &[u8],
    offsets: &[usize],
    job: Job,
    lists: &mut Lists,
    more: &mut Lists,
) -> Prospect
    requires fact { Open book.now job.counts offsets.now }
    requires from_value { rest book.now job.counts job.from ≡ (book_of book.now).statements }
    requires admitted { Admitted job.budget lists.old.types.now lists.old.edges.now }
    requires within { (y : Statement) (next : ℕ) → as_read job.read ≡ value y next → Within job.counts y.body × (job.counts.statements < 4096 → Inside (larger (book_of book.now) y)) }
    requires enough { Holding job.counts T S C L K × (job.counts.statements * 4 + 4 ≤ C) }
    ensures same { Same lists.old lists.new × Same more.old more.new }
    ensures effect { left result lists.new more.new ≡ over (effect_by (over (outcome_on (heard_book anyone book.now) job.budget) lists.old) (with_read (book_of book.now) (as_read job.read)) (conclusions (book_of book.now)) job.budget) more.old }
{
    let names = Names {
        reader: None,
        day: None,
    };
    let counts = job.counts;
    let budget = job.budget;
    let read = job.read;
    let task = Task {
        from: job.from,
        budget,
    };
    let open = OpenBook {
        bytes: book,
        offsets,
        counts,
    };
    let mut t = [0u64; T];
    let mut says = [0u64; S];
    let mut chains = [0u8; C];
    let mut labels = [0u32; L];
    let mut leaves = [0u32; K];
    let drawing = draw(
        open,
        task,
        names,
        &mut leaves,
        &mut says,
        &mut chains,
        &mut labels,
        &mut t,
    );
    let end = read_off(&t, counts, task, &says, &leaves, &labels, drawing, lists);
    let Some(begun) = begin(
        end,
        counts.statements,
        budget,
        read,
        more.edges.len(),
        more.types.len(),
    ) else {
        return Prospect {
            present: end,
            copy: None,
        };
    };
    match begun {
        Err(refusal) => Prospect {
            present: end,
            copy: Some(End::Refused(refusal)),
        },
        Ok(statement) => {
            let going = Going {
                counts,
                from: job.from,
                budget,
                used: drawing.used,
                taken: drawing.taken,
                denies: drawing.denies,
                statement,
            };
            let again = draw_further(
                book,
                offsets,
                going,
                &leaves,
                &mut says,
                &mut chains,
                &mut labels,
                &mut t,
            );
            let last = read_on(&t, counts, task, &says, &leaves, &labels, again, end, more);
            let less = lessen(again.moved, end, last, lists, more);
            Prospect {
                present: end,
                copy: Some(less),
            }
        }
    }
}

// As many words as the book asks for.
pub fn allot(
    book: &[u8],
    offsets: &[usize],
    job: Job,
    lists: &mut Lists,
    more: &mut Lists,
) -> Prospect
    requires fact { Open book.now job.counts offsets.now }
    requires from_value { rest book.now job.counts job.from ≡ (book_of book.now).statements }
    requires admitted { Admitted job.budget lists.old.types.now lists.old.edges.now }
    requires within { (y : Statement) (next : ℕ) → as_read job.read ≡ value y next → Within job.counts y.body × (job.counts.statements < 4096 → Inside (larger (book_of book.now) y)) }
    ensures same { Same lists.old lists.new × Same more.old more.new }
    ensures effect { left result lists.new more.new ≡ over (effect_by (over (outcome_on (heard_book anyone book.now) job.budget) lists.old) (with_read (book_of book.now) (as_read job.read)) (conclusions (book_of book.now)) job.budget) more.old }
{
    let size = wanted(job.counts);
    if size == 0 {
        return run_in::<512, 1416, 260, 16, 64>(book, offsets, job, lists, more);
    }
    if size == 1 {
        return run_in::<16384, 75784, 16388, 512, 4096>(book, offsets, job, lists, more);
    }
    if size == 2 {
        return run_in::<131072, 75784, 16388, 512, 4096>(book, offsets, job, lists, more);
    }
    run_in::<531480, 75784, 16388, 512, 4096>(book, offsets, job, lists, more)
}
