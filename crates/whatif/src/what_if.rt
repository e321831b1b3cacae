// The open function.
ghost use Rattle.std.specs.Prelude.{◌≡◌, ◌≤◌};
ghost use Rattle.book.specs.Book.{Book, accepted as acceptedBook, decode};
ghost use Rattle.effect.specs.Effect.{effect};
ghost use Rattle.saturation.specs.Lists.{Same, over};
ghost use Rattle.saturation.specs.Run.{Admitted};
ghost use Rattle.whatif.specs.Answer.{gave, left, prospect};

use super::allot::{Job, allot};
use super::answer::Prospect;
use super::record::record_at;
use book::check::check_book;
use book::refusal::Refusal;
use saturation::lists::Lists;
use verdict::end::End;

// The book has room for as many offsets as it has concepts.
fn run_in<const N: usize>(
    book: &[u8],
    line: &[u8],
    budget: u32,
    lists: &mut Lists,
    more: &mut Lists,
) -> Result<Prospect, Refusal>
    requires in_bounds { (B : Book) → decode book.now ≡ acceptedBook B → B.counts.concepts ≤ N }
    requires most { N ≤ 4096 }
    requires admitted { Admitted budget lists.old.types.now lists.old.edges.now }
    ensures same { Same lists.old lists.new × Same more.old more.new }
    ensures effect { left (prospect result) lists.new more.new ≡ over (over (effect book.now line.now budget) lists.old) more.old }
{
    let mut offsets = [0usize; N];
    let (counts, from) = check_book(book, &mut offsets)?;
    let job = Job {
        counts,
        from,
        budget,
        read: record_at(line, counts),
    };
    Ok(allot(book, &offsets, job, lists, more))
}

// Refused before the run, or as the runs end. No book has more than 4,096 concepts, and none of at most 128 bytes more than 64: a concept takes two bytes
// at least.
fn run(
    book: &[u8],
    line: &[u8],
    budget: u32,
    lists: &mut Lists,
    more: &mut Lists,
) -> Result<Prospect, Refusal>
    ensures same { Same lists.old lists.new × Same more.old more.new }
    ensures effect { left (prospect result) lists.new more.new ≡ over (over (effect book.now line.now budget) lists.old) more.old }
{
    lists.admit(budget as u64)?;
    if book.len() <= 128 {
        return run_in::<64>(book, line, budget, lists, more);
    }
    run_in::<4096>(book, line, budget, lists, more)
}

// Runs the book; and where that finishes, what a copy of it with the record appended would have beyond it goes into the other lists: any bytes, any record,
// any budget, any lists. The answer and all six lists are as the effect is defined.
pub fn what_if(
    book: &[u8],
    line: &[u8],
    budget: u32,
    types: &mut [u32],
    edges: &mut [u32],
    pairs: &mut [u32],
    more_types: &mut [u32],
    more_edges: &mut [u32],
    more_pairs: &mut [u32],
) -> Prospect
    ensures { gave result types.new edges.new pairs.new more_types.new more_edges.new more_pairs.new ≡ effect book.now line.now budget types.old edges.old pairs.old more_types.old more_edges.old more_pairs.old }
{
    let mut lists = Lists {
        types,
        edges,
        pairs,
    };
    let mut more = Lists {
        types: more_types,
        edges: more_edges,
        pairs: more_pairs,
    };
    match run(book, line, budget, &mut lists, &mut more) {
        Ok(prospect) => prospect,
        Err(refusal) => Prospect {
            present: End::Refused(refusal),
            copy: None,
        },
    }
}
