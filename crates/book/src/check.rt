// The check of a whole book, from front to back.
ghost use Rattle.std.specs.Prelude.{◌≡◌, set};
ghost use Rattle.book.specs.Read.{as_passed, several};
ghost use Rattle.book.specs.Field.{passed};
ghost use Rattle.book.specs.Statement.{statement};
ghost use Rattle.book.specs.Book.{ConceptsPassed, BookChecked, ConceptsLeft, OffsetsLeft};

use super::concept::concept_at;
use super::header::{Counts, header_at};
use super::refusal::Refusal;
use super::statement::statement_at;

// Notes `x` at `i`, where there is room.
fn note(offsets: &mut [usize], i: usize, x: usize)
    ensures { offsets.new ≡ set offsets.old i x }
{
    if i < offsets.len() {
        offsets[i] = x;
    }
}

// Over all concept records; notes in `offsets` where each starts.
fn concepts_at(
    book: &[u8],
    at: usize,
    counts: Counts,
    offsets: &mut [usize],
) -> Result<usize, Refusal>
    ensures concepts_passed { ConceptsPassed book.now counts at result offsets.new }
    ensures concepts_left { ConceptsLeft book.now counts at offsets.old offsets.new }
{
    let mut here = at;
    for k in 0..counts.concepts {
        let (_, next) = concept_at(book, here, k as u32, counts)?;
        note(&mut *offsets, k as usize, here);
        here = next;
    }
    Ok(here)
}

// Over all statement records.
fn statements_at(book: &[u8], at: usize, counts: Counts) -> Result<usize, Refusal>
    ensures { as_passed result ≡ passed (several (statement counts) counts.statements book.now at) }
{
    let mut here = at;
    for _ in 0..counts.statements {
        let (_, next) = statement_at(book, here, counts)?;
        here = next;
    }
    Ok(here)
}

// The whole book: its counts and the offset of its statements, or its first fault. Notes in `offsets` where each concept
// record before the first faulty one starts, as far as it has room.
pub fn check_book(book: &[u8], offsets: &mut [usize]) -> Result<(Counts, usize), Refusal>
    ensures book_checked { BookChecked book.now result offsets.new }
    ensures offsets_left { OffsetsLeft book.now offsets.old offsets.new }
{
    let (counts, at) = header_at(book)?;
    let then = concepts_at(book, at, counts, &mut *offsets)?;
    let end = statements_at(book, then, counts)?;
    if end < book.len() {
        return Err(Refusal::BytesBehind);
    }
    Ok((counts, then))
}
