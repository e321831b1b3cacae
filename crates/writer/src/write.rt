// The open function.
ghost use Rattle.std.specs.Prelude.{◌≡◌, ◌*◌, ◌≤◌, eqb};
ghost use Rattle.book.specs.Read.{pick};
ghost use Rattle.writer.specs.Located.{Located};
ghost use Rattle.writer.specs.Record.{ats, sizes};
ghost use Rattle.writer.specs.Tree.{Room};
ghost use Rattle.writer.specs.Written.{as_answer, written, laid_out, writes};

use super::keep::keep_all;
use super::lay::{end_of, lay_out};
use super::record::Span;
use book::check::check_book;
use book::header::Counts;
use book::refusal::Refusal;

// An accepted book, with room for its statements' records: the length is found before anything is laid out.
fn write_kept(
    book: &[u8],
    counts: Counts,
    front: usize,
    start: usize,
    out: &mut [u8],
    child: &mut [u16],
    spans: &mut [Span],
) -> Result<usize, Refusal>
    requires located { Located book.now counts front start }
    requires room { Room book.now counts.statements child.old (ats spans.old) (sizes spans.old) }
    ensures { record { answer = as_answer result; out = out.new } ≡ laid_out (written book.now) out.old }
{
    let kept = keep_all(book, start, counts, child, spans);
    let end = end_of(start, kept);
    if out.len() < end {
        return Err(Refusal::ShortOutput);
    }
    lay_out(book, front, start, kept, out);
    Ok(end)
}

// A book of at most N statements, with room for as many records and for C children.
fn write_in<const N: usize, const C: usize>(
    book: &[u8],
    counts: Counts,
    front: usize,
    start: usize,
    out: &mut [u8],
) -> Result<usize, Refusal>
    requires located { Located book.now counts front start }
    requires room { (counts.statements ≤ N) × (16 * counts.statements ≤ C) × (N ≤ 4096) × (C ≤ 65536) }
    ensures { record { answer = as_answer result; out = out.new } ≡ laid_out (written book.now) out.old }
{
    let mut child = [0u16; C];
    let mut spans = [Span { at: 0, size: 0 }; N];
    write_kept(book, counts, front, start, out, &mut child, &mut spans)
}

fn write_accepted(
    book: &[u8],
    counts: Counts,
    front: usize,
    start: usize,
    out: &mut [u8],
) -> Result<usize, Refusal>
    requires { Located book.now counts front start }
    ensures { record { answer = as_answer result; out = out.new } ≡ laid_out (written book.now) out.old }
{
    if counts.statements <= 64 {
        return write_in::<64, 1024>(book, counts, front, start, out);
    }
    write_in::<4096, 65536>(book, counts, front, start, out)
}

// Where the concept records start: at the first one's offset, or at the statements where there is none.
fn front_of(counts: Counts, first: usize, start: usize) -> usize
    ensures { result ≡ pick (eqb counts.concepts 0) start first }
{
    if counts.concepts == 0 {
        return start;
    }
    first
}

// Writes the book to `out` without the statements that repeat earlier ones: any bytes, any room. The answer and the bytes at exit are the defined ones.
pub fn write(book: &[u8], out: &mut [u8]) -> Result<usize, Refusal>
    ensures { record { answer = as_answer result; out = out.new } ≡ writes book.now out.old }
{
    let mut offsets = [0usize; 1];
    let (counts, start) = check_book(book, &mut offsets)?;
    let front = front_of(counts, offsets[0], start);
    write_accepted(book, counts, front, start, out)
}
