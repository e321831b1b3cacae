// Which statements stay: each but those that repeat an earlier one.
ghost use Rattle.std.specs.Prelude.{◌≡◌, ◌*◌, ◌≤◌, length};
ghost use Rattle.book.specs.Header.{Limits};
ghost use Rattle.book.specs.Reader.{rest};
ghost use Rattle.writer.specs.Kept.{kept};
ghost use Rattle.writer.specs.Gathering.{Records};
ghost use Rattle.writer.specs.Lay.{Stand};
ghost use Rattle.writer.specs.Record.{ats, sizes};
ghost use Rattle.writer.specs.Tree.{Tree};

use super::record::Span;
use super::tree::keep;
use book::header::Counts;
use book::reader::next_statement;

// Over the statements from `start` on: where the records of those that stay stand.
pub fn keep_all<'a>(
    book: &[u8],
    start: usize,
    counts: Counts,
    child: &mut [u16],
    spans: &'a mut [Span],
) -> &'a [Span]
    requires tree { Tree book.now 0 child.old (ats spans.old) (sizes spans.old) }
    requires start_in_bounds { (16 * length (rest book.now counts start) ≤ length child.old) × (length (rest book.now counts start) ≤ length spans.old) × (length (rest book.now counts start) ≤ 65536) × Limits counts }
    ensures records { Records book.now counts (kept (rest book.now counts start)) (length result.now) (ats result.now) (sizes result.now) }
    ensures stand { Stand book.now (length result.now) (ats result.now) (sizes result.now) }
{
    let mut here = start;
    let mut count: usize = 0;
    while let Some((_, next)) = next_statement(book, here, counts) {
        let span = Span {
            at: here,
            size: next - here,
        };
        count = keep(book, child, spans, count, span);
        here = next;
    }
    &spans[..count]
}
