// The bytes that are laid over the lent ones.
ghost use Rattle.std.specs.Prelude.{◌≡◌, [], ◌∷◌, ◌++◌, ◌+◌, ◌≤◌, ◌<◌, length, take};
ghost use Rattle.std.proofs.Math.Seq.{slice};
ghost use Rattle.std.proofs.Common.{Fits};
ghost use Rattle.std.specs.Int.{w64};
ghost use Rattle.book.specs.Bytes.{two_of};
ghost use Rattle.writer.specs.Lay.{over, recounted, total, records_bytes, Stand};
ghost use Rattle.writer.specs.Record.{ats, sizes};

use super::record::Span;

// The bytes, to `out` from `to` on.
fn put(bytes: &[u8], out: &mut [u8], to: usize)
    requires { to + length bytes.now ≤ length out.old }
    ensures { out.new ≡ over out.old to bytes.now }
{
    // Kept as a loop: `copy_from_slice` would have the library for C ask for memmove.
    for i in 0..bytes.len() {
        out[to + i] = bytes[i];
    }
}

// The header with another statement count.
fn lay_header(header: &[u8], count: usize, out: &mut [u8])
    requires { (length header.now ≤ length out.old) × (0 < count → 2 ≤ length header.now) × (count < 65536) }
    ensures { out.new ≡ over out.old 0 (recounted header.now count) }
{
    if count == 0 {
        put(header, out, 0);
        return;
    }
    let n = header.len() - 2;
    put(&header[..n], out, 0);
    put(&[(count % 256) as u8, (count / 256) as u8], out, n);
}

// The records, one after the other from `start` on.
fn lay_records(book: &[u8], kept: &[Span], out: &mut [u8], start: usize)
    requires stand { Stand book.now (length kept.now) (ats kept.now) (sizes kept.now) }
    requires kept_in_bounds { start + total (sizes kept.now) (length kept.now) ≤ length out.old }
    ensures { out.new ≡ over out.old start (records_bytes book.now (ats kept.now) (sizes kept.now) (length kept.now)) }
{
    let mut here = start;
    for span in kept {
        put(&book[span.at..span.at + span.size], out, here);
        here += span.size;
    }
}

// Where the last of the records ends, the first of which stands at `start`.
pub fn end_of(start: usize, kept: &[Span]) -> usize
    requires { Fits w64 (start + total (sizes kept.now) (length kept.now)) }
    ensures { result ≡ start + total (sizes kept.now) (length kept.now) }
{
    let mut end = start;
    for span in kept {
        end += span.size;
    }
    end
}

// Header, concept records and statement records.
pub fn lay_out(book: &[u8], front: usize, start: usize, kept: &[Span], out: &mut [u8])
    requires stand { Stand book.now (length kept.now) (ats kept.now) (sizes kept.now) }
    requires front_le_start { (front ≤ start) × (start ≤ length book.now) × (start + total (sizes kept.now) (length kept.now) ≤ length out.old) × (0 < length kept.now → 2 ≤ front) × (length kept.now < 65536) }
    ensures { out.new ≡ over out.old 0 (recounted (take front book.now) (length kept.now) ++ slice front start book.now ++ records_bytes book.now (ats kept.now) (sizes kept.now) (length kept.now)) }
{
    lay_header(&book[..front], kept.len(), out);
    put(&book[front..start], out, front);
    lay_records(book, kept, out, start);
}
