// Statement records as bytes: where they stand, their digits, and whether two are alike.
ghost use Rattle.std.specs.Prelude.{◌≡◌, ◌+◌, ◌/◌, ◌%◌, ◌≤◌, ◌<◌, length};
ghost use Rattle.writer.specs.Record.{half, digit_of, Matched};

// So many bytes of a book, from a place on.
#[derive(Clone, Copy)]
pub struct Span {
    pub at: usize,
    pub size: usize,
}

// The low four bits of a byte for an even place, the high four for an odd one.
fn half_of(place: usize, byte: u8) -> usize
    ensures { (result ≡ half place byte) × (result < 16) }
{
    if place % 2 == 0 {
        return (byte as usize) % 16;
    }
    (byte as usize) / 16
}

// Digit d of a record: four bits, from the last byte back; 0 where there is no further byte.
pub fn digit(book: &[u8], span: Span, d: usize) -> usize
    requires { span.at + span.size ≤ length book.now }
    ensures { (result ≡ digit_of book.now span.at span.size d) × (result < 16) }
{
    if span.size <= d / 2 {
        return 0;
    }
    half_of(d, book[span.at + (span.size - 1 - d / 2)])
}

// Whether two records have the same bytes.
pub fn alike(book: &[u8], a: Span, b: Span) -> bool
    requires { (a.at + a.size ≤ length book.now) × (b.at + b.size ≤ length book.now) }
    ensures { Matched book.now a.at a.size b.at b.size result }
{
    book[a.at..a.at + a.size] == book[b.at..b.at + b.size]
}
