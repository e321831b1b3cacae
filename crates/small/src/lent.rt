// The small book at a position, into lent bytes.
ghost use Rattle.std.specs.Prelude.{◌≡◌, ◌++◌, ◌≤◌, length, take, drop};
ghost use Rattle.small.specs.Books.{small_books, entry_at};
ghost use Rattle.small.specs.Answer.{length_of, lent_of};

use super::small::small_book;

// The first n bytes of a book, to the front of the lent ones. Kept as a loop: `copy_from_slice` would have the library for C ask for memmove.
fn copy(bytes: &[u8], n: usize, out: &mut [u8])
    requires { (n ≤ length bytes.now) × (n ≤ length out.old) }
    ensures { out.new ≡ take n bytes.now ++ drop n out.old }
{
    for k in 0..n {
        out[k] = bytes[k];
    }
}

// The length of the book at a position, or 0 where there is none. The book is written if all of it fits.
pub fn lend_book(position: u64, out: &mut [u8]) -> usize
    ensures value { result ≡ length_of (entry_at small_books position) }
    ensures out_after { out.new ≡ lent_of (entry_at small_books position) out.old }
{
    let Some(book) = small_book(position) else {
        return 0;
    };
    let n = book.length;
    if n <= out.len() {
        copy(&book.bytes, n, out);
    }
    n
}
