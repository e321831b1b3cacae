// Every small book.
ghost use Rattle.std.specs.Prelude.{◌≡◌};
ghost use Rattle.small.specs.Books.{small_books, entry_at};
ghost use Rattle.small.specs.Answer.{length_of, lent_of};

use small::lent::lend_book;

// The length of the book at a position, or 0 where there is none. The book is written if all of it fits.
#[unsafe(no_mangle)]
pub extern "C" fn zamoluvel_small_book(position: u64, out: &mut [u8]) -> usize
    ensures value { result ≡ length_of (entry_at small_books position) }
    ensures out_after { out.new ≡ lent_of (entry_at small_books position) out.old }
{
    lend_book(position, out)
}
