// The small book at a position.
ghost use Rattle.std.specs.Prelude.{◌≡◌, [], ◌∷◌, ◌++◌, ◌≤◌, ◌<◌};
ghost use Rattle.book.specs.Bytes.{header_bytes};
ghost use Rattle.small.specs.Statements.{small_counts, statement_at_lem};
ghost use Rattle.small.specs.Books.{atomic_bytes, book_of, small_books, entry_at};
ghost use Rattle.small.specs.Laying.{laid};
ghost use Rattle.small.specs.Answer.{by_value};

pub use super::laid::SmallBook;
use super::statement::put_statement;

// Header and concept of a book without statements.
fn bare() -> SmallBook
    ensures { result ≡ laid (book_of []) }
{
    let mut bytes = [0u8; 37];
    bytes[0] = 0x0F;
    bytes[1] = 1; // classes
    bytes[3] = 1; // roles
    bytes[5] = 2; // individuals
    bytes[7] = 1; // concepts
    bytes[9] = 2; // Atomic, of class 0
    bytes[10] = 0x01;
    SmallBook { bytes, length: 13 }
}

// Header and concept of a book with statements.
fn front(statements: u8) -> SmallBook
    requires { (1 ≤ statements) × (statements ≤ 2) }
    ensures { result ≡ laid (header_bytes (small_counts statements) ++ atomic_bytes) }
{
    let mut bytes = [0u8; 37];
    bytes[0] = 0x1F;
    bytes[1] = 1; // classes
    bytes[3] = 1; // roles
    bytes[5] = 2; // individuals
    bytes[7] = 1; // concepts
    bytes[9] = statements;
    bytes[11] = 2; // Atomic, of class 0
    bytes[12] = 0x01;
    SmallBook { bytes, length: 15 }
}

fn book_of_one(i: usize) -> SmallBook
    requires { i < 73 }
    ensures { result ≡ laid (book_of (statement_at_lem i ∷ [])) }
{
    let mut book = front(1);
    put_statement(&mut book, i);
    book
}

fn book_of_two(i: usize, j: usize) -> SmallBook
    requires { (i < 73) × (j < 73) }
    ensures { result ≡ laid (book_of (statement_at_lem i ∷ statement_at_lem j ∷ [])) }
{
    let mut book = front(2);
    put_statement(&mut book, i);
    put_statement(&mut book, j);
    book
}

// The book at a position of the list, or none, for every number: there is 1 book of no statement, 73 are of one, and 73 * 73 of two.
pub fn small_book(position: u64) -> Option<SmallBook>
    ensures { result ≡ by_value (entry_at small_books position) }
{
    if position == 0 {
        return Some(bare());
    }
    if position <= 73 {
        return Some(book_of_one((position - 1) as usize));
    }
    if position < 5403 {
        let pair = (position - 74) as usize;
        return Some(book_of_two(pair / 73, pair % 73));
    }
    None
}
