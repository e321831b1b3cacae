// Words for the tables, as many as a book's counts ask for: a small book must not pay for clearing what it does not use.
ghost use Rattle.std.specs.Prelude.{◌≡◌, true};
ghost use Rattle.book.specs.Reader.{rest};
ghost use Rattle.rows.specs.Table.{Sized};
ghost use Rattle.tables.specs.Open.{book_of, size_of, Open};
ghost use Rattle.heed.specs.Names.{reader_of, Ready};
ghost use Rattle.verdict.specs.Conclude.{came};
ghost use Rattle.saturation.specs.Lists.{Same, over};
ghost use Rattle.saturation.specs.Run.{heard_book, outcome_on, Admitted, Small, Tiny, Enough, Holding};

use super::enter::Task;
use super::lists::Lists;
use super::run::{draw, read_off};
use book::header::Counts;
use heed::names::Names;
use tables::opened::OpenBook;
use tables::size::{size_of, table_rows};
use verdict::end::End;

fn is_small(counts: Counts) -> bool
    ensures { result ≡ true → Small counts }
{
    if counts.classes > 8 {
        return false;
    }
    if counts.roles > 4 {
        return false;
    }
    if counts.individuals > 16 {
        return false;
    }
    if counts.concepts > 64 {
        return false;
    }
    counts.statements <= 64
}

fn is_tiny(counts: Counts) -> bool
    ensures { result ≡ true → Tiny counts }
{
    if counts.classes > 2 {
        return false;
    }
    if counts.roles > 2 {
        return false;
    }
    if counts.individuals > 4 {
        return false;
    }
    if counts.concepts > 8 {
        return false;
    }
    counts.statements <= 16
}

// A run in tables of so many words for links, words for what is said, bytes for chains, labels and leaves.
// Never inlined, so that each size has a frame of its own and a small book does not walk over the largest.
#[inline(never)]
fn run_in<const T: usize, const S: usize, const C: usize, const L: usize, const K: usize>(
    book: OpenBook<'_>,
    task: Task,
    names: Names,
    lists: &mut Lists,
) -> End
    requires from_value { rest book.bytes.now book.counts task.from ≡ (book_of book.bytes.now).statements }
    requires ready { Ready names }
    requires admitted { Admitted task.budget lists.old.types.now lists.old.edges.now }
    requires enough { Holding book.counts T S C L K }
    ensures same { Same lists.old lists.new }
    ensures outcome { over (came result) lists.new ≡ over (outcome_on (heard_book (reader_of names.entry) book.entry.bytes.now) task.budget) lists.old }
{
    let mut t = [0u64; T];
    let mut says = [0u64; S];
    let mut chains = [0u8; C];
    let mut labels = [0u32; L];
    let mut leaves = [0u32; K];
    let drawn = draw(
        book,
        task,
        names,
        &mut leaves,
        &mut says,
        &mut chains,
        &mut labels,
        &mut t,
    );
    read_off(&t, book.counts, task, &says, &leaves, &labels, drawn, lists)
}

// Which size of tables a book asks for: 0 small, 1 to 3 by the rows of links.
pub fn wanted(counts: Counts) -> u32
    requires { Sized (size_of counts) }
    ensures { Enough counts result }
{
    let rows = table_rows(size_of(counts));
    if rows <= 64 {
        if is_small(counts) {
            return 0;
        }
        return 1;
    }
    if rows <= 2048 {
        return 1;
    }
    if rows <= 16384 {
        return 2;
    }
    3
}

// As many words as the book asks for.
pub fn allot(book: OpenBook<'_>, task: Task, names: Names, lists: &mut Lists) -> End
    requires from_value { rest book.bytes.now book.counts task.from ≡ (book_of book.bytes.now).statements }
    requires ready { Ready names }
    requires admitted { Admitted task.budget lists.old.types.now lists.old.edges.now }
    ensures same { Same lists.old lists.new }
    ensures outcome { over (came result) lists.new ≡ over (outcome_on (heard_book (reader_of names.entry) book.entry.bytes.now) task.budget) lists.old }
{
    let size = wanted(book.counts);
    if size == 0 {
        if is_tiny(book.counts) {
            return run_in::<256, 264, 64, 4, 8>(book, task, names, lists);
        }
        return run_in::<512, 1416, 256, 16, 64>(book, task, names, lists);
    }
    if size == 1 {
        return run_in::<16384, 75784, 16384, 512, 4096>(book, task, names, lists);
    }
    if size == 2 {
        return run_in::<131072, 75784, 16384, 512, 4096>(book, task, names, lists);
    }
    run_in::<531480, 75784, 16384, 512, 4096>(book, task, names, lists)
}
