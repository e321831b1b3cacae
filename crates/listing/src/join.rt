// How many joinings are due: the run again, for its labels. Two that have one label are a joining, unless they are told to be the same.
ghost use Rattle.std.specs.Prelude.{◌≡◌, ◌+◌, ◌*◌, ◌≤◌, ◌<◌, length};
ghost use Rattle.book.specs.Book.{accepted, decode};
ghost use Rattle.book.specs.Read.{pick};
ghost use Rattle.book.specs.Reader.{rest};
ghost use Rattle.rules.specs.Meaning.{conclusions};
ghost use Rattle.rules.specs.Lists.{used as usedOf};
ghost use Rattle.tables.specs.Open.{book_of, Open};
ghost use Rattle.tables.specs.Tables.{Blank};
ghost use Rattle.saturation.specs.Run.{Holding};
ghost use Rattle.derivation.specs.Tables.{LabelsOf};
ghost use Rattle.steps.specs.Joinings.{joinings};
ghost use Rattle.listing.specs.Joins.{joined_by, joined_with, joined_among};

use super::fill::state;
use book::check::check_book;
use book::header::Counts;
use heed::names::Names;
use saturation::allot::wanted;
use saturation::enter::Task;
use saturation::run::draw;
use tables::leaf::read_leaves;
use tables::opened::OpenBook;

// Whether i and j are a joining.
fn is_joining(told: &[u32], labels: &[u32], i: usize, j: usize) -> bool
    requires { (i < length told.now) × (j < length told.now) × (i < length labels.now) × (j < length labels.now) }
    ensures { result ≡ joined_by told.now labels.now i j }
{
    if i >= j {
        return false;
    }
    if labels[i] != labels[j] {
        return false;
    }
    told[i] != told[j]
}

fn one_more(n: u32, more: bool) -> u32
    requires { n < 4294967295 }
    ensures { result ≡ n + pick more 1 0 }
{
    if more {
        return n + 1;
    }
    n
}

// Those of i with all n individuals.
fn count_with(told: &[u32], labels: &[u32], n: usize, i: usize) -> u32
    requires { (n ≤ 512) × (n ≤ length told.now) × (n ≤ length labels.now) × (i < n) }
    ensures { (result ≡ length (joined_with told.now labels.now i n)) × (result ≤ 512) }
{
    let mut c = 0;
    for j in 0..n {
        c = one_more(c, is_joining(told, labels, i, j));
    }
    c
}

// Those of all.
fn count_all(told: &[u32], labels: &[u32], n: usize) -> u32
    requires { (n ≤ 512) × (n ≤ length told.now) × (n ≤ length labels.now) }
    ensures { result ≡ length (joined_among told.now labels.now n n) }
{
    let mut c = 0;
    for i in 0..n {
        c += count_with(told, labels, n, i);
    }
    c
}

// The told labels.
fn read_told(book: OpenBook<'_>, from: usize, takers: &mut [u64], told: &mut [u32])
    requires from_value { rest book.bytes.now book.counts from ≡ (book_of book.bytes.now).statements }
    requires blank { Blank takers.old × (book.counts.concepts * 8 ≤ length takers.old) × (512 ≤ length told.old) }
    ensures { LabelsOf (book_of book.entry.bytes.now) book.entry.counts told.new × (book.entry.counts.individuals ≤ length told.new) }
{
    let mut leaves = [0u32; 4096];
    let mut starts = [0usize; 4096];
    let mut pairs = [0u64; 2048];
    read_leaves(book, &mut leaves);
    state(book, from, &leaves, &mut starts, told, &mut pairs, takers);
}

// By the told labels and a run, in tables of so many words for what takes a concept and for links, words for what is said, bytes for chains, labels and
// leaves. Never inlined, so that each size has a frame of its own and a small book does not walk over the largest.
#[inline(never)]
fn count_in<
    const P: usize,
    const T: usize,
    const S: usize,
    const C: usize,
    const L: usize,
    const K: usize,
>(book: OpenBook<'_>, from: usize, used: u32) -> u32
    requires from_value { rest book.bytes.now book.counts from ≡ (book_of book.bytes.now).statements }
    requires used_value { used ≡ usedOf (book_of book.bytes.now) (conclusions (book_of book.bytes.now)) }
    requires takers { (book.counts.concepts * 8 ≤ P) × (P ≤ 32768) }
    requires enough { Holding book.counts T S C L K }
    ensures { result ≡ length (joinings (book_of book.entry.bytes.now) (conclusions (book_of book.entry.bytes.now))) }
{
    let mut takers = [0u64; P];
    let mut told = [0u32; 512];
    read_told(book, from, &mut takers, &mut told);
    let everyone = Names {
        reader: None,
        day: None,
    };
    let mut t = [0u64; T];
    let mut says = [0u64; S];
    let mut chains = [0u8; C];
    let mut labels = [0u32; L];
    let mut leaves = [0u32; K];
    draw(
        book,
        Task { from, budget: used },
        everyone,
        &mut leaves,
        &mut says,
        &mut chains,
        &mut labels,
        &mut t,
    );
    count_all(&told, &labels, book.counts.individuals as usize)
}

// Of a checked book, in as many words as it asks for.
fn count_checked(book: OpenBook<'_>, from: usize, used: u32) -> u32
    requires from_value { rest book.bytes.now book.counts from ≡ (book_of book.bytes.now).statements }
    requires used_value { used ≡ usedOf (book_of book.bytes.now) (conclusions (book_of book.bytes.now)) }
    ensures { result ≡ length (joinings (book_of book.entry.bytes.now) (conclusions (book_of book.entry.bytes.now))) }
{
    if wanted(book.counts) == 0 {
        return count_in::<512, 512, 1416, 256, 16, 64>(book, from, used);
    }
    count_in::<32768, 531480, 75784, 16384, 512, 4096>(book, from, used)
}

fn count_any(book: &[u8], offsets: &mut [usize], used: u32) -> u32
    requires in_bounds { 4096 ≤ length offsets.old }
    requires book_value { decode book.now ≡ accepted (book_of book.now) }
    requires used_value { used ≡ usedOf (book_of book.now) (conclusions (book_of book.now)) }
    ensures { result ≡ length (joinings (book_of book.now) (conclusions (book_of book.now))) }
{
    let Ok((counts, from)) = check_book(book, offsets) else {
        return 0;
    };
    let open = OpenBook {
        bytes: book,
        offsets,
        counts,
    };
    count_checked(open, from, used)
}

// Of a book that was run, with so many types and edges.
pub(crate) fn count_joinings(book: &[u8], used: u32) -> u32
    requires book_value { decode book.now ≡ accepted (book_of book.now) }
    requires used_value { used ≡ usedOf (book_of book.now) (conclusions (book_of book.now)) }
    ensures { result ≡ length (joinings (book_of book.now) (conclusions (book_of book.now))) }
{
    let mut offsets = [0usize; 4096];
    count_any(book, &mut offsets, used)
}
