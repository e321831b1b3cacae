// A run that lends a row list in place of the pair list: the run itself first, and then its rows.
ghost use Rattle.std.specs.Prelude.{◌≡◌, true, false, ◌+◌, ◌*◌, ◌≤◌, length, replicate};
ghost use Rattle.book.specs.Book.{accepted, decode};
ghost use Rattle.book.specs.Read.{pick};
ghost use Rattle.book.specs.Reader.{rest};
ghost use Rattle.rows.specs.Table.{Table};
ghost use Rattle.rules.specs.Meaning.{conclusions};
ghost use Rattle.rules.specs.Lists.{used as usedOf, pairs as pairs_of_lem, entries2, filled};
ghost use Rattle.tables.specs.Open.{book_of, size_of, Open};
ghost use Rattle.verdict.specs.Listing.{types_of};
ghost use Rattle.verdict.specs.Conclude.{end_of};
ghost use Rattle.steps.specs.Joinings.{joinings};
ghost use Rattle.listing.specs.Listing.{RowsRun};
ghost use Rattle.listing.specs.Filled.{Fresh, Holding};
ghost use Rattle.listing.specs.Running.{numbers_of_lem, rows_for_lem, PairsFit, PlainRun, Ran, RowsLeft, RunListed, ended_as};

use super::fill::fill_rows;
use super::join::count_joinings;
use book::check::check_book;
use book::header::{Counts, header_at};
use book::refusal::Refusal;
use saturation::allot::wanted;
use saturation::saturate::saturate;
use tables::opened::OpenBook;
use tables::size::size_of;
use verdict::end::End;
use verdict::list::{clear, list_types};

// What a run came to: how many types, edges, same pairs and joinings, and whether it is a clash.
#[derive(Clone, Copy)]
pub struct Numbers {
    pub types: u32,
    pub edges: u32,
    pub pairs: u32,
    pub joinings: u32,
    pub clashes: bool,
}

// Both lists are 0.
fn clear_both(types: &mut [u32], edges: &mut [u32])
    ensures { (types.new ≡ replicate (length types.old) 0) × (edges.new ≡ replicate (length edges.old) 0) }
{
    clear(types, 0);
    clear(edges, 0);
}

// How many entries the rows take.
fn entries_due(numbers: Numbers) -> usize
    requires { numbers.types + numbers.edges + numbers.joinings ≤ 17170432 }
    ensures { result ≡ 9 * rows_for_lem numbers }
{
    let n = (numbers.types + numbers.edges + numbers.joinings) as usize;
    if numbers.clashes {
        return 9 * (n + 1);
    }
    9 * n
}

// Whether a list of N entries has room for all pairs of a book: of one that has at most M individuals.
fn has_few_pairs<const M: usize, const N: usize>(book: &[u8]) -> bool
    requires { 2 * (M * M) ≤ N }
    ensures { result ≡ true → PairsFit book.now N }
{
    let Ok((counts, _)) = header_at(book) else {
        return true;
    };
    if counts.individuals as usize > M {
        return false;
    }
    true
}

// The run itself, with room for N entries of pairs. Never inlined, so that a small book does not walk over the larger list.
#[inline(never)]
fn run_with<const N: usize>(book: &[u8], budget: u64, types: &mut [u32], edges: &mut [u32]) -> End
    requires { PairsFit book.now N × (N ≤ 524288) }
    ensures { PlainRun book.now budget types.old edges.old (end_of result) types.new edges.new }
{
    let mut pairs = [0u32; N];
    saturate(book, budget, types, edges, &mut pairs)
}

fn run_plain(book: &[u8], budget: u64, types: &mut [u32], edges: &mut [u32]) -> End
    ensures { PlainRun book.now budget types.old edges.old (end_of result) types.new edges.new }
{
    if has_few_pairs::<16, 512>(book) {
        return run_with::<512>(book, budget, types, edges);
    }
    if has_few_pairs::<64, 8192>(book) {
        return run_with::<8192>(book, budget, types, edges);
    }
    if has_few_pairs::<256, 131072>(book) {
        return run_with::<131072>(book, budget, types, edges);
    }
    run_with::<524288>(book, budget, types, edges)
}

// The types again, where the run has any: until then their list has the places of the rows.
fn list_again(t: &[u64], counts: Counts, numbers: Numbers, types: &mut [u32])
    requires { Table (size_of counts) t.now × (2 * length (types_of (size_of counts) t.now) ≤ length types.old) }
    ensures { types.new ≡ pick numbers.clashes (replicate (length types.old) 0) (filled (entries2 (types_of (size_of counts) t.now)) (length types.old)) }
{
    if numbers.clashes {
        clear(types, 0);
        return;
    }
    list_types(types, t, size_of(counts));
}

// The rows of a checked book, in blank tables.
fn list_in(
    book: OpenBook<'_>,
    from: usize,
    numbers: Numbers,
    types: &mut [u32],
    rows: &mut [u32],
    t: &mut [u64],
    takers: &mut [u64],
    deep: &mut [u64],
)
    requires from_value { rest book.bytes.now book.counts from ≡ (book_of book.bytes.now).statements }
    requires ran { Ran book.bytes.now numbers types.old × (9 * rows_for_lem numbers ≤ length rows.old) }
    requires fresh { Fresh book.counts t.old takers.old deep.old }
    ensures { RowsLeft book.entry.bytes.now numbers types.old rows.old types.new rows.new }
{
    let due = numbers.types + numbers.edges + numbers.joinings;
    clear(types, 0);
    fill_rows(
        book,
        from,
        due,
        numbers.clashes,
        t,
        rows,
        types,
        takers,
        deep,
    );
    list_again(t, book.counts, numbers, types);
    clear(rows, entries_due(numbers));
}

// In tables of so many words for links, for what takes a concept and for leaves at any depth. Never inlined, as `count_in`.
#[inline(never)]
fn list_with<const T: usize, const P: usize, const D: usize>(
    book: OpenBook<'_>,
    from: usize,
    numbers: Numbers,
    types: &mut [u32],
    rows: &mut [u32],
)
    requires from_value { rest book.bytes.now book.counts from ≡ (book_of book.bytes.now).statements }
    requires ran { Ran book.bytes.now numbers types.old × (9 * rows_for_lem numbers ≤ length rows.old) }
    requires enough { Holding book.counts T P D }
    ensures { RowsLeft book.entry.bytes.now numbers types.old rows.old types.new rows.new }
{
    let mut t = [0u64; T];
    let mut takers = [0u64; P];
    let mut deep = [0u64; D];
    list_in(
        book,
        from,
        numbers,
        types,
        rows,
        &mut t,
        &mut takers,
        &mut deep,
    );
}

// In as many words as the book asks for.
fn list_checked(
    book: OpenBook<'_>,
    from: usize,
    numbers: Numbers,
    types: &mut [u32],
    rows: &mut [u32],
)
    requires from_value { rest book.bytes.now book.counts from ≡ (book_of book.bytes.now).statements }
    requires ran { Ran book.bytes.now numbers types.old × (9 * rows_for_lem numbers ≤ length rows.old) }
    ensures { RowsLeft book.entry.bytes.now numbers types.old rows.old types.new rows.new }
{
    if wanted(book.counts) == 0 {
        list_with::<720, 512, 4096>(book, from, numbers, types, rows);
    } else {
        list_with::<536616, 32768, 262144>(book, from, numbers, types, rows);
    }
}

fn list_any(
    book: &[u8],
    offsets: &mut [usize],
    numbers: Numbers,
    types: &mut [u32],
    rows: &mut [u32],
)
    requires in_bounds { 4096 ≤ length offsets.old }
    requires ran { Ran book.now numbers types.old × (9 * rows_for_lem numbers ≤ length rows.old) }
    ensures { RowsLeft book.now numbers types.old rows.old types.new rows.new }
{
    let Ok((counts, from)) = check_book(book, offsets) else {
        return;
    };
    let open = OpenBook {
        bytes: book,
        offsets,
        counts,
    };
    list_checked(open, from, numbers, types, rows);
}

// The rows of a book that was run.
fn list_rows(book: &[u8], numbers: Numbers, types: &mut [u32], rows: &mut [u32])
    requires { Ran book.now numbers types.old × (9 * rows_for_lem numbers ≤ length rows.old) }
    ensures { RowsLeft book.now numbers types.old rows.old types.new rows.new }
{
    let mut offsets = [0usize; 4096];
    list_any(book, &mut offsets, numbers, types, rows);
}

fn end_with(numbers: Numbers) -> End
    ensures { end_of result ≡ ended_as numbers }
{
    if numbers.clashes {
        return End::Clash(numbers.types, numbers.edges);
    }
    End::Finished(numbers.types, numbers.edges, numbers.pairs)
}

// A clash or finished: 13, or its rows.
fn run_listed(
    book: &[u8],
    numbers: Numbers,
    types: &mut [u32],
    edges: &mut [u32],
    rows: &mut [u32],
) -> End
    requires { Ran book.now numbers types.old }
    ensures { RunListed book.now numbers types.old edges.old rows.old (record { end = end_of result; types = types.new; edges = edges.new }) rows.new }
{
    if rows.len() < entries_due(numbers) {
        clear_both(types, edges);
        return End::Refused(Refusal::ShortRowList);
    }
    list_rows(book, numbers, types, rows);
    end_with(numbers)
}

// How many joinings a run that is a clash or finished has: none where it finished with no same pair, and then there is nothing to run again for.
fn joinings_due(book: &[u8], used: u32, pairs: u32, clashes: bool) -> u32
    requires book_value { decode book.now ≡ accepted (book_of book.now) }
    requires used_value { used ≡ usedOf (book_of book.now) (conclusions (book_of book.now)) }
    requires pairs_value { clashes ≡ false → pairs ≡ length (pairs_of_lem (book_of book.now) (conclusions (book_of book.now))) }
    ensures { result ≡ length (joinings (book_of book.now) (conclusions (book_of book.now))) }
{
    if clashes {
        return count_joinings(book, used);
    }
    if pairs == 0 {
        return 0;
    }
    count_joinings(book, used)
}

// The numbers of a run that is a clash or finished, with the joinings.
fn number(book: &[u8], types: u32, edges: u32, pairs: u32, clashes: bool) -> Numbers
    requires book_value { decode book.now ≡ accepted (book_of book.now) }
    requires edges_value { types + edges ≡ usedOf (book_of book.now) (conclusions (book_of book.now)) }
    requires pairs_value { clashes ≡ false → pairs ≡ length (pairs_of_lem (book_of book.now) (conclusions (book_of book.now))) }
    ensures { result ≡ numbers_of_lem book.now types edges pairs clashes }
{
    let joinings = joinings_due(book, types + edges, pairs, clashes);
    Numbers {
        types,
        edges,
        pairs,
        joinings,
        clashes,
    }
}

// Runs the book and lists its rows: any bytes, any budget, any lists. End, type list and edge list are the defined ones; and the row list is as it was, or
// a listing of the book.
pub fn saturate_rows(
    book: &[u8],
    budget: u64,
    types: &mut [u32],
    edges: &mut [u32],
    rows: &mut [u32],
) -> End
    ensures { RowsRun book.now budget types.old edges.old rows.old (record { end = end_of result; types = types.new; edges = edges.new }) rows.new }
{
    let end = run_plain(book, budget, types, edges);
    match end {
        End::Refused(refusal) => End::Refused(refusal),
        End::Spent => End::Spent,
        End::Clash(t, e) => {
            let numbers = number(book, t, e, 0, true);
            run_listed(book, numbers, types, edges, rows)
        }
        End::Finished(t, e, p) => {
            let numbers = number(book, t, e, p, false);
            run_listed(book, numbers, types, edges, rows)
        }
    }
}
