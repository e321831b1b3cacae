// A run, and the named part of a list.
ghost use Rattle.std.specs.Prelude.{◌≡◌, length};
ghost use Rattle.book.specs.Book.{Book, accepted, decode};
ghost use Rattle.rules.specs.Ends.{outcome};
ghost use Rattle.rules.specs.Spoken.{reader as named, anyone_on, reader_on, spoken, outcome_for};
ghost use Rattle.rules.specs.Demand.{Demand};
ghost use Rattle.verdict.specs.Conclude.{end_of, came};
ghost use Rattle.listing.specs.Listing.{ended, Left};
ghost use Rattle.zamoluvel.specs.Run.{code_of, type_count_lem, edge_count_lem, pair_count_lem, three_counts, filled_entries};

use heed::names::{Names, Reader};
use listing::run::saturate_rows;
use saturation::saturate::{saturate, saturate_as};
use verdict::end::End;

pub fn code_of(end: End) -> u32
    ensures { result ≡ code_of (end_of end) }
{
    match end {
        End::Finished(_, _, _) => 0,
        End::Clash(_, _) => 1,
        End::Spent => 2,
        End::Refused(refusal) => 100 + (refusal.number() as u32),
    }
}

// The type, edge and pair count of an end, 0 for those that it has not.
pub fn counts_of(end: End) -> (u32, u32, u32)
    ensures { result ≡ (type_count_lem (end_of end), edge_count_lem (end_of end), pair_count_lem (end_of end)) }
{
    match end {
        End::Finished(types, edges, pairs) => (types, edges, pairs),
        End::Clash(types, edges) => (types, edges, 0),
        End::Spent | End::Refused(_) => (0, 0, 0),
    }
}

// `saturate`, with the end as a number and its counts through pointers.
#[unsafe(no_mangle)]
pub extern "C" fn zamoluvel_saturate(
    book: &[u8],
    budget: u64,
    types: &mut [u32],
    edges: &mut [u32],
    pairs: &mut [u32],
    type_count: &mut u32,
    edge_count: &mut u32,
    pair_count: &mut u32,
) -> u32
    ensures value { result ≡ code_of (outcome book.now budget types.old edges.old pairs.old).end }
    ensures type_count_after { type_count.new ≡ type_count_lem (outcome book.now budget types.old edges.old pairs.old).end }
    ensures edge_count_after { edge_count.new ≡ edge_count_lem (outcome book.now budget types.old edges.old pairs.old).end }
    ensures pair_count_after { pair_count.new ≡ pair_count_lem (outcome book.now budget types.old edges.old pairs.old).end }
    ensures types_after { types.new ≡ (outcome book.now budget types.old edges.old pairs.old).types }
    ensures edges_after { edges.new ≡ (outcome book.now budget types.old edges.old pairs.old).edges }
    ensures pairs_after { pairs.new ≡ (outcome book.now budget types.old edges.old pairs.old).pairs }
    ensures demand { (B : Book) → decode book.now ≡ accepted B → Demand B (outcome book.now budget types.old edges.old pairs.old) }
{
    let end = saturate(book, budget, types, edges, pairs);
    (*type_count, *edge_count, *pair_count) = counts_of(end);
    code_of(end)
}

fn entries_of(edge_count: u32, pair_count: u32, named: u32) -> usize
    ensures { result ≡ filled_entries 0 edge_count pair_count named }
{
    if named == 0 {
        return 3 * (edge_count as usize);
    }
    if named == 1 {
        return 2 * (pair_count as usize);
    }
    0
}

// `saturate_as` for a reader, the same way.
#[unsafe(no_mangle)]
pub extern "C" fn zamoluvel_saturate_for(
    book: &[u8],
    budget: u64,
    types: &mut [u32],
    edges: &mut [u32],
    pairs: &mut [u32],
    reader: u32,
    table: &[u32],
    type_count: &mut u32,
    edge_count: &mut u32,
    pair_count: &mut u32,
) -> u32
    ensures value { result ≡ code_of (outcome_for (named reader table.now) book.now budget types.old edges.old pairs.old).end }
    ensures type_count_after { type_count.new ≡ type_count_lem (outcome_for (named reader table.now) book.now budget types.old edges.old pairs.old).end }
    ensures edge_count_after { edge_count.new ≡ edge_count_lem (outcome_for (named reader table.now) book.now budget types.old edges.old pairs.old).end }
    ensures pair_count_after { pair_count.new ≡ pair_count_lem (outcome_for (named reader table.now) book.now budget types.old edges.old pairs.old).end }
    ensures types_after { types.new ≡ (outcome_for (named reader table.now) book.now budget types.old edges.old pairs.old).types }
    ensures edges_after { edges.new ≡ (outcome_for (named reader table.now) book.now budget types.old edges.old pairs.old).edges }
    ensures pairs_after { pairs.new ≡ (outcome_for (named reader table.now) book.now budget types.old edges.old pairs.old).pairs }
    ensures demand { (B : Book) → decode book.now ≡ accepted B → Demand (spoken (named reader table.now) B) (outcome_for (named reader table.now) book.now budget types.old edges.old pairs.old) }
{
    let names = Names {
        reader: Some(Reader {
            number: reader,
            table,
        }),
        day: None,
    };
    let end = saturate_as(book, budget, types, edges, pairs, names);
    (*type_count, *edge_count, *pair_count) = counts_of(end);
    code_of(end)
}

// `saturate_as` of a day, with the three counts in one array.
#[unsafe(no_mangle)]
pub extern "C" fn zamoluvel_saturate_on(
    book: &[u8],
    budget: u64,
    types: &mut [u32],
    edges: &mut [u32],
    pairs: &mut [u32],
    day: u16,
    counts: &mut [u32; 3],
) -> u32
    ensures value { result ≡ code_of (outcome_for (anyone_on day) book.now budget types.old edges.old pairs.old).end }
    ensures counts_after { counts.new ≡ three_counts (outcome_for (anyone_on day) book.now budget types.old edges.old pairs.old).end }
    ensures types_after { types.new ≡ (outcome_for (anyone_on day) book.now budget types.old edges.old pairs.old).types }
    ensures edges_after { edges.new ≡ (outcome_for (anyone_on day) book.now budget types.old edges.old pairs.old).edges }
    ensures pairs_after { pairs.new ≡ (outcome_for (anyone_on day) book.now budget types.old edges.old pairs.old).pairs }
    ensures demand { (B : Book) → decode book.now ≡ accepted B → Demand (spoken (anyone_on day) B) (outcome_for (anyone_on day) book.now budget types.old edges.old pairs.old) }
{
    let names = Names {
        reader: None,
        day: Some(day),
    };
    let end = saturate_as(book, budget, types, edges, pairs, names);
    let (type_count, edge_count, pair_count) = counts_of(end);
    *counts = [type_count, edge_count, pair_count];
    code_of(end)
}

// `saturate_as` for a reader of a day, the same way.
#[unsafe(no_mangle)]
pub extern "C" fn zamoluvel_saturate_for_on(
    book: &[u8],
    budget: u64,
    types: &mut [u32],
    edges: &mut [u32],
    pairs: &mut [u32],
    reader: u32,
    table: &[u32],
    day: u16,
    counts: &mut [u32; 3],
) -> u32
    ensures value { result ≡ code_of (outcome_for (reader_on reader table.now day) book.now budget types.old edges.old pairs.old).end }
    ensures counts_after { counts.new ≡ three_counts (outcome_for (reader_on reader table.now day) book.now budget types.old edges.old pairs.old).end }
    ensures types_after { types.new ≡ (outcome_for (reader_on reader table.now day) book.now budget types.old edges.old pairs.old).types }
    ensures edges_after { edges.new ≡ (outcome_for (reader_on reader table.now day) book.now budget types.old edges.old pairs.old).edges }
    ensures pairs_after { pairs.new ≡ (outcome_for (reader_on reader table.now day) book.now budget types.old edges.old pairs.old).pairs }
    ensures demand { (B : Book) → decode book.now ≡ accepted B → Demand (spoken (reader_on reader table.now day) B) (outcome_for (reader_on reader table.now day) book.now budget types.old edges.old pairs.old) }
{
    let names = Names {
        reader: Some(Reader {
            number: reader,
            table,
        }),
        day: Some(day),
    };
    let end = saturate_as(book, budget, types, edges, pairs, names);
    let (type_count, edge_count, pair_count) = counts_of(end);
    *counts = [type_count, edge_count, pair_count];
    code_of(end)
}

// `saturate_rows`, with each count in a place of its own.
#[unsafe(no_mangle)]
pub extern "C" fn zamoluvel_saturate_rows(
    book: &[u8],
    budget: u64,
    types: &mut [u32],
    edges: &mut [u32],
    rows: &mut [u32],
    type_count: &mut u32,
    edge_count: &mut u32,
    pair_count: &mut u32,
) -> u32
    ensures value { result ≡ code_of (ended book.now budget types.old edges.old (length rows.old)).end }
    ensures type_count_after { type_count.new ≡ type_count_lem (ended book.now budget types.old edges.old (length rows.old)).end }
    ensures edge_count_after { edge_count.new ≡ edge_count_lem (ended book.now budget types.old edges.old (length rows.old)).end }
    ensures pair_count_after { pair_count.new ≡ pair_count_lem (ended book.now budget types.old edges.old (length rows.old)).end }
    ensures types_after { types.new ≡ (ended book.now budget types.old edges.old (length rows.old)).types }
    ensures edges_after { edges.new ≡ (ended book.now budget types.old edges.old (length rows.old)).edges }
    ensures left { Left book.now (ended book.now budget types.old edges.old (length rows.old)).end rows.old rows.new }
{
    let end = saturate_rows(book, budget, types, edges, rows);
    (*type_count, *edge_count, *pair_count) = counts_of(end);
    code_of(end)
}

// The named part: so many entries from the first on of the edge list (named = 0) or of the pair list (named = 1), as a run with this code and these counts
// left them. The list is the caller's, and so is the part.
#[unsafe(no_mangle)]
pub extern "C" fn zamoluvel_named_part(
    code: u32,
    edge_count: u32,
    pair_count: u32,
    named: u32,
) -> usize
    ensures { result ≡ filled_entries code edge_count pair_count named }
{
    if code == 0 {
        return entries_of(edge_count, pair_count, named);
    }
    0
}
