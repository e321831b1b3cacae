// The row of a clash: two types of one individual, whose classes none can have both; or else a statement that denies what is known.
ghost use Rattle.std.specs.Prelude.{◌≡◌, true, ◌+◌, ◌*◌, ◌≤◌, ◌<◌, length};
ghost use Rattle.rows.specs.Table.{Table};
ghost use Rattle.rules.specs.Clash.{clashes};
ghost use Rattle.tables.specs.Open.{book_of, size_of, Open};
ghost use Rattle.derivation.specs.Tables.{LabelsOf, PairsOf};
ghost use Rattle.steps.specs.Written.{known_in, Listed};
ghost use Rattle.turns.specs.Turns.{Located};
ghost use Rattle.listing.specs.Clashes.{Partner, Two, Pair, Clashing, ClashRow, ClashPut};

use super::deny::{LedgerView, denial_row};
use book::header::Counts;
use derivation::row::{NONE, Row};
use rows::members::Members;
use rows::row::member;
use rows::table::{Size, row_of};
use steps::fact::{Link, number_of};
use steps::place::place_of;
use steps::put::put_row;
use tables::opened::OpenBook;
use tables::size::{size_of, type_field};

// A class of x that clashes with class a.
fn find_other(t: &[u64], size: Size, pairs: &[u64], x: usize, a: usize) -> Option<usize>
    requires { Table size t.now × (2048 ≤ length pairs.now) × (x < size.individuals) × (a < size.classes) }
    ensures { Partner size t.now pairs.now x a result }
{
    let k = row_of(size, type_field(size), x);
    for b in Members::of(pairs, a, size.classes) {
        if member(t, k, b) {
            return Some(b);
        }
    }
    None
}

// Two classes of the individual `at` that clash.
#[derive(Clone, Copy)]
struct Found {
    at: usize,
    one: usize,
    other: usize,
}

fn find_at(t: &[u64], size: Size, pairs: &[u64], x: usize) -> Option<Found>
    requires { Table size t.now × (2048 ≤ length pairs.now) × (x < size.individuals) }
    ensures { Pair size t.now pairs.now x result }
{
    let k = row_of(size, type_field(size), x);
    for a in Members::of(t, k, size.classes) {
        if let Some(other) = find_other(t, size, pairs, x, a) {
            return Some(Found {
                at: x,
                one: a,
                other,
            });
        }
    }
    None
}

// Two classes of some individual.
fn find_clash(t: &[u64], size: Size, pairs: &[u64]) -> Option<Found>
    requires { Table size t.now × (2048 ≤ length pairs.now) }
    ensures { Clashing size t.now pairs.now result }
{
    for x in 0..size.individuals {
        if let Some(found) = find_at(t, size, pairs, x) {
            return Some(found);
        }
    }
    None
}

// The row of two types that clash, behind those of the ledger.
fn types_row(book: OpenBook<'_>, ledger: LedgerView, pairs: &[u64], found: Found) -> Row
    requires listed { Listed book.bytes.now book.counts ledger.t.now ledger.len ledger.rows.now }
    requires pairs_of { PairsOf (book_of book.bytes.now) book.counts pairs.now }
    requires two { Two (size_of book.counts) ledger.t.now pairs.now found }
    ensures { ClashRow (book_of book.entry.bytes.now) ledger.entry.rows.now ledger.entry.len result }
{
    let size = size_of(book.counts);
    let one = Link {
        field: type_field(size),
        from: found.at,
        to: found.one,
    };
    let other = Link {
        field: type_field(size),
        from: found.at,
        to: found.other,
    };
    let first = place_of(
        book.counts,
        ledger.rows,
        ledger.len,
        ledger.places,
        number_of(size, one),
    );
    let second = place_of(
        book.counts,
        ledger.rows,
        ledger.len,
        ledger.places,
        number_of(size, other),
    );
    Row {
        rule: 8,
        statement: NONE,
        first,
        second,
        third: NONE,
        kind: 2,
        one: NONE,
        two: NONE,
        three: NONE,
    }
}

// The row of a clash.
fn clash_row(
    book: OpenBook<'_>,
    starts: &[usize],
    t: &[u64],
    rows: &[u32],
    places: &[u32],
    labels: &[u32],
    pairs: &[u64],
    n: u32,
) -> Row
    requires listed { Listed book.bytes.now book.counts t.now n rows.now }
    requires pairs_of { PairsOf (book_of book.bytes.now) book.counts pairs.now × (2048 ≤ length pairs.now) }
    requires labels_of { LabelsOf (book_of book.bytes.now) book.counts labels.now × (book.counts.individuals ≤ length labels.now) }
    requires located { Located book.bytes.now book.counts starts.now }
    requires t_value { clashes (book_of book.bytes.now) (known_in book.counts t.now) ≡ true }
    ensures { ClashRow (book_of book.entry.bytes.now) rows.now n result }
{
    let ledger = LedgerView {
        t,
        rows,
        places,
        len: n,
    };
    match find_clash(t, size_of(book.counts), pairs) {
        Some(found) => types_row(book, ledger, pairs, found),
        None => denial_row(book.bytes, starts, book.counts, ledger, labels),
    }
}

// Puts the row of a clash behind the first n rows.
pub fn put_clash(
    book: OpenBook<'_>,
    starts: &[usize],
    t: &[u64],
    rows: &mut [u32],
    places: &[u32],
    labels: &[u32],
    pairs: &[u64],
    n: u32,
)
    requires listed { Listed book.bytes.now book.counts t.now n rows.old }
    requires pairs_of { PairsOf (book_of book.bytes.now) book.counts pairs.now × (2048 ≤ length pairs.now) × (9 * n + 9 ≤ length rows.old) }
    requires labels_of { LabelsOf (book_of book.bytes.now) book.counts labels.now × (book.counts.individuals ≤ length labels.now) }
    requires located { Located book.bytes.now book.counts starts.now }
    requires t_value { clashes (book_of book.bytes.now) (known_in book.counts t.now) ≡ true }
    ensures { ClashPut (book_of book.entry.bytes.now) rows.old n rows.new }
{
    let row = clash_row(book, starts, t, rows, places, labels, pairs, n);
    put_row(rows, n, row);
}
