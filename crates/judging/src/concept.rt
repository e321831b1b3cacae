// A concept is judged by its parts, and a part list by its concepts. A row that is done is not worked out again.
ghost use Rattle.std.specs.Prelude.{◌≡◌, List, ℕ, ◌*◌, ◌≤◌, ◌<◌, length};
ghost use Rattle.rows.specs.Row.{at, Put};
ghost use Rattle.rows.specs.Table.{Table};
ghost use Rattle.rules.specs.Brought.{concept as tree};
ghost use Rattle.tables.specs.Open.{book_of, size_of, Open};
ghost use Rattle.tables.proofs.Open.{RecordOf};
ghost use Rattle.judging.specs.Way.{WayIn, count_of_lem};
ghost use Rattle.judging.specs.Memo.{shown_by, Ready, Memo, Further, Judged, Passed, Mixed};

use super::row::copy;
use super::start::{begin, give};
use super::way::{Left, count_of, part_of, way_of};
use book::concept::{ConceptExpr, concept_at};
use book::header::Counts;
use rows::row::{insert, member};
use tables::opened::OpenBook;

// The record of concept k.
fn record_at(book: OpenBook<'_>, k: usize) -> ConceptExpr
    requires k_lt_concepts { k < book.counts.concepts }
    ensures { RecordOf book.entry.bytes.now book.entry.counts k result }
{
    let Ok((expr, _)) = concept_at(book.bytes, book.offsets[k], k as u32, book.counts) else {
        return ConceptExpr::Bot;
    };
    expr
}

fn is_done(done: &[u64], k: usize) -> bool
    requires { (64 ≤ length done.now) × (k < 4096) }
    ensures { result ≡ at done.now k }
{
    member(done, k / 512, k % 512)
}

fn set_done(done: &mut [u64], k: usize)
    requires { (64 ≤ length done.old) × (k < 4096) }
    ensures { Put done.old k done.new }
{
    insert(done, k / 512, k % 512);
}

// Mixes the rows of parts that are done into the row acc, up to the first that is not: which one that is.
fn give_done(
    book: &[u8],
    counts: Counts,
    t: &[u64],
    rows: &[u64],
    done: &[u64],
    left: Left,
    acc: &mut [u64],
) -> u32
    requires table { Table (size_of counts) t.now }
    requires way_in { WayIn book.now counts left.whole left.way }
    requires whole_lt_concepts { (left.whole < counts.concepts) × (counts.concepts ≤ 4096) × (counts.concepts * 8 ≤ length rows.now) × (64 ≤ length done.now) }
    requires count_value { (left.count ≡ count_of_lem left.way) × (left.next ≤ left.count) × (8 ≤ length acc.old) }
    ensures upper_bound { (result ≤ left.count) × (left.next ≤ result) × (length acc.new ≡ length acc.old) }
    ensures by_index { (g : List ℕ) → Memo book.now counts t.now g rows.now done.now → Passed book.now counts t.now g left result acc.old acc.new }
{
    let way = left.way;
    for next in left.next..left.count {
        let p = part_of(book, way, next);
        if !is_done(done, p) {
            return next;
        }
        give(counts, t, way, rows, p, acc);
    }
    left.count
}

// Works out row k, and the rows that it needs.
#[cycle(concept_parts)]
pub fn concept(
    book: OpenBook<'_>,
    t: &[u64],
    groups: &[u64],
    rows: &mut [u64],
    done: &mut [u64],
    k: usize,
)
    requires ready { Ready book.bytes.now book.counts book.offsets.now t.now groups.now }
    requires memo { Memo book.bytes.now book.counts t.now groups.now rows.old done.old }
    requires k_lt_concepts { k < book.counts.concepts }
    ensures { Judged book.entry.bytes.now book.entry.counts t.now groups.now k rows.old done.old rows.new done.new }
{
    if is_done(done, k) {
        return;
    }
    let expr = record_at(book, k);
    let way = way_of(expr);
    let count = count_of(way);
    let mut acc = [0u64; 8];
    begin(book.counts, t, groups, expr, &mut acc);
    let left = Left {
        whole: k,
        way,
        count,
        next: 0,
    };
    parts(book, t, groups, rows, done, left, &mut acc);
    copy(rows, k, &acc);
    set_done(done, k);
}

// Mixes the rows of the parts that are left into the row acc.
#[cycle(concept_parts)]
fn parts(
    book: OpenBook<'_>,
    t: &[u64],
    groups: &[u64],
    rows: &mut [u64],
    done: &mut [u64],
    left: Left,
    acc: &mut [u64],
)
    requires ready { Ready book.bytes.now book.counts book.offsets.now t.now groups.now }
    requires memo { Memo book.bytes.now book.counts t.now groups.now rows.old done.old }
    requires way_in { WayIn book.bytes.now book.counts left.whole left.way }
    requires whole_lt_concepts { (left.whole < book.counts.concepts) × (left.count ≡ count_of_lem left.way) × (left.next ≤ left.count) × (8 ≤ length acc.old) }
    ensures { Mixed book.entry.bytes.now book.entry.counts t.now groups.now left rows.old done.old acc.old rows.new done.new acc.new }
{
    let way = left.way;
    let next = give_done(book.bytes, book.counts, t, rows, done, left, acc);
    if next == left.count {
        return;
    }
    let p = part_of(book.bytes, way, next);
    concept(book, t, groups, rows, done, p);
    give(book.counts, t, way, rows, p, acc);
    let rest = Left {
        whole: left.whole,
        way,
        count: left.count,
        next: next + 1,
    };
    parts(book, t, groups, rows, done, rest, acc);
}

// Whether concept k is shown for individual i. The concepts below k are worked out first, in their order, so that the recursion is never deeper than
// one part list.
pub fn shown(
    book: OpenBook<'_>,
    t: &[u64],
    groups: &[u64],
    rows: &mut [u64],
    done: &mut [u64],
    k: usize,
    i: usize,
) -> bool
    requires ready { Ready book.bytes.now book.counts book.offsets.now t.now groups.now }
    requires memo { Memo book.bytes.now book.counts t.now groups.now rows.old done.old }
    requires k_lt_concepts { (k < book.counts.concepts) × (i < book.counts.individuals) }
    ensures value { result ≡ shown_by book.entry.counts t.now groups.now (tree (book_of book.entry.bytes.now) k) i }
    ensures further { Further book.entry.bytes.now book.entry.counts t.now groups.now rows.old done.old rows.new done.new }
{
    for j in 0..k {
        concept(book, t, groups, rows, done, j);
    }
    concept(book, t, groups, rows, done, k);
    member(rows, k, i)
}
