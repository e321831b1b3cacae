// The row that a record starts from, and how the row of a part is mixed into it.
ghost use Rattle.std.specs.Prelude.{◌≡◌, ◌+◌, ◌*◌, ◌≤◌, ◌<◌, length};
ghost use Rattle.rows.specs.Row.{has};
ghost use Rattle.rows.specs.Table.{Table};
ghost use Rattle.tables.specs.Open.{size_of};
ghost use Rattle.judging.specs.Way.{StartIn, RoleIn};
ghost use Rattle.judging.specs.Memo.{Laid, Started, Gave, Empty, Selves, SelfPut, RowPut, Fellows};

use super::row::fill;
use super::way::Way;
use book::concept::ConceptExpr;
use book::header::Counts;
use book::role::field_of;
use rows::row::{compose, gather, insert, meet, member};
use rows::table::{flip, row_of, rows_of};
use tables::size::{class_field, size_of};

// Puts i into the row acc if it is in row k of t.
fn put_self(acc: &mut [u64], t: &[u64], k: usize, i: usize)
    requires { (8 ≤ length acc.old) × (k * 8 + 8 ≤ length t.now) × (i < 512) }
    ensures { SelfPut acc.old t.now k i acc.new }
{
    if member(t, k, i) {
        insert(acc, 0, i);
    }
}

// Puts the numbers x below n that are in row first + x of t into the row acc.
fn selves(acc: &mut [u64], t: &[u64], first: usize, n: usize)
    requires { (8 ≤ length acc.old) × ((first + n) * 8 ≤ length t.now) × (n ≤ 512) × (first ≤ 66690) }
    ensures { Selves t.now first n acc.old acc.new }
{
    for i in 0..n {
        put_self(acc, t, first + i, i);
    }
}

// Puts row l of g into the row acc if b is in it.
fn put_row(acc: &mut [u64], g: &[u64], b: usize, l: usize)
    requires { (8 ≤ length acc.old) × (l * 8 + 8 ≤ length g.now) × (b < 512) }
    ensures { RowPut acc.old g.now b l acc.new }
{
    if member(g, l, b) {
        gather(acc, 0, g, l);
    }
}

// Puts those that stand with b in one of the first n rows of g into the row acc.
fn fellows(acc: &mut [u64], g: &[u64], b: usize, n: usize)
    requires { (8 ≤ length acc.old) × (n * 8 ≤ length g.now) × (b < 512) × (n ≤ 512) }
    ensures { Fellows g.now b n acc.old acc.new }
{
    for l in 0..n {
        put_row(acc, g, b, l);
    }
}

// Makes the empty row acc what a record starts from.
pub(crate) fn begin(counts: Counts, t: &[u64], groups: &[u64], expr: ConceptExpr, acc: &mut [u64])
    requires laid { Laid counts t.now groups.now }
    requires start_in { StartIn counts expr }
    requires empty { Empty acc.old }
    requires in_bounds { 8 ≤ length acc.old }
    ensures { (length acc.new ≡ length acc.old) × Started counts t.now groups.now expr acc.new }
{
    let size = size_of(counts);
    match expr {
        ConceptExpr::Top => fill(acc),
        ConceptExpr::Bot => {}
        ConceptExpr::Atomic(c) => gather(acc, 0, t, row_of(size, class_field(size), c as usize)),
        ConceptExpr::Nominal(b) => fellows(acc, groups, b as usize, size.individuals),
        ConceptExpr::SelfRestriction(r) => selves(
            acc,
            t,
            rows_of(size, field_of(r)),
            size.individuals,
        ),
        ConceptExpr::Not(_) => {}
        ConceptExpr::And(_) => fill(acc),
        ConceptExpr::Or(_) => {}
        ConceptExpr::Some(_, _) => {}
        ConceptExpr::All(_, _) => {}
        ConceptExpr::Min(_, _, _) => {}
        ConceptExpr::Max(_, _, _) => {}
    }
}

// Mixes row p of the concepts' rows into the row acc.
pub(crate) fn give(counts: Counts, t: &[u64], way: Way, rows: &[u64], p: usize, acc: &mut [u64])
    requires table { Table (size_of counts) t.now }
    requires role_in { RoleIn counts way }
    requires in_bounds { (8 ≤ length acc.old) × (p * 8 + 8 ≤ length rows.now) }
    ensures { (length acc.new ≡ length acc.old) × Gave counts t.now way (has rows.now p) acc.old acc.new }
{
    let size = size_of(counts);
    match way {
        Way::Leaf => {}
        Way::Inner(r, _) => compose(
            acc,
            rows,
            p,
            t,
            rows_of(size, flip(field_of(r))),
            size.individuals,
        ),
        Way::Every(_) => meet(acc, 0, rows, p),
        Way::Any(_) => gather(acc, 0, rows, p),
    }
}
