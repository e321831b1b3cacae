// Rows: nine numbers each, one after the other.
ghost use Rattle.std.specs.Prelude.{◌≡◌, true, ◌+◌, ◌*◌, ◌≤◌, length, ◌<◌};
ghost use Rattle.book.specs.Header.{Limits};
ghost use Rattle.derivation.specs.Rows.{row_at, type_claim_lem, edge_claim_lem, clash_claim_lem, pair_claim_lem, claim, number_of, says_row, fact_in, before as beforeRow, earlier, premises_of};

use super::fact::{edge_of, pair_of, type_of};
use book::header::Counts;
use book::role::Role;

pub const NONE: u32 = 4294967295;

pub const CLASH: u32 = 4294967294;

// Rule, statement, three earlier rows, fact kind, and the fact's three numbers.
#[derive(Clone, Copy)]
pub struct Row {
    pub rule: u32,
    pub statement: u32,
    pub first: u32,
    pub second: u32,
    pub third: u32,
    pub kind: u32,
    pub one: u32,
    pub two: u32,
    pub three: u32,
}

pub fn row_at(rows: &[u32], k: usize) -> Row
    requires { 9 * k + 9 ≤ length rows.now }
    ensures { result ≡ row_at rows.now k }
{
    let i = 9 * k;
    Row {
        rule: rows[i],
        statement: rows[i + 1],
        first: rows[i + 2],
        second: rows[i + 3],
        third: rows[i + 4],
        kind: rows[i + 5],
        one: rows[i + 6],
        two: rows[i + 7],
        three: rows[i + 8],
    }
}

// What a row claims: the number of a fact; CLASH; or NONE, where it is not laid out as a row.
pub fn claim_of(counts: Counts, row: Row) -> u32
    requires { Limits counts }
    ensures { result ≡ number_of (claim counts row) }
{
    if row.kind == 0 {
        return type_claim(counts, row);
    }
    if row.kind == 1 {
        return edge_claim(counts, row);
    }
    if row.kind == 2 {
        return clash_claim(row);
    }
    if row.kind == 3 {
        return pair_claim(counts, row);
    }
    NONE
}

fn clash_claim(row: Row) -> u32
    ensures { result ≡ number_of (clash_claim_lem row) }
{
    if row.one == NONE {
        if row.two == NONE {
            if row.three == NONE {
                return CLASH;
            }
        }
    }
    NONE
}

fn type_claim(counts: Counts, row: Row) -> u32
    requires { Limits counts }
    ensures { result ≡ number_of (type_claim_lem counts row) }
{
    if row.one < counts.individuals as u32 {
        if row.two < counts.classes as u32 {
            if row.three == NONE {
                return type_of(row.one, row.two);
            }
        }
    }
    NONE
}

fn edge_claim(counts: Counts, row: Row) -> u32
    requires { Limits counts }
    ensures { result ≡ number_of (edge_claim_lem counts row) }
{
    if row.one < counts.roles as u32 {
        if row.two < counts.individuals as u32 {
            if row.three < counts.individuals as u32 {
                return edge_of(Role::Named(row.one), row.two, row.three);
            }
        }
    }
    NONE
}

fn pair_claim(counts: Counts, row: Row) -> u32
    requires { Limits counts }
    ensures { result ≡ number_of (pair_claim_lem counts row) }
{
    if row.one < row.two {
        if row.two < counts.individuals as u32 {
            if row.three == NONE {
                return pair_of(row.one, row.two);
            }
        }
    }
    NONE
}

// The fact of the row that is named, or NONE.
fn named_fact(counts: Counts, rows: &[u32], x: u32) -> u32
    requires { Limits counts × ((x ≡ 4294967295 → ⊥) → 9 * x + 9 ≤ length rows.now) }
    ensures { result ≡ fact_in (says_row counts rows.now x) }
{
    if x == NONE {
        return NONE;
    }
    let c = claim_of(counts, row_at(rows, x as usize));
    if c == CLASH {
        return NONE;
    }
    c
}

// Whether row k may name x.
fn before(k: usize, x: u32) -> bool
    ensures { result ≡ beforeRow k x }
{
    (x == NONE) | ((x as usize) < k)
}

// Whether row k names earlier rows alone, or none.
pub fn names_earlier(k: usize, row: Row) -> bool
    ensures { result ≡ earlier k row }
{
    before(k, row.first) & (before(k, row.second) & before(k, row.third))
}

// The facts of the rows that a row names.
#[derive(Clone, Copy)]
pub struct Premises {
    pub one: u32,
    pub two: u32,
    pub three: u32,
}

pub fn facts_named(counts: Counts, rows: &[u32], k: usize, row: Row) -> Premises
    requires limits { Limits counts }
    requires k_in_bounds { (9 * k ≤ length rows.now) × (earlier k row ≡ true) }
    ensures { result ≡ premises_of counts rows.now row }
{
    Premises {
        one: named_fact(counts, rows, row.first),
        two: named_fact(counts, rows, row.second),
        three: named_fact(counts, rows, row.third),
    }
}
