// What the statements of a book deny, put down once: a bit for each fact, by its number, and whether something is denied that is known without a fact.
ghost use Rattle.std.specs.Prelude.{◌≡◌, ℕ, ◌≤◌, ◌<◌, length, Some};
ghost use Rattle.book.specs.Book.{Book};
ghost use Rattle.book.specs.Header.{Limits};
ghost use Rattle.book.specs.Within.{Within};
ghost use Rattle.book.specs.Reader.{turn_at_lem};
ghost use Rattle.book.specs.declared.statement.Statement.{Statement};
ghost use Rattle.rows.specs.Row.{at as bit_at, Put};
ghost use Rattle.rules.specs.Rule.{some};
ghost use Rattle.tables.specs.Open.{book_of};
ghost use Rattle.tables.specs.Tables.{Blank};
ghost use Rattle.derivation.specs.Accept.{statements};
ghost use Rattle.derivation.specs.Denied.{is_denial_lem, denies_known, WithDenied, PutAt, Denied};
ghost use Rattle.derivation.specs.Judging.{DeniedIn, denial_fits};
ghost use Rattle.derivation.specs.Tables.{LabelsOf, Starts};

use super::fact::{edge_of, pair_of};
use super::order::told_same;
use super::row::Premises;
use book::header::Counts;
use book::reader::next_statement;
use book::statement::Axiom;
use rows::row::insert;

// A bit for each fact that is denied, and whether something is that is known without a fact.
#[derive(Clone, Copy)]
pub struct Denials<'a> {
    pub denied: &'a [u64],
    pub known: bool,
}

// Whether a statement denies anything.
fn is_denial(statement: Axiom) -> bool
    ensures { result ≡ is_denial_lem statement }
{
    match statement {
        Axiom::DifferentIndividuals(_, _) => true,
        Axiom::NegativeObjectPropertyAssertion {
            role: _,
            subject: _,
            object: _,
        } => true,
        _ => false,
    }
}

fn denies_at(book: &[u8], at: usize, counts: Counts) -> bool
    requires { Limits counts }
    ensures { (z : Statement) (next : ℕ) → turn_at_lem book.now counts at ≡ Some (z, next) → result ≡ is_denial_lem z.body }
{
    let turn = next_statement(book, at, counts);
    let Some((statement, _)) = turn else {
        return false;
    };
    let said = statement.body;
    is_denial(said)
}

// Whether some statement does.
pub fn any_denial(book: &[u8], starts: &[usize], counts: Counts) -> bool
    requires limits { Limits counts }
    requires statements_in_bounds { (counts.statements ≤ length starts.now) × (length (statements (book_of book.now)) ≡ counts.statements) }
    requires starts { Starts book.now counts (statements (book_of book.now)) starts.now }
    ensures { result ≡ some (statements (book_of book.now)) is_denial_lem }
{
    let n = counts.statements as usize;
    for k in 0..n {
        if denies_at(book, starts[k], counts) {
            return true;
        }
    }
    false
}

// Puts down a fact.
fn put_fact(denied: &mut [u64], g: u32)
    requires { (268288 ≤ length denied.old) × (g < 17170432) }
    ensures { Put denied.old g denied.new }
{
    let k = g as usize;
    insert(denied, k / 512, k % 512);
}

// Puts down what a statement denies, and says whether that is known without a fact.
fn put_denied(statement: Axiom, counts: Counts, labels: &[u32], denied: &mut [u64]) -> bool
    requires limits { Limits counts × (counts.individuals ≤ length labels.now) × Within counts statement }
    requires in_bounds { 268288 ≤ length denied.old }
    ensures with_denied { WithDenied statement denied.old denied.new }
    ensures value { (B : Book) → LabelsOf B counts labels.now → result ≡ denies_known B statement }
{
    match statement {
        Axiom::DifferentIndividuals(a, b) => {
            put_fact(denied, pair_of(a, b));
            put_fact(denied, pair_of(b, a));
            told_same(counts.individuals as u32, labels, a, b)
        }
        Axiom::NegativeObjectPropertyAssertion {
            role,
            subject,
            object,
        } => {
            put_fact(denied, edge_of(role, subject, object));
            false
        }
        _ => false,
    }
}

fn put_at(book: &[u8], at: usize, counts: Counts, labels: &[u32], denied: &mut [u64]) -> bool
    requires limits { Limits counts × (counts.individuals ≤ length labels.now) }
    requires labels_of { LabelsOf (book_of book.now) counts labels.now }
    requires in_bounds { 268288 ≤ length denied.old }
    ensures { PutAt book.now counts at denied.old denied.new result }
{
    let turn = next_statement(book, at, counts);
    let Some((statement, _)) = turn else {
        return false;
    };
    let said = statement.body;
    put_denied(said, counts, labels, denied)
}

// What all statements deny.
pub fn fill_denied(
    book: &[u8],
    starts: &[usize],
    counts: Counts,
    labels: &[u32],
    denied: &mut [u64],
) -> bool
    requires limits { Limits counts × (counts.individuals ≤ length labels.now) }
    requires labels_of { LabelsOf (book_of book.now) counts labels.now }
    requires statements_in_bounds { (counts.statements ≤ length starts.now) × (length (statements (book_of book.now)) ≡ counts.statements) }
    requires starts { Starts book.now counts (statements (book_of book.now)) starts.now }
    requires in_bounds { (268288 ≤ length denied.old) × Blank denied.old }
    ensures { Denied (book_of book.now) (statements (book_of book.now)) denied.new result }
{
    let n = counts.statements as usize;
    let mut known = false;
    for k in 0..n {
        let here = put_at(book, starts[k], counts, labels, denied);
        known = known | here;
    }
    known
}

// Whether a fact is denied.
fn is_denied(denied: &[u64], g: u32) -> bool
    ensures { result ≡ bit_at denied.now g }
{
    let k = g as usize;
    let w = k / 64;
    if w < denied.len() {
        return (denied[w] >> (k % 64)) % 2 == 1;
    }
    false
}

// Whether one of the facts p is, or what is known.
pub fn by_denial(denials: Denials, p: Premises) -> bool
    ensures { (B : Book) → DeniedIn B denials.entry → result ≡ denial_fits B p }
{
    let denied = denials.denied;
    denials.known
        | (is_denied(denied, p.one) | (is_denied(denied, p.two) | is_denied(denied, p.three)))
}
