// Statement records: the axioms of a register.
ghost use Rattle.std.specs.Prelude.{◌≡◌, ℕ, ◌%◌, List};
ghost use Rattle.book.specs.Read.{as_read};
ghost use Rattle.book.specs.Statement.{statement_head, headed, statement_start_lem, path_of_lem, axiom_of_lem, statement_of_lem, statement_end_lem, statement_rest_lem, statement};

use super::field::{byte_at, fields_at, u16_at};
use super::header::Counts;
use super::refusal::Refusal;
use super::role::{Role, role_of};
use super::table::StatementKind;

// The roles that lead from one end of a path to the other.
#[derive(Clone, Copy)]
pub enum SubRolePath {
    One(Role),
    Two(Role, Role),
    Three(Role, Role, Role),
}

// Concepts and individuals are named by number.
#[derive(Clone, Copy)]
pub enum Axiom {
    SubClassOf {
        sub: u32,
        sup: u32,
    },
    EquivalentClasses(u32, u32),
    DisjointClasses(u32, u32),
    InverseObjectProperties(Role, Role),
    SubObjectPropertyOf {
        sub: SubRolePath,
        sup: Role,
    },
    TransitiveRole(Role),
    SymmetricRole(Role),
    FunctionalRole(Role),
    InverseFunctionalRole(Role),
    ObjectPropertyDomain {
        role: Role,
        domain: u32,
    },
    ObjectPropertyRange {
        role: Role,
        range: u32,
    },
    SameIndividual(u32, u32),
    ClassAssertion {
        class: u32,
        individual: u32,
    },
    ObjectPropertyAssertion {
        role: Role,
        subject: u32,
        object: u32,
    },
    DifferentIndividuals(u32, u32),
    NegativeObjectPropertyAssertion {
        role: Role,
        subject: u32,
        object: u32,
    },
}

// A statement record: what it says, whose statement it was (0: the shared book), and the first and the last day on which it is in force.
#[derive(Clone, Copy)]
pub struct Statement {
    pub body: Axiom,
    pub source: u32,
    pub first: u32,
    pub last: u32,
}

// How a record starts.
#[derive(Clone, Copy)]
pub struct Head {
    pub kind: StatementKind,
    pub map: u32,
}

#[tactic(auto, using(crate::proofs::Stops::stops_stated), unfolding(crate::specs::Statement::statement_start_lem))]
fn statement_start(book: &[u8], at: usize) -> Result<(Head, usize), Refusal>
    ensures { headed (as_read result) ≡ statement_start_lem book.now at }
{
    let (byte, then) = byte_at(book, at)?;
    let kind = StatementKind::try_from(byte)?;
    let (map, next) = u16_at(book, then)?;
    if map < 2048 && kind.allows(map % 256) {
        return Ok((Head { kind, map }, next));
    }
    Err(Refusal::WrongMap)
}

#[tactic(auto, unfolding(crate::specs::Statement::path_of_lem))]
fn path_of(map: u32, r: Role, s: Role, t: Role) -> SubRolePath
    ensures { result ≡ path_of_lem (map % 256) r s t }
{
    let low = map % 256;
    if low == 0x09 {
        return SubRolePath::One(r);
    }
    if low == 0x0B {
        return SubRolePath::Two(r, s);
    }
    SubRolePath::Three(r, s, t)
}

#[tactic(auto, unfolding(crate::specs::Statement::axiom_of_lem))]
fn axiom_of(head: Head, values: [u32; 16]) -> Axiom
    ensures { result ≡ axiom_of_lem (statement_head head) values }
{
    let r = role_of(values[0]);
    let s = role_of(values[1]);
    let t = role_of(values[2]);
    let u = role_of(values[3]);
    let c = values[4];
    let d = values[5];
    let i = values[6];
    let j = values[7];
    let path = path_of(head.map, r, s, t);
    match head.kind {
        StatementKind::SubClassOf => Axiom::SubClassOf { sub: c, sup: d },
        StatementKind::EquivalentClasses => Axiom::EquivalentClasses(c, d),
        StatementKind::DisjointClasses => Axiom::DisjointClasses(c, d),
        StatementKind::InverseObjectProperties => Axiom::InverseObjectProperties(r, s),
        StatementKind::SubObjectPropertyOf => Axiom::SubObjectPropertyOf { sub: path, sup: u },
        StatementKind::TransitiveRole => Axiom::TransitiveRole(r),
        StatementKind::SymmetricRole => Axiom::SymmetricRole(r),
        StatementKind::FunctionalRole => Axiom::FunctionalRole(r),
        StatementKind::InverseFunctionalRole => Axiom::InverseFunctionalRole(r),
        StatementKind::ObjectPropertyDomain => Axiom::ObjectPropertyDomain { role: r, domain: c },
        StatementKind::ObjectPropertyRange => Axiom::ObjectPropertyRange { role: r, range: c },
        StatementKind::SameIndividual => Axiom::SameIndividual(i, j),
        StatementKind::ClassAssertion => Axiom::ClassAssertion {
            class: c,
            individual: i,
        },
        StatementKind::ObjectPropertyAssertion => Axiom::ObjectPropertyAssertion {
            role: r,
            subject: i,
            object: j,
        },
        StatementKind::DifferentIndividuals => Axiom::DifferentIndividuals(i, j),
        StatementKind::NegativeObjectPropertyAssertion => Axiom::NegativeObjectPropertyAssertion {
            role: r,
            subject: i,
            object: j,
        },
    }
}

fn statement_of(head: Head, values: [u32; 16]) -> Statement
    ensures { result ≡ statement_of_lem (statement_head head) values }
{
    Statement {
        body: axiom_of(head, values),
        source: values[8],
        first: values[9],
        last: values[10],
    }
}

// Once all fields are read.
#[tactic(auto, unfolding(crate::specs::Statement::statement_end_lem))]
fn statement_end(next: usize, head: Head, values: [u32; 16]) -> Result<(Statement, usize), Refusal>
    ensures { (s : List ℕ) → as_read result ≡ statement_end_lem (statement_head head) values s next }
{
    let first = values[9];
    let last = values[10];
    if last < first {
        return Err(Refusal::EndsBeforeStart);
    }
    Ok((statement_of(head, values), next))
}

// A source is never written as 0, nor a first day; a last day never as 65,535. The kind's own fields have no value that stands for an absent one.
const UNMARKED: [u32; 16] = [
    65536, // roles
    65536, 65536, 65536, 65536, // concepts
    65536, 65536, // individuals
    65536, 0, // source
    0, // first day
    65535, // last day
    65536, 65536, 65536, 65536, 65536,
];

// From the first field on.
#[tactic(auto, using(crate::proofs::Stops::stops_read), unfolding(crate::specs::Statement::statement_rest_lem))]
fn statement_rest(
    book: &[u8],
    at: usize,
    head: Head,
    counts: Counts,
) -> Result<(Statement, usize), Refusal>
    ensures { as_read result ≡ statement_rest_lem counts (statement_head head) book.now at }
{
    let role = 2 * (counts.roles as u32);
    let concepts = counts.concepts as u32;
    let individuals = counts.individuals as u32;
    let limits = [
        role,
        role,
        role,
        role,
        concepts,
        concepts,
        individuals,
        individuals,
        1024,
        65536,
        65536,
        0,
        0,
        0,
        0,
        0,
    ];
    let (values, next) = fields_at(book, at, head.map, &limits, &UNMARKED, Refusal::OutOfRange)?;
    statement_end(next, head, values)
}

// The statement record at `at`.
#[tactic(auto, using(crate::proofs::Stops::stops_read), unfolding(crate::specs::Statement::statement))]
pub fn statement_at(book: &[u8], at: usize, counts: Counts) -> Result<(Statement, usize), Refusal>
    ensures { as_read result ≡ statement counts book.now at }
{
    let (head, then) = statement_start(book, at)?;
    statement_rest(book, then, head, counts)
}
