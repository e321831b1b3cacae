// Runs the check over the books of its standard input, each behind its length in four bytes, and writes what was read: the refusal,
// or the counts and, of a book of few records, each record as its kind and its fields in the order of their bits, a statement with its source and days.
#![tactic(auto)]

use book::check::check_book;
use book::concept::{ConceptExpr, Parts, concept_at, part_at};
use book::header::Counts;
use book::reader::next_statement;
use book::role::{Role, field_of};
use book::statement::{Axiom, Statement, SubRolePath};
use std::io::Print;

const STDIN_FILENO: i32 = 0;

// The kind, the length, each part, and the place behind the last.
fn list(rt: &HostRuntime, book: &[u8], kind: u32, parts: Parts) {
    let _ = print!(rt; " {kind} {}", parts.len);
    for i in 0..parts.len {
        part(rt, book, parts, i);
    }
    part(rt, book, parts, parts.len);
}

fn part(rt: &HostRuntime, book: &[u8], parts: Parts, i: u32) {
    let _ = match part_at(book, parts, i) {
        Some(n) => print!(rt; " {n}"),
        None => print!(rt; " past"),
    };
}

// A kind, a role and a number.
fn of_role(rt: &HostRuntime, kind: u32, r: Role, n: u32) {
    let _ = print!(rt; " {kind} {} {n}", field_of(r));
}

fn concept(rt: &HostRuntime, book: &[u8], x: ConceptExpr) {
    match x {
        ConceptExpr::Top => {
            let _ = print!(rt; " 0");
        }
        ConceptExpr::Bot => {
            let _ = print!(rt; " 1");
        }
        ConceptExpr::Atomic(c) => {
            let _ = print!(rt; " 2 {c}");
        }
        ConceptExpr::Nominal(i) => {
            let _ = print!(rt; " 3 {i}");
        }
        ConceptExpr::SelfRestriction(r) => {
            let _ = print!(rt; " 4 {}", field_of(r));
        }
        ConceptExpr::Not(c) => {
            let _ = print!(rt; " 5 {c}");
        }
        ConceptExpr::And(p) => list(rt, book, 6, p),
        ConceptExpr::Or(p) => list(rt, book, 7, p),
        ConceptExpr::Some(r, c) => of_role(rt, 8, r, c),
        ConceptExpr::All(r, c) => of_role(rt, 9, r, c),
        ConceptExpr::Min(n, r, c) => {
            let _ = print!(rt; " 10 {} {c} {n}", field_of(r));
        }
        ConceptExpr::Max(n, r, c) => {
            let _ = print!(rt; " 11 {} {c} {n}", field_of(r));
        }
    }
}

fn path(rt: &HostRuntime, sub: SubRolePath) {
    let _ = match sub {
        SubRolePath::One(r) => print!(rt; " {}", field_of(r)),
        SubRolePath::Two(r, s) => print!(rt; " {} {}", field_of(r), field_of(s)),
        SubRolePath::Three(r, s, t) => {
            print!(rt; " {} {} {}", field_of(r), field_of(s), field_of(t))
        }
    };
}

// A kind and two numbers.
fn two(rt: &HostRuntime, kind: u32, a: u32, b: u32) {
    let _ = print!(rt; " {kind} {a} {b}");
}

// A kind and a role.
fn one(rt: &HostRuntime, kind: u32, r: Role) {
    let _ = print!(rt; " {kind} {}", field_of(r));
}

// A kind, a role and two numbers.
fn edge(rt: &HostRuntime, kind: u32, r: Role, a: u32, b: u32) {
    let _ = print!(rt; " {kind} {} {a} {b}", field_of(r));
}

fn statement(rt: &HostRuntime, x: Axiom) {
    match x {
        Axiom::SubClassOf { sub, sup } => two(rt, 1, sub, sup),
        Axiom::EquivalentClasses(c, d) => two(rt, 2, c, d),
        Axiom::DisjointClasses(c, d) => two(rt, 3, c, d),
        Axiom::InverseObjectProperties(r, s) => {
            let _ = print!(rt; " 4 {} {}", field_of(r), field_of(s));
        }
        Axiom::SubObjectPropertyOf { sub, sup } => {
            let _ = print!(rt; " 5");
            path(rt, sub);
            let _ = print!(rt; " {}", field_of(sup));
        }
        Axiom::TransitiveRole(r) => one(rt, 6, r),
        Axiom::SymmetricRole(r) => one(rt, 7, r),
        Axiom::FunctionalRole(r) => one(rt, 8, r),
        Axiom::InverseFunctionalRole(r) => one(rt, 9, r),
        Axiom::ObjectPropertyDomain { role, domain } => of_role(rt, 10, role, domain),
        Axiom::ObjectPropertyRange { role, range } => of_role(rt, 11, role, range),
        Axiom::SameIndividual(i, j) => two(rt, 12, i, j),
        Axiom::ClassAssertion { class, individual } => two(rt, 13, class, individual),
        Axiom::ObjectPropertyAssertion {
            role,
            subject,
            object,
        } => edge(rt, 14, role, subject, object),
        Axiom::DifferentIndividuals(i, j) => two(rt, 15, i, j),
        Axiom::NegativeObjectPropertyAssertion {
            role,
            subject,
            object,
        } => edge(rt, 16, role, subject, object),
    }
}

fn concept_line(rt: &HostRuntime, book: &[u8], at: usize, k: u32, counts: Counts) {
    let _ = print!(rt; "c");
    match concept_at(book, at, k, counts) {
        Ok((x, _)) => concept(rt, book, x),
        Err(refusal) => {
            let _ = print!(rt; " refused {}", refusal.number());
        }
    }
    let _ = println!(rt);
}

// A source or a day, where there is one.
fn mark(rt: &HostRuntime, name: &str, n: u32, absent: u32) {
    if n != absent {
        let _ = print!(rt; " {name} {n}");
    }
}

fn statement_line(rt: &HostRuntime, x: Statement) {
    let _ = print!(rt; "s");
    statement(rt, x.body);
    mark(rt, "source", x.source, 0);
    mark(rt, "first", x.first, 0);
    mark(rt, "last", x.last, 65535);
    let _ = println!(rt);
}

// All statements from an offset on.
fn statements(rt: &HostRuntime, book: &[u8], at: usize, counts: Counts) {
    let mut here = at;
    while let Some((x, next)) = next_statement(book, here, counts) {
        statement_line(rt, x);
        here = next;
    }
}

fn accepted(rt: &HostRuntime, book: &[u8], offsets: &[usize], counts: Counts, at: usize) {
    let _ = print!(rt;
        "accepted {} {} {}",
        counts.classes, counts.roles, counts.individuals
    );
    let _ = println!(rt; " {} {}", counts.concepts, counts.statements);
    if (counts.concepts as u32) + (counts.statements as u32) <= 64 {
        for (k, start) in offsets.iter().enumerate().take(counts.concepts as usize) {
            concept_line(rt, book, *start, k as u32, counts);
        }
        statements(rt, book, at, counts);
    }
}

fn show(rt: &HostRuntime, book: &[u8], offsets: &mut [usize]) {
    match check_book(book, offsets) {
        Ok((counts, at)) => accepted(rt, book, offsets, counts, at),
        Err(refusal) => {
            let _ = println!(rt; "refused {}", refusal.number());
        }
    }
}

// The length in front of the next book: its fourth byte is 0.
fn next_length() -> Option<usize> {
    let mut head = [0u8; 4];
    if io::read_full(STDIN_FILENO, &mut head) < 4 {
        return None;
    }
    Some(u32::from_le_bytes([head[0], head[1], head[2], 0]) as usize)
}

// Whether there was a next book, and room for it.
fn run_next(rt: &HostRuntime, room: &mut [u8], offsets: &mut [usize]) -> bool {
    let Some(n) = next_length() else {
        return false;
    };
    if room.len() < n {
        return false;
    }
    io::read_full(STDIN_FILENO, &mut room[..n]);
    show(rt, &room[..n], offsets);
    true
}

fn run_all(rt: &HostRuntime) {
    let mut room = [0u8; 65536];
    let mut offsets = [0usize; 4096];
    for _ in 0..100000u32 {
        if !run_next(rt, &mut room, &mut offsets) {
            return;
        }
    }
}

fn main(rt: HostRuntime) {
    run_all(&rt);
}
