// The premises of a row in any order: each premise of a rule may be any of the facts that the row names.
ghost use Rattle.std.specs.Prelude.{◌≡◌, ◌≤◌, ◌<◌, length};
ghost use Rattle.book.specs.Book.{Book};
ghost use Rattle.book.specs.Header.{Limits};
ghost use Rattle.book.specs.Within.{Within};
ghost use Rattle.derivation.specs.Fits.{fits as fits_by, joins as joinsBy, share_types_lem, share_edges_lem, share_fits_lem as sharesBy, clash_fits_lem as clashesBy, one_of_three, any_order, any_two};
ghost use Rattle.derivation.specs.Tables.{ConceptsIn, ConceptsSay, told_same_lem, one_class_by, LabelsOf, PairsOf};

use super::chain::{Chain, chain_of, fillers_fit, pair_fits, triple_fits};
use super::deep::ConceptTables;
use super::fact::{bearer, class_in, is_edge, leads_from, leads_to, pair_of, role_in, type_of};
use super::row::Premises;
use super::rule::Triple;
use super::statement::fits;
use book::header::Counts;
use book::role::Role;
use book::statement::Axiom;
use rows::row::member;

// Where a rule looks at one premise at most: any of the facts p.
fn alone_fits(
    statement: Axiom,
    counts: Counts,
    concepts: ConceptTables,
    f: u32,
    p: Premises,
) -> bool
    requires concepts { ConceptsIn counts concepts }
    requires within { Within counts statement }
    ensures { (B : Book) → ConceptsSay B counts concepts.entry → result ≡ one_of_three p.one p.two p.three (λ g. fits_by B statement f g g g) }
{
    if fits(statement, counts, concepts, f, p.one, p.one, p.one) {
        return true;
    }
    if fits(statement, counts, concepts, f, p.two, p.two, p.two) {
        return true;
    }
    fits(statement, counts, concepts, f, p.three, p.three, p.three)
}

// Whether f follows by the statement from the facts p.
pub fn order_fits(
    statement: Axiom,
    counts: Counts,
    concepts: ConceptTables,
    f: u32,
    p: Premises,
) -> bool
    requires concepts { ConceptsIn counts concepts }
    requires within { Within counts statement }
    ensures { (B : Book) → ConceptsSay B counts concepts.entry → result ≡ any_order p.one p.two p.three (fits_by B statement f) }
{
    let n = counts.individuals as u32;
    let chain = chain_of(counts, statement);
    match chain {
        Chain::Alone => alone_fits(statement, counts, concepts, f, p),
        Chain::Pair(r, s, t) => pair_fits(n, r, s, t, f, p),
        Chain::Triple(first, second, third, above) => {
            let path = Triple {
                first,
                second,
                third,
                above,
            };
            triple_fits(n, path, f, p)
        }
        Chain::Fillers(r) => fillers_fit(n, r, f, p),
    }
}

// Whether two of n individuals are told to be the same.
pub fn told_same(n: u32, labels: &[u32], i: u32, j: u32) -> bool
    requires { n ≤ length labels.now }
    ensures { result ≡ told_same_lem n labels.now i j }
{
    if i >= n {
        return false;
    }
    if j >= n {
        return false;
    }
    labels[i as usize] == labels[j as usize]
}

// Whether x is the joining of i and j.
fn joins(i: u32, j: u32, x: u32) -> bool
    requires { (i < 512) × (j < 512) }
    ensures { result ≡ joinsBy i j x }
{
    (x == pair_of(i, j)) | (x == pair_of(j, i))
}

// Whether rule 6 changes i to j: two of n individuals that are told to be the same, or whose joining is among the facts p.
fn one_class(n: u32, labels: &[u32], i: u32, j: u32, p: Premises) -> bool
    requires { (n ≤ length labels.now) × (i < 512) × (j < 512) }
    ensures { result ≡ one_of_three p.one p.two p.three (one_class_by n labels.now i j) }
{
    if told_same(n, labels, i, j) {
        return true;
    }
    joins(i, j, p.one) | (joins(i, j, p.two) | joins(i, j, p.three))
}

// Rule 6, for types: f from g, by a joining among the facts p.
fn share_types(counts: Counts, labels: &[u32], f: u32, g: u32, p: Premises) -> bool
    requires { Limits counts × (counts.individuals ≤ length labels.now) }
    ensures { (B : Book) → LabelsOf B counts labels.now → result ≡ one_of_three p.one p.two p.three (share_types_lem counts B f g) }
{
    let n = counts.individuals as u32;
    let i = bearer(g);
    let j = bearer(f);
    let c = class_in(g);
    let alike = (c < counts.classes as u32) & ((g == type_of(i, c)) & (f == type_of(j, c)));
    if (i < n) & ((j < n) & alike) {
        return one_class(n, labels, i, j, p);
    }
    false
}

// And for edges: each end by a joining of its own.
fn share_edges(counts: Counts, labels: &[u32], f: u32, g: u32, p: Premises) -> bool
    requires { Limits counts × (counts.individuals ≤ length labels.now) }
    ensures { (B : Book) → LabelsOf B counts labels.now → result ≡ one_of_three p.one p.two p.three (λ x. one_of_three p.one p.two p.three (share_edges_lem counts B f g x)) }
{
    let n = counts.individuals as u32;
    let r = role_in(g);
    if r >= counts.roles as u32 {
        return false;
    }
    if is_edge(n, Role::Named(r), g) & is_edge(n, Role::Named(r), f) {
        let first = one_class(
            n,
            labels,
            leads_from(Role::Named(0), g),
            leads_from(Role::Named(0), f),
            p,
        );
        let second = one_class(
            n,
            labels,
            leads_to(Role::Named(0), g),
            leads_to(Role::Named(0), f),
            p,
        );
        return first & second;
    }
    false
}

fn share_from(counts: Counts, labels: &[u32], f: u32, p: Premises, g: u32) -> bool
    requires { Limits counts × (counts.individuals ≤ length labels.now) }
    ensures { (B : Book) → LabelsOf B counts labels.now → result ≡ one_of_three p.one p.two p.three (λ x. one_of_three p.one p.two p.three (sharesBy counts B f g x)) }
{
    if share_types(counts, labels, f, g, p) {
        return true;
    }
    share_edges(counts, labels, f, g, p)
}

// Whether f follows by rule 6 from the facts p: a type or an edge among them, and for each end the joining that changes it, or any other where it needs
// none.
pub fn share_fits(counts: Counts, labels: &[u32], f: u32, p: Premises) -> bool
    requires { Limits counts × (counts.individuals ≤ length labels.now) }
    ensures { (B : Book) → LabelsOf B counts labels.now → result ≡ any_order p.one p.two p.three (sharesBy counts B f) }
{
    if share_from(counts, labels, f, p, p.one) {
        return true;
    }
    if share_from(counts, labels, f, p, p.two) {
        return true;
    }
    share_from(counts, labels, f, p, p.three)
}

// Rule 8: two types of one individual whose classes clash.
fn clash_two(counts: Counts, pairs: &[u64], g: u32, h: u32) -> bool
    requires { Limits counts × (2048 ≤ length pairs.now) }
    ensures { (B : Book) → PairsOf B counts pairs.now → result ≡ clashesBy counts B g h }
{
    let i = bearer(g);
    let c = class_in(g);
    let d = class_in(h);
    if c >= counts.classes as u32 {
        return false;
    }
    if d >= counts.classes as u32 {
        return false;
    }
    let clash = member(pairs, c as usize, d as usize);
    (i < counts.individuals as u32) & ((g == type_of(i, c)) & ((h == type_of(i, d)) & clash))
}

fn clash_with(counts: Counts, pairs: &[u64], p: Premises, g: u32) -> bool
    requires { Limits counts × (2048 ≤ length pairs.now) }
    ensures { (B : Book) → PairsOf B counts pairs.now → result ≡ one_of_three p.one p.two p.three (clashesBy counts B g) }
{
    clash_two(counts, pairs, g, p.one)
        | (clash_two(counts, pairs, g, p.two) | clash_two(counts, pairs, g, p.three))
}

// Whether two of the facts p clash.
pub fn clash_fits(counts: Counts, pairs: &[u64], p: Premises) -> bool
    requires { Limits counts × (2048 ≤ length pairs.now) }
    ensures { (B : Book) → PairsOf B counts pairs.now → result ≡ any_two p.one p.two p.three (clashesBy counts B) }
{
    clash_with(counts, pairs, p, p.one)
        | (clash_with(counts, pairs, p, p.two) | clash_with(counts, pairs, p, p.three))
}
