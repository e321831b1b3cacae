// One use of a statement: whether the fact f follows by it from the premises g, h and k, taken in order.
ghost use Rattle.std.specs.Prelude.{◌≡◌, ◌+◌, ◌*◌, ◌<◌};
ghost use Rattle.book.specs.Book.{Book};
ghost use Rattle.book.specs.Role.{role_id, flipped};
ghost use Rattle.book.specs.Within.{Within};
ghost use Rattle.rules.specs.Brought.{concept};
ghost use Rattle.derivation.specs.Fits.{class_fits_lem, value_fits_lem, told_fits_lem, bring_fits_lem, domain_fits_lem, range_fits_lem, path_fits_lem, fits as fits_by, PathLow};
ghost use Rattle.derivation.specs.Tables.{leaf_in, ConceptsIn, ConceptsSay};

use super::deep::{ConceptTables, leaf_has};
use super::fact::{bearer, class_in, edge_of, is_edge, leads_from, leads_to, role_in, type_of};
use super::rule::{Triple, join_fits, one_fits, swap_fits, three_fits, two_fits};
use book::header::Counts;
use book::role::Role;
use book::statement::{Axiom, SubRolePath};
use tables::leaf::{class_in as class_of, is_atomic};

// Whether f is a type of i with an Atomic of concept d.
fn class_fits(counts: Counts, concepts: ConceptTables, d: u32, i: u32, f: u32) -> bool
    requires concepts { ConceptsIn counts concepts }
    requires d_lt_concepts { (d < counts.concepts) × (i < 512) }
    ensures { (B : Book) → ConceptsSay B counts concepts.entry → result ≡ class_fits_lem (concept B d) i f }
{
    let c = class_in(f);
    let known = leaf_has(counts, concepts, d as usize, 65536 + (c as usize));
    (f == type_of(i, c)) & known
}

// Whether concept d has a has-value of role field `field`, to b.
fn value_has(counts: Counts, concepts: ConceptTables, d: u32, field: u32, b: u32) -> bool
    requires concepts { ConceptsIn counts concepts }
    requires d_lt_concepts { (d < counts.concepts) × (field < 128) × (b < 512) }
    ensures { result ≡ leaf_in counts.concepts concepts.entry d (field * 512 + b) }
{
    leaf_has(counts, concepts, d as usize, (field * 512 + b) as usize)
}

// Whether f is an edge of i by a has-value of concept d.
fn value_fits(counts: Counts, concepts: ConceptTables, d: u32, i: u32, f: u32) -> bool
    requires concepts { ConceptsIn counts concepts }
    requires d_lt_concepts { (d < counts.concepts) × (i < 512) }
    ensures { (B : Book) → ConceptsSay B counts concepts.entry → result ≡ value_fits_lem (concept B d) i f }
{
    let r = role_in(f);
    if r >= 64 {
        return false;
    }
    let a = leads_from(Role::Named(0), f);
    let b = leads_to(Role::Named(0), f);
    let named = value_has(counts, concepts, d, 2 * r, b);
    let inverse = value_has(counts, concepts, d, 2 * r + 1, a);
    ((a == i) & named) | ((b == i) & inverse)
}

// Rule 1.
fn told_fits(counts: Counts, concepts: ConceptTables, d: u32, i: u32, f: u32) -> bool
    requires concepts { ConceptsIn counts concepts }
    requires d_lt_concepts { (d < counts.concepts) × (i < 512) }
    ensures { (B : Book) → ConceptsSay B counts concepts.entry → result ≡ told_fits_lem (concept B d) i f }
{
    let class = class_fits(counts, concepts, d, i, f);
    let value = value_fits(counts, concepts, d, i, f);
    class | value
}

// Rule 2, from the side c to the side d.
fn bring_fits(counts: Counts, concepts: ConceptTables, c: u32, d: u32, f: u32, g: u32) -> bool
    requires concepts { ConceptsIn counts concepts }
    requires c_lt_concepts { (c < counts.concepts) × (d < counts.concepts) }
    ensures { (B : Book) → ConceptsSay B counts concepts.entry → result ≡ bring_fits_lem counts.individuals (concept B c) (concept B d) f g }
{
    let left = concepts.leaves[c as usize];
    if is_atomic(left) {
        let a = bearer(g);
        let class = class_of(left) as u32;
        if (a < counts.individuals as u32) & (g == type_of(a, class)) {
            return told_fits(counts, concepts, d, a, f);
        }
        return false;
    }
    false
}

// Rule 5.
fn domain_fits(counts: Counts, concepts: ConceptTables, r: Role, d: u32, f: u32, g: u32) -> bool
    requires concepts { ConceptsIn counts concepts }
    requires d_lt_concepts { (d < counts.concepts) × (role_id r < 64) }
    ensures { (B : Book) → ConceptsSay B counts concepts.entry → result ≡ domain_fits_lem counts.individuals r (concept B d) f g }
{
    let a = leads_from(r, g);
    let class = class_fits(counts, concepts, d, a, f);
    is_edge(counts.individuals as u32, r, g) & class
}

fn range_fits(counts: Counts, concepts: ConceptTables, r: Role, d: u32, f: u32, g: u32) -> bool
    requires concepts { ConceptsIn counts concepts }
    requires d_lt_concepts { (d < counts.concepts) × (role_id r < 64) }
    ensures { (B : Book) → ConceptsSay B counts concepts.entry → result ≡ range_fits_lem counts.individuals r (concept B d) f g }
{
    let b = leads_to(r, g);
    let class = class_fits(counts, concepts, d, b, f);
    is_edge(counts.individuals as u32, r, g) & class
}

// Rule 4.
fn path_fits(n: u32, path: SubRolePath, t: Role, f: u32, g: u32, h: u32, k: u32) -> bool
    requires { PathLow path × (role_id t < 64) }
    ensures { result ≡ path_fits_lem n path t f g h k }
{
    match path {
        SubRolePath::One(r) => one_fits(n, r, t, f, g),
        SubRolePath::Two(r, s) => two_fits(n, r, s, t, f, g, h),
        SubRolePath::Three(first, second, third) => {
            let path = Triple {
                first,
                second,
                third,
                above: t,
            };
            three_fits(n, path, f, g, h, k)
        }
    }
}

pub fn flip(r: Role) -> Role
    ensures { result ≡ flipped r }
{
    match r {
        Role::Named(k) => Role::Inverse(k),
        Role::Inverse(k) => Role::Named(k),
    }
}

pub fn fits(
    statement: Axiom,
    counts: Counts,
    concepts: ConceptTables,
    f: u32,
    g: u32,
    h: u32,
    k: u32,
) -> bool
    requires concepts { ConceptsIn counts concepts }
    requires within { Within counts statement }
    ensures { (B : Book) → ConceptsSay B counts concepts.entry → result ≡ fits_by B statement f g h k }
{
    let n = counts.individuals as u32;
    match statement {
        Axiom::SubClassOf { sub, sup } => bring_fits(counts, concepts, sub, sup, f, g),
        Axiom::EquivalentClasses(c, d) => {
            let left = bring_fits(counts, concepts, c, d, f, g);
            let right = bring_fits(counts, concepts, d, c, f, g);
            left | right
        }
        Axiom::DisjointClasses(_, _) => false,
        Axiom::InverseObjectProperties(r, s) => {
            swap_fits(n, r, s, f, g) | swap_fits(n, s, r, f, g)
        }
        Axiom::SubObjectPropertyOf { sub, sup } => path_fits(n, sub, sup, f, g, h, k),
        Axiom::TransitiveRole(r) => two_fits(n, r, r, r, f, g, h),
        Axiom::SymmetricRole(r) => swap_fits(n, r, r, f, g),
        Axiom::FunctionalRole(r) => join_fits(n, r, f, g, h),
        Axiom::InverseFunctionalRole(r) => join_fits(n, flip(r), f, g, h),
        Axiom::ObjectPropertyDomain { role, domain } => domain_fits(
            counts, concepts, role, domain, f, g,
        ),
        Axiom::ObjectPropertyRange { role, range } => range_fits(
            counts, concepts, role, range, f, g,
        ),
        Axiom::SameIndividual(_, _) => false,
        Axiom::ClassAssertion { class, individual } => told_fits(
            counts, concepts, class, individual, f,
        ),
        Axiom::ObjectPropertyAssertion {
            role,
            subject,
            object,
        } => f == edge_of(role, subject, object),
        Axiom::DifferentIndividuals(_, _) => false,
        Axiom::NegativeObjectPropertyAssertion {
            role: _,
            subject: _,
            object: _,
        } => false,
    }
}
