// Rules that look at two or three premises, which may come in any order: paths of roles, and the fillers of one subject. A premise that cannot stand
// where it is tried is passed over at once.
ghost use Rattle.std.specs.Prelude.{◌≡◌, ◌&&◌, ◌≤◌, ◌<◌, eqb};
ghost use Rattle.book.specs.Role.{role_id};
ghost use Rattle.book.specs.Header.{Limits};
ghost use Rattle.book.specs.Within.{Within, PathWithin};
ghost use Rattle.derivation.specs.Fits.{leads_from_lem, leads_to_lem, is_edge_lem, two_fits_lem, three_fits_lem, join_fits_lem, one_of_three, any_order, any_two};
ghost use Rattle.derivation.specs.Chained.{path_chain_lem, chain_of_lem, ChainLow, TripleLow};

use super::fact::{is_edge, leads_from, leads_to};
use super::row::Premises;
use super::rule::{Triple, join_fits, three_fits, two_fits};
use super::statement::flip;
use book::header::Counts;
use book::role::Role;
use book::statement::{Axiom, SubRolePath};

// What a rule joins: nothing, where it looks at one premise at most; the edges of a path of two roles, or of three, into one of the last; the fillers of
// two edges of one role.
#[derive(Clone, Copy)]
pub enum Chain {
    Alone,
    Pair(Role, Role, Role),
    Triple(Role, Role, Role, Role),
    Fillers(Role),
}

fn path_chain(counts: Counts, path: SubRolePath, t: Role) -> Chain
    requires { Limits counts × PathWithin counts path × (role_id t < counts.roles) }
    ensures { (result ≡ path_chain_lem path t) × ChainLow result }
{
    match path {
        SubRolePath::One(_) => Chain::Alone,
        SubRolePath::Two(r, s) => Chain::Pair(r, s, t),
        SubRolePath::Three(r, s, u) => Chain::Triple(r, s, u, t),
    }
}

pub fn chain_of(counts: Counts, statement: Axiom) -> Chain
    requires { Limits counts × Within counts statement }
    ensures { (result ≡ chain_of_lem statement) × ChainLow result }
{
    match statement {
        Axiom::SubObjectPropertyOf { sub, sup } => path_chain(counts, sub, sup),
        Axiom::TransitiveRole(r) => Chain::Pair(r, r, r),
        Axiom::FunctionalRole(r) => Chain::Fillers(r),
        Axiom::InverseFunctionalRole(r) => Chain::Fillers(flip(r)),
        _ => Chain::Alone,
    }
}

// Whether g is an edge of r that starts where f, an edge of t, does.
fn begins(n: u32, r: Role, t: Role, f: u32, g: u32) -> bool
    requires { role_id r < 64 }
    ensures { result ≡ (is_edge_lem n r g && eqb (leads_from_lem t f) (leads_from_lem r g)) }
{
    let a = leads_from(t, f);
    let b = leads_from(r, g);
    is_edge(n, r, g) & (a == b)
}

fn pair_from(n: u32, r: Role, s: Role, t: Role, f: u32, p: Premises, g: u32) -> bool
    requires { (role_id r < 64) × (role_id s < 64) × (role_id t < 64) }
    ensures { result ≡ one_of_three p.one p.two p.three (two_fits_lem n r s t f g) }
{
    if begins(n, r, t, f, g) {
        return two_fits(n, r, s, t, f, g, p.one)
            | (two_fits(n, r, s, t, f, g, p.two) | two_fits(n, r, s, t, f, g, p.three));
    }
    false
}

// Whether f follows by a path of two from the facts p: first as they stand, then backwards.
pub fn pair_fits(n: u32, r: Role, s: Role, t: Role, f: u32, p: Premises) -> bool
    requires { (role_id r < 64) × (role_id s < 64) × (role_id t < 64) }
    ensures { result ≡ any_two p.one p.two p.three (two_fits_lem n r s t f) }
{
    if two_fits(n, r, s, t, f, p.one, p.two) {
        return true;
    }
    if two_fits(n, r, s, t, f, p.two, p.one) {
        return true;
    }
    pair_from(n, r, s, t, f, p, p.one)
        | (pair_from(n, r, s, t, f, p, p.two) | pair_from(n, r, s, t, f, p, p.three))
}

fn fillers_from(n: u32, r: Role, f: u32, p: Premises, g: u32) -> bool
    requires { role_id r < 64 }
    ensures { result ≡ one_of_three p.one p.two p.three (join_fits_lem n r f g) }
{
    join_fits(n, r, f, g, p.one) | (join_fits(n, r, f, g, p.two) | join_fits(n, r, f, g, p.three))
}

// The same, of fillers.
pub fn fillers_fit(n: u32, r: Role, f: u32, p: Premises) -> bool
    requires { role_id r < 64 }
    ensures { result ≡ any_two p.one p.two p.three (join_fits_lem n r f) }
{
    if join_fits(n, r, f, p.one, p.two) {
        return true;
    }
    if join_fits(n, r, f, p.two, p.one) {
        return true;
    }
    fillers_from(n, r, f, p, p.one)
        | (fillers_from(n, r, f, p, p.two) | fillers_from(n, r, f, p, p.three))
}

// Whether h is an edge of s that goes on where g ends.
fn goes_on(n: u32, r: Role, s: Role, g: u32, h: u32) -> bool
    requires { (role_id r < 64) × (role_id s < 64) }
    ensures { result ≡ (is_edge_lem n s h && eqb (leads_to_lem r g) (leads_from_lem s h)) }
{
    let b = leads_to(r, g);
    let c = leads_from(s, h);
    is_edge(n, s, h) & (b == c)
}

fn triple_by(n: u32, path: Triple, f: u32, p: Premises, g: u32, h: u32) -> bool
    requires { TripleLow path }
    ensures { result ≡ one_of_three p.one p.two p.three (three_fits_lem n path.first path.second path.third path.above f g h) }
{
    if goes_on(n, path.first, path.second, g, h) {
        return three_fits(n, path, f, g, h, p.one)
            | (three_fits(n, path, f, g, h, p.two) | three_fits(n, path, f, g, h, p.three));
    }
    false
}

fn triple_on(n: u32, path: Triple, f: u32, p: Premises, g: u32) -> bool
    requires { TripleLow path }
    ensures { result ≡ one_of_three p.one p.two p.three (λ h. one_of_three p.one p.two p.three (three_fits_lem n path.first path.second path.third path.above f g h)) }
{
    if triple_by(n, path, f, p, g, p.one) {
        return true;
    }
    if triple_by(n, path, f, p, g, p.two) {
        return true;
    }
    triple_by(n, path, f, p, g, p.three)
}

fn triple_from(n: u32, path: Triple, f: u32, p: Premises, g: u32) -> bool
    requires { TripleLow path }
    ensures { result ≡ one_of_three p.one p.two p.three (λ h. one_of_three p.one p.two p.three (three_fits_lem n path.first path.second path.third path.above f g h)) }
{
    if begins(n, path.first, path.above, f, g) {
        return triple_on(n, path, f, p, g);
    }
    false
}

// Whether f follows by a path of three from the facts p.
pub fn triple_fits(n: u32, path: Triple, f: u32, p: Premises) -> bool
    requires { TripleLow path }
    ensures { result ≡ any_order p.one p.two p.three (three_fits_lem n path.first path.second path.third path.above f) }
{
    if three_fits(n, path, f, p.one, p.two, p.three) {
        return true;
    }
    if triple_from(n, path, f, p, p.three) {
        return true;
    }
    if triple_from(n, path, f, p, p.two) {
        return true;
    }
    triple_from(n, path, f, p, p.one)
}
