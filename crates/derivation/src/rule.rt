// One use of a rule: whether the fact f follows from the premises g, h and k, taken in order.
ghost use Rattle.std.specs.Prelude.{◌≡◌, ◌<◌};
ghost use Rattle.book.specs.Role.{role_id};
ghost use Rattle.derivation.specs.Chained.{TripleLow};
ghost use Rattle.derivation.specs.Fits.{swap_fits_lem, one_fits_lem, two_fits_lem, three_fits_lem, join_fits_lem};

use super::fact::{edge_of, is_edge, leads_from, leads_to, pair_of};
use book::role::Role;

// Rule 3: where r leads a to b, s leads b to a.
pub fn swap_fits(n: u32, r: Role, s: Role, f: u32, g: u32) -> bool
    requires { (role_id r < 64) × (role_id s < 64) }
    ensures { result ≡ swap_fits_lem n r s f g }
{
    let a = leads_from(r, g);
    let b = leads_to(r, g);
    is_edge(n, r, g) & (f == edge_of(s, b, a))
}

// Rule 4, a path of one role.
pub fn one_fits(n: u32, r: Role, t: Role, f: u32, g: u32) -> bool
    requires { (role_id r < 64) × (role_id t < 64) }
    ensures { result ≡ one_fits_lem n r t f g }
{
    let a = leads_from(r, g);
    let b = leads_to(r, g);
    is_edge(n, r, g) & (f == edge_of(t, a, b))
}

// A path of two.
pub fn two_fits(n: u32, r: Role, s: Role, t: Role, f: u32, g: u32, h: u32) -> bool
    requires { (role_id r < 64) × (role_id s < 64) × (role_id t < 64) }
    ensures { result ≡ two_fits_lem n r s t f g h }
{
    let a = leads_from(r, g);
    let b = leads_to(r, g);
    let c = leads_from(s, h);
    let d = leads_to(s, h);
    is_edge(n, r, g) & (is_edge(n, s, h) & ((b == c) & (f == edge_of(t, a, d))))
}

// A path of three roles, and the role above it.
#[derive(Clone, Copy)]
pub struct Triple {
    pub first: Role,
    pub second: Role,
    pub third: Role,
    pub above: Role,
}

// A path of three.
pub fn three_fits(n: u32, path: Triple, f: u32, g: u32, h: u32, k: u32) -> bool
    requires { TripleLow path }
    ensures { result ≡ three_fits_lem n path.first path.second path.third path.above f g h k }
{
    let a = leads_from(path.first, g);
    let b = leads_to(path.first, g);
    let c = leads_from(path.second, h);
    let d = leads_to(path.second, h);
    let i = leads_from(path.third, k);
    let j = leads_to(path.third, k);
    is_edge(n, path.first, g)
        & (is_edge(n, path.second, h)
            & (is_edge(n, path.third, k)
                & ((b == c) & ((d == i) & (f == edge_of(path.above, a, j))))))
}

// Rule 7: two edges of one subject, and the joining of their fillers, the lower number first.
pub fn join_fits(n: u32, r: Role, f: u32, g: u32, h: u32) -> bool
    requires { role_id r < 64 }
    ensures { result ≡ join_fits_lem n r f g h }
{
    let a = leads_from(r, g);
    let b = leads_to(r, g);
    let c = leads_from(r, h);
    let d = leads_to(r, h);
    is_edge(n, r, g) & (is_edge(n, r, h) & ((a == c) & ((b < d) & (f == pair_of(b, d)))))
}
