// Facts by number: an edge is (role * 512 + first) * 512 + second, a type 2 ^ 24 + individual * 256 + class, a joining behind them 16908288 + one * 512
// + the other.
ghost use Rattle.std.specs.Prelude.{◌≡◌, ◌<◌};
ghost use Rattle.book.specs.Role.{role_id};
ghost use Rattle.rules.specs.Fact.{edge, type, pair};
ghost use Rattle.derivation.specs.Fits.{leads_from_lem, leads_to_lem, bearer as bearerOf, class_in_lem, role_in_lem, is_edge_lem};

use book::role::Role;

// The individual that an edge of a role leads from.
pub fn leads_from(role: Role, g: u32) -> u32
    ensures { (result ≡ leads_from_lem role g) × (result < 512) }
{
    match role {
        Role::Named(_) => g / 512 % 512,
        Role::Inverse(_) => g % 512,
    }
}

// And the one that it leads to.
pub fn leads_to(role: Role, g: u32) -> u32
    ensures { (result ≡ leads_to_lem role g) × (result < 512) }
{
    match role {
        Role::Named(_) => g % 512,
        Role::Inverse(_) => g / 512 % 512,
    }
}

// The individual of a type.
pub fn bearer(g: u32) -> u32
    ensures { (result ≡ bearerOf g) × (result < 512) }
{
    g / 256 % 512
}

pub fn class_in(g: u32) -> u32
    ensures { (result ≡ class_in_lem g) × (result < 256) }
{
    g % 256
}

// The role of an edge.
pub fn role_in(g: u32) -> u32
    ensures { result ≡ role_in_lem g }
{
    g / 262144
}

pub fn edge_of(role: Role, a: u32, b: u32) -> u32
    requires { (role_id role < 64) × (a < 512) × (b < 512) }
    ensures { result ≡ edge role a b }
{
    match role {
        Role::Named(r) => (r * 512 + a) * 512 + b,
        Role::Inverse(r) => (r * 512 + b) * 512 + a,
    }
}

pub fn type_of(i: u32, c: u32) -> u32
    requires { (i < 512) × (c < 256) }
    ensures { result ≡ type i c }
{
    16777216 + i * 256 + c
}

// The joining of i and j.
pub fn pair_of(i: u32, j: u32) -> u32
    requires { (i < 512) × (j < 512) }
    ensures { result ≡ pair i j }
{
    16908288 + i * 512 + j
}

// Whether g is an edge of a role between two of n individuals.
pub fn is_edge(n: u32, role: Role, g: u32) -> bool
    requires { role_id role < 64 }
    ensures { result ≡ is_edge_lem n role g }
{
    let a = leads_from(role, g);
    let b = leads_to(role, g);
    (a < n) & ((b < n) & (g == edge_of(role, a, b)))
}
