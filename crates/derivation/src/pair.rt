// The pairs of classes that no individual can have both: told to be disjoint, or bringing markers that no one filler can have.
ghost use Rattle.std.specs.Prelude.{◌≡◌, ◌&&◌, ℕ, ◌+◌, ◌*◌, ◌/◌, ◌%◌, ◌≤◌, ◌<◌, length, get_or};
ghost use Rattle.rows.specs.Row.{has};
ghost use Rattle.rules.specs.Rule.{any};
ghost use Rattle.tables.specs.Leaf.{kind_in};
ghost use Rattle.derivation.specs.Pairs.{marks_clash_lem, Gathers, Spreads, brings_clash, Paired};

use rows::row::{gather, member};
use tables::leaf::{filler_in, is_marker, role_in};

// Whether the leaves x and y are markers, under one role that is functional as named, of different classes that are told to be disjoint.
fn marks_clash(functional: &[u64], disjoint: &[u64], x: u32, y: u32) -> bool
    requires { (8 ≤ length functional.now) × (2048 ≤ length disjoint.now) × (kind_in x ≡ 5 → x % 1048576 / 256 < 64) }
    ensures { result ≡ marks_clash_lem functional.now disjoint.now x y }
{
    if is_marker(x) {
        let r = role_in(x);
        let c = filler_in(x);
        let d = filler_in(y);
        let under = member(functional, 0, 2 * r);
        let apart = member(disjoint, c, d);
        return is_marker(y) & ((r == role_in(y)) & ((c != d) & (under & apart)));
    }
    false
}

fn gather_partner(
    functional: &[u64],
    disjoint: &[u64],
    takers: &[u64],
    x: u32,
    y: u32,
    k: usize,
    acc: &mut [u64],
)
    requires in_bounds { (8 ≤ length functional.now) × (2048 ≤ length disjoint.now) × (kind_in x ≡ 5 → x % 1048576 / 256 < 64) }
    requires k_in_bounds { (k * 8 + 8 ≤ length takers.now) × (8 ≤ length acc.old) }
    ensures { Gathers acc.old (λ b. marks_clash_lem functional.now disjoint.now x y && has takers.now k b) acc.new }
{
    if marks_clash(functional, disjoint, x, y) {
        gather(acc, 0, takers, k);
    }
}

// Puts into the row acc the classes that bring a marker that clashes with the leaf x.
fn gather_partners(
    functional: &[u64],
    disjoint: &[u64],
    takers: &[u64],
    leaves: &[u32],
    n: usize,
    x: u32,
    acc: &mut [u64],
)
    requires in_bounds { (8 ≤ length functional.now) × (2048 ≤ length disjoint.now) × (kind_in x ≡ 5 → x % 1048576 / 256 < 64) }
    requires n_in_bounds { (n * 8 ≤ length takers.now) × (n ≤ length leaves.now) × (8 ≤ length acc.old) }
    ensures { Gathers acc.old (λ b. any n λ k. marks_clash_lem functional.now disjoint.now x (get_or leaves.now k 0) && has takers.now k b) acc.new }
{
    for k in 0..n {
        gather_partner(functional, disjoint, takers, x, leaves[k], k, acc);
    }
}

fn spread_one(takers: &[u64], k: usize, acc: &[u64], pairs: &mut [u64], a: usize)
    requires { (k * 8 + 8 ≤ length takers.now) × (8 ≤ length acc.now) × (2048 ≤ length pairs.old) × (a < 256) }
    ensures { Spreads pairs.old a (a + 1) (λ c b. has takers.now k c && has acc.now 0 b) pairs.new }
{
    if member(takers, k, a) {
        gather(pairs, a, acc, 0);
    }
}

// Puts the row acc into the row of each class that takes concept k.
fn spread(takers: &[u64], k: usize, acc: &[u64], pairs: &mut [u64])
    requires { (k * 8 + 8 ≤ length takers.now) × (8 ≤ length acc.now) × (2048 ≤ length pairs.old) }
    ensures { Spreads pairs.old 0 256 (λ c b. has takers.now k c && has acc.now 0 b) pairs.new }
{
    for a in 0..256 {
        spread_one(takers, k, acc, pairs, a);
    }
}

fn pair_marker(
    functional: &[u64],
    disjoint: &[u64],
    takers: &[u64],
    leaves: &[u32],
    n: usize,
    pairs: &mut [u64],
    k: usize,
)
    requires in_bounds { (8 ≤ length functional.now) × (2048 ≤ length disjoint.now) × (k < n) × (2048 ≤ length pairs.old) }
    requires by_index { (j : ℕ) → j < n → kind_in (get_or leaves.now j 0) ≡ 5 → get_or leaves.now j 0 % 1048576 / 256 < 64 }
    requires n_in_bounds { (n * 8 ≤ length takers.now) × (n ≤ length leaves.now) }
    ensures { Paired pairs.old (λ a b. brings_clash functional.now disjoint.now takers.now leaves.now n k a b) pairs.new }
{
    let x = leaves[k];
    if is_marker(x) {
        let mut acc = [0u64; 8];
        gather_partners(functional, disjoint, takers, leaves, n, x, &mut acc);
        spread(takers, k, &acc, pairs);
    }
}

// The pairs of classes that bring markers which clash.
pub fn fill_pairs(
    functional: &[u64],
    disjoint: &[u64],
    takers: &[u64],
    leaves: &[u32],
    n: usize,
    pairs: &mut [u64],
)
    requires in_bounds { (8 ≤ length functional.now) × (2048 ≤ length disjoint.now) × (2048 ≤ length pairs.old) }
    requires by_index { (j : ℕ) → j < n → kind_in (get_or leaves.now j 0) ≡ 5 → get_or leaves.now j 0 % 1048576 / 256 < 64 }
    requires n_in_bounds { (n * 8 ≤ length takers.now) × (n ≤ length leaves.now) }
    ensures { Paired pairs.old (λ a b. any n λ k. brings_clash functional.now disjoint.now takers.now leaves.now n k a b) pairs.new }
{
    for k in 0..n {
        pair_marker(functional, disjoint, takers, leaves, n, pairs, k);
    }
}
