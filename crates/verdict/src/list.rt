// The lists: rows in ascending order from the first entry on, and 0 after them.
ghost use Rattle.std.specs.Prelude.{◌≡◌, [], ◌∷◌, ◌++◌, ◌+◌, ◌-◌, ◌*◌, ◌%◌, ◌≤◌, ◌<◌, length, take, replicate};
ghost use Rattle.rows.specs.Table.{Table};
ghost use Rattle.tables.specs.Tables.{Labelled};
ghost use Rattle.rules.specs.Lists.{entries2, entries3, filled};
ghost use Rattle.verdict.specs.Listing.{row_of, word_of, behind_of, pairs_of_lem, types_of, edges_word, edges_from, edges_of_lem, all_edges_lem, Written};

use rows::bits::Bits;
use rows::members::Members;
use rows::table::{Size, row_of};
use tables::size::type_field;

// Every entry from `from` on is 0.
pub fn clear(list: &mut [u32], from: usize)
    requires { from ≤ length list.old }
    ensures { list.new ≡ take from list.old ++ replicate (length list.old - from) 0 }
{
    list[from..].fill(0);
}

// How many members below n, behind `first`, row k has.
fn count_behind(t: &[u64], k: usize, first: usize, n: usize, count: usize) -> usize
    requires { (k * 512 + n ≤ length t.now * 64) × (n ≤ 512) × (first < n) × (count ≤ 262144) }
    ensures { result ≡ count + length (behind_of first t.now k n) }
{
    let mut i = count;
    for _b in Members::from(t, k, first + 1, n) {
        i += 1;
    }
    i
}

// How many pairs of n individuals have one label, by the rows of the labels.
pub(crate) fn count_pairs(groups: &[u64], labels: &[u32], n: usize) -> usize
    requires { Labelled n labels.now × (n * 8 ≤ length groups.now) × (n ≤ 512) }
    ensures { result ≡ length (pairs_of_lem labels.now groups.now n) }
{
    let mut count = 0;
    for i in 0..n {
        count = count_behind(groups, labels[i] as usize, i, n, count);
    }
    count
}

fn put_two(list: &mut [u32], at: usize, a: usize, b: usize)
    requires { (at + 2 ≤ length list.old) × (a < 65536) × (b < 65536) }
    ensures { Written list.old at (a ∷ b ∷ []) list.new (at + 2) }
{
    list[at] = a as u32;
    list[at + 1] = b as u32;
}

// A row of two entries for each member below n of row k, among the 64 from `from` on, with `first` in front.
fn list_word(
    list: &mut [u32],
    at: usize,
    first: usize,
    t: &[u64],
    k: usize,
    from: usize,
    n: usize,
) -> usize
    requires n_in_bounds { (k * 512 + n ≤ length t.now * 64) × (n ≤ 512) × (first < 512) × (from < n) × (from % 64 ≡ 0) }
    requires n_in_bounds_2 { at + 2 * length (word_of first t.now k from n) ≤ length list.old }
    ensures { Written list.old at (entries2 (word_of first t.now k from n)) list.new result }
{
    let mut i = at;
    for j in Bits::of(t[k * 8 + from / 64]) {
        if from + j >= n {
            return i;
        }
        put_two(list, i, first, from + j);
        i += 2;
    }
    i
}

// A row of two entries for each member below n of row k, with `first` in front.
fn list_row(list: &mut [u32], at: usize, first: usize, t: &[u64], k: usize, n: usize) -> usize
    requires n_in_bounds { (k * 512 + n ≤ length t.now * 64) × (n ≤ 512) × (first < 512) }
    requires n_in_bounds_2 { at + 2 * length (row_of first t.now k n) ≤ length list.old }
    ensures { Written list.old at (entries2 (row_of first t.now k n)) list.new result }
{
    let mut i = at;
    for w in 0..n.div_ceil(64) {
        i = list_word(list, i, first, t, k, w * 64, n);
    }
    i
}

// Lists the types; how many.
pub fn list_types(list: &mut [u32], t: &[u64], size: Size) -> usize
    requires table { Table size t.now }
    requires t_in_bounds { 2 * length (types_of size t.now) ≤ length list.old }
    ensures { (result ≡ length (types_of size t.now)) × (list.new ≡ filled (entries2 (types_of size t.now)) (length list.old)) }
{
    let mut at = 0;
    for i in 0..size.individuals {
        at = list_row(
            list,
            at,
            i,
            t,
            row_of(size, type_field(size), i),
            size.classes,
        );
    }
    clear(list, at);
    at / 2
}

fn put_three(list: &mut [u32], at: usize, a: usize, b: usize, c: usize)
    requires { (at + 3 ≤ length list.old) × (a < 65536) × (b < 65536) × (c < 65536) }
    ensures { Written list.old at (a ∷ b ∷ c ∷ []) list.new (at + 3) }
{
    list[at] = a as u32;
    list[at + 1] = b as u32;
    list[at + 2] = c as u32;
}

// A row of three entries for each member below n of row k, among the 64 from `from` on, with `role` and `first` in front.
fn list_edges_word(
    list: &mut [u32],
    at: usize,
    role: usize,
    first: usize,
    t: &[u64],
    k: usize,
    from: usize,
    n: usize,
) -> usize
    requires n_in_bounds { (k * 512 + n ≤ length t.now * 64) × (n ≤ 512) × (role < 512) × (first < 512) × (from < n) × (from % 64 ≡ 0) }
    requires n_in_bounds_2 { at + 3 * length (edges_word role first t.now k from n) ≤ length list.old }
    ensures { Written list.old at (entries3 (edges_word role first t.now k from n)) list.new result }
{
    let mut i = at;
    for j in Bits::of(t[k * 8 + from / 64]) {
        if from + j >= n {
            return i;
        }
        put_three(list, i, role, first, from + j);
        i += 3;
    }
    i
}

// A row of three entries for each edge of a role from `first`.
fn list_edges_from(
    list: &mut [u32],
    at: usize,
    role: usize,
    first: usize,
    t: &[u64],
    size: Size,
) -> usize
    requires table { Table size t.now }
    requires role_bound { (2 * role + 2 < size.fields) × (first < size.individuals) }
    requires first_in_bounds { at + 3 * length (edges_from size t.now role first) ≤ length list.old }
    ensures { Written list.old at (entries3 (edges_from size t.now role first)) list.new result }
{
    let k = row_of(size, 2 * role, first);
    let n = size.individuals;
    let mut i = at;
    for w in 0..n.div_ceil(64) {
        i = list_edges_word(list, i, role, first, t, k, w * 64, n);
    }
    i
}

fn list_edges_of(list: &mut [u32], at: usize, role: usize, t: &[u64], size: Size) -> usize
    requires table { Table size t.now }
    requires role_bound { 2 * role + 2 < size.fields }
    requires role_in_bounds { at + 3 * length (edges_of_lem size t.now role) ≤ length list.old }
    ensures { Written list.old at (entries3 (edges_of_lem size t.now role)) list.new result }
{
    let mut i = at;
    for a in Members::of(t, 2 * role, size.individuals) {
        i = list_edges_from(list, i, role, a, t, size);
    }
    i
}

pub(crate) fn list_edges(list: &mut [u32], t: &[u64], size: Size)
    requires table { Table size t.now }
    requires t_in_bounds { 3 * length (all_edges_lem size t.now) ≤ length list.old }
    ensures { list.new ≡ filled (entries3 (all_edges_lem size t.now)) (length list.old) }
{
    let m = size.fields / 2 - 1;
    let mut at = 0;
    for r in 0..m {
        at = list_edges_of(list, at, r, t, size);
    }
    clear(list, at);
}

// A row of two entries for each member below n, behind `first`, of row k, with `first` in front.
fn list_behind(list: &mut [u32], at: usize, first: usize, t: &[u64], k: usize, n: usize) -> usize
    requires n_in_bounds { (k * 512 + n ≤ length t.now * 64) × (n ≤ 512) × (first < n) }
    requires n_in_bounds_2 { at + 2 * length (behind_of first t.now k n) ≤ length list.old }
    ensures { Written list.old at (entries2 (behind_of first t.now k n)) list.new result }
{
    let mut i = at;
    for b in Members::from(t, k, first + 1, n) {
        put_two(list, i, first, b);
        i += 2;
    }
    i
}

// Lists the pairs of n individuals that have one label.
pub(crate) fn list_pairs(list: &mut [u32], groups: &[u64], labels: &[u32], n: usize)
    requires labelled { Labelled n labels.now × (n * 8 ≤ length groups.now) × (n ≤ 512) }
    requires n_in_bounds { 2 * length (pairs_of_lem labels.now groups.now n) ≤ length list.old }
    ensures { list.new ≡ filled (entries2 (pairs_of_lem labels.now groups.now n)) (length list.old) }
{
    let mut at = 0;
    for i in 0..n {
        at = list_behind(list, at, i, groups, labels[i] as usize, n);
    }
    clear(list, at);
}
