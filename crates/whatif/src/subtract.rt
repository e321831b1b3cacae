// Rows of one list without those of another.
ghost use Rattle.std.specs.Prelude.{◌≡◌, true, false, List, ℕ, ◌+◌, ◌≤◌, ◌<◌, length, take, drop};
ghost use Rattle.rules.specs.Lists.{filled};
ghost use Rattle.whatif.specs.Minus.{alike, minus, flat, Standing, Moved, Went};

use verdict::list::clear;

// How far the other list was passed, and how many entries are kept.
#[derive(Clone, Copy)]
struct Place {
    other: usize,
    kept: usize,
}

// Whether the row at i of a is the one at j of b.
fn same_row(a: &[u32], i: usize, b: &[u32], j: usize, width: usize) -> bool
    requires { (i + width ≤ length a.now) × (j + width ≤ length b.now) }
    ensures { (result ≡ true → take width (drop i a.now) ≡ take width (drop j b.now)) × (result ≡ false → take width (drop i a.now) ≡ take width (drop j b.now) → ⊥) }
{
    for c in 0..width {
        if a[i + c] != b[j + c] {
            return false;
        }
    }
    true
}

// Whether the row at i of the list is the one at j of the other, of which m entries count.
fn stands(list: &[u32], i: usize, other: &[u32], j: usize, m: usize, width: usize) -> bool
    requires { (i + width ≤ length list.now) × (m ≤ length other.now) × (j < m → j + width ≤ m) }
    ensures { (result ≡ true → (j < m) × (take width (drop i list.now) ≡ take width (drop j other.now))) × (result ≡ false → j < m → take width (drop i list.now) ≡ take width (drop j other.now) → ⊥) }
{
    if m <= j {
        return false;
    }
    same_row(list, i, other, j, width)
}

// The row at i, put down at k.
fn move_row(list: &mut [u32], i: usize, k: usize, width: usize)
    requires { (k ≤ i) × (i + width ≤ length list.old) }
    ensures { Moved list.old i k width list.new }
{
    for c in 0..width {
        list[k + c] = list[i + c];
    }
}

// The row at i is kept, unless it is the next of the other list, of which m entries count.
fn pass_row(
    list: &mut [u32],
    i: usize,
    other: &[u32],
    m: usize,
    place: Place,
    width: usize,
) -> Place
    requires kept_le_i { (place.kept ≤ i) × (i + width ≤ length list.old) × (m ≤ length other.now) }
    requires width_bound { (place.other < m → place.other + width ≤ m) × (place.other ≤ m) }
    ensures { Went list.old i other.now place.other m place.kept width list.new result.other result.kept }
{
    let j = place.other;
    let k = place.kept;
    if stands(list, i, other, j, m, width) {
        return Place {
            other: j + width,
            kept: k,
        };
    }
    move_row(list, i, k, width);
    Place {
        other: j,
        kept: k + width,
    }
}

// The rows in the first n entries of a list, without those in the first m entries of another, of which each stands in the list too, in its order. How
// many entries are left; behind them the list is 0.
pub fn subtract(list: &mut [u32], n: usize, other: &[u32], m: usize, width: usize) -> usize
    requires width_nonzero { 0 < width }
    requires by_index { ((xs : List (List ℕ)) × Standing width n list.old xs) × ((ys : List (List ℕ)) × Standing width m other.now ys) }
    ensures { ((xs ys : List (List ℕ)) → Standing width n list.old xs → Standing width m other.now ys → (list.new ≡ filled (flat (minus alike xs ys)) (length list.old)) × (result ≡ length (flat (minus alike xs ys)))) × (result ≤ n) }
{
    let mut place = Place { other: 0, kept: 0 };
    let mut i = 0;
    while i < n {
        place = pass_row(list, i, other, m, place, width);
        i += width;
    }
    let kept = place.kept;
    clear(list, kept);
    kept
}
