// The verdict: clash.
ghost use Rattle.std.specs.Prelude.{◌≡◌, true, false, ◌&&◌, ◌+◌, ◌-◌, ◌*◌, ◌/◌, ◌≤◌, ◌<◌, length, get_or};
ghost use Rattle.rows.specs.Row.{has};
ghost use Rattle.rows.specs.Table.{leads, Sized, Table};
ghost use Rattle.rules.specs.Rule.{any};
ghost use Rattle.said.specs.Layout.{Placed, total_rows};
ghost use Rattle.verdict.specs.Verdict.{meeting, counting, row_clash_lem, rows_clash_lem, marker_for, marker_row, clash_in, RowsWith};

use rows::members::Members;
use rows::row::{compose, gather, meets, member};
use rows::table::{Size, rows_of};
use said::layout::{Layout, Relation, part_of};
use tables::leaf::{filler_in, is_marker, role_in};
use tables::size::class_field;

// Whether c and d count: any two classes, or only different ones.
fn may_clash(own: bool, c: usize, d: usize) -> bool
    ensures { result ≡ counting own c d }
{
    own || c != d
}

// Whether the row mask meets that of d, if c and d count. Of a class, the row is the one of its number from `base` on.
fn rows_meet(mask: &[u64], s: &[u64], base: usize, n: usize, own: bool, c: usize, d: usize) -> bool
    requires { (8 ≤ length mask.now) × ((base + d) * 8 + 8 ≤ length s.now) × (n ≤ 512) }
    ensures { result ≡ (counting own c d && meeting n (has mask.now 0) (has s.now (base + d))) }
{
    may_clash(own, c, d) && meets(mask, s, base + d, n)
}

// Whether the row mask meets that of a class that is disjoint from c.
fn mask_clash(
    mask: &[u64],
    s: &[u64],
    base: usize,
    size: Size,
    disjoint: &[u64],
    own: bool,
    c: usize,
) -> bool
    requires sized { Sized size × (8 ≤ length mask.now) × ((base + size.classes) * 8 ≤ length s.now) × (size.classes * 8 ≤ length disjoint.now) }
    requires c_lt_classes { c < size.classes }
    ensures { result ≡ any size.classes (λ d. has disjoint.now c d && (counting own c d && meeting size.individuals (has mask.now 0) (has s.now (base + d)))) }
{
    for d in Members::of(disjoint, c, size.classes) {
        if rows_meet(mask, s, base, size.individuals, own, c, d) {
            return true;
        }
    }
    false
}

// Whether the row of c meets that of a class that is disjoint from c.
fn row_clash(s: &[u64], base: usize, size: Size, disjoint: &[u64], own: bool, c: usize) -> bool
    requires sized { Sized size × ((base + size.classes) * 8 ≤ length s.now) × (size.classes * 8 ≤ length disjoint.now) }
    requires c_lt_classes { c < size.classes }
    ensures { result ≡ row_clash_lem size.individuals size.classes disjoint.now own (λ x. has s.now (base + x)) c }
{
    let mut acc = [0u64; 8];
    gather(&mut acc, 0, s, base + c);
    mask_clash(&acc, s, base, size, disjoint, own, c)
}

// Whether the rows of two classes that are disjoint share an individual.
fn rows_clash(s: &[u64], base: usize, size: Size, disjoint: &[u64], own: bool) -> bool
    requires { Sized size × ((base + size.classes) * 8 ≤ length s.now) × (size.classes * 8 ≤ length disjoint.now) }
    ensures { result ≡ rows_clash_lem size.individuals size.classes disjoint.now own (λ x. has s.now (base + x)) }
{
    for c in 0..size.classes {
        if row_clash(s, base, size, disjoint, own, c) {
            return true;
        }
    }
    false
}

// What is of a class that takes concept k has the marker of its leaf, if that is one under role r: into the row of the marker's class.
fn put_marker(
    markers: &mut [u64],
    t: &[u64],
    size: Size,
    takers: &[u64],
    leaves: &[u32],
    k: usize,
    r: usize,
)
    requires table { Table size t.now }
    requires k_in_bounds { (k < length leaves.now) × (k * 8 + 8 ≤ length takers.now) × (length markers.old ≡ 2048) }
    ensures { RowsWith markers.old (λ d i. marker_for r d (get_or leaves.now k 0) && meeting size.classes (has takers.now k) (λ c. leads size t.now (size.fields - 1) c i)) markers.new }
{
    let x = leaves[k];
    if is_marker(x) {
        if role_in(x) == r {
            let mut acc = [0u64; 8];
            compose(
                &mut acc,
                takers,
                k,
                t,
                rows_of(size, class_field(size)),
                size.classes,
            );
            gather(markers, filler_in(x), &acc, 0);
        }
    }
}

// The markers under role r that the classes bring.
fn role_markers(
    markers: &mut [u64],
    t: &[u64],
    size: Size,
    takers: &[u64],
    leaves: &[u32],
    n: usize,
    r: usize,
)
    requires table { Table size t.now }
    requires n_in_bounds { (n ≤ length leaves.now) × (n ≤ 4096) × (n * 8 ≤ length takers.now) }
    requires markers_len { length markers.old ≡ 2048 }
    ensures { RowsWith markers.old (marker_row size t.now takers.now leaves.now n r size.classes) markers.new }
{
    for k in 0..n {
        put_marker(markers, t, size, takers, leaves, k, r);
    }
}

// Whether an individual has the markers under role r of two different classes that are disjoint.
fn role_clash(
    t: &[u64],
    size: Size,
    takers: &[u64],
    leaves: &[u32],
    n: usize,
    disjoint: &[u64],
    r: usize,
) -> bool
    requires table { Table size t.now }
    requires n_in_bounds { (n ≤ length leaves.now) × (n ≤ 4096) × (n * 8 ≤ length takers.now) }
    requires classes_in_bounds { size.classes * 8 ≤ length disjoint.now }
    ensures { result ≡ rows_clash_lem size.individuals size.classes disjoint.now false (marker_row size t.now takers.now leaves.now n r size.classes) }
{
    let mut markers = [0u64; 2048];
    role_markers(&mut markers, t, size, takers, leaves, n, r);
    rows_clash(&markers, 0, size, disjoint, false)
}

// Whether role r is functional as named, and its markers clash.
fn named_clash(
    t: &[u64],
    size: Size,
    takers: &[u64],
    leaves: &[u32],
    n: usize,
    disjoint: &[u64],
    functional: &[u64],
    r: usize,
) -> bool
    requires table { Table size t.now }
    requires n_in_bounds { (n ≤ length leaves.now) × (n ≤ 4096) × (n * 8 ≤ length takers.now) }
    requires classes_in_bounds { size.classes * 8 ≤ length disjoint.now }
    requires in_bounds { 8 ≤ length functional.now }
    requires r_bound { 2 * r + 2 < size.fields }
    ensures { result ≡ (has functional.now 0 (2 * r) && rows_clash_lem size.individuals size.classes disjoint.now false (marker_row size t.now takers.now leaves.now n r size.classes)) }
{
    member(functional, 0, 2 * r) && role_clash(t, size, takers, leaves, n, disjoint, r)
}

// Whether the markers of a role that is functional as named clash.
fn markers_clash(
    t: &[u64],
    size: Size,
    takers: &[u64],
    leaves: &[u32],
    n: usize,
    disjoint: &[u64],
    functional: &[u64],
) -> bool
    requires table { Table size t.now }
    requires n_in_bounds { (n ≤ length leaves.now) × (n ≤ 4096) × (n * 8 ≤ length takers.now) }
    requires classes_in_bounds { size.classes * 8 ≤ length disjoint.now }
    requires in_bounds { 8 ≤ length functional.now }
    ensures { result ≡ any (size.fields / 2 - 1) (λ r. has functional.now 0 (2 * r) && rows_clash_lem size.individuals size.classes disjoint.now false (marker_row size t.now takers.now leaves.now n r size.classes)) }
{
    let m = size.fields / 2 - 1;
    for r in 0..m {
        if named_clash(t, size, takers, leaves, n, disjoint, functional, r) {
            return true;
        }
    }
    false
}

// The clash of a table: of the classes, or of markers.
pub fn clash(t: &[u64], layout: Layout, says: &[u64], leaves: &[u32]) -> bool
    requires table { Table layout.size t.now }
    requires placed { Placed layout × (total_rows layout * 8 ≤ length says.now) × (layout.concepts ≤ length leaves.now) }
    ensures { result ≡ clash_in layout t.now says.now leaves.now }
{
    let size = layout.size;
    let disjoint = part_of(says, layout, Relation::Disjoint);
    if rows_clash(t, rows_of(size, class_field(size)), size, disjoint, true) {
        return true;
    }
    let takers = part_of(says, layout, Relation::Takers);
    let functional = part_of(says, layout, Relation::Functional);
    markers_clash(
        t,
        size,
        takers,
        leaves,
        layout.concepts,
        disjoint,
        functional,
    )
}
