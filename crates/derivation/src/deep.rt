// The leaves of each concept, at any depth of And: every leaf that tells a fact has a slot, every slot the number of one concept that is such a leaf, and a
// row of 4,096 bits for each concept has the numbers of its leaves.
ghost use Rattle.std.specs.Prelude.{◌≡◌, ◌+◌, ◌*◌, ◌%◌, ◌≤◌, ◌<◌, ltb, length, get_or};
ghost use Rattle.book.specs.Read.{pick};
ghost use Rattle.rows.specs.Row.{Put};
ghost use Rattle.tables.specs.Leaf.{Leaves};
ghost use Rattle.tables.specs.Open.{book_of, Open};
ghost use Rattle.tables.specs.Parts.{parts_in};
ghost use Rattle.derivation.specs.Tables.{no_slot, slot_of, ConceptsIn, leaf_in};
ghost use Rattle.derivation.specs.Collected.{Slotted, Wide, Parted, Deep};

use book::header::Counts;
use rows::row::{insert, member, unite};
use tables::concept::{part_number, parts_of};
use tables::leaf::{is_and, is_atomic, is_value};
use tables::opened::OpenBook;

// The leaf of each concept, and its leaves at any depth.
#[derive(Clone, Copy)]
pub struct ConceptTables<'a> {
    pub leaves: &'a [u32],
    pub slots: &'a [u32],
    pub deep: &'a [u64],
}

const NO_SLOT: usize = 65792;

// y, if it is below n.
fn slot_below(y: usize, n: usize, first: usize) -> usize
    requires { (n ≤ 65536) × (first ≤ 65536) × (first + n ≤ 65793) }
    ensures { (result ≡ pick (ltb y n) (first + y) no_slot) × (result < 65793) }
{
    if y < n {
        return first + y;
    }
    NO_SLOT
}

// The slot of a leaf.
pub fn slot_of(x: u32) -> usize
    ensures { (result ≡ slot_of x) × (result < 65793) }
{
    let y = (x % 1048576) as usize;
    if is_atomic(x) {
        return slot_below(y, 256, 65536);
    }
    if is_value(x) {
        return slot_below(y, 65536, 0);
    }
    NO_SLOT
}

// Whether concept d has, at any depth of And, a leaf of slot y.
pub fn leaf_has(counts: Counts, concepts: ConceptTables, d: usize, y: usize) -> bool
    requires concepts { ConceptsIn counts concepts }
    requires d_lt_concepts { (d < counts.concepts) × (y < 65793) }
    ensures { result ≡ leaf_in counts.concepts concepts.entry d y }
{
    let slots = concepts.slots;
    let k = slots[y] as usize;
    if k < counts.concepts as usize {
        let same = slot_of(concepts.leaves[k]) == y;
        return same & member(concepts.deep, d * 8 + k / 512, k % 512);
    }
    false
}

// Notes for each slot the number of a concept that is such a leaf.
pub fn fill_slots(leaves: &[u32], n: usize, slots: &mut [u32])
    requires { (n ≤ length leaves.now) × (n ≤ 4096) × (length slots.old ≡ 65793) }
    ensures { Slotted n leaves.now slots.new × (length slots.new ≡ 65793) }
{
    for k in 0..n {
        slots[slot_of(leaves[k])] = k as u32;
    }
}

// Puts the members of row p into row d, each of 4,096 bits.
fn unite_wide(deep: &mut [u64], d: usize, p: usize)
    requires { (d * 64 + 64 ≤ length deep.old) × (p * 64 + 64 ≤ length deep.old) × (d ≡ p → ⊥) }
    ensures { Wide deep.old d p 8 deep.new }
{
    for i in 0..8 {
        unite(deep, d * 8 + i, p * 8 + i);
    }
}

// The leaves of an And are those of its parts.
fn unite_parts(book: OpenBook<'_>, deep: &mut [u64], d: usize)
    requires d_lt_concepts { (d < book.counts.concepts) × (book.counts.concepts * 64 ≤ length deep.old) }
    ensures { Parted book.entry.bytes.now (parts_in book.entry.bytes.now book.entry.counts d) d (parts_in book.entry.bytes.now book.entry.counts d).len deep.old deep.new }
{
    let parts = parts_of(book.bytes, book.offsets[d], d as u32, book.counts);
    for i in 0..parts.len {
        unite_wide(deep, d, part_number(book.bytes, parts, i));
    }
}

// Any other concept is its own leaf.
fn put_own(leaves: &[u32], n: usize, slots: &[u32], deep: &mut [u64], d: usize)
    requires { Slotted n leaves.now slots.now × (length slots.now ≡ 65793) × (n ≤ length leaves.now) × (n ≤ 4096) × (d < n) × (n * 64 ≤ length deep.old) }
    ensures { Put deep.old (d * 4096 + get_or slots.now (slot_of (get_or leaves.now d 0)) 0) deep.new }
{
    let k = slots[slot_of(leaves[d])] as usize;
    insert(deep, d * 8 + k / 512, k % 512);
}

// The leaves of concept d, from those of the concepts before it.
fn deep_row(book: OpenBook<'_>, leaves: &[u32], slots: &[u32], deep: &mut [u64], d: usize)
    requires leaves { Leaves book.counts (book_of book.bytes.now) book.counts.concepts leaves.now }
    requires slotted { Slotted book.counts.concepts leaves.now slots.now × (length slots.now ≡ 65793) × (d < book.counts.concepts) × (book.counts.concepts * 64 ≤ length deep.old) }
    requires deep { Deep (book_of book.bytes.now) book.counts.concepts leaves.now slots.now d deep.old }
    ensures { Deep (book_of book.entry.bytes.now) book.entry.counts.concepts leaves.now slots.now (d + 1) deep.new × (length deep.new ≡ length deep.old) }
{
    if is_and(leaves[d]) {
        unite_parts(book, deep, d);
    } else {
        put_own(leaves, book.counts.concepts as usize, slots, deep, d);
    }
}

// The leaves of all concepts: a part has a lower number than its whole.
pub fn fill_deep(book: OpenBook<'_>, leaves: &[u32], slots: &[u32], deep: &mut [u64])
    requires leaves { Leaves book.counts (book_of book.bytes.now) book.counts.concepts leaves.now }
    requires slotted { Slotted book.counts.concepts leaves.now slots.now × (length slots.now ≡ 65793) × (book.counts.concepts * 64 ≤ length deep.old) }
    requires deep { Deep (book_of book.bytes.now) book.counts.concepts leaves.now slots.now 0 deep.old }
    ensures { Deep (book_of book.entry.bytes.now) book.entry.counts.concepts leaves.now slots.now book.entry.counts.concepts deep.new × (length deep.new ≡ length deep.old) }
{
    let n = book.counts.concepts as usize;
    for d in 0..n {
        deep_row(book, leaves, slots, deep, d);
    }
}
