// The records kept so far, found by their digits: a digital search tree.
ghost use Rattle.std.specs.Prelude.{◌≡◌, ◌+◌, ◌*◌, ◌≤◌, ◌<◌, length, set};
ghost use Rattle.writer.specs.Record.{ats, sizes};
ghost use Rattle.writer.specs.Tree.{Tree, Searched, Kept};

use super::record::{Span, alike, digit};

// From the first record down, by the digits of a new one: the place for a child where it belongs, unless it is kept already.
fn search(book: &[u8], child: &[u16], spans: &[Span], count: usize, new: Span) -> Option<usize>
    requires tree { Tree book.now count child.now (ats spans.now) (sizes spans.now) }
    requires count_nonzero { (0 < count) × (new.at + new.size ≤ length book.now) }
    ensures { Searched book.now count child.now (ats spans.now) (sizes spans.now) new.at new.size result }
{
    let mut i: usize = 0;
    let mut d: usize = 0;
    loop {
        if alike(book, spans[i], new) {
            return None;
        }
        let slot = 16 * i + digit(book, new, d);
        let next = usize::from(child[slot]);
        if next == 0 {
            return Some(slot);
        }
        i = next;
        d += 1;
    }
}

// Enters a record as number `count`.
fn enter(child: &mut [u16], spans: &mut [Span], slot: usize, count: usize, new: Span)
    requires { (slot < length child.old) × (count < length spans.old) × (count < 65536) }
    ensures { (child.new ≡ set child.old slot count) × (spans.new ≡ set spans.old count new) }
{
    child[slot] = count as u16;
    spans[count] = new;
}

// Keeps a record, unless it is there: how many there are then.
pub fn keep(book: &[u8], child: &mut [u16], spans: &mut [Span], count: usize, new: Span) -> usize
    requires tree { Tree book.now count child.old (ats spans.old) (sizes spans.old) }
    requires count_in_bounds { (16 * (count + 1) ≤ length child.old) × (count < length spans.old) × (count < 65536) × (new.at + new.size ≤ length book.now) }
    ensures tree_2 { Tree book.now result child.new (ats spans.new) (sizes spans.new) }
    ensures kept { Kept book.now count (ats spans.old) (sizes spans.old) new.at new.size result (ats spans.new) (sizes spans.new) }
{
    if count == 0 {
        spans[0] = new;
        return 1;
    }
    let Some(slot) = search(book, child, spans, count, new) else {
        return count;
    };
    enter(child, spans, slot, count, new);
    count + 1
}
