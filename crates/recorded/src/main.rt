// Replays the Rust's recorded answers, which oracle/README.md lays out: each book of the standard input is run, and the end compared with
// the record by the record's rule. A line for each record, and one for all.
#![tactic(auto)]

ghost use Rattle.std.specs.Prelude.{true, ◌≡◌, ◌+◌, ◌*◌, ◌≤◌, length};

use saturation::saturate::saturate;
use std::io::Print;
use verdict::end::End;

const STDIN_FILENO: i32 = 0;

// The numbers in front of a record: the length of the book, the rule of comparison, the Rust's verdict (1 is a clash), its type count,
// and how many edges and pairs are recorded.
#[derive(Clone, Copy)]
struct Head {
    length: u16,
    rule: u16,
    clash: u16,
    types: u16,
    edges: u16,
    pairs: u16,
}

fn number_at(bytes: &[u8], at: usize) -> u16
    requires { at + 2 ≤ length bytes.now }
{
    u16::from_le_bytes([bytes[at], bytes[at + 1]])
}

// The next record's numbers, if there is one; the end of the input should leave no bytes.
fn next_head(rt: &HostRuntime) -> Option<Head> {
    let mut head = [0u8; 12];
    let got = io::read_full(STDIN_FILENO, &mut head);
    if got < 12 {
        if 0 < got {
            let _ = println!(rt; "differs: a record is cut off");
        }
        return None;
    }
    Some(Head {
        length: number_at(&head, 0),
        rule: number_at(&head, 2),
        clash: number_at(&head, 4),
        types: number_at(&head, 6),
        edges: number_at(&head, 8),
        pairs: number_at(&head, 10),
    })
}

// Whether the next n bytes came, and there was room for them; the room has them at its front.
fn take(room: &mut [u8], n: usize) -> bool
    ensures { result ≡ true → n ≤ length room.new }
{
    n <= room.len() && io::read_full(STDIN_FILENO, &mut room[..n]) == n
}

// Whether two counts agree; where not, it is said.
fn same_count(rt: &HostRuntime, name: &str, ours: u32, recorded: u16) -> bool {
    let same = ours == u32::from(recorded);
    if !same {
        let _ = print!(rt; "differs: {name} count {ours}, recorded {recorded}");
    }
    same
}

// Whether the entry of ours is the recorded one from a place on.
fn same(ours: &[u32], list: &[u8], from: usize) -> bool
    requires { 2 * (from + length ours.now) ≤ length list.now }
{
    for k in 0..ours.len() {
        if ours[k] != u32::from(number_at(list, 2 * (from + k))) {
            return false;
        }
    }
    true
}

// Whether each recorded entry stands among the first n numbers of ours, in order: both ascend. Of lists of one length it says that
// they are the same.
fn has_every(ours: &[u32], n: usize, list: &[u8], end: usize, width: usize) -> bool
    requires { 1 ≤ width }
{
    if ours.len() < n || list.len() / 2 < end {
        return false;
    }
    let mut from = 0;
    for entry in ours[..n].chunks_exact(width) {
        if width <= end - from && same(entry, list, from) {
            from += width;
        }
    }
    from == end
}

fn same_counts(rt: &HostRuntime, head: Head, types: u32, edges: u32, pairs: u32) -> bool {
    same_count(rt, "type", types, head.types)
        && same_count(rt, "edge", edges, head.edges)
        && same_count(rt, "pair", pairs, head.pairs)
}

// Verdict and counts of a run that finished.
fn counts_agree(rt: &HostRuntime, head: Head, types: u32, edges: u32, pairs: u32) -> bool {
    if head.clash != 0 {
        let _ = print!(rt; "differs: finished, recorded clash");
        return false;
    }
    if head.rule == 2 {
        return true;
    }
    same_counts(rt, head, types, edges, pairs)
}

// Whether the recorded edges and pairs are among ours; where not, it is said.
fn lists_agree(
    rt: &HostRuntime,
    head: Head,
    edges: u32,
    pairs: u32,
    our_edges: &[u32],
    our_pairs: &[u32],
    edge_list: &[u8],
    pair_list: &[u8],
) -> bool {
    let recorded_edges = 3 * usize::from(head.edges);
    if !has_every(
        our_edges,
        3 * (edges as usize),
        edge_list,
        recorded_edges,
        3,
    ) {
        let _ = print!(rt; "differs: edge list");
        return false;
    }
    let recorded_pairs = 2 * usize::from(head.pairs);
    if !has_every(
        our_pairs,
        2 * (pairs as usize),
        pair_list,
        recorded_pairs,
        2,
    ) {
        let _ = print!(rt; "differs: pair list");
        return false;
    }
    true
}

// Whether an end agrees with the record by its rule; where not, what differs is said. By rule 2 the Rust may finish where ours clashes.
fn agrees(
    rt: &HostRuntime,
    head: Head,
    end: End,
    our_edges: &[u32],
    our_pairs: &[u32],
    edge_list: &[u8],
    pair_list: &[u8],
) -> bool {
    match end {
        End::Finished(types, edges, pairs) => {
            if !counts_agree(rt, head, types, edges, pairs) {
                return false;
            }
            lists_agree(
                rt, head, edges, pairs, our_edges, our_pairs, edge_list, pair_list,
            )
        }
        End::Clash(_, _) => {
            let same = head.rule == 2 || head.clash == 1;
            if !same {
                let _ = print!(rt; "differs: clash, recorded finished");
            }
            same
        }
        End::Spent => {
            let _ = print!(rt; "differs: spent");
            false
        }
        End::Refused(refusal) => {
            let _ = print!(rt; "differs: refused {}", refusal.number());
            false
        }
    }
}

// The budget and the lists are those that every recorded run stays within.
fn run(rt: &HostRuntime, head: Head, book: &[u8], edge_list: &[u8], pair_list: &[u8]) -> bool {
    let mut types = [0u32; 8000];
    let mut edges = [0u32; 12000];
    let mut pairs = [0u32; 4000];
    let end = saturate(book, 4000, &mut types, &mut edges, &mut pairs);
    agrees(rt, head, end, &edges, &pairs, edge_list, pair_list)
}

// Reads what stands behind the numbers, and runs it.
fn take_and_run(
    rt: &HostRuntime,
    head: Head,
    room: &mut [u8],
    edge_list: &mut [u8],
    pair_list: &mut [u8],
) -> bool {
    let n = usize::from(head.length);
    if take(room, n)
        && take(edge_list, 6 * usize::from(head.edges))
        && take(pair_list, 4 * usize::from(head.pairs))
    {
        return run(rt, head, &room[..n], edge_list, pair_list);
    }
    let _ = print!(rt; "differs: the record is cut off, or too long");
    false
}

fn replay(rt: &HostRuntime, head: Head) -> bool {
    let mut room = [0u8; 65536];
    let mut edge_list = [0u8; 65536];
    let mut pair_list = [0u8; 65536];
    take_and_run(rt, head, &mut room, &mut edge_list, &mut pair_list)
}

// A record's line: whether it agrees.
fn line(rt: &HostRuntime, n: u32, head: Head) -> bool {
    let _ = print!(rt; "{n}: rule {}, ", head.rule);
    let same = replay(rt, head);
    let _ = println!(rt; "{}", if same { "agrees" } else { "" });
    same
}

fn run_all(rt: &HostRuntime) {
    let mut agree: u32 = 0;
    let mut differ: u32 = 0;
    for n in 1..=100000u32 {
        let Some(head) = next_head(rt) else {
            break;
        };
        if line(rt, n, head) {
            agree += 1;
        } else {
            differ += 1;
        }
    }
    let _ = println!(rt; "{agree} agree, {differ} differ");
}

fn main(rt: HostRuntime) {
    run_all(&rt);
}
