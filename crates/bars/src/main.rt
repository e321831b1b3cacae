// Runs the bars of its standard input, each a book behind its length, its budget and the lengths of its type, edge and pair list, as
// little-endian numbers of 4, 8, 4, 4 and 4 bytes. Writes a bar's number and the text of its run as the program prints it, then what it
// sees in the rest of the lists, every entry of which is 7 before the run.
#![tactic(auto)]

ghost use Rattle.std.specs.Prelude.{true, ◌≡◌, ◌+◌, ◌*◌, ◌≤◌, length};
ghost use Rattle.bars.specs.Rest.{Only};

use saturation::part::{Named, named_part};
use saturation::saturate::saturate;
use std::io::{Print, Write};
use text::run::{put_run, type_part};
use verdict::end::End;

const STDIN_FILENO: i32 = 0;

#[derive(Drop)]
struct Bar {
    bytes: usize,
    budget: u64,
    types: usize,
    edges: usize,
    pairs: usize,
}

fn number_at(bytes: &[u8], at: usize) -> u32
    requires { at + 4 ≤ length bytes.now }
{
    u32::from_le_bytes([bytes[at], bytes[at + 1], bytes[at + 2], bytes[at + 3]])
}

fn next_bar() -> Option<Bar> {
    let mut head = [0u8; 24];
    if io::read_full(STDIN_FILENO, &mut head) < 24 {
        return None;
    }
    Some(Bar {
        bytes: number_at(&head, 0) as usize,
        budget: (number_at(&head, 4) as u64) + ((number_at(&head, 8) as u64) << 32),
        types: number_at(&head, 12) as usize,
        edges: number_at(&head, 16) as usize,
        pairs: number_at(&head, 20) as usize,
    })
}

// Whether every entry from a place on is v.
fn only(list: &[u32], from: usize, v: u32) -> bool
    ensures { result ≡ true → Only list.now from v }
{
    list.iter().skip(from).all(|x| *x == v)
}

// What is seen in the lists: every entry is 7, or every one behind the parts that the facts fill is 0; where nothing is listed, every entry.
fn state<'a>(end: End, types: &[u32], edges: &'a [u32], pairs: &'a [u32]) -> &'static str {
    if only(types, 0, 7) && only(edges, 0, 7) && only(pairs, 0, 7) {
        return "lists as they were";
    }
    let t = type_part(end, types).len();
    let e = named_part(end, Named::Edges, edges, pairs).len();
    let p = named_part(end, Named::Pairs, edges, pairs).len();
    if only(types, t, 0) && only(edges, e, 0) && only(pairs, p, 0) {
        return "lists 0 but for the facts";
    }
    "lists otherwise"
}

fn run(
    rt: &HostRuntime,
    number: u64,
    book: &[u8],
    budget: u64,
    types: &mut [u32],
    edges: &mut [u32],
    pairs: &mut [u32],
    out: &mut [u8],
)
    requires { 64 + 13 * (length types.old + (length edges.old + length pairs.old)) ≤ length out.old }
{
    types.fill(7);
    edges.fill(7);
    pairs.fill(7);
    let end = saturate(book, budget, types, edges, pairs);
    let n = put_run(end, types, edges, pairs, out);
    let _ = print!(rt; "{number} ");
    let _ = rt.stdout().write_all(&out[..n]);
    let _ = println!(rt; "{}", state(end, types, edges, pairs));
}

// Whether there was a next bar, and room for it; it is run on the fronts of the lists.
fn run_next(
    rt: &HostRuntime,
    number: u64,
    room: &mut [u8],
    types: &mut [u32],
    edges: &mut [u32],
    pairs: &mut [u32],
    out: &mut [u8],
) -> bool
    requires { 64 + 13 * (length types.old + (length edges.old + length pairs.old)) ≤ length out.old }
{
    let Some(bar) = next_bar() else {
        return false;
    };
    let lists_fit = bar.types <= types.len()
        && bar.edges <= edges.len()
        && bar.pairs <= pairs.len();
    if room.len() < bar.bytes || !lists_fit {
        return false;
    }
    io::read_full(STDIN_FILENO, &mut room[..bar.bytes]);
    run(
        rt,
        number,
        &room[..bar.bytes],
        bar.budget,
        &mut types[..bar.types],
        &mut edges[..bar.edges],
        &mut pairs[..bar.pairs],
        out,
    );
    true
}

fn run_all(rt: &HostRuntime) {
    let mut room = [0u8; 65536];
    let mut types = [0u32; 8000];
    let mut edges = [0u32; 12000];
    let mut pairs = [0u32; 4000];
    let mut out = [0u8; 312064];
    for number in 1..100000u64 {
        let more = run_next(
            rt, number, &mut room, &mut types, &mut edges, &mut pairs, &mut out,
        );
        if !more {
            return;
        }
    }
}

fn main(rt: HostRuntime) {
    run_all(&rt);
}
