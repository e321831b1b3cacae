// Puts every small book through the port: each is made by its position and run, and the end compared with the Rust's recorded answer, which
// the standard input has in the layout of oracle/README.md; there is none to compare for kinds that the Rust has not. A line for each that differs,
// and the sums.
#![tactic(auto)]

ghost use Rattle.std.specs.Prelude.{◌+◌, ◌*◌, ◌≤◌, length};

use saturation::saturate::saturate;
use small::small::small_book;
use std::io::Print;
use verdict::end::End;

const STDIN_FILENO: i32 = 0;

// No answer of a record: the run was spent or refused, or listed what no small book can have.
const WRONG: u8 = 0xFF;

// A clash, in a record and here.
const CLASH: u8 = 0x80;

// The bit of an edge of role 0.
fn edge_bit(role: u32, first: u32, second: u32) -> u8 {
    match (role, first, second) {
        (0, 0, 0) => 0x01,
        (0, 0, _) => 0x02,
        (0, _, 0) => 0x04,
        (0, _, _) => 0x08,
        _ => WRONG,
    }
}

// One bit more; edges ascend, and so do their bits.
fn joined(bits: u8, bit: u8) -> u8 {
    if bit <= bits {
        return WRONG;
    }
    bits | bit
}

// The bit of edge i.
fn edge_at(edges: &[u32], i: usize) -> u8
    requires { 3 * i + 3 ≤ length edges.now }
{
    let at = 3 * i;
    edge_bit(edges[at], edges[at + 1], edges[at + 2])
}

fn edge_bits(edges: &[u32], count: usize) -> u8
    requires { 3 * count ≤ length edges.now }
{
    let mut bits = 0;
    for i in 0..count {
        bits = joined(bits, edge_at(edges, i));
    }
    bits
}

fn pair_bit(count: u32, lower: u32, higher: u32) -> u8 {
    match (count, lower, higher) {
        (0, _, _) => 0,
        (1, 0, 1) => 0x10,
        _ => WRONG,
    }
}

fn type_bits(count: u32) -> u8 {
    if 2 < count {
        return WRONG;
    }
    32 * (count as u8)
}

// The answer of a run that finished, as a record has it.
fn finished(types: u32, count: u32, pairs: u32, edges: &[u32], lower: u32, higher: u32) -> u8 {
    let n = count as usize;
    if edges.len() / 3 < n {
        return WRONG;
    }
    edge_bits(edges, n) | pair_bit(pairs, lower, higher) | type_bits(types)
}

fn answer(end: End, edges: &[u32], lower: u32, higher: u32) -> u8 {
    match end {
        End::Finished(types, count, pairs) => finished(types, count, pairs, edges, lower, higher),
        End::Clash(_, _) => CLASH,
        End::Spent => WRONG,
        End::Refused(_) => WRONG,
    }
}

// With a budget for all that two individuals, a class and a role can have, and room for one same pair.
fn run(book: &[u8]) -> u8 {
    let mut types = [0u32; 12];
    let mut edges = [0u32; 18];
    let mut pairs = [0u32; 2];
    let end = saturate(book, 6, &mut types, &mut edges, &mut pairs);
    answer(end, &edges, pairs[0], pairs[1])
}

// By rule 2 ours clashes or has what the record has; by rule 1 it is the same; rule 0 says that there is no answer to compare.
fn agrees(rule: u8, recorded: u8, ours: u8) -> bool {
    if ours == WRONG {
        return false;
    }
    if rule == 0 {
        return true;
    }
    if rule == 2 {
        if ours == CLASH {
            return true;
        }
        return ours & recorded == recorded;
    }
    ours == recorded
}

// Whether ours agrees with the record; where not, it is said.
fn compared(rt: &HostRuntime, position: u64, rule: u8, recorded: u8, ours: u8) -> bool {
    let same = agrees(rule, recorded, ours);
    if !same {
        let _ = println!(rt; "differs: book {position}, recorded {recorded}, ours {ours}");
    }
    same
}

// The book at a position, if there is one, against its record; the record may be missing.
fn compare_book(rt: &HostRuntime, records: &[u8], position: u64) -> Option<bool>
    requires { position ≤ 30000 }
{
    let book = small_book(position)?;
    let ours = if book.length <= book.bytes.len() {
        run(&book.bytes[..book.length])
    } else {
        WRONG
    };
    let at = 2 * (position as usize);
    if records.len() < at + 2 {
        return Some(false);
    }
    Some(compared(rt, position, records[at], records[at + 1], ours))
}

// Whether there is no book at a position.
fn none_at(rt: &HostRuntime, position: u64) {
    let _ = match small_book(position) {
        Some(_) => println!(rt; "differs: a book at {position}"),
        None => println!(rt; "none at {position}"),
    };
}

// How many records have no answer; no more than 30,000 are told.
fn unanswered(records: &[u8]) -> usize {
    records
        .iter()
        .step_by(2)
        .filter(|rule| **rule == 0)
        .count()
        .min(30000)
}

// What was compared; there is one record for each book, and none is left over.
fn sums(rt: &HostRuntime, books: u64, agree: u64, records: &[u8])
    requires { (agree ≤ books) × (books ≤ 30000) }
{
    let differ = books - agree;
    let without = unanswered(records);
    let _ = println!(rt;
        "{agree} agree, {differ} differ; {without} of them with a kind that the Rust has not"
    );
    if records.len() as u64 != 2 * books {
        let _ = println!(rt; "differs: there is not one record for each book");
    }
    none_at(rt, books);
}

fn compare_all(rt: &HostRuntime, records: &[u8]) {
    let mut books = 0;
    let mut agree = 0;
    for position in 0..30000u64 {
        let Some(same) = compare_book(rt, records, position) else {
            break;
        };
        books += 1;
        if same {
            agree += 1;
        }
    }
    sums(rt, books, agree, records);
}

fn run_all(rt: &HostRuntime) {
    let mut room = [0u8; 65536];
    let got = io::read_full(STDIN_FILENO, &mut room);
    compare_all(rt, &room[..got]);
    none_at(rt, 4294967296);
    none_at(rt, 18446744073709551615);
}

fn main(rt: HostRuntime) {
    run_all(&rt);
}
