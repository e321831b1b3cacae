// Writes the books of its standard input, each behind its length and the number of bytes that are lent, both as little-endian numbers of
// 4 bytes. Prints a row's number and the answer, then the lent bytes as they are after the call; each of them is 7 before it.
#![tactic(auto)]

ghost use Rattle.std.specs.Prelude.{◌+◌, ◌≤◌, length};

use std::io::{Print, Write};
use writer::write::write;

const STDIN_FILENO: i32 = 0;

struct Row {
    bytes: usize,
    lent: usize,
}

fn number_at(bytes: &[u8], at: usize) -> u32
    requires { at + 4 ≤ length bytes.now }
{
    u32::from_le_bytes([bytes[at], bytes[at + 1], bytes[at + 2], bytes[at + 3]])
}

fn next_row() -> Option<Row> {
    let mut head = [0u8; 8];
    if io::read_full(STDIN_FILENO, &mut head) < 8 {
        return None;
    }
    Some(Row {
        bytes: number_at(&head, 0) as usize,
        lent: number_at(&head, 4) as usize,
    })
}

fn run(rt: &HostRuntime, number: u64, book: &[u8], out: &mut [u8]) {
    out.fill(7);
    let _ = match write(book, out) {
        Ok(n) => println!(rt; "{number} written {n}"),
        Err(refusal) => println!(rt; "{number} refused {}", refusal.number()),
    };
    let _ = rt.stdout().write_all(out);
    let _ = println!(rt);
}

// Whether there was a next row, and room for it; it is run on the front of what was read and of the lent bytes.
fn run_next(rt: &HostRuntime, number: u64, room: &mut [u8], out: &mut [u8]) -> bool {
    let Some(Row { bytes, lent }) = next_row() else {
        return false;
    };
    if room.len() < bytes || out.len() < lent {
        return false;
    }
    io::read_full(STDIN_FILENO, &mut room[..bytes]);
    run(rt, number, &room[..bytes], &mut out[..lent]);
    true
}

fn run_all(rt: &HostRuntime) {
    let mut room = [0u8; 65536];
    let mut out = [0u8; 65536];
    for number in 1..100000u64 {
        if !run_next(rt, number, &mut room, &mut out) {
            return;
        }
    }
}

fn main(rt: HostRuntime) {
    run_all(&rt);
}
