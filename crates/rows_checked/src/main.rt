// Checks the rows of its standard input: each time a book and rows, behind the book's length in bytes and the number of the rows' entries, all numbers
// little-endian of 4 bytes. Prints a case's number and the answer.
#![tactic(auto)]

ghost use Rattle.std.specs.Prelude.{◌+◌, ◌≤◌, length};

use derivation::check::check_rows;

const STDIN_FILENO: i32 = 0;

struct Case {
    bytes: usize,
    entries: usize,
}

fn number_at(bytes: &[u8], at: usize) -> u32
    requires { at + 4 ≤ length bytes.now }
{
    u32::from_le_bytes([bytes[at], bytes[at + 1], bytes[at + 2], bytes[at + 3]])
}

fn next_case() -> Option<Case> {
    let mut head = [0u8; 8];
    if io::read_full(STDIN_FILENO, &mut head) < 8 {
        return None;
    }
    Some(Case {
        bytes: number_at(&head, 0) as usize,
        entries: number_at(&head, 4) as usize,
    })
}

// Whether there was a next case, and room for it.
fn run_next(
    rt: &HostRuntime,
    number: u64,
    room: &mut [u8],
    text: &mut [u8],
    rows: &mut [u32],
) -> bool {
    let Some(Case { bytes, entries }) = next_case() else {
        return false;
    };
    if room.len() < bytes || text.len() / 4 < entries || rows.len() < entries {
        return false;
    }
    io::read_full(STDIN_FILENO, &mut room[..bytes]);
    io::read_full(STDIN_FILENO, &mut text[..4 * entries]);
    for i in 0..entries {
        rows[i] = number_at(text, 4 * i);
    }
    let _ = match check_rows(&room[..bytes], &rows[..entries]) {
        Ok(n) => println!(rt; "{number} standing {n}"),
        Err(refusal) => println!(rt; "{number} refused {}", refusal.number()),
    };
    true
}

fn run_all(rt: &HostRuntime) {
    let mut room = [0u8; 65536];
    let mut text = [0u8; 16384];
    let mut rows = [0u32; 4096];
    for number in 1..100000u64 {
        if !run_next(rt, number, &mut room, &mut text, &mut rows) {
            return;
        }
    }
}

fn main(rt: HostRuntime) {
    run_all(&rt);
}
