// Lines: a word, some numbers, a line feed. A number takes at most 11 bytes, with the space in front of it.
ghost use Rattle.std.specs.Prelude.{◌≡◌, ◌+◌, ◌*◌, ◌≤◌, ◌<◌, length};
ghost use Rattle.verdict.specs.Listing.{Written};
ghost use Rattle.text.specs.Text.{numbers, line, lines};

use super::put::{put_byte, put_number, put_word};

fn put_numbers(out: &mut [u8], at: usize, list: &[u32]) -> usize
    requires { at + 11 * length list.now ≤ length out.old }
    ensures written { Written out.old at (numbers list.now) out.new result }
    ensures upper_bound { result ≤ at + 11 * length list.now }
{
    let mut here = at;
    for n in list {
        here = put_number(out, here, *n);
    }
    here
}

// Puts a line into out from a place on; the place behind it, from which on out is as it was.
pub fn put_line(out: &mut [u8], at: usize, word: &[u8], list: &[u32]) -> usize
    requires { at + (length word.now + (11 * length list.now + 1)) ≤ length out.old }
    ensures written { Written out.old at (line word.now list.now) out.new result }
    ensures upper_bound { result ≤ at + (length word.now + (11 * length list.now + 1)) }
{
    let first = put_word(out, at, word);
    let last = put_numbers(out, first, list);
    put_byte(out, last, b'\n')
}

// A line of one letter for each w entries of a list: at most 13 bytes for an entry.
pub(crate) fn put_lines(out: &mut [u8], at: usize, letter: &[u8], list: &[u32], w: usize) -> usize
    requires w_nonzero { (0 < w) × (length letter.now ≡ 1) }
    requires list_in_bounds { at + 13 * length list.now ≤ length out.old }
    ensures written { Written out.old at (lines letter.now w list.now) out.new result }
    ensures upper_bound { result ≤ at + 13 * length list.now }
{
    let n = list.len() / w;
    let mut here = at;
    let mut from: usize = 0;
    for k in 0..n {
        let to = from + w;
        here = put_line(out, here, letter, &list[from..to]);
        from = to;
    }
    here
}
