// Bytes, words and numbers, put into a text from a place on. Each function answers the place behind what it put.
ghost use Rattle.std.specs.Prelude.{◌≡◌, [], ◌∷◌, ◌+◌, ◌≤◌, ◌<◌, length};
ghost use Rattle.verdict.specs.Listing.{Written};
ghost use Rattle.text.specs.Text.{decimal, number};

pub(crate) fn put_byte(out: &mut [u8], at: usize, byte: u8) -> usize
    requires { at < length out.old }
    ensures written { Written out.old at (byte ∷ []) out.new result }
    ensures value { result ≡ at + 1 }
{
    out[at] = byte;
    at + 1
}

fn digit(n: u32) -> u8
    requires { n < 10 }
    ensures { result ≡ 48 + n }
{
    48 + (n as u8)
}

// The digits of n, at most k of them. Kept by hand: the theorem on the text names each digit, and std's Display ensures nothing that a proof can use.
fn put_digits(out: &mut [u8], at: usize, n: u32, k: u32) -> usize
    requires { at + k ≤ length out.old }
    ensures written { Written out.old at (decimal k n) out.new result }
    ensures upper_bound { result ≤ at + k }
{
    if k == 0 {
        return at;
    }
    if n < 10 {
        return put_byte(out, at, digit(n));
    }
    let next = put_digits(out, at, n / 10, k - 1);
    put_byte(out, next, digit(n % 10))
}

// A space and n.
pub(crate) fn put_number(out: &mut [u8], at: usize, n: u32) -> usize
    requires { at + 11 ≤ length out.old }
    ensures written { Written out.old at (number n) out.new result }
    ensures upper_bound { result ≤ at + 11 }
{
    let next = put_byte(out, at, b' ');
    put_digits(out, next, n, 10)
}

pub(crate) fn put_word(out: &mut [u8], at: usize, word: &[u8]) -> usize
    requires { at + length word.now ≤ length out.old }
    ensures written { Written out.old at word.now out.new result }
    ensures value { result ≡ at + length word.now }
{
    let end = at + word.len();
    out[at..end].copy_from_slice(word);
    end
}
