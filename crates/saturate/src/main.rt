// The program: a book on standard input, its conclusions on standard output.
#![tactic(auto)]

ghost use Rattle.std.specs.Prelude.{◌≡◌, ◌+◌, ◌*◌, ◌≤◌, IfOk, length, take};
ghost use Rattle.rules.specs.Ends.{outcome};
ghost use Rattle.text.specs.Text.{printed};
ghost use Rattle.saturate.specs.Output.{zeros, output};

use saturation::saturate::saturate;
use std::io;
use std::io::{Print, Read, Stdin, Write};
use text::line::put_line;
use text::run::put_run;

// Reads until the input ends, in however many pieces it comes, or until the room is full: how many bytes.
fn read_all(stdin: &mut Stdin, room: &mut [u8]) -> io::Result<usize>
    ensures { IfOk result (λ n. n ≤ length room.new) }
{
    let mut have = 0;
    while have < room.len() {
        let more = stdin.read(&mut room[have..])?;
        if more == 0 {
            break;
        }
        have += more;
    }
    Ok(have)
}

// Runs a book with these lists, and puts what is to be printed; how many bytes.
fn run(
    book: &[u8],
    types: &mut [u32],
    edges: &mut [u32],
    pairs: &mut [u32],
    out: &mut [u8],
) -> usize
    requires { 64 + 13 * (length types.old + (length edges.old + length pairs.old)) ≤ length out.old }
    ensures upper_bound { result ≤ length out.new }
    ensures out_after { take result out.new ≡ printed (outcome book.now 4000 types.old edges.old pairs.old) }
{
    let end = saturate(book, 4000, types, edges, pairs);
    put_run(end, types, edges, pairs, out)
}

// The program's lists: 24,000 entries, of 13 bytes each at most, and 64 for the end.
fn run_whole(book: &[u8], out: &mut [u8]) -> usize
    requires { 312064 ≤ length out.old }
    ensures upper_bound { result ≤ length out.new }
    ensures out_after { take result out.new ≡ printed (outcome book.now 4000 (zeros 8000) (zeros 12000) (zeros 4000)) }
{
    let mut types = [0u32; 8000];
    let mut edges = [0u32; 12000];
    let mut pairs = [0u32; 4000];
    run(book, &mut types, &mut edges, &mut pairs, out)
}

// Puts what is to be printed for the bytes that were read.
fn answer(book: &[u8], out: &mut [u8]) -> usize
    requires { 312064 ≤ length out.old }
    ensures upper_bound { result ≤ length out.new }
    ensures out_after { take result out.new ≡ output book.now }
{
    if 65536 < book.len() {
        return put_line(out, 0, b"long", &[]);
    }
    run_whole(book, out)
}

// Answers the book on standard input; what cannot be read or written is told on standard error.
fn serve(rt: &HostRuntime, room: &mut [u8], out: &mut [u8]) -> io::Result<()>
    requires { 312064 ≤ length out.old }
{
    let Ok(n) = read_all(&mut rt.stdin(), room) else {
        return eprintln!(rt; "saturate: standard input cannot be read");
    };
    let k = answer(&room[..n], out);
    if rt.stdout().write_all(&out[..k]).is_err() {
        return eprintln!(rt; "saturate: standard output cannot be written");
    }
    Ok(())
}

// One byte more than the longest book, to tell a longer one.
fn main(rt: HostRuntime) {
    let mut room = [0u8; 65537];
    let mut out = [0u8; 312064];
    let _ = serve(&rt, &mut room, &mut out);
}
