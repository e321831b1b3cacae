// A book cleaned.
ghost use Rattle.std.specs.Prelude.{◌≡◌};
ghost use Rattle.zamoluvel.specs.Write.{answer_code_lem, length_of};
ghost use Rattle.writer.specs.Written.{as_answer, writes};

use book::refusal::Refusal;
use writer::write::write;

fn answer_code(answer: Result<usize, Refusal>) -> u32
    ensures { result ≡ answer_code_lem (as_answer answer) }
{
    match answer {
        Ok(_) => 0,
        Err(refusal) => 100 + (refusal.number() as u32),
    }
}

fn length_of(answer: Result<usize, Refusal>) -> usize
    ensures { result ≡ length_of (as_answer answer) }
{
    match answer {
        Ok(n) => n,
        Err(_) => 0,
    }
}

// `write`, with the answer as a number and the length through a pointer.
#[unsafe(no_mangle)]
pub extern "C" fn zamoluvel_write(book: &[u8], out: &mut [u8], written: &mut usize) -> u32
    ensures value { result ≡ answer_code_lem (writes book.now out.old).answer }
    ensures written_after { written.new ≡ length_of (writes book.now out.old).answer }
    ensures out_after { out.new ≡ (writes book.now out.old).out }
{
    let answer = write(book, out);
    *written = length_of(answer);
    answer_code(answer)
}
