// What a book will need.
ghost use Rattle.std.specs.Prelude.{◌≡◌};
ghost use Rattle.zamoluvel.specs.Need.{need_code_lem, figure_in_lem};
ghost use Rattle.figure.specs.Figure.{as_answer, figure_of};

use book::refusal::Refusal;
use figure::need::figure;

fn need_code(answer: Result<u32, Refusal>) -> u32
    ensures { result ≡ need_code_lem (as_answer answer) }
{
    match answer {
        Ok(_) => 0,
        Err(refusal) => 100 + (refusal.number() as u32),
    }
}

fn figure_in(answer: Result<u32, Refusal>) -> u32
    ensures { result ≡ figure_in_lem (as_answer answer) }
{
    match answer {
        Ok(f) => f,
        Err(_) => 0,
    }
}

// `figure`, with the answer as a number and the figure through a pointer.
#[unsafe(no_mangle)]
pub extern "C" fn zamoluvel_figure(book: &[u8], needed: &mut u32) -> u32
    ensures value { result ≡ need_code_lem (figure_of book.now) }
    ensures needed_after { needed.new ≡ figure_in_lem (figure_of book.now) }
{
    let answer = figure(book);
    *needed = figure_in(answer);
    need_code(answer)
}
