// The checker of rows.
ghost use Rattle.std.specs.Prelude.{◌≡◌};
ghost use Rattle.derivation.specs.Accept.{judged};
ghost use Rattle.derivation.specs.Judging.{as_judged};
ghost use Rattle.zamoluvel.specs.Rows.{judged_code, judged_rows};

use book::refusal::Refusal;
use derivation::check::check_rows;

fn judgement_code(judgement: Result<usize, Refusal>) -> u32
    ensures { result ≡ judged_code (as_judged judgement) }
{
    match judgement {
        Ok(_) => 0,
        Err(refusal) => 100 + (refusal.number() as u32),
    }
}

fn rows_standing(judgement: Result<usize, Refusal>) -> usize
    ensures { result ≡ judged_rows (as_judged judgement) }
{
    match judgement {
        Ok(n) => n,
        Err(_) => 0,
    }
}

// `check_rows`, with the answer as a number and how many rows stand through a pointer.
#[unsafe(no_mangle)]
pub extern "C" fn zamoluvel_check_rows(book: &[u8], rows: &[u32], standing: &mut usize) -> u32
    ensures value { result ≡ judged_code (judged book.now rows.now) }
    ensures standing_after { standing.new ≡ judged_rows (judged book.now rows.now) }
{
    let judgement = check_rows(book, rows);
    *standing = rows_standing(judgement);
    judgement_code(judgement)
}
