// A statement record by itself.
ghost use Rattle.std.specs.Prelude.{◌≡◌};
ghost use Rattle.book.specs.Read.{as_read};
ghost use Rattle.effect.specs.Copy.{one_record};

use book::header::Counts;
use book::refusal::Refusal;
use book::statement::{Statement, statement_at};

// The record with nothing behind it: what a copy of an accepted book with these counts would read behind its statements.
#[tactic(auto, using(book::proofs::Stops::stops_read), unfolding(effect::specs::Copy::one_record))]
pub fn record_at(line: &[u8], counts: Counts) -> Result<(Statement, usize), Refusal>
    ensures { as_read result ≡ one_record counts line.now 0 }
{
    let (statement, next) = statement_at(line, 0, counts)?;
    if next < line.len() {
        return Err(Refusal::BytesBehind);
    }
    Ok((statement, next))
}
