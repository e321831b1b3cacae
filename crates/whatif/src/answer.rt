// The answer, and what the copy comes to before its run.
ghost use Rattle.std.specs.Prelude.{◌≡◌, ◌≤◌};
ghost use Rattle.book.specs.Read.{as_read};
ghost use Rattle.verdict.specs.Conclude.{end_of};
ghost use Rattle.whatif.specs.Begun.{Begun};

use book::refusal::Refusal;
use book::statement::Statement;
use verdict::end::End;

// How the present run ends, and the copy's, with what it has beyond the present one: it is run only where that finishes.
#[derive(Clone, Copy)]
pub struct Prospect {
    pub present: End,
    pub copy: Option<End>,
}

// No copy is to be run; or it is refused, or run with this statement. In order: the present run has not finished; the lists for the copy are too short; the
// 4,097th statement; the fault of the record.
pub fn begin(
    present: End,
    statements: u16,
    budget: u32,
    read: Result<(Statement, usize), Refusal>,
    edges: usize,
    types: usize,
) -> Option<Result<Statement, Refusal>>
    requires { budget ≤ 1000000 }
    ensures { Begun (end_of present) statements budget (as_read read) edges types result }
{
    let End::Finished(t, e, p) = present else {
        return None;
    };
    if edges < 3 * (budget as usize) {
        return Some(Err(Refusal::ShortEdgeList));
    }
    if types < 2 * (budget as usize) {
        return Some(Err(Refusal::ShortTypeList));
    }
    if statements >= 4096 {
        return Some(Err(Refusal::TooMany));
    }
    match read {
        Ok((statement, next)) => Some(Ok(statement)),
        Err(refusal) => Some(Err(refusal)),
    }
}
