// How a run ends.

use book::refusal::Refusal;

// Finished with its type, edge and pair counts; clash with its type and edge counts; spent; refused, and why.
#[derive(Clone, Copy, Debug, PartialEq, Eq)]
pub enum End {
    Finished(u32, u32, u32),
    Clash(u32, u32),
    Spent,
    Refused(Refusal),
}
