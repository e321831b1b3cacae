// Which statements count.
ghost use Rattle.std.specs.Prelude.{◌≡◌, ◌<◌, length};
ghost use Rattle.rules.specs.Spoken.{readable, readable_by, in_force_lem, in_force_on, heeded};
ghost use Rattle.heed.specs.Names.{bit_at, who_of, day_of, reader_of, Ready, Step};

use super::names::{Names, Reader};
use book::header::Counts;
use book::reader::next_statement;
use book::statement::Statement;

fn bit(word: u32, r: u32) -> bool
    requires { r < 32 }
    ensures { result ≡ bit_at word r }
{
    (word >> r) % 2 == 1
}

// The word of source 0 is never looked at.
#[tactic(auto, unfolding(rules::specs::Spoken::readable))]
fn may_read(statement: Statement, reader: Reader) -> bool
    requires { (reader.number < 32) × (statement.source < length reader.table.now) }
    ensures { result ≡ readable reader.entry.number reader.entry.table.now statement }
{
    let source = statement.source as usize;
    source == 0 || bit(reader.table[source], reader.number)
}

// Whether the reader that a run names may read a statement.
fn read(statement: Statement, names: Names) -> bool
    requires { Ready names × (statement.source < 1024) }
    ensures { result ≡ readable_by (who_of names.entry) statement }
{
    match names.reader {
        Some(reader) => may_read(statement, reader),
        None => true,
    }
}

// Both days belong to the period.
#[tactic(auto, unfolding(rules::specs::Spoken::in_force_lem))]
fn in_force(statement: Statement, day: u16) -> bool
    ensures { result ≡ in_force_lem day statement }
{
    let here = day as u32;
    statement.first <= here && here <= statement.last
}

// Whether a statement is in force on the day that a run names.
fn current(statement: Statement, names: Names) -> bool
    ensures { result ≡ in_force_on (day_of names.entry) statement }
{
    match names.day {
        Some(day) => in_force(statement, day),
        None => true,
    }
}

// Whether a statement counts.
#[tactic(auto, unfolding(rules::specs::Spoken::heeded))]
pub fn heeds(statement: Statement, names: Names) -> bool
    requires { Ready names × (statement.source < 1024) }
    ensures { result ≡ heeded (reader_of names.entry) statement }
{
    current(statement, names) && read(statement, names)
}

// The next statement that counts, from an offset on, each put to the test.
fn next_named(book: &[u8], at: usize, counts: Counts, names: Names) -> Option<(Statement, usize)>
    requires { Ready names }
    ensures { Step book.now counts (reader_of names.entry) at result }
{
    let mut here = at;
    while here < book.len() {
        let (statement, next) = next_statement(book, here, counts)?;
        if heeds(statement, names) {
            return Some((statement, next));
        }
        here = next;
    }
    None
}

// The next statement that counts, from an offset on. Where no reader is named and no day, every one does.
pub fn next_heeded(
    book: &[u8],
    at: usize,
    counts: Counts,
    names: Names,
) -> Option<(Statement, usize)>
    requires { Ready names }
    ensures { Step book.now counts (reader_of names.entry) at result }
{
    if names.reader.is_some() || names.day.is_some() {
        return next_named(book, at, counts, names);
    }
    if at < book.len() {
        return next_statement(book, at, counts);
    }
    None
}
