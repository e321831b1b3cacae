// The answer, and how it follows from the end of a run.
ghost use Rattle.std.specs.Prelude.{◌≡◌, Bool, ◌*◌, ◌≤◌, ◌<◌, length};
ghost use Rattle.rows.specs.Table.{Table};
ghost use Rattle.rules.specs.Brought.{concept as tree};
ghost use Rattle.tables.specs.Open.{book_of, size_of, Open};
ghost use Rattle.said.specs.Layout.{layout_of, total_rows, part};
ghost use Rattle.said.specs.declared.layout.Relation.TheVariants.{Groups};
ghost use Rattle.verdict.specs.Conclude.{end_of};
ghost use Rattle.verdict.specs.declared.end.End.TheVariants as end;
ghost use Rattle.member.specs.Answer.{judged};
ghost use Rattle.judging.specs.Memo.{Ready, shown_by};
ghost use Rattle.judge.specs.Answered.{answer_of};

use book::header::Counts;
use judging::concept::shown;
use said::layout::{Relation, layout_of, part_of};
use tables::opened::OpenBook;
use verdict::end::End;

// Shown or not, with the counts of the finished run; or the end of a run that does not finish.
#[derive(Clone, Copy)]
pub enum Answer {
    Shown(u32, u32, u32),
    NotShown(u32, u32, u32),
    Ended(End),
}

// What is asked: whether the concept is shown for the individual.
#[derive(Clone, Copy)]
pub struct Question {
    pub individual: u32,
    pub concept: u32,
}

// With so many words for the rows of concepts.
fn shown_in<const R: usize>(
    book: OpenBook<'_>,
    t: &[u64],
    groups: &[u64],
    question: Question,
) -> bool
    requires ready { Ready book.bytes.now book.counts book.offsets.now t.now groups.now }
    requires concept_lt_concepts { (question.concept < book.counts.concepts) × (question.individual < book.counts.individuals) }
    requires rows { (book.counts.concepts * 8 ≤ R) × (R ≤ 32768) }
    ensures { result ≡ shown_by book.entry.counts t.now groups.now (tree (book_of book.entry.bytes.now) question.concept) question.individual }
{
    let mut rows = [0u64; R];
    let mut done = [0u64; 64];
    let k = question.concept as usize;
    let i = question.individual as usize;
    shown(book, t, groups, &mut rows, &mut done, k, i)
}

fn is_shown(book: OpenBook<'_>, t: &[u64], groups: &[u64], question: Question) -> bool
    requires ready { Ready book.bytes.now book.counts book.offsets.now t.now groups.now }
    requires concept_lt_concepts { (question.concept < book.counts.concepts) × (question.individual < book.counts.individuals) }
    ensures { result ≡ shown_by book.entry.counts t.now groups.now (tree (book_of book.entry.bytes.now) question.concept) question.individual }
{
    if book.counts.concepts <= 64 {
        return shown_in::<512>(book, t, groups, question);
    }
    shown_in::<32768>(book, t, groups, question)
}

fn finished(shown: bool, types: u32, edges: u32, pairs: u32) -> Answer
    ensures { answer_of result ≡ judged shown (end_of (end.Finished types edges pairs)) }
{
    if shown {
        return Answer::Shown(types, edges, pairs);
    }
    Answer::NotShown(types, edges, pairs)
}

// The answer of a run that left the links t and the rows `says`, and ended so.
pub(crate) fn give_answer(
    book: OpenBook<'_>,
    t: &[u64],
    says: &[u64],
    question: Question,
    end: End,
) -> Answer
    requires table { Table (size_of book.counts) t.now }
    requires counts_in_bounds { total_rows (layout_of book.counts) * 8 ≤ length says.now }
    requires concept_lt_concepts { (question.concept < book.counts.concepts) × (question.individual < book.counts.individuals) }
    ensures { answer_of result ≡ judged (shown_by book.entry.counts t.now (part (layout_of book.entry.counts) Groups says.now) (tree (book_of book.entry.bytes.now) question.concept) question.individual) (end_of end) }
{
    let End::Finished(types, edges, pairs) = end else {
        return Answer::Ended(end);
    };
    let groups = part_of(says, layout_of(book.counts), Relation::Groups);
    let shown = is_shown(book, t, groups, question);
    finished(shown, types, edges, pairs)
}
