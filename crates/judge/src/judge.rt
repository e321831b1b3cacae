// The open functions.
ghost use Rattle.std.specs.Prelude.{◌≡◌};
ghost use Rattle.book.specs.Book.{Book, accepted as acceptedBook, decode};
ghost use Rattle.book.specs.Reader.{rest};
ghost use Rattle.rules.specs.Spoken.{spoken};
ghost use Rattle.tables.specs.Open.{book_of, Open};
ghost use Rattle.heed.specs.Names.{reader_of, Ready};
ghost use Rattle.member.specs.Answer.{member, member_for};
ghost use Rattle.member.specs.Judgement.{Judgement};
ghost use Rattle.saturation.specs.Lists.{Same, over};
ghost use Rattle.saturation.specs.Run.{Admitted};
ghost use Rattle.judge.specs.Answered.{answer_of, answered, gave};

use super::allot::allot;
use super::answer::{Answer, Question};
use book::check::check_book;
use book::refusal::Refusal;
use heed::names::{Names, fault};
use saturation::enter::Task;
use saturation::lists::Lists;
use tables::opened::OpenBook;
use verdict::end::End;

// The book is accepted and open: its own refusal of the question stands before the run.
fn run_accepted(
    book: OpenBook<'_>,
    task: Task,
    names: Names,
    lists: &mut Lists,
    question: Question,
) -> Result<Answer, Refusal>
    requires from_value { rest book.bytes.now book.counts task.from ≡ (book_of book.bytes.now).statements }
    requires ready { Ready names }
    requires admitted { Admitted task.budget lists.old.types.now lists.old.edges.now }
    ensures same { Same lists.old lists.new }
    ensures answer { over (gave (answered result)) lists.new ≡ over (λ ts es ps. member_for (reader_of names.entry) book.entry.bytes.now task.budget ts es ps question.individual question.concept) lists.old }
{
    let counts = book.counts;
    if question.individual >= counts.individuals as u32 {
        return Err(Refusal::NoSuchQuestion);
    }
    if question.concept >= counts.concepts as u32 {
        return Err(Refusal::NoSuchQuestion);
    }
    Ok(allot(book, task, names, lists, question))
}

// Refused before the run, or as the run answers. No book has more concepts than there are offsets.
fn run(
    book: &[u8],
    budget: u64,
    names: Names,
    lists: &mut Lists,
    question: Question,
) -> Result<Answer, Refusal>
    ensures same { Same lists.old lists.new }
    ensures answer { over (gave (answered result)) lists.new ≡ over (λ ts es ps. member_for (reader_of names.entry) book.now budget ts es ps question.individual question.concept) lists.old }
{
    let admitted = lists.admit(budget)?;
    fault(names)?;
    let mut offsets = [0usize; 4096];
    let (counts, from) = check_book(book, &mut offsets)?;
    let open = OpenBook {
        bytes: book,
        offsets: &offsets,
        counts,
    };
    let task = Task {
        from,
        budget: admitted,
    };
    run_accepted(open, task, names, lists, question)
}

// Whether the concept is shown for the individual, in the run for what is named: a reader with his table, a day, both or neither. The clauses are those of `judge`, of the book that has only the statements that count.
pub fn judge_as(
    book: &[u8],
    budget: u64,
    types: &mut [u32],
    edges: &mut [u32],
    pairs: &mut [u32],
    names: Names,
    question: Question,
) -> Answer
    ensures pairs_after { gave result types.new edges.new pairs.new ≡ member_for (reader_of names.entry) book.now budget types.old edges.old pairs.old question.individual question.concept }
    ensures judgement { (B : Book) → decode book.now ≡ acceptedBook B → Judgement (spoken (reader_of names.entry) B) question.individual question.concept (answer_of result) }
{
    let mut lists = Lists {
        types,
        edges,
        pairs,
    };
    match run(book, budget, names, &mut lists, question) {
        Ok(answer) => answer,
        Err(refusal) => Answer::Ended(End::Refused(refusal)),
    }
}

// Whether the concept is shown for the individual: any bytes, any budget, any lists, any numbers. The clauses: answer and lists are the defined ones; and
// what is shown holds in every world that fits the book, and on a plain book, of a concept built of the kinds that can be shown, what is not shown fails in
// some world that does.
pub fn judge(
    book: &[u8],
    budget: u64,
    types: &mut [u32],
    edges: &mut [u32],
    pairs: &mut [u32],
    individual: u32,
    concept: u32,
) -> Answer
    ensures pairs_after { gave result types.new edges.new pairs.new ≡ member book.now budget types.old edges.old pairs.old individual concept }
    ensures judgement { (B : Book) → decode book.now ≡ acceptedBook B → Judgement B individual concept (answer_of result) }
{
    let names = Names {
        reader: None,
        day: None,
    };
    let question = Question {
        individual,
        concept,
    };
    judge_as(book, budget, types, edges, pairs, names, question)
}
