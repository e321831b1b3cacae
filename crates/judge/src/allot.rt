// Words for the tables, as many as a book's counts ask for, as a run allots them; and at the end of the run the question is answered.
ghost use Rattle.std.specs.Prelude.{◌≡◌, ◌<◌};
ghost use Rattle.book.specs.Reader.{rest};
ghost use Rattle.tables.specs.Open.{book_of, Open};
ghost use Rattle.heed.specs.Names.{reader_of, Ready};
ghost use Rattle.member.specs.Shown.{shown_in};
ghost use Rattle.member.specs.Answer.{answered};
ghost use Rattle.saturation.specs.Lists.{Same, over};
ghost use Rattle.saturation.specs.Run.{heard_book, outcome_on, Admitted, Holding};
ghost use Rattle.judge.specs.Answered.{gave};

use super::answer::{Answer, Question, give_answer};
use heed::names::Names;
use saturation::allot::wanted;
use saturation::enter::Task;
use saturation::lists::Lists;
use saturation::run::{draw, read_off};
use tables::opened::OpenBook;

// A run in tables of so many words for links, words for what is said, bytes for chains, labels and leaves; and then the answer.
// Never inlined, so that each size has a frame of its own and a small book does not walk over the largest.
#[inline(never)]
fn run_in<const T: usize, const S: usize, const C: usize, const L: usize, const K: usize>(
    book: OpenBook<'_>,
    task: Task,
    names: Names,
    lists: &mut Lists,
    question: Question,
) -> Answer
    requires from_value { rest book.bytes.now book.counts task.from ≡ (book_of book.bytes.now).statements }
    requires ready { Ready names }
    requires admitted { Admitted task.budget lists.old.types.now lists.old.edges.now }
    requires concept_lt_concepts { (question.concept < book.counts.concepts) × (question.individual < book.counts.individuals) }
    requires enough { Holding book.counts T S C L K }
    ensures same { Same lists.old lists.new }
    ensures answer { over (gave result) lists.new ≡ answered (shown_in (heard_book (reader_of names.entry) book.entry.bytes.now) question.individual question.concept) (over (outcome_on (heard_book (reader_of names.entry) book.entry.bytes.now) task.budget) lists.old) }
{
    let mut t = [0u64; T];
    let mut says = [0u64; S];
    let mut chains = [0u8; C];
    let mut labels = [0u32; L];
    let mut leaves = [0u32; K];
    let drawn = draw(
        book,
        task,
        names,
        &mut leaves,
        &mut says,
        &mut chains,
        &mut labels,
        &mut t,
    );
    let end = read_off(&t, book.counts, task, &says, &leaves, &labels, drawn, lists);
    give_answer(book, &t, &says, question, end)
}

// As many words as the book asks for.
pub(crate) fn allot(
    book: OpenBook<'_>,
    task: Task,
    names: Names,
    lists: &mut Lists,
    question: Question,
) -> Answer
    requires from_value { rest book.bytes.now book.counts task.from ≡ (book_of book.bytes.now).statements }
    requires ready { Ready names }
    requires admitted { Admitted task.budget lists.old.types.now lists.old.edges.now }
    requires concept_lt_concepts { (question.concept < book.counts.concepts) × (question.individual < book.counts.individuals) }
    ensures same { Same lists.old lists.new }
    ensures answer { over (gave result) lists.new ≡ answered (shown_in (heard_book (reader_of names.entry) book.entry.bytes.now) question.individual question.concept) (over (outcome_on (heard_book (reader_of names.entry) book.entry.bytes.now) task.budget) lists.old) }
{
    let size = wanted(book.counts);
    if size == 0 {
        return run_in::<512, 1416, 256, 16, 64>(book, task, names, lists, question);
    }
    if size == 1 {
        return run_in::<16384, 75784, 16384, 512, 4096>(book, task, names, lists, question);
    }
    if size == 2 {
        return run_in::<131072, 75784, 16384, 512, 4096>(book, task, names, lists, question);
    }
    run_in::<531480, 75784, 16384, 512, 4096>(book, task, names, lists, question)
}
