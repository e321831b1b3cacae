// Is this individual of that concept?
ghost use Rattle.std.specs.Prelude.{◌≡◌, set};
ghost use Rattle.book.specs.Book.{Book, accepted, decode};
ghost use Rattle.rules.specs.Spoken.{reader as named, anyone_on, reader_on, spoken};
ghost use Rattle.member.specs.Answer.{member, member_for};
ghost use Rattle.member.specs.Judgement.{Judgement};
ghost use Rattle.judge.specs.Answered.{answer_of};
ghost use Rattle.zamoluvel.specs.Is.{answer_code_lem, types_in, edges_in_lem, pairs_in_lem, counts_in};

use super::run::{code_of, counts_of};
use heed::names::{Names, Reader};
use judge::answer::{Answer, Question};
use judge::judge::{judge, judge_as};

fn answer_code(answer: Answer) -> u32
    ensures { result ≡ answer_code_lem (answer_of answer) }
{
    match answer {
        Answer::Shown(_, _, _) => 3,
        Answer::NotShown(_, _, _) => 4,
        Answer::Ended(end) => code_of(end),
    }
}

// The counts of the run.
fn counts_of_run(answer: Answer) -> (u32, u32, u32)
    ensures { result ≡ (types_in (answer_of answer), edges_in_lem (answer_of answer), pairs_in_lem (answer_of answer)) }
{
    match answer {
        Answer::Shown(types, edges, pairs) | Answer::NotShown(types, edges, pairs) => {
            (types, edges, pairs)
        }
        Answer::Ended(end) => counts_of(end),
    }
}

// Makes entry i so, if there is one.
pub fn put(counts: &mut [u32], i: usize, count: u32)
    ensures { counts.new ≡ set counts.old i count }
{
    if i < counts.len() {
        counts[i] = count;
    }
}

// Makes the first three entries the counts of an answer.
fn put_counts(counts: &mut [u32], answer: Answer)
    ensures { counts.new ≡ counts_in (answer_of answer) counts.old }
{
    let (types, edges, pairs) = counts_of_run(answer);
    put(counts, 0, types);
    put(counts, 1, edges);
    put(counts, 2, pairs);
}

// `judge`, with the answer as a number, and its counts in the first three entries of a list.
#[unsafe(no_mangle)]
pub extern "C" fn zamoluvel_is(
    book: &[u8],
    budget: u64,
    types: &mut [u32],
    edges: &mut [u32],
    pairs: &mut [u32],
    individual: u32,
    concept: u32,
    counts: &mut [u32],
) -> u32
    ensures value { result ≡ answer_code_lem (member book.now budget types.old edges.old pairs.old individual concept).answer }
    ensures counts_after { counts.new ≡ counts_in (member book.now budget types.old edges.old pairs.old individual concept).answer counts.old }
    ensures types_after { types.new ≡ (member book.now budget types.old edges.old pairs.old individual concept).types }
    ensures edges_after { edges.new ≡ (member book.now budget types.old edges.old pairs.old individual concept).edges }
    ensures pairs_after { pairs.new ≡ (member book.now budget types.old edges.old pairs.old individual concept).pairs }
    ensures judgement { (B : Book) → decode book.now ≡ accepted B → Judgement B individual concept (member book.now budget types.old edges.old pairs.old individual concept).answer }
{
    let answer = judge(book, budget, types, edges, pairs, individual, concept);
    put_counts(counts, answer);
    answer_code(answer)
}

// `judge_as` for a reader, the same way.
#[unsafe(no_mangle)]
pub extern "C" fn zamoluvel_is_for(
    book: &[u8],
    budget: u64,
    types: &mut [u32],
    edges: &mut [u32],
    pairs: &mut [u32],
    reader: u32,
    table: &[u32],
    individual: u32,
    concept: u32,
    counts: &mut [u32],
) -> u32
    ensures value { result ≡ answer_code_lem (member_for (named reader table.now) book.now budget types.old edges.old pairs.old individual concept).answer }
    ensures counts_after { counts.new ≡ counts_in (member_for (named reader table.now) book.now budget types.old edges.old pairs.old individual concept).answer counts.old }
    ensures types_after { types.new ≡ (member_for (named reader table.now) book.now budget types.old edges.old pairs.old individual concept).types }
    ensures edges_after { edges.new ≡ (member_for (named reader table.now) book.now budget types.old edges.old pairs.old individual concept).edges }
    ensures pairs_after { pairs.new ≡ (member_for (named reader table.now) book.now budget types.old edges.old pairs.old individual concept).pairs }
    ensures judgement { (B : Book) → decode book.now ≡ accepted B → Judgement (spoken (named reader table.now) B) individual concept (member_for (named reader table.now) book.now budget types.old edges.old pairs.old individual concept).answer }
{
    let names = Names {
        reader: Some(Reader {
            number: reader,
            table,
        }),
        day: None,
    };
    let question = Question {
        individual,
        concept,
    };
    let answer = judge_as(book, budget, types, edges, pairs, names, question);
    put_counts(counts, answer);
    answer_code(answer)
}

// `judge_as` of a day, the same way.
#[unsafe(no_mangle)]
pub extern "C" fn zamoluvel_is_on(
    book: &[u8],
    budget: u64,
    types: &mut [u32],
    edges: &mut [u32],
    pairs: &mut [u32],
    day: u16,
    individual: u32,
    concept: u32,
    counts: &mut [u32],
) -> u32
    ensures value { result ≡ answer_code_lem (member_for (anyone_on day) book.now budget types.old edges.old pairs.old individual concept).answer }
    ensures counts_after { counts.new ≡ counts_in (member_for (anyone_on day) book.now budget types.old edges.old pairs.old individual concept).answer counts.old }
    ensures types_after { types.new ≡ (member_for (anyone_on day) book.now budget types.old edges.old pairs.old individual concept).types }
    ensures edges_after { edges.new ≡ (member_for (anyone_on day) book.now budget types.old edges.old pairs.old individual concept).edges }
    ensures pairs_after { pairs.new ≡ (member_for (anyone_on day) book.now budget types.old edges.old pairs.old individual concept).pairs }
    ensures judgement { (B : Book) → decode book.now ≡ accepted B → Judgement (spoken (anyone_on day) B) individual concept (member_for (anyone_on day) book.now budget types.old edges.old pairs.old individual concept).answer }
{
    let names = Names {
        reader: None,
        day: Some(day),
    };
    let question = Question {
        individual,
        concept,
    };
    let answer = judge_as(book, budget, types, edges, pairs, names, question);
    put_counts(counts, answer);
    answer_code(answer)
}

// `judge_as` for a reader of a day, the same way.
#[unsafe(no_mangle)]
pub extern "C" fn zamoluvel_is_for_on(
    book: &[u8],
    budget: u64,
    types: &mut [u32],
    edges: &mut [u32],
    pairs: &mut [u32],
    reader: u32,
    table: &[u32],
    day: u16,
    individual: u32,
    concept: u32,
    counts: &mut [u32],
) -> u32
    ensures value { result ≡ answer_code_lem (member_for (reader_on reader table.now day) book.now budget types.old edges.old pairs.old individual concept).answer }
    ensures counts_after { counts.new ≡ counts_in (member_for (reader_on reader table.now day) book.now budget types.old edges.old pairs.old individual concept).answer counts.old }
    ensures types_after { types.new ≡ (member_for (reader_on reader table.now day) book.now budget types.old edges.old pairs.old individual concept).types }
    ensures edges_after { edges.new ≡ (member_for (reader_on reader table.now day) book.now budget types.old edges.old pairs.old individual concept).edges }
    ensures pairs_after { pairs.new ≡ (member_for (reader_on reader table.now day) book.now budget types.old edges.old pairs.old individual concept).pairs }
    ensures judgement { (B : Book) → decode book.now ≡ accepted B → Judgement (spoken (reader_on reader table.now day) B) individual concept (member_for (reader_on reader table.now day) book.now budget types.old edges.old pairs.old individual concept).answer }
{
    let names = Names {
        reader: Some(Reader {
            number: reader,
            table,
        }),
        day: Some(day),
    };
    let question = Question {
        individual,
        concept,
    };
    let answer = judge_as(book, budget, types, edges, pairs, names, question);
    put_counts(counts, answer);
    answer_code(answer)
}
