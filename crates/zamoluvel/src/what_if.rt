// What would this statement do?
ghost use Rattle.std.specs.Prelude.{◌≡◌};
ghost use Rattle.effect.specs.Effect.{effect};
ghost use Rattle.verdict.specs.Conclude.{end_of};
ghost use Rattle.whatif.specs.Answer.{further_of};
ghost use Rattle.zamoluvel.specs.Run.{code_of};
ghost use Rattle.zamoluvel.specs.WhatIf.{further_code_lem, further_types_lem, further_edges_lem, further_pairs_lem, present_counts, copy_counts, effect_counts};

use super::is::put;
use super::run::{code_of, counts_of};
use verdict::end::End;
use whatif::what_if::what_if;

fn further_code(copy: Option<End>) -> u32
    ensures { result ≡ further_code_lem (further_of copy) }
{
    match copy {
        None => 5,
        Some(end) => code_of(end),
    }
}

// The counts of what is new; 0 where no copy was run.
fn further_counts(copy: Option<End>) -> (u32, u32, u32)
    ensures { result ≡ (further_types_lem (further_of copy), further_edges_lem (further_of copy), further_pairs_lem (further_of copy)) }
{
    match copy {
        None => (0, 0, 0),
        Some(end) => counts_of(end),
    }
}

// Makes the first three entries the counts of the present run.
fn put_present(counts: &mut [u32], end: End)
    ensures { counts.new ≡ present_counts (end_of end) counts.old }
{
    let (types, edges, pairs) = counts_of(end);
    put(counts, 0, types);
    put(counts, 1, edges);
    put(counts, 2, pairs);
}

// And the four behind them the end of the copy and the counts of what is new.
fn put_copy(counts: &mut [u32], copy: Option<End>)
    ensures { counts.new ≡ copy_counts (further_of copy) counts.old }
{
    put(counts, 3, further_code(copy));
    let (types, edges, pairs) = further_counts(copy);
    put(counts, 4, types);
    put(counts, 5, edges);
    put(counts, 6, pairs);
}

// `what_if`, with the present end as a number, and the counts and the copy's end in the first seven entries of a list.
#[unsafe(no_mangle)]
pub extern "C" fn zamoluvel_what_if(
    book: &[u8],
    line: &[u8],
    budget: u32,
    types: &mut [u32],
    edges: &mut [u32],
    pairs: &mut [u32],
    more_types: &mut [u32],
    more_edges: &mut [u32],
    more_pairs: &mut [u32],
    counts: &mut [u32],
) -> u32
    ensures value { result ≡ code_of (effect book.now line.now budget types.old edges.old pairs.old more_types.old more_edges.old more_pairs.old).present.end }
    ensures counts_after { counts.new ≡ effect_counts (effect book.now line.now budget types.old edges.old pairs.old more_types.old more_edges.old more_pairs.old) counts.old }
    ensures types_after { types.new ≡ (effect book.now line.now budget types.old edges.old pairs.old more_types.old more_edges.old more_pairs.old).present.types }
    ensures edges_after { edges.new ≡ (effect book.now line.now budget types.old edges.old pairs.old more_types.old more_edges.old more_pairs.old).present.edges }
    ensures pairs_after { pairs.new ≡ (effect book.now line.now budget types.old edges.old pairs.old more_types.old more_edges.old more_pairs.old).present.pairs }
    ensures more_types_after { more_types.new ≡ (effect book.now line.now budget types.old edges.old pairs.old more_types.old more_edges.old more_pairs.old).types }
    ensures more_edges_after { more_edges.new ≡ (effect book.now line.now budget types.old edges.old pairs.old more_types.old more_edges.old more_pairs.old).edges }
    ensures more_pairs_after { more_pairs.new ≡ (effect book.now line.now budget types.old edges.old pairs.old more_types.old more_edges.old more_pairs.old).pairs }
{
    let answer = what_if(
        book, line, budget, types, edges, pairs, more_types, more_edges, more_pairs,
    );
    let end = answer.present;
    let copy = answer.copy;
    put_present(counts, end);
    put_copy(counts, copy);
    code_of(end)
}
