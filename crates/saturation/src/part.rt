// The named list: the part of the edge list or of the pair list that the facts fill.
ghost use Rattle.std.specs.Prelude.{◌≡◌, ◌*◌, take};
ghost use Rattle.rules.specs.Ends.{edge_entries_lem, pair_entries_lem};
ghost use Rattle.verdict.specs.Conclude.{end_of};
ghost use Rattle.saturation.specs.Part.{part_of};

use verdict::end::End;

#[derive(Clone, Copy)]
pub enum Named {
    Edges,
    Pairs,
}

// How many entries the edges fill: none at any end but finished.
fn edge_entries(end: End) -> usize
    ensures { result ≡ edge_entries_lem (end_of end) }
{
    match end {
        End::Finished(_, e, _) => 3 * (e as usize),
        _ => 0,
    }
}

fn pair_entries(end: End) -> usize
    ensures { result ≡ pair_entries_lem (end_of end) }
{
    match end {
        End::Finished(_, _, p) => 2 * (p as usize),
        _ => 0,
    }
}

// The first n entries, or all if there are fewer.
fn front<'a>(list: &'a [u32], n: usize) -> &'a [u32]
    ensures { result.now ≡ take n list.now }
{
    if list.len() <= n {
        return list;
    }
    &list[..n]
}

// The lists as a run left them, and its end: the part of the named one that its facts fill, empty at any end but finished.
pub fn named_part<'a>(end: End, named: Named, edges: &'a [u32], pairs: &'a [u32]) -> &'a [u32]
    ensures { result.now ≡ part_of named (end_of end) edges.now pairs.now }
{
    match named {
        Named::Edges => front(edges, edge_entries(end)),
        Named::Pairs => front(pairs, pair_entries(end)),
    }
}
