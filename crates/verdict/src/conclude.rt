// What is read off the tables when nothing more is to be kept: clash, same pairs, and the lists.
ghost use Rattle.std.specs.Prelude.{◌≡◌, ◌||◌, ◌+◌, ◌*◌, ◌≤◌, ◌<◌, length, replicate};
ghost use Rattle.rows.specs.Table.{Table};
ghost use Rattle.rules.specs.Lists.{entries2, filled};
ghost use Rattle.tables.specs.Tables.{Labelled, Grouped};
ghost use Rattle.said.specs.Layout.{Placed, total_rows, part};
ghost use Rattle.said.specs.declared.layout.Relation.TheVariants.{Groups};
ghost use Rattle.verdict.specs.Listing.{types_of, all_edges_lem};
ghost use Rattle.verdict.specs.Verdict.{clash_in};
ghost use Rattle.verdict.specs.Conclude.{came, finishing, concluded};

use super::end::End;
use super::list::{clear, count_pairs, list_edges, list_pairs, list_types};
use super::verdict::clash;
use book::refusal::Refusal;
use rows::table::Size;
use said::layout::{Layout, Relation, part_of};

pub fn clear_all(types: &mut [u32], edges: &mut [u32], pairs: &mut [u32])
    ensures types_after { types.new ≡ replicate (length types.old) 0 }
    ensures edges_after { edges.new ≡ replicate (length edges.old) 0 }
    ensures pairs_after { pairs.new ≡ replicate (length pairs.old) 0 }
{
    clear(types, 0);
    clear(edges, 0);
    clear(pairs, 0);
}

// No clash stands, and the types, `count` of them, are listed.
fn finish(
    t: &[u64],
    size: Size,
    groups: &[u64],
    labels: &[u32],
    used: u32,
    count: u32,
    types: &mut [u32],
    edges: &mut [u32],
    pairs: &mut [u32],
) -> End
    requires table { Table size t.now }
    requires labelled { Labelled size.individuals labels.now }
    requires grouped { Grouped size.individuals labels.now groups.now }
    requires count_value { (count ≡ length (types_of size t.now)) × (used ≡ count + length (all_edges_lem size t.now)) }
    requires types_value { types.old ≡ filled (entries2 (types_of size t.now)) (length types.old) }
    requires t_in_bounds { 3 * length (all_edges_lem size t.now) ≤ length edges.old }
    ensures { came result types.new edges.new pairs.new ≡ finishing size t.now labels.now types.old edges.old pairs.old }
{
    let same = count_pairs(groups, labels, size.individuals);
    if pairs.len() < 2 * same {
        clear_all(types, edges, pairs);
        return End::Refused(Refusal::ShortPairList);
    }
    list_edges(edges, t, size);
    list_pairs(pairs, groups, labels, size.individuals);
    End::Finished(count, used - count, same as u32)
}

// Whether the tables clash, or a statement denies what they hold.
fn clashing(t: &[u64], layout: Layout, says: &[u64], leaves: &[u32], denied: bool) -> bool
    requires table { Table layout.size t.now }
    requires placed { Placed layout × (total_rows layout * 8 ≤ length says.now) × (layout.concepts ≤ length leaves.now) }
    ensures { result ≡ (clash_in layout t.now says.now leaves.now || denied) }
{
    denied || clash(t, layout, says, leaves)
}

pub fn conclude(
    t: &[u64],
    layout: Layout,
    says: &[u64],
    leaves: &[u32],
    labels: &[u32],
    used: u32,
    denied: bool,
    types: &mut [u32],
    edges: &mut [u32],
    pairs: &mut [u32],
) -> End
    requires table { Table layout.size t.now }
    requires labelled { Labelled layout.size.individuals labels.now }
    requires grouped { Grouped layout.size.individuals labels.now (part layout Groups says.now) }
    requires placed { Placed layout × (total_rows layout * 8 ≤ length says.now) × (layout.concepts ≤ length leaves.now) }
    requires used_value { used ≡ length (types_of layout.size t.now) + length (all_edges_lem layout.size t.now) }
    requires t_in_bounds { (2 * length (types_of layout.size t.now) ≤ length types.old) × (3 * length (all_edges_lem layout.size t.now) ≤ length edges.old) }
    ensures { came result types.new edges.new pairs.new ≡ concluded layout t.now says.now leaves.now labels.now denied types.old edges.old pairs.old }
{
    let size = layout.size;
    let count = list_types(types, t, size) as u32;
    if clashing(t, layout, says, leaves, denied) {
        clear_all(types, edges, pairs);
        return End::Clash(count, used - count);
    }
    let groups = part_of(says, layout, Relation::Groups);
    finish(t, size, groups, labels, used, count, types, edges, pairs)
}
