// A run: its end, and what it listed.
ghost use Rattle.std.specs.Prelude.{◌≡◌, ◌+◌, ◌*◌, ◌≤◌, length, take, drop};
ghost use Rattle.verdict.specs.Listing.{Written};
ghost use Rattle.verdict.specs.Conclude.{end_of, came};
ghost use Rattle.text.specs.Text.{end_line, type_entries_lem, type_part_lem, type_lines, edge_lines, pair_lines, printed};

use super::line::{put_line, put_lines};
use saturation::part::{Named, named_part};
use verdict::end::End;

fn put_end(out: &mut [u8], at: usize, end: End) -> usize
    requires { at + 64 ≤ length out.old }
    ensures written { Written out.old at (end_line (end_of end)) out.new result }
    ensures upper_bound { result ≤ at + 64 }
{
    match end {
        End::Finished(t, e, p) => put_line(out, at, b"finished", &[t, e, p]),
        End::Clash(t, e) => put_line(out, at, b"clash", &[t, e]),
        End::Spent => put_line(out, at, b"spent", &[]),
        End::Refused(refusal) => put_line(out, at, b"refused", &[u32::from(refusal.number())]),
    }
}

// How many entries the types fill: none at any end but finished.
fn type_entries(end: End) -> usize
    ensures { result ≡ type_entries_lem (end_of end) }
{
    match end {
        End::Finished(t, _, _) => 2 * (t as usize),
        _ => 0,
    }
}

// The part of the type list that the types fill, as `named_part` gives it of the other two.
pub fn type_part<'a>(end: End, types: &'a [u32]) -> &'a [u32]
    ensures { result.now ≡ type_part_lem (end_of end) types.now }
{
    let n = type_entries(end);
    if types.len() <= n {
        return types;
    }
    &types[..n]
}

fn put_types(out: &mut [u8], at: usize, end: End, types: &[u32]) -> usize
    requires { at + 13 * length types.now ≤ length out.old }
    ensures written { Written out.old at (type_lines (end_of end) types.now) out.new result }
    ensures upper_bound { result ≤ at + 13 * length types.now }
{
    put_lines(out, at, b"t", type_part(end, types), 2)
}

fn put_edges<'a>(out: &mut [u8], at: usize, end: End, edges: &'a [u32], pairs: &'a [u32]) -> usize
    requires { at + 13 * length edges.now ≤ length out.old }
    ensures written { Written out.old at (edge_lines (end_of end) edges.now) out.new result }
    ensures upper_bound { result ≤ at + 13 * length edges.now }
{
    put_lines(
        out,
        at,
        b"e",
        named_part(end, Named::Edges, edges, pairs),
        3,
    )
}

fn put_pairs<'a>(out: &mut [u8], at: usize, end: End, edges: &'a [u32], pairs: &'a [u32]) -> usize
    requires { at + 13 * length pairs.now ≤ length out.old }
    ensures written { Written out.old at (pair_lines (end_of end) pairs.now) out.new result }
    ensures upper_bound { result ≤ at + 13 * length pairs.now }
{
    put_lines(
        out,
        at,
        b"s",
        named_part(end, Named::Pairs, edges, pairs),
        2,
    )
}

// Puts the whole text of a run, from its end and the lists as it left them; how many bytes. What stands behind it stays.
pub fn put_run<'a>(
    end: End,
    types: &[u32],
    edges: &'a [u32],
    pairs: &'a [u32],
    out: &mut [u8],
) -> usize
    requires { 64 + 13 * (length types.now + (length edges.now + length pairs.now)) ≤ length out.old }
    ensures upper_bound { (result ≤ length out.new) × (result ≡ length (take result out.new)) }
    ensures out_after { take result out.new ≡ printed (came end types.now edges.now pairs.now) }
    ensures out_unchanged { drop result out.new ≡ drop result out.old }
{
    let first = put_end(out, 0, end);
    let second = put_types(out, first, end, types);
    let third = put_edges(out, second, end, edges, pairs);
    put_pairs(out, third, end, edges, pairs)
}
