// How a record is judged: by no other concept, by those that a role leads to, by all or by any of a part list.
ghost use Rattle.std.specs.Prelude.{◌≡◌, ◌<◌};
ghost use Rattle.judging.specs.Way.{way_of, count_of_lem, part_of, PartsInside};

use book::concept::{ConceptExpr, Parts};
use book::role::Role;
use tables::concept::part_number;

#[derive(Clone, Copy)]
pub enum Way {
    Leaf,
    Inner(Role, u32),
    Every(Parts),
    Any(Parts),
}

// The parts of the concept `whole` from part `next` on, of `count`.
#[derive(Clone, Copy)]
pub struct Left {
    pub whole: usize,
    pub way: Way,
    pub count: u32,
    pub next: u32,
}

pub(crate) fn way_of(expr: ConceptExpr) -> Way
    ensures { result ≡ way_of expr }
{
    match expr {
        ConceptExpr::Top => Way::Leaf,
        ConceptExpr::Bot => Way::Leaf,
        ConceptExpr::Atomic(_) => Way::Leaf,
        ConceptExpr::Nominal(_) => Way::Leaf,
        ConceptExpr::SelfRestriction(_) => Way::Leaf,
        ConceptExpr::Not(_) => Way::Leaf,
        ConceptExpr::And(parts) => Way::Every(parts),
        ConceptExpr::Or(parts) => Way::Any(parts),
        ConceptExpr::Some(role, c) => Way::Inner(role, c),
        ConceptExpr::All(_, _) => Way::Leaf,
        ConceptExpr::Min(_, _, _) => Way::Leaf,
        ConceptExpr::Max(_, _, _) => Way::Leaf,
    }
}

// How many parts there are to judge.
pub(crate) fn count_of(way: Way) -> u32
    ensures { result ≡ count_of_lem way }
{
    match way {
        Way::Leaf => 0,
        Way::Inner(_, _) => 1,
        Way::Every(parts) => parts.len,
        Way::Any(parts) => parts.len,
    }
}

// The number of part i.
pub fn part_of(book: &[u8], way: Way, i: u32) -> usize
    requires parts_inside { PartsInside book.now way }
    requires i_bound { i < count_of_lem way }
    ensures { result ≡ part_of book.now way i }
{
    match way {
        Way::Leaf => 0,
        Way::Inner(_, c) => c as usize,
        Way::Every(parts) => part_number(book, parts, i),
        Way::Any(parts) => part_number(book, parts, i),
    }
}
