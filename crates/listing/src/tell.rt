// The told-same classes, as rows behind the table of links.
ghost use Rattle.std.specs.Prelude.{◌≡◌, ◌+◌, ◌*◌, ◌≤◌, ◌<◌, length};
ghost use Rattle.rows.specs.Table.{Sized};
ghost use Rattle.tables.specs.Open.{size_of};
ghost use Rattle.steps.specs.Written.{class_row_lem};
ghost use Rattle.listing.specs.Told.{ToldOne, ToldRow, ToldRows};

use book::header::Counts;
use rows::row::insert;
use steps::mark::class_row;
use tables::size::size_of;

// Puts j into row k if i and j have one label.
fn tell_one(t: &mut [u64], labels: &[u32], i: usize, k: usize, j: usize)
    requires { (k * 8 + 8 ≤ length t.old) × (j < 512) × (i < length labels.now) × (j < length labels.now) }
    ensures { ToldOne labels.now i k j t.old t.new }
{
    if labels[i] == labels[j] {
        insert(t, k, j);
    }
}

// And so each of n individuals.
fn tell_row(t: &mut [u64], labels: &[u32], i: usize, k: usize, n: usize)
    requires { (k * 8 + 8 ≤ length t.old) × (n ≤ 512) × (i < n) × (n ≤ length labels.now) }
    ensures { ToldRow labels.now i k n t.old t.new }
{
    for j in 0..n {
        tell_one(t, labels, i, k, j);
    }
}

// Puts into the row of each individual those that have one label with it.
pub(crate) fn tell_classes(t: &mut [u64], counts: Counts, labels: &[u32])
    requires { Sized (size_of counts) × (class_row_lem counts counts.individuals * 8 ≤ length t.old) × (counts.individuals ≤ length labels.now) }
    ensures { ToldRows counts labels.now counts.individuals t.old t.new }
{
    let n = counts.individuals as usize;
    for i in 0..n {
        tell_row(t, labels, i, class_row(size_of(counts), i), n);
    }
}
