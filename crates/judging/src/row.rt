// One row of eight words, changed by another. Of a row only the bits below the number of individuals count.
ghost use Rattle.std.specs.Prelude.{◌+◌, ◌*◌, ◌≤◌, length};
ghost use Rattle.judging.specs.Row.{Copied, Filled};

// Makes row k of t the row acc.
pub(crate) fn copy(t: &mut [u64], k: usize, acc: &[u64])
    requires { (8 ≤ length acc.now) × (k * 8 + 8 ≤ length t.old) }
    ensures { Copied t.old k acc.now t.new }
{
    for w in 0..8 {
        t[k * 8 + w] = acc[w];
    }
}

// Puts every number into the row acc.
pub(crate) fn fill(acc: &mut [u64])
    requires { 8 ≤ length acc.old }
    ensures { Filled acc.old acc.new }
{
    for w in 0..8 {
        acc[w] = u64::MAX;
    }
}
