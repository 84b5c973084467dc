//! An operation, at each place of its operands.
ghost use Rattle.std.specs.Prelude.{◌≡◌, ◌<◌, ℕ, pos, length, get_or};
ghost use Rattle.pl_spec.specs.Rounding.{IsCell};
ghost use Rattle.pl_pointwise.specs.Operands.{AreCells};

// What f gives for each cell.
pub(crate) fn at_each<F: Fn(i64) -> i64>(f: F, a: &[i64], out: &mut [i64])
    requires callable { (x : _) → IsCell x → F.pre f x }
    requires cells { AreCells (length out.old) a.now }
    ensures length { length out.new ≡ length out.old }
    ensures values { (k : ℕ) → k < length out.old →
        F.post f (get_or a.now k (pos 0)) (get_or out.new k (pos 0)) }
{
    for at in 0..out.len() {
        out[at] = f(a[at]);
    }
}

// What f gives for each two cells at one place.
pub(crate) fn at_each_pair<F: Fn(i64, i64) -> i64>(f: F, a: &[i64], b: &[i64], out: &mut [i64])
    requires callable { (x y : _) → IsCell x → IsCell y → F.pre f x y }
    requires left { AreCells (length out.old) a.now }
    requires right { AreCells (length out.old) b.now }
    ensures length { length out.new ≡ length out.old }
    ensures values { (k : ℕ) → k < length out.old →
        F.post f (get_or a.now k (pos 0)) (get_or b.now k (pos 0)) (get_or out.new k (pos 0)) }
{
    for at in 0..out.len() {
        out[at] = f(a[at], b[at]);
    }
}
