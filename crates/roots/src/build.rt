ghost use Rattle.std.specs.Prelude.{◌≡◌, ◌+◌, ◌*◌, ◌≤◌, length, take, drop};
ghost use Rattle.algebra.specs.Duals.{dual};
ghost use Rattle.algebra.specs.Graeffe.{transform};
ghost use Rattle.roots.specs.Codes.{polynomial, duals};
ghost use Rattle.roots.specs.Searches.{Holds};

use crate::climb::{climb, start};
use crate::coefficients::Coefficients;
use algebra::dual::Dual;
use algebra::field::Field;

// Writes the Graeffe transform of the first n dual numbers to the next n places.
fn add_level<F: Field>(levels: &mut [Dual<F>], n: usize)
    requires { n + n ≤ length levels.old }
    ensures stays { take n levels.new ≡ take n levels.old }
    ensures written { duals F.Ring (take n (drop n levels.new)) ≡ transform (dual F.Ring.ring) (duals F.Ring (take n levels.old)) }
{
    let (low, high) = levels.split_at_mut(n);
    climb(low, &mut high[..n]);
}

// Writes the tangent tower of a polynomial to the work space, level after level.
pub(crate) fn build<F: Field>(f: Coefficients<'_, F>, work: &mut [Dual<F>])
    requires { (F.Field.levels + 1) * length f.codes.now ≤ length work.old }
    ensures { Holds F.Ring F.Field.own (polynomial F.Ring F.Field.own f.entry.codes.now) (length f.entry.codes.now) work.new }
{
    let n = f.codes.len();
    start(f, &mut work[..n]);
    let height = F::height() as usize;
    // By number: after a loop that steps on by `split_at_mut` a proof has the length of the work space alone.
    for k in 0..height {
        add_level(&mut work[k * n..], n);
    }
}
