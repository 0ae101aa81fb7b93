ghost use Rattle.std.specs.Prelude.{◌≡◌, ℕ, ◌<◌, ◌≤◌, length, slice_index_or};
ghost use Rattle.roots.specs.Division.{Multiplicity};
ghost use Rattle.roots.specs.Codes.{polynomial};
ghost use Rattle.roots.specs.Rows.{row, partial};

use crate::climb::start;
use crate::coefficients::Coefficients;
use algebra::dual::Dual;
use algebra::field::{Field, field_laws};

// Divides the polynomial of the first parts by x - a, in place and from the top:
// the remainder, which is its value at a, then stands first, and the quotient above it.
fn divide<F: Field>(level: &mut [Dual<F>], a: F)
    ensures { (j : ℕ) (d : Dual F) → j < length level.new → F.Ring.value (slice_index_or level.new j d).re ≡ partial F.Ring.ring (F.Ring.value a) (row F.Ring level.old) j }
{
    let mut above = F::zero();
    // By index: what a reversed `iter_mut` has written is not known to proofs.
    for i in (0..level.len()).rev() {
        above = level[i].re.add(a.mul(above));
        level[i].re = above;
    }
}

// The largest e for which (x - a)^e divides the polynomial.
pub(crate) fn multiplicity<F: Field>(f: Coefficients<'_, F>, work: &mut [Dual<F>], a: F) -> u32
    requires { length f.codes.now ≤ length work.old }
    ensures { Multiplicity F.Ring.ring (polynomial F.Ring F.Field.own f.entry.codes.now) (F.Ring.value a) result }
{
    let _order = field_laws::<F>();
    let n = f.codes.len();
    start(f, &mut work[..n]);
    // By number: how many divisions leave no remainder is the answer, and each goes on one place further.
    for e in 0..n {
        divide(&mut work[e..n], a);
        if !work[e].re.same(F::zero()) {
            return e as u32;
        }
    }
    n as u32
}
