ghost use Rattle.std.specs.Prelude.{◌≡◌, ◌^◌, ◌≢◌, List};
ghost use Rattle.algebra.specs.Rings.{number};
ghost use Rattle.algebra.specs.Duals.{dual};
ghost use Rattle.algebra.specs.Polynomials.{eval};
ghost use Rattle.algebra.specs.Graeffe.{tower};
ghost use Rattle.roots.specs.Codes.{duals};
ghost use Rattle.roots.specs.Slopes.{slope, reals, epsilons};
ghost use Rattle.roots.specs.Tangents.{tangent};
ghost use Rattle.roots.specs.Verdicts.{Judged};

use crate::verdict::Verdict;
use algebra::dual::Dual;
use algebra::field::{Field, field_laws, whole};
use algebra::power::power;

// What a level of the tangent tower is at an element: its value, its derivative and its tangent.
#[derive(Clone, Copy)]
struct Trial<F> {
    value: F,
    slope: F,
    tangent: F,
}

fn evaluate<F: Field>(level: &[Dual<F>], x: F) -> Trial<F>
    ensures value { F.Ring.value result.value ≡ eval F.Ring.ring (reals (duals F.Ring level.now)) (F.Ring.value x) }
    ensures slope { F.Ring.value result.slope ≡ slope F.Ring.ring (reals (duals F.Ring level.now)) (F.Ring.value x) }
    ensures tangent { F.Ring.value result.tangent ≡ eval F.Ring.ring (epsilons (duals F.Ring level.now)) (F.Ring.value x) }
{
    let mut value = F::zero();
    let mut slope = F::zero();
    let mut tangent = F::zero();
    for d in level.iter().rev() {
        slope = value.add(x.mul(slope));
        value = d.re.add(x.mul(value));
        tangent = d.eps.add(x.mul(tangent));
    }
    Trial {
        value,
        slope,
        tangent,
    }
}

// The element whose product with the tangent is 2^k x slope, where the tangent is not zero.
fn lifted<F: Field>(k: u32, x: F, slope: F, tangent: F) -> F
    ensures { F.Ring.value tangent ≢ F.Ring.ring.nought → F.Ring.ring.times (F.Ring.value result) (F.Ring.value tangent) ≡ F.Ring.ring.times (number F.Ring.ring (2 ^ k)) (F.Ring.ring.times (F.Ring.value x) (F.Ring.value slope)) }
{
    let scaled = power(whole::<F>(2), k).mul(x.mul(slope));
    scaled.mul(tangent.inverse())
}

// Tries the level k of a tangent tower at x.
pub(crate) fn judge<F: Field>(level: &[Dual<F>], k: u32, x: F) -> Verdict
    requires { F.Ring.value x ≢ F.Ring.ring.nought }
    ensures { (f : List F.Ring.ring.V) → duals F.Ring level.now ≡ tower (dual F.Ring.ring) (tangent F.Ring.ring f) k → Judged F.Ring F.Field.own f k (F.Ring.value x) result }
{
    let _order = field_laws::<F>();
    let tried = evaluate(level, x);
    if !tried.value.same(F::zero()) {
        return Verdict::Nothing;
    }
    if k == 0 {
        return Verdict::Root(x.to_code());
    }
    if tried.slope.same(F::zero()) {
        return Verdict::Both;
    }
    Verdict::Root(lifted(k, x, tried.slope, tried.tangent).to_code())
}
