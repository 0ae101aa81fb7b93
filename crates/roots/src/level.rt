ghost use Rattle.std.specs.Prelude.{◌≡◌, ℕ, ◌+◌, ◌*◌, ◌<◌, ◌≤◌, length, take, MatchResult, slice_index_or};
ghost use Rattle.algebra.specs.Duals.{dual};
ghost use Rattle.algebra.specs.Graeffe.{tower};
ghost use Rattle.algebra.specs.Refusals.{reply};
ghost use Rattle.roots.specs.Codes.{polynomial, duals, Held};
ghost use Rattle.roots.specs.Tangents.{tangent};
ghost use Rattle.roots.specs.Roots.{levelling};

use crate::climb::{climb, start};
use crate::coefficients::Coefficients;
use algebra::code::Code;
use algebra::dual::Dual;
use algebra::field::Field;
use algebra::refusal::Refusal;

// Writes the level k of the tangent tower to the first n places of the work space, by way of its first two parts of n in turn.
pub(crate) fn rise<F: Field>(f: Coefficients<'_, F>, k: u32, work: &mut [Dual<F>])
    requires { 2 * length f.codes.now ≤ length work.old }
    ensures written { duals F.Ring (take (length f.entry.codes.now) work.new) ≡ tower (dual F.Ring.ring) (tangent F.Ring.ring (polynomial F.Ring F.Field.own f.entry.codes.now)) k }
    ensures held { (j : ℕ) (d : Dual F) → j < length f.entry.codes.now → Held F.Ring (slice_index_or work.new j d) }
{
    let n = f.codes.len();
    let (front, back) = work.split_at_mut(n);
    let back = &mut back[..n];
    if k % 2 == 0 {
        start(f, front);
    } else {
        start(f, back);
        climb(back, front);
    }
    // Two levels in each turn, not one and a swap: an invariant does not know which of two references is the front.
    for _ in 0..k / 2 {
        climb(front, back);
        climb(back, front);
    }
}

/// Writes g_k + ε t_k, the level k of the tangent tower of the polynomial of these codes, to the front of the work space.
pub fn tangent_level<F: Field>(codes: &[Code], k: u32, work: &mut [Dual<F>]) -> Result<(), Refusal>
    ensures answers { reply result ≡ levelling F.Field.order F.Field.levels codes.now k (length work.old) }
    ensures leaves { MatchResult result (λ _. (duals F.Ring (take (length codes.now) work.new) ≡ tower (dual F.Ring.ring) (tangent F.Ring.ring (polynomial F.Ring F.Field.own codes.now)) k) × ((j : ℕ) (d : Dual F) → j < length codes.now → Held F.Ring (slice_index_or work.new j d))) (λ _. work.new ≡ work.old) }
{
    let f = Coefficients::<F>::new(codes)?;
    if k > F::height() {
        return Err(Refusal::Level(k));
    }
    let needed = 2 * f.codes.len();
    if work.len() < needed {
        return Err(Refusal::Short(needed));
    }
    rise(f, k, work);
    Ok(())
}
