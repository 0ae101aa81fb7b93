ghost use Rattle.std.specs.Prelude.{◌≡◌, ℕ, ◌<◌, length, slice_index_or};
ghost use Rattle.algebra.specs.Duals.{dual};
ghost use Rattle.algebra.specs.Graeffe.{transform};
ghost use Rattle.roots.specs.Codes.{polynomial, duals, Held};
ghost use Rattle.roots.specs.Tangents.{tangent};

use crate::coefficients::Coefficients;
use algebra::dual::Dual;
use algebra::field::{Field, whole};
use algebra::graeffe::graeffe_at;
use algebra::ring::Ring;

// Writes f + ε f'.
pub(crate) fn start<F: Field>(f: Coefficients<'_, F>, level: &mut [Dual<F>])
    requires { length level.old ≡ length f.codes.now }
    ensures written { duals F.Ring level.new ≡ tangent F.Ring.ring (polynomial F.Ring F.Field.own f.entry.codes.now) }
    ensures held { (j : ℕ) (d : Dual F) → j < length level.new → Held F.Ring (slice_index_or level.new j d) }
{
    // Not zipped with the codes: what `iter_mut` has written under a `zip` is not known to proofs.
    for (i, place) in level.iter_mut().enumerate() {
        let eps = f.codes.get(i + 1).map_or(
            F::zero(),
            |next| whole::<F>(i as u32 + 1).mul(F::from_code(*next)),
        );
        *place = Dual {
            re: F::from_code(f.codes[i]),
            eps,
        };
    }
}

// Writes the Graeffe transform of the dual numbers in `from` to `to`, which is as long.
pub(crate) fn climb<F: Field>(from: &[Dual<F>], to: &mut [Dual<F>])
    requires { length to.old ≡ length from.now }
    ensures written { duals F.Ring to.new ≡ transform (dual F.Ring.ring) (duals F.Ring from.now) }
    ensures held { (j : ℕ) (d : Dual F) → j < length to.new → Held F.Ring (slice_index_or to.new j d) }
{
    for (j, place) in to.iter_mut().enumerate() {
        *place = graeffe_at(from, j);
    }
}
