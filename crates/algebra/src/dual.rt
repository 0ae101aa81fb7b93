ghost use Rattle.std.specs.Prelude.{◌≡◌};
ghost use Rattle.std.proofs.Common.{ap};
ghost use Rattle.algebra.specs.Duals.{dual};
ghost use Rattle.algebra.specs.DualsLemmas.{dual_lawful};

use crate::ring::Ring;

/// The dual number re + eps ε, where ε ε = 0.
#[derive(Clone, Copy, Debug)]
pub struct Dual<R> {
    pub re: R,
    pub eps: R,
}

impl<R: Ring> Ring for Dual<R> {
    ghost ring = { dual R.Ring.ring };

    ghost value = { λ x. (R.Ring.value x.re, R.Ring.value x.eps) };

    ghost canonical = { λ x. R.Ring.canonical x.re × R.Ring.canonical x.eps };

    ghost lawful = { dual_lawful R.Ring.ring R.Ring.lawful };

    ghost unique = { λ x y hx hy e.
        let re = R.Ring.unique x.re y.re hx.0 hy.0 (ap (λ t. t.0) e) in
        let eps = R.Ring.unique x.eps y.eps hx.1 hy.1 (ap (λ t. t.1) e) in
        λ i. record { re = re i; eps = eps i } };

    fn zero() -> Dual<R> {
        Dual {
            re: R::zero(),
            eps: R::zero(),
        }
    }

    fn one() -> Dual<R> {
        Dual {
            re: R::one(),
            eps: R::zero(),
        }
    }

    fn add(self, other: Dual<R>) -> Dual<R> {
        Dual {
            re: self.re.add(other.re),
            eps: self.eps.add(other.eps),
        }
    }

    fn mul(self, other: Dual<R>) -> Dual<R> {
        let cross = self.re.mul(other.eps).add(self.eps.mul(other.re));
        Dual {
            re: self.re.mul(other.re),
            eps: cross,
        }
    }

    fn neg(self) -> Dual<R> {
        Dual {
            re: self.re.neg(),
            eps: self.eps.neg(),
        }
    }

    fn same(self, other: Dual<R>) -> bool {
        self.re.same(other.re) && self.eps.same(other.eps)
    }
}
