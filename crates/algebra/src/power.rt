ghost use Rattle.std.specs.Prelude.{◌≡◌};
ghost use Rattle.algebra.specs.Rings.{raised};

use crate::ring::Ring;

/// x to the power of the exponent, by squaring.
pub fn power<R: Ring>(x: R, exponent: u32) -> R
    ensures means { R.Ring.value result ≡ raised R.Ring.ring (R.Ring.value x) exponent }
    ensures held { R.Ring.canonical result }
{
    let mut answer = R::one();
    let mut square = x;
    let mut left = exponent;
    while left > 0 {
        if left % 2 == 1 {
            answer = answer.mul(square);
        }
        square = square.mul(square);
        left /= 2;
    }
    answer
}
