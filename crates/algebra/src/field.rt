ghost use Rattle.std.specs.Prelude.{◌≡◌, ℕ, ◌<◌, ◌≤◌};
ghost use prog.Memory.{size, align};
ghost use denote.Param.{layout};
ghost use Rattle.algebra.specs.Rings.{number};
ghost use Rattle.algebra.specs.Fields.{Bounded, Tower, Coded, Inverse, Invertible, Primitive, IsField};

use crate::code::Code;
use crate::ring::Ring;

/// A finite field with codes and a tower of squarings. Its laws stand in what its functions promise.
pub trait Field: Ring {
    // the number of elements
    ghost order: { ℕ };

    // the order less one is the odd part times two to the power of the levels
    ghost odd: { ℕ };

    ghost levels: { ℕ };

    // the element of a code
    ghost at: { ℕ → Self };

    // the primitive element
    ghost zeta: { Self };

    /// The number of elements.
    fn size() -> u32
        ensures answer { result ≡ order }
        ensures bounded { Bounded order };

    /// The odd part of the order less one.
    fn odd_part() -> u32
        ensures answer { result ≡ odd }
        ensures tower { Tower order odd levels };

    /// How often the order less one can be halved.
    fn height() -> u32
        ensures { result ≡ levels };

    /// The element of a code; zero for a code that is none.
    fn from_code(code: Code) -> Self
        ensures means { Self.Ring.value result ≡ Self.Ring.value (at code.0) }
        ensures held { Self.Ring.canonical result }
        ensures coded { Coded Self.Ring.ring order (λ c. Self.Ring.value (at c)) };

    /// The code of what an element means.
    fn to_code(self) -> Code
        ensures means { Self.Ring.value (at result.0) ≡ Self.Ring.value self }
        ensures below { result.0 < order };

    /// The inverse; zero for zero.
    fn inverse(self) -> Self
        ensures means { Inverse Self.Ring.ring (Self.Ring.value self) (Self.Ring.value result) }
        ensures held { Self.Ring.canonical result }
        ensures invertible { Invertible Self.Ring.ring };

    /// The primitive element, whose powers are all elements but zero.
    fn primitive() -> Self
        ensures means { Self.Ring.value result ≡ Self.Ring.value zeta }
        ensures held { Self.Ring.canonical result }
        ensures primitive { Primitive Self.Ring.ring order (Self.Ring.value zeta) };

    // what holds elements can be laid out in memory
    ghost small: { size (layout Self.row) ≤ 64 };

    ghost aligned: { align (layout Self.row) ≤ 64 };
}

/// All that the functions of a field promise, gathered for the code that stands on it. Answers the field's order.
pub fn field_laws<F: Field>() -> u32
    ensures answer { result ≡ F.Field.order }
    ensures laws { IsField F.Ring.ring F.Field.order F.Field.odd F.Field.levels (λ c. F.Ring.value (F.Field.at c)) (F.Ring.value F.Field.zeta) }
{
    let _odd = F::odd_part();
    let zero = F::from_code(Code(0));
    let _inverse = zero.inverse();
    let _primitive = F::primitive();
    F::size()
}

/// The sum of n ones, for which the whole number n stands.
pub fn whole<F: Field>(n: u32) -> F
    ensures means { F.Ring.value result ≡ number F.Ring.ring n }
    ensures held { F.Ring.canonical result }
{
    let order = field_laws::<F>();
    F::from_code(Code(n % order))
}
