ghost use Rattle.std.specs.Prelude.{◌≡◌};
ghost use Rattle.algebra.specs.Rings.{Ops, Lawful};

/// A commutative ring. What an element means is a value of the carrier; how it is held is its own affair.
/// Every function takes elements however they are held, and answers one in canonical form.
pub trait Ring: Copy {
    ghost ring: { Ops };

    // what an element means
    ghost value: { Self → ring.V };

    // the form in which answers are held
    ghost canonical: { Self → Type 0 };

    fn zero() -> Self
        ensures means { value result ≡ ring.nought }
        ensures held { canonical result };

    fn one() -> Self
        ensures means { value result ≡ ring.unit }
        ensures held { canonical result };

    fn add(self, other: Self) -> Self
        ensures means { value result ≡ ring.plus (value self) (value other) }
        ensures held { canonical result };

    fn mul(self, other: Self) -> Self
        ensures means { value result ≡ ring.times (value self) (value other) }
        ensures held { canonical result };

    fn neg(self) -> Self
        ensures means { value result ≡ ring.minus (value self) }
        ensures held { canonical result };

    /// Whether the two mean the same; a derived == would compare how they are held.
    fn same(self, other: Self) -> bool
        ensures { result ≡ ring.alike (value self) (value other) };

    ghost lawful: { Lawful ring };

    // a value has one canonical form
    ghost unique: { (x y : Self) → canonical x → canonical y → value x ≡ value y → x ≡ y };
}
