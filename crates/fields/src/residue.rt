#![tactic(auto, using(crate::specs::ShopLemmas::shop_is, crate::specs::ShopLemmas::shop_bounded, crate::specs::ShopLemmas::shop_coded, crate::specs::ShopLemmas::shop_primitive))]

ghost use Rattle.std.specs.Prelude.{◌≡◌, ◌%◌, ◌<◌, if◌then◌else◌, nat_lt};
ghost use Rattle.fields.specs.Residues.{rest};
ghost use Rattle.fields.specs.Shop.{shop_order, shop_pos, shop};
ghost use Rattle.fields.specs.ShopLemmas.{shop_lawful};
ghost use Rattle.fields.specs.ResiduesLemmas.{held_once};
ghost use Rattle.std.proofs.Common.{rules};

use algebra::code::Code;
use algebra::field::Field;
use algebra::power::power;
use algebra::ring::Ring;

// The number of residues, 7 * 2^26 + 1.
const ORDER: u32 = 469762049;

/// A residue modulo ORDER, held by a code. A code of ORDER or more means its rest.
#[derive(Clone, Copy, Debug)]
pub struct Residue {
    pub code: Code,
}

// Widened by `as`: by u64::from the program bench takes 49 microseconds in place of 31, and rootbench 6400 in place of 5800.
impl From<u64> for Residue {
    ghost from_gives = { λ n r. r.code.0 ≡ n % shop_order };

    // the residue of a number, held by its code
    fn from(n: u64) -> Residue {
        Residue {
            code: Code((n % ORDER as u64) as u32),
        }
    }
}

impl Ring for Residue {
    ghost ring = { shop };

    ghost value = { λ x. rest shop_order shop_pos x.code.0 };

    ghost canonical = { λ x. x.code.0 < shop_order };

    ghost lawful = { shop_lawful };

    ghost unique = { λ x y hx hy e.
        let same = held_once shop_order shop_pos x.code.0 y.code.0 hx hy e in
        λ i. record { code = record { 0 = same i } } };

    fn zero() -> Residue {
        Residue { code: Code(0) }
    }

    fn one() -> Residue {
        Residue { code: Code(1) }
    }

    fn add(self, other: Residue) -> Residue {
        Residue::from(self.code.0 as u64 + other.code.0 as u64)
    }

    fn mul(self, other: Residue) -> Residue {
        Residue::from(self.code.0 as u64 * other.code.0 as u64)
    }

    fn neg(self) -> Residue {
        Residue::from((ORDER - self.to_code().0) as u64)
    }

    fn same(self, other: Residue) -> bool {
        self.to_code() == other.to_code()
    }
}

impl Field for Residue {
    ghost order = { shop_order };

    ghost odd = { 7 };

    ghost levels = { 26 };

    ghost at = { λ c. record { code = record { 0 = (if nat_lt c shop_order then c else 0) } } };

    ghost zeta = { record { code = record { 0 = 3 } } };

    ghost small = { Prim.search rules };

    ghost aligned = { Prim.search rules };

    fn size() -> u32 {
        ORDER
    }

    fn odd_part() -> u32 {
        7
    }

    fn height() -> u32 {
        26
    }

    fn from_code(code: Code) -> Residue {
        if code.0 < ORDER {
            Residue { code }
        } else {
            Residue::zero()
        }
    }

    fn to_code(self) -> Code {
        Code(self.code.0 % ORDER)
    }

    // the power ORDER - 2, which at zero is zero
    fn inverse(self) -> Residue {
        power(self, ORDER - 2)
    }

    fn primitive() -> Residue {
        Residue { code: Code(3) }
    }
}
