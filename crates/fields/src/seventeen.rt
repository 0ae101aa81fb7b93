#![tactic(auto, using(crate::specs::Field17::is_coded, crate::specs::Field17::is_primitive))]

ghost use Rattle.std.specs.Prelude.{◌≡◌};
ghost use Rattle.fields.specs.Seventeen.{modulo_17, positive, added, meaning, Least, element, three};
ghost use Rattle.fields.specs.ResiduesLemmas as Residues;
ghost use Rattle.fields.specs.Field17;
ghost use Rattle.std.proofs.Common.{rules};

use algebra::code::{Code, Exponent};
use algebra::field::Field;
use algebra::ring::Ring;

// The number of elements, which is one more than the odd part times two to the power of the levels.
const ORDER: u32 = 17;

const ODD: u32 = 1;

const LEVELS: u32 = 4;

// The number of powers of 3, after which they come again.
const ROUND: u32 = 16;

// The power number of -1.
const HALF: Exponent = Exponent(8);

// The powers of 3 modulo 17, from the power 0 to the power 15.
const POWERS: [u32; 16] = [1, 3, 9, 10, 13, 5, 15, 11, 16, 14, 8, 7, 4, 12, 2, 6];

// The power number of each code from 1 to 16. There is none of the code 0.
const NUMBERS: [u32; 17] = [0, 0, 14, 1, 12, 5, 15, 11, 10, 2, 3, 7, 13, 4, 9, 6, 8];

/// An element of the field of 17 elements: the power of 3 with this number, or zero where there is none.
/// Numbers that have the same rest modulo 16 mean the same power.
#[derive(Clone, Copy, Debug)]
pub struct Seventeen {
    pub power: Option<Exponent>,
}

// The number of the product of two powers.
fn added(a: Exponent, b: Exponent) -> Exponent
    ensures { result ≡ added a b }
{
    Exponent((a.0 % ROUND + b.0 % ROUND) % ROUND)
}

impl Ring for Seventeen {
    ghost ring = { modulo_17 };

    ghost value = { meaning };

    ghost canonical = { Least };

    ghost lawful = { Residues.lawful 17 positive };

    ghost unique = { Field17.unique };

    fn zero() -> Seventeen {
        Seventeen { power: None }
    }

    fn one() -> Seventeen {
        Seventeen {
            power: Some(Exponent(0)),
        }
    }

    // by the codes, which are added modulo 17
    fn add(self, other: Seventeen) -> Seventeen {
        let sum = self.to_code().0 + other.to_code().0;
        Seventeen::from_code(Code(sum % ORDER))
    }

    fn mul(self, other: Seventeen) -> Seventeen {
        let power = self.power.zip(other.power).map(|(a, b)| added(a, b));
        Seventeen { power }
    }

    fn neg(self) -> Seventeen {
        Seventeen {
            power: self.power.map(|a| added(a, HALF)),
        }
    }

    // By power numbers, not by codes, which a table would have to tell.
    fn same(self, other: Seventeen) -> bool {
        match (self.power, other.power) {
            (None, None) => true,
            (Some(a), Some(b)) => a.0 % ROUND == b.0 % ROUND,
            _ => false,
        }
    }
}

impl Field for Seventeen {
    ghost order = { 17 };

    ghost odd = { 1 };

    ghost levels = { 4 };

    ghost at = { element };

    ghost zeta = { three };

    ghost small = { Prim.search rules };

    ghost aligned = { Prim.search rules };

    fn size() -> u32 {
        ORDER
    }

    fn odd_part() -> u32 {
        ODD
    }

    fn height() -> u32 {
        LEVELS
    }

    fn from_code(code: Code) -> Seventeen {
        if code.0 == 0 || code.0 >= ORDER {
            return Seventeen::zero();
        }
        Seventeen {
            power: Some(Exponent(NUMBERS[code.0 as usize])),
        }
    }

    fn to_code(self) -> Code {
        Code(self.power.map_or(0, |a| POWERS[(a.0 % ROUND) as usize]))
    }

    fn inverse(self) -> Seventeen {
        Seventeen {
            power: self.power.map(|a| Exponent((ROUND - a.0 % ROUND) % ROUND)),
        }
    }

    fn primitive() -> Seventeen {
        Seventeen {
            power: Some(Exponent(1)),
        }
    }
}
