ghost use Rattle.std.specs.Prelude.{◌≡◌, length, MatchResult};
ghost use Rattle.algebra.specs.Refusals.{reply};
ghost use Rattle.roots.specs.Codes.{polynomial};
ghost use Rattle.roots.specs.Roots.{listing, Listed};

use crate::coefficients::Coefficients;
use crate::found::Found;
use crate::record::RootRecord;
use crate::tower::TangentTower;
use algebra::code::Code;
use algebra::dual::Dual;
use algebra::field::{Field, field_laws};
use algebra::refusal::Refusal;

/// How many roots there are, whether their multiplicities add up to the degree, and how many elements were tried.
#[derive(Clone, Copy, PartialEq, Eq, Debug)]
pub struct RootList {
    // A number and not a slice: the list is the caller's, since this library allocates nothing.
    pub count: usize,
    pub splits: bool,
    pub trials: u64,
}

/// Fills the front of the list with all roots of the polynomial of these codes, ascending by code, each with its multiplicity.
pub fn roots<F: Field>(
    f: &[Code],
    list: &mut [RootRecord],
    work: &mut [Dual<F>],
) -> Result<RootList, Refusal>
    ensures answers { reply result ≡ listing F.Field.order F.Field.levels f.now (length list.old) (length work.old) }
    ensures lists { MatchResult result (λ a. Listed F.Ring F.Field.own (polynomial F.Ring F.Field.own f.now) list.old list.new a.count a.splits a.trials) (λ _. (list.new ≡ list.old) × (work.new ≡ work.old)) }
{
    let f = Coefficients::<F>::new(f)?;
    let _order = field_laws::<F>();
    let degree = f.degree();
    if list.len() < degree {
        return Err(Refusal::Short(degree));
    }
    let needed = (F::height() as usize + 1) * f.codes.len();
    if work.len() < needed {
        return Err(Refusal::Short(needed));
    }
    let mut found = Found::new(list);
    TangentTower::new(f, work).search(&mut found);
    found.weigh(f, work);
    Ok(RootList {
        count: found.count,
        splits: found.total() == degree as u64,
        trials: found.trials,
    })
}
