ghost use Rattle.std.specs.Prelude.{◌≡◌, length, MatchResult};
ghost use Rattle.algebra.specs.Refusals.{reply};
ghost use Rattle.roots.specs.Codes.{element, polynomial};
ghost use Rattle.roots.specs.Roots.{lifting, Lifted};

use crate::coefficients::Coefficients;
use crate::level::rise;
use crate::trial::judge;
use crate::verdict::Verdict;
use algebra::code::Code;
use algebra::dual::Dual;
use algebra::field::{Field, field_laws};
use algebra::refusal::Refusal;

/// The root of f whose power 2^k is the element of `code`, where that is other than zero and a simple root of the level k.
pub fn lift<F: Field>(
    f: &[Code],
    k: u32,
    code: Code,
    work: &mut [Dual<F>],
) -> Result<Option<Code>, Refusal>
    ensures answers { reply result ≡ lifting F.Field.order F.Field.levels f.now k code.0 (length work.old) }
    ensures lifts { MatchResult result (Lifted F.Ring F.Field.own (polynomial F.Ring F.Field.own f.now) k (element F.Ring F.Field.own code.0)) (λ _. work.new ≡ work.old) }
{
    let f = Coefficients::<F>::new(f)?;
    if k == 0 || k > F::height() {
        return Err(Refusal::Level(k));
    }
    if code.0 >= field_laws::<F>() {
        return Err(Refusal::Code(code.0));
    }
    let needed = 2 * f.codes.len();
    if work.len() < needed {
        return Err(Refusal::Short(needed));
    }
    rise(f, k, work);
    if code.0 == 0 {
        return Ok(None);
    }
    match judge(&work[..f.codes.len()], k, F::from_code(code)) {
        Verdict::Root(root) => Ok(Some(root)),
        Verdict::Nothing | Verdict::Both => Ok(None),
    }
}
