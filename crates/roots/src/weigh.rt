ghost use Rattle.std.specs.Prelude.{◌≡◌, ℕ, ◌<◌, ◌≤◌, map, length, slice_index_or};
ghost use Rattle.roots.specs.Division.{Multiplicity};
ghost use Rattle.roots.specs.Codes.{element, polynomial};
ghost use Rattle.roots.specs.Lists.{added};
ghost use Rattle.roots.specs.Roots.{codes};

use crate::coefficients::Coefficients;
use crate::divide::multiplicity;
use crate::record::RootRecord;
use algebra::dual::Dual;
use algebra::field::Field;

// Writes the multiplicities of the roots of f.
pub(crate) fn weigh<F: Field>(
    f: Coefficients<'_, F>,
    roots: &mut [RootRecord],
    work: &mut [Dual<F>],
)
    requires { length f.codes.now ≤ length work.old }
    ensures codes { codes roots.new ≡ codes roots.old }
    ensures weighed { (k : ℕ) (d : RootRecord) → k < length roots.new → Multiplicity F.Ring.ring (polynomial F.Ring F.Field.own f.entry.codes.now) (element F.Ring F.Field.own (slice_index_or roots.new k d).code.0) (slice_index_or roots.new k d).multiplicity }
{
    for root in roots.iter_mut() {
        root.multiplicity = multiplicity(f, work, F::from_code(root.code));
    }
}

// The multiplicities of roots added up.
pub(crate) fn total(roots: &[RootRecord]) -> u64
    requires { length roots.now ≤ 256 }
    ensures { result ≡ added (map (λ root. root.multiplicity) roots.now) }
{
    roots.iter().map(|root| u64::from(root.multiplicity)).sum()
}
