ghost use Rattle.std.specs.Prelude.{◌≡◌, ℕ, ◌+◌, ◌-◌, ◌<◌, ◌≤◌, map, length, take, drop, slice_index_or};
ghost use Rattle.roots.specs.Codes.{element, polynomial};
ghost use Rattle.roots.specs.Division.{Multiplicity};
ghost use Rattle.roots.specs.Lists.{put, added};
ghost use Rattle.roots.specs.Roots.{codes, Ascending};

use crate::coefficients::Coefficients;
use crate::record::RootRecord;
use crate::weigh::{total, weigh};
use algebra::code::Code;
use algebra::dual::Dual;
use algebra::field::Field;

// Puts a code in its place among records that ascend and have a free place behind them.
fn place(roots: &mut [RootRecord], code: Code)
    requires some { 0 < length roots.old }
    requires ascending { Ascending (codes (take (length roots.old - 1) roots.old)) }
    ensures { codes roots.new ≡ put code.0 (codes (take (length roots.old - 1) roots.old)) }
{
    let last = roots.len() - 1;
    let at = roots[..last].partition_point(|root| root.code < code);
    roots[last] = RootRecord {
        code,
        multiplicity: 0,
    };
    roots[at..].rotate_right(1);
}

// The roots that a search has found so far, in the front of a list, and how many elements it has tried.
#[derive(Drop)]
pub(crate) struct Found<'a> {
    pub(crate) list: &'a mut [RootRecord],
    // A number and not a vector's length: the list is the caller's, since this library allocates nothing.
    pub(crate) count: usize,
    pub(crate) trials: u64,
    ghost inside: { count ≤ length list.now },
}

impl<'a> Found<'a> {
    pub(crate) fn new(list: &'a mut [RootRecord]) -> Found<'a>
        ensures same_list { result.list.ghost_name ≡ list.entry.ghost_name }
        ensures kept { result.list.now ≡ list.old }
        ensures fresh { (result.count ≡ 0) × (result.trials ≡ 0) }
    {
        Found {
            list,
            count: 0,
            trials: 0,
        }
    }

    // Puts a code in its place among those found, which ascend.
    pub(crate) fn insert(&mut self, code: Code)
        requires room { self.old.count < length self.old.list.now }
        requires ascending { Ascending (codes (take self.old.count self.old.list.now)) }
        ensures same_list { self.new.list.ghost_name ≡ self.old.list.ghost_name }
        ensures long { length self.new.list.now ≡ length self.old.list.now }
        ensures counted { self.new.count ≡ self.old.count + 1 }
        ensures tried { self.new.trials ≡ self.old.trials }
        ensures placed { codes (take self.new.count self.new.list.now) ≡ put code.0 (codes (take self.old.count self.old.list.now)) }
        ensures rest { drop self.new.count self.new.list.now ≡ drop self.new.count self.old.list.now }
    {
        place(&mut self.list[..=self.count], code);
        self.count += 1;
    }

    // Writes the multiplicities of the roots of f that were found.
    pub(crate) fn weigh<F: Field>(&mut self, f: Coefficients<'_, F>, work: &mut [Dual<F>])
        requires { length f.codes.now ≤ length work.old }
        ensures same_list { self.new.list.ghost_name ≡ self.old.list.ghost_name }
        ensures kept { (self.new.count ≡ self.old.count) × (self.new.trials ≡ self.old.trials) }
        ensures codes { codes (take self.new.count self.new.list.now) ≡ codes (take self.old.count self.old.list.now) }
        ensures weighed { (k : ℕ) (d : RootRecord) → k < self.new.count → Multiplicity F.Ring.ring (polynomial F.Ring F.Field.own f.entry.codes.now) (element F.Ring F.Field.own (slice_index_or self.new.list.now k d).code.0) (slice_index_or self.new.list.now k d).multiplicity }
        ensures rest { drop self.new.count self.new.list.now ≡ drop self.new.count self.old.list.now }
    {
        weigh(f, &mut self.list[..self.count], work);
    }

    // The multiplicities of the roots found, added up.
    pub(crate) fn total(&self) -> u64
        requires { self.now.count ≤ 256 }
        ensures { result ≡ added (map (λ root. root.multiplicity) (take self.now.count self.now.list.now)) }
    {
        total(&self.list[..self.count])
    }
}
