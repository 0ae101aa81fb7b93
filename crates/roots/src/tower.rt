ghost use Rattle.std.specs.Prelude.{◌≡◌, ℕ, ◌+◌, ◌-◌, ◌*◌, ◌^◌, ◌<◌, ◌≤◌, ◌↔◌, length, take, drop};
ghost use Rattle.algebra.specs.Duals.{dual};
ghost use Rattle.algebra.specs.Graeffe.{tower};
ghost use Rattle.roots.specs.Lists.{In};
ghost use Rattle.roots.specs.Tangents.{tangent};
ghost use Rattle.roots.specs.Codes.{polynomial, duals};
ghost use Rattle.roots.specs.Roots.{codes as codes_of, Ascending, Root, Trials};
ghost use Rattle.roots.specs.Searches.{Holds, Ready, Visited};

use crate::build::build;
use crate::coefficients::Coefficients;
use crate::found::Found;
use crate::trial::judge;
use crate::verdict::Verdict;
use algebra::code::{Code, Exponent};
use algebra::dual::Dual;
use algebra::field::{Field, field_laws};
use algebra::power::power;

// The tangent tower of a polynomial, level after level.
#[derive(Drop)]
pub(crate) struct TangentTower<'a, F: Field> {
    f: Coefficients<'a, F>,
    levels: &'a [Dual<F>],
    ghost holds: { ∥ Holds F.Ring F.Field (polynomial F.Ring F.Field f.codes.now) (length f.codes.now) levels.now ∥₁ },
}

impl<'a, F: Field> TangentTower<'a, F> {
    // Writes the tower to the work space.
    pub(crate) fn new(f: Coefficients<'a, F>, work: &'a mut [Dual<F>]) -> Self
        requires { (F.Field.levels + 1) * length f.codes.now ≤ length work.old }
        ensures { result.f.codes.now ≡ f.entry.codes.now }
    {
        build(f, work);
        TangentTower { f, levels: work }
    }

    fn level(&self, k: u32) -> &[Dual<F>]
        requires { k ≤ F.Field.levels }
        ensures { duals F.Ring result.now ≡ tower (dual F.Ring.ring) (tangent F.Ring.ring (polynomial F.Ring F.Field.own self.now.f.codes.now)) k }
    {
        let n = self.f.codes.len();
        let at = k as usize * n;
        &self.levels[at..at + n]
    }

    // Tries the level k at the power e of the primitive element, counts the trial, and adds the roots of f that have it for their power 2^k.
    fn visit(&self, k: u32, e: Exponent, found: &mut Found<'_>)
        requires ready { Ready F.Ring F.Field.own (polynomial F.Ring F.Field.own self.now.f.codes.now) k e.0 (codes_of (take found.old.count found.old.list.now)) }
        requires room { length self.now.f.codes.now - 1 ≤ length found.old.list.now }
        requires few { found.old.trials + 2 ^ (k + 1) ≤ 2 ^ 63 }
        ensures same_list { found.new.list.ghost_name ≡ found.old.list.ghost_name }
        ensures long { length found.new.list.now ≡ length found.old.list.now }
        ensures visited { Visited F.Ring F.Field.own (polynomial F.Ring F.Field.own self.now.f.codes.now) k e.0 (codes_of (take found.old.count found.old.list.now)) (codes_of (take found.new.count found.new.list.now)) found.old.trials found.new.trials }
        ensures more { found.old.count ≤ found.new.count }
        ensures rest { drop found.new.count found.new.list.now ≡ drop found.new.count found.old.list.now }
    {
        let order = field_laws::<F>();
        let x = power(F::primitive(), e.0);
        found.trials += 1;
        match judge(self.level(k), k, x) {
            Verdict::Nothing => {}
            Verdict::Root(code) => found.insert(code),
            Verdict::Both => {
                let half = e.0 / 2;
                self.visit(k - 1, Exponent(half), found);
                self.visit(k - 1, Exponent(half + (order - 1) / 2), found);
            }
        }
    }

    // Finds all roots of f: zero by its first coefficient, the others from the powers of the primitive element that the top level is tried at.
    pub(crate) fn search(&self, found: &mut Found<'_>)
        requires fresh { (found.old.count ≡ 0) × (found.old.trials ≡ 0) }
        requires room { length self.now.f.codes.now - 1 ≤ length found.old.list.now }
        ensures same_list { found.new.list.ghost_name ≡ found.old.list.ghost_name }
        ensures long { length found.new.list.now ≡ length found.old.list.now }
        ensures ascending { Ascending (codes_of (take found.new.count found.new.list.now)) }
        ensures roots { (c : ℕ) → In c (codes_of (take found.new.count found.new.list.now)) ↔ Root F.Ring F.Field.own (polynomial F.Ring F.Field.own self.now.f.codes.now) c }
        ensures tried { Trials F.Ring F.Field.own (polynomial F.Ring F.Field.own self.now.f.codes.now) found.new.trials }
        ensures rest { drop found.new.count found.new.list.now ≡ drop found.new.count found.old.list.now }
    {
        let order = field_laws::<F>();
        let odd = F::odd_part();
        let top = F::height();
        let step = (order - 1) / odd;
        if self.f.codes[0].0 == 0 {
            found.insert(Code(0));
        }
        for i in 0..odd {
            self.visit(top, Exponent(i * step), found);
        }
    }
}
