ghost use Rattle.std.specs.Prelude.{◌≡◌, ℕ, ◌<◌, ◌≤◌, true, ◌↔◌, length, take, slice_index_or, IfOk};
ghost use Rattle.algebra.specs.Refusals.{reply};
ghost use Rattle.tally.specs.Contents.{count, comparing, Agree};
ghost use Rattle.tally.specs.Bodies.{contents, element, Fresh};
ghost use Rattle.tally.specs.Access.{code_at};
ghost use Rattle.tally.specs.Reach.{Reaches};

use crate::frame::Frame;
use crate::sums::{MOST_SUMS, Sums};
use algebra::code::Code;
use algebra::field::{Field, field_laws};
use algebra::refusal::Refusal;
use std::marker::Model;

/// A tally that can be compared and written, as often as wanted.
#[derive(Drop)]
pub struct Closed<F> {
    pub(crate) body: Sums<F>,
}

impl<F> Model for Closed<F> {
    ghost use Rattle.tally.specs.declared.sums.Sums.{Sums};

    ghost Value = { Sums F };

    ghost view = { λ c. c.body };
}

impl<F: Field> Closed<F> {
    /// Whether all sums of two tallies of one frame agree. The turnover is not compared.
    pub fn compare(&self, other: &Closed<F>) -> Result<bool, Refusal>
        ensures answers { reply result ≡ comparing (contents F.Ring self.now) (contents F.Ring other.now) }
        ensures compares { IfOk result (λ b. (b ≡ true) ↔ Agree (contents F.Ring self.now) (contents F.Ring other.now)) }
        ensures reaches { IfOk result (Reaches F.Ring.ring F.Field.order (element F.Ring F.Field.own) (contents F.Ring self.now) (contents F.Ring other.now)) }
    {
        let _order = field_laws::<F>();
        if self.body.frame != other.body.frame {
            return Err(Refusal::Unlike);
        }
        let mut pairs = self.body.counted().iter().zip(other.body.counted());
        Ok(pairs.all(|(x, y)| x.same(*y)))
    }

    /// A tally of a frame in which nothing was moved.
    pub fn blank(frame: Frame) -> Closed<F>
        ensures { Fresh F.Ring frame result }
    {
        Closed {
            body: Sums::blank(frame),
        }
    }

    /// The frame of the tally.
    pub fn frame(&self) -> Frame
        ensures { result ≡ self.now.frame }
    {
        self.body.frame
    }

    /// The sum of all quantities that were moved, in or out.
    pub fn turnover(&self) -> u32
        ensures { result ≡ self.now.turnover }
    {
        self.body.turnover
    }

    /// The sums that count.
    pub fn sums(&self) -> &[F]
        ensures front { result.now ≡ take (count (contents F.Ring self.now)) self.now.sums }
        ensures enough { count (contents F.Ring self.now) ≤ length self.now.sums }
    {
        self.body.counted()
    }

    /// The code of the sum k; code 0 where the frame has no such sum.
    pub fn sum_code(&self, k: usize) -> Code
        ensures below { result.0 < F.Field.order }
        ensures means { k < count (contents F.Ring self.now) → element F.Ring F.Field.own result.0 ≡ (contents F.Ring self.now).sum k }
        ensures past { count (contents F.Ring self.now) ≤ k → result.0 ≡ 0 }
    {
        let _order = F::size();
        self.body
            .counted()
            .get(k)
            .map_or(Code(0), |sum| sum.to_code())
    }

    /// Replaces all that the tally holds: the sum k becomes the element of the code at k, and zero past the end of the codes.
    pub fn restore(&mut self, frame: Frame, turnover: u32, codes: &[Code])
        ensures framed { self.new.frame ≡ frame }
        ensures turned { self.new.turnover ≡ turnover }
        ensures sums { (k : ℕ) → k < MOST_SUMS → (contents F.Ring self.new).sum k ≡ element F.Ring F.Field.own (code_at codes.now k) }
        ensures held { (k : ℕ) (d : F) → k < MOST_SUMS → F.Ring.canonical (slice_index_or self.new.sums k d) }
    {
        self.body.restore(frame, turnover, codes);
    }
}
