ghost use Rattle.std.specs.Prelude.{◌≡◌, ℕ, ◌+◌, ◌<◌, ◌≤◌, length, take, slice_index_or, IfOk, MatchResult};
ghost use Rattle.algebra.specs.Refusals.{reply};
ghost use Rattle.algebra.specs.Rings.{power};
ghost use Rattle.tally.specs.Contents.{count, answering};
ghost use Rattle.tally.specs.Logs.{line};
ghost use Rattle.tally.specs.Access.{code_at};
ghost use Rattle.tally.specs.Bodies.{contents, element, Fresh, Moves, Continues};

use crate::call::Call;
use crate::frame::Frame;
use algebra::code::Code;
use algebra::field::{Field, whole};
use algebra::refusal::Refusal;

/// The most sums that a frame has.
pub const MOST_SUMS: usize = 96;

/// What a tally holds: its sums, of which those of its frame count, its frame, and its turnover.
/// The array has room for the sums of any frame, because tallies allocate nothing.
#[derive(Drop)]
pub struct Sums<F> {
    pub sums: [F; MOST_SUMS],
    pub frame: Frame,
    pub turnover: u32,
}

impl<F: Field> Sums<F> {
    // Those of a tally of a frame in which nothing was moved.
    pub(crate) fn blank(frame: Frame) -> Sums<F>
        ensures { Fresh F.Ring frame result }
    {
        Sums {
            sums: [F::zero(); MOST_SUMS],
            frame,
            turnover: 0,
        }
    }

    // The sums that count.
    pub(crate) fn counted(&self) -> &[F]
        ensures front { result.now ≡ take (count (contents F.Ring self.now)) self.now.sums }
        ensures enough { count (contents F.Ring self.now) ≤ length self.now.sums }
    {
        &self.sums[..self.frame.count()]
    }

    // Moves a quantity of a code, in or out.
    // Code and quantity stay two parameters, because a struct of both would be made only to be taken apart.
    pub(crate) fn call(&mut self, call: Call, code: Code, quantity: u32) -> Result<(), Refusal>
        ensures answers { reply result ≡ answering F.Field.order self.old.turnover code.0 quantity }
        ensures moves { MatchResult result (λ _. Moves F.Ring F.Field.own call code.0 quantity self.old self.new) (λ _. self.new ≡ self.old) }
        ensures framed { self.new.frame ≡ self.old.frame }
        ensures logged { Continues F.Ring F.Field.own (line call code.0 quantity (reply result)) self.old self.new }
    {
        let turnover = self.admit(code, quantity)?;
        let signed = call.signed(whole::<F>(quantity));
        self.raise(F::from_code(code), signed);
        self.turnover = turnover;
        Ok(())
    }

    // The turnover after a call that moves a quantity of a code, or why the call is refused.
    fn admit(&self, code: Code, quantity: u32) -> Result<u32, Refusal>
        ensures answers { reply result ≡ answering F.Field.order self.now.turnover code.0 quantity }
        ensures turnover { IfOk result (λ t. t ≡ self.now.turnover + quantity) }
    {
        let order = F::size();
        if code.0 == 0 || code.0 >= order {
            return Err(Refusal::Code(code.0));
        }
        if quantity == 0 {
            return Err(Refusal::Quantity);
        }
        self.turnover
            .checked_add(quantity)
            .filter(|after| *after <= (order - 1) / 4)
            .ok_or(Refusal::Full(self.turnover))
    }

    // Adds n, n a, n a^2 and so on to the sums that count.
    fn raise(&mut self, a: F, n: F)
        ensures frame { (self.new.frame ≡ self.old.frame) × (self.new.turnover ≡ self.old.turnover) }
        ensures sums { (k : ℕ) → k < count (contents F.Ring self.old) → (contents F.Ring self.new).sum k ≡ F.Ring.ring.plus ((contents F.Ring self.old).sum k) (F.Ring.ring.times (F.Ring.value n) (power F.Ring.ring (F.Ring.value a) k)) }
    {
        let count = self.frame.count();
        let mut term = n;
        for sum in &mut self.sums[..count] {
            *sum = sum.add(term);
            term = term.mul(a);
        }
    }

    // Replaces all that is held: the sum k becomes the element of the code at k, and zero past the end of the codes.
    pub(crate) fn restore(&mut self, frame: Frame, turnover: u32, codes: &[Code])
        ensures framed { self.new.frame ≡ frame }
        ensures turned { self.new.turnover ≡ turnover }
        ensures sums { (k : ℕ) → k < MOST_SUMS → (contents F.Ring self.new).sum k ≡ element F.Ring F.Field.own (code_at codes.now k) }
        ensures held { (k : ℕ) (d : F) → k < MOST_SUMS → F.Ring.canonical (slice_index_or self.new.sums k d) }
    {
        // In place: an array made by `from_fn` is copied once more.
        for (k, sum) in self.sums.iter_mut().enumerate() {
            *sum = element_at(codes, k);
        }
        self.frame = frame;
        self.turnover = turnover;
    }
}

// The element of the code at k, and zero past the end of the codes.
fn element_at<F: Field>(codes: &[Code], k: usize) -> F
    ensures means { F.Ring.value result ≡ element F.Ring F.Field.own (code_at codes.now k) }
    ensures held { F.Ring.canonical result }
{
    F::from_code(codes.get(k).copied().unwrap_or(Code(0)))
}
