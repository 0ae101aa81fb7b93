ghost use Rattle.std.specs.Prelude.{◌≡◌, ◌-◌, length, IfOk, ⊤};
ghost use Rattle.algebra.specs.Refusals.{reply, accepted};
ghost use Rattle.roots.specs.Codes.{coded};

use algebra::code::Code;
use algebra::field::Field;
use algebra::graeffe::MOST;
use algebra::refusal::Refusal;
use std::alloc::AllocError;
use std::marker::PhantomData;

// The codes of the 1 to 257 coefficients of a polynomial over a field, whose top is not zero.
pub(crate) struct Coefficients<'a, F: Field> {
    pub(crate) codes: &'a [Code],
    field: PhantomData<F>,
    ghost good: { coded F.Field.order codes.now ≡ accepted },
}

impl<'a, F: Field> Copy for Coefficients<'a, F> {}

// By hand: a derive over the ghost field of a generic struct is refused (derive-over-ghost-field).
impl<'a, F: Field> Clone for Coefficients<'a, F> {
    ghost is_clone = { λ f g. f.codes ≡ g.codes };

    ghost is_infallible = { λ _. ⊤ };

    fn clone(&self) -> Result<Self, AllocError> {
        Ok(*self)
    }
}

impl<'a, F: Field> Coefficients<'a, F> {
    pub(crate) fn new(codes: &'a [Code]) -> Result<Self, Refusal>
        ensures answers { reply result ≡ coded F.Field.order codes.now }
        ensures kept { IfOk result (λ f. f.codes.now ≡ codes.now) }
    {
        let Some(top) = codes.last() else {
            return Err(Refusal::Length(0));
        };
        if codes.len() > MOST {
            return Err(Refusal::Length(codes.len()));
        }
        let order = F::size();
        if let Some(place) = codes.iter().position(|code| code.0 >= order) {
            return Err(Refusal::Coefficient(place));
        }
        if top.0 == 0 {
            return Err(Refusal::Top);
        }
        Ok(Coefficients {
            codes,
            field: PhantomData,
        })
    }

    pub(crate) fn degree(self) -> usize
        ensures { result ≡ length self.entry.codes.now - 1 }
    {
        self.codes.len() - 1
    }
}
