ghost use Rattle.std.specs.Prelude.{◌≡◌};
ghost use Rattle.tally.specs.Contents.{signed};

use algebra::field::Field;

/// The two calls that move a quantity of a code.
#[derive(Clone, Copy, PartialEq, Eq, Debug)]
pub enum Call {
    Enter,
    Withdraw,
}

impl Call {
    // x with the sign of the call.
    pub(crate) fn signed<F: Field>(self, x: F) -> F
        ensures { F.Ring.value result ≡ signed F.Ring.ring self (F.Ring.value x) }
    {
        match self {
            Call::Enter => x,
            Call::Withdraw => x.neg(),
        }
    }
}
