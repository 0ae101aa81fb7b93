use algebra::refusal::Refusal;
use std::fmt;

// Why the call of a line is denied.
#[derive(Clone, Copy)]
pub enum Denial {
    // the line is no call
    Form,
    // the tally refuses the call
    Refused(Refusal),
}

impl From<Refusal> for Denial {
    fn from(why: Refusal) -> Denial {
        Denial::Refused(why)
    }
}

impl fmt::Display for Denial {
    fn fmt<W: fmt::Write>(&self, f: &mut fmt::Formatter<W>) -> fmt::Result {
        match self {
            Denial::Form => f.write_str("a line is in or out, a code and a quantity"),
            Denial::Refused(why) => write!(f, "{why}"),
        }
    }
}
