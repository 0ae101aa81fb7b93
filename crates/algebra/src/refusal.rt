ghost use Rattle.std.specs.Prelude.{◌≡◌};
ghost use Rattle.std.specs.Option.{option_to_list};
ghost use Rattle.algebra.specs.Refusals.{answer};

use std::error::Error;
use std::fmt;

/// Why a call was refused. Each has its number and values by `answer` in specs/Refusals.antt.
#[derive(Clone, Copy, PartialEq, Eq, Debug)]
pub enum Refusal {
    /// a width or a spare of a frame outside its range
    Frame,
    /// a code that is none of the field; the code
    Code(u32),
    /// a quantity of zero
    Quantity,
    /// a turnover that would pass the limit; the turnover before the call
    Full(u32),
    /// two tallies whose frames differ
    Unlike,
    /// a list, a work space or an output is too short; the length that is needed
    Short(usize),
    /// no coefficient, or more than 257; their number
    Length(usize),
    /// a coefficient code that is none of the field; the place of the first
    Coefficient(usize),
    /// the top coefficient is zero
    Top,
    /// a level of the tower that is 0 or above the field's; the level
    Level(u32),
    /// a job name that is too long, or has a byte that is none; the place; 40, the first that no name reaches, where it is too long
    Job(usize),
}

impl Refusal {
    /// The refusal's number and the value that it carries, if any.
    // Numbers, since others know refusals by them; the code hands on the enum.
    pub fn told(self) -> (u32, Option<u64>)
        ensures { answer self ≡ (result.0, option_to_list result.1) }
    {
        match self {
            Refusal::Frame => (1, None),
            Refusal::Code(code) => (2, Some(u64::from(code))),
            Refusal::Quantity => (3, None),
            Refusal::Full(turnover) => (4, Some(u64::from(turnover))),
            Refusal::Unlike => (5, None),
            Refusal::Short(needed) => (6, Some(needed as u64)),
            Refusal::Length(length) => (8, Some(length as u64)),
            Refusal::Coefficient(place) => (9, Some(place as u64)),
            Refusal::Top => (10, None),
            Refusal::Level(level) => (11, Some(u64::from(level))),
            Refusal::Job(place) => (15, Some(place as u64)),
        }
    }
}

impl fmt::Display for Refusal {
    ghost use Rattle.std.specs.Prelude.{Some};
    ghost use Rattle.algebra.specs.Refusals.{words};

    ghost output = { λ x. Some (words x) };

    fn fmt<W: fmt::Write>(&self, f: &mut fmt::Formatter<W>) -> fmt::Result {
        match self {
            Refusal::Frame => f.write_str("a width is 1 to 32 and a spare 0 to 32"),
            Refusal::Code(code) => write!(f, "{code} is no part code"),
            Refusal::Quantity => f.write_str("nothing is moved"),
            Refusal::Full(turnover) => write!(f, "the tally is full at a turnover of {turnover}"),
            Refusal::Unlike => f.write_str("the frames differ"),
            Refusal::Short(needed) => write!(f, "too little room, where {needed} are needed"),
            Refusal::Length(n) => write!(f, "{n} coefficients, where 1 to 257 are taken"),
            Refusal::Coefficient(place) => {
                write!(f, "the coefficient at {place} is no code of this field")
            }
            Refusal::Top => f.write_str("the top coefficient is zero"),
            Refusal::Level(level) => write!(f, "{level} is no level of the tower"),
            Refusal::Job(place) => write!(f, "the job name is wrong at {place}"),
        }
    }
}

impl Error for Refusal {}
