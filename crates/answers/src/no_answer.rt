use algebra::refusal::Refusal;
use sheet::fault::SheetFault;
use std::alloc::{AllocError, Global};

// Why there is no answer to a line.
#[derive(Clone, Copy)]
pub enum NoAnswer {
    // the line is no question
    NoQuestion,
    // the call that the line asks for is refused
    Refused(Refusal),
    // the bytes are no sheet
    Faulty(SheetFault),
    // memory is wanting
    Memory(AllocError),
}

impl From<Refusal> for NoAnswer {
    fn from(why: Refusal) -> NoAnswer {
        NoAnswer::Refused(why)
    }
}

impl From<SheetFault> for NoAnswer {
    fn from(fault: SheetFault) -> NoAnswer {
        NoAnswer::Faulty(fault)
    }
}

impl From<AllocError> for NoAnswer {
    fn from(why: AllocError) -> NoAnswer {
        NoAnswer::Memory(why)
    }
}

impl NoAnswer {
    // The line that is printed in the place of an answer.
    pub fn line(self, heap: Global) -> Result<String, AllocError> {
        match self {
            NoAnswer::NoQuestion => String::from_str(heap, "error"),
            NoAnswer::Refused(why) => text::write::refused(heap, why),
            NoAnswer::Faulty(fault) => {
                let (number, section, place) = fault.told();
                format!(in heap; "refused {number} {section} {place}")
            }
            NoAnswer::Memory(why) => Err(why),
        }
    }
}
