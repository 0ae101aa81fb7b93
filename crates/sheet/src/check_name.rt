ghost use Rattle.std.specs.Prelude.{◌≡◌, OnOk};
ghost use Rattle.algebra.specs.Refusals.{reply};
ghost use Rattle.sheet.specs.Sheets.{naming};
ghost use Rattle.sheet.specs.Reads.{Named};

use crate::letter::{LONGEST, is_letter};
use algebra::refusal::Refusal;

// Refuses a job name that is longer than 40 bytes, or has a byte outside 32 to 126.
pub(crate) fn check_name(name: &[u8]) -> Result<(), Refusal>
    ensures answers { reply result ≡ naming name.now }
    ensures named { OnOk result (Named name.now) }
{
    if name.len() > LONGEST {
        return Err(Refusal::Job(LONGEST));
    }
    match name.iter().position(|&b| !is_letter(b)) {
        Some(k) => Err(Refusal::Job(k)),
        None => Ok(()),
    }
}
