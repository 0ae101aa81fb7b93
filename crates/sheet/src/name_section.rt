ghost use Rattle.std.specs.Prelude.{◌≡◌, ◌+◌, ◌≤◌, length, MatchResult};
ghost use Rattle.sheet.specs.Faults.{item_answer};
ghost use Rattle.sheet.specs.Sheets.{name_items, name_bytes};
ghost use Rattle.sheet.specs.Sections.{NameTold, Puts};

use crate::fault::{JobFault, NumberFault};
use crate::letter::LONGEST;
use crate::reader::Reader;
use crate::writer::Writer;

impl<'a> Reader<'a> {
    // The job name that the third section tells.
    pub(crate) fn name(&mut self) -> Result<&'a [u8], JobFault>
        ensures same { self.new.bytes.now ≡ self.old.bytes.now }
        ensures answers { MatchResult result (λ name. NameTold self.old.place self.old.bytes.now name.now self.new.place) (λ e. item_answer 3 e.0 ≡ name_items self.old.place self.old.bytes.now) }
    {
        let count = self.number(0..=LONGEST as u32, NumberFault::Count)?;
        let start = self.place;
        for _k in 0..count {
            self.letter()?;
        }
        Ok(&self.bytes[start..self.place])
    }
}

impl Writer<'_> {
    // Puts the section of the job name.
    pub(crate) fn name(&mut self, name: &[u8])
        requires most { length name.now ≤ LONGEST }
        requires room { self.old.place + 4 + length name.now ≤ length self.old.out.now }
        ensures same_reference { self.new.out.ghost_name ≡ self.old.out.ghost_name }
        ensures puts { Puts (name_bytes name.now) self.old.out.now self.old.place self.new.out.now self.new.place }
    {
        self.number(name.len() as u32);
        self.put(name);
    }
}
