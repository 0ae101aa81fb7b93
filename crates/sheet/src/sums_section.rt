ghost use Rattle.std.specs.Prelude.{◌≡◌, ◌+◌, ◌*◌, ◌≤◌, length, MatchResult};
ghost use Rattle.tally.specs.Access.{code_at};
ghost use Rattle.tally.specs.Bodies.{contents, element};
ghost use Rattle.tally.specs.Contents.{count};
ghost use Rattle.sheet.specs.Faults.{item_answer};
ghost use Rattle.sheet.specs.Sheets.{sums_items};
ghost use Rattle.sheet.specs.Sections.{SumsTold, SumsPut};

use crate::fault::{NumberFault, SumsFault};
use crate::reader::Reader;
use crate::writer::Writer;
use algebra::code::Code;
use algebra::field::Field;
use tally::closed::Closed;
use tally::sums::MOST_SUMS;

impl Reader<'_> {
    // The codes of the sums that the second section tells; as many must stand there as `codes` has room for.
    pub(crate) fn sums(&mut self, order: u32, codes: &mut [Code]) -> Result<(), SumsFault>
        requires order { 1 ≤ order }
        requires most { length codes.old ≤ MOST_SUMS }
        requires start { self.old.place ≡ 20 }
        ensures same { self.new.bytes.now ≡ self.old.bytes.now }
        ensures answers { MatchResult result (λ _. (self.new.place ≡ 24 + 4 * length codes.old) × SumsTold order (length codes.old) self.old.bytes.now (code_at codes.new)) (λ e. item_answer 2 e.0 ≡ sums_items order (length codes.old) self.old.bytes.now) }
    {
        let count = codes.len() as u32;
        let _count = self.number(count..=count, NumberFault::Count)?;
        for code in codes.iter_mut() {
            *code = Code(self.number(0..=order - 1, NumberFault::Value)?);
        }
        Ok(())
    }
}

impl Writer<'_> {
    // Puts the section of the sums of a tally.
    pub(crate) fn sums<F: Field>(&mut self, tally: &Closed<F>)
        requires { self.old.place + 4 * (1 + count (contents F.Ring tally.now)) ≤ length self.old.out.now }
        ensures same_reference { self.new.out.ghost_name ≡ self.old.out.ghost_name }
        ensures puts { SumsPut F.Field.order (element F.Ring F.Field.own) (contents F.Ring tally.now) self.old.out.now self.old.place self.new.out.now self.new.place }
    {
        let sums = tally.sums();
        self.number(sums.len() as u32);
        for sum in sums {
            self.number(sum.to_code().0);
        }
    }
}
