ghost use Rattle.std.specs.Prelude.{◌≡◌, ℕ, ◌+◌, ◌<◌, ◌≤◌, ◌↔◌, true, false, length, take, drop, slice_index, IsOk, IfOk, IfErr, OnOk, OnErr, MatchResult};
ghost use Rattle.std.specs.Range.{range_inclusive_start, range_inclusive_end, range_inclusive_exhausted};
ghost use Rattle.sheet.specs.declared.fault.NumberFault.TheVariants.{Cut, Value};
ghost use Rattle.sheet.specs.Sheets.{number_at, within, Good};
ghost use Rattle.sheet.specs.Sections.{Refused};

use crate::fault::NumberFault;
use crate::letter::is_letter;
use std::ops::RangeInclusive;

// The bytes of a sheet, and the place of the item that is read next.
// The place is kept beside the bytes, because a fault tells it.
#[derive(Drop)]
pub(crate) struct Reader<'a> {
    pub(crate) bytes: &'a [u8],
    pub(crate) place: usize,
    ghost inside: { place ≤ length bytes.now },
}

impl<'a> Reader<'a> {
    pub(crate) fn new(bytes: &'a [u8]) -> Reader<'a>
        ensures bytes { result.bytes.now ≡ bytes.now }
        ensures place { result.place ≡ 0 }
    {
        Reader { bytes, place: 0 }
    }

    // The N bytes at the place.
    fn item<const N: usize>(&self) -> Result<[u8; N], NumberFault>
        ensures cases { MatchResult result (λ item. item ≡ take N (drop self.now.place self.now.bytes.now)) (λ e. e ≡ Cut self.now.place) }
        ensures whole { IsOk result ↔ (self.now.place + N ≤ length self.now.bytes.now) }
        ensures bytes { IfOk result (λ item. (k : ℕ) → slice_index item k < 256) }
    {
        let rest = &self.bytes[self.place..];
        rest.first_chunk::<N>()
            .copied()
            .ok_or(NumberFault::Cut(self.place))
    }

    // The number at the place, which must lie in the range, else `fault` tells why not. The reader steps over it.
    // Inlined, so that no range is made where its ends are known.
    #[inline(always)]
    pub(crate) fn number<F: FnOnce(usize) -> NumberFault>(
        &mut self,
        range: RangeInclusive<u32>,
        fault: F,
    ) -> Result<u32, NumberFault>
        requires fresh { range_inclusive_exhausted range ≡ false }
        requires fault { F.pre fault self.old.place }
        ensures same { self.new.bytes.now ≡ self.old.bytes.now }
        ensures steps { OnOk result (self.new.place ≡ self.old.place + 4) }
        ensures stays { OnErr result (self.new.place ≡ self.old.place) }
        ensures good { IfOk result (Good self.old.bytes.now self.old.place (range_inclusive_start range) (range_inclusive_end range)) }
        ensures refused { IfErr result (Refused (F.post fault self.old.place) self.old.bytes.now self.old.place 4 (within (range_inclusive_start range) (range_inclusive_end range) (number_at self.old.bytes.now self.old.place))) }
    {
        let four = self.item::<4>()?;
        let n = u32::from_be_bytes(four);
        if !range.contains(&n) {
            return Err(fault(self.place));
        }
        self.place += 4;
        Ok(n)
    }

    // Steps over the byte at the place, which must be one of a job name.
    pub(crate) fn letter(&mut self) -> Result<(), NumberFault>
        ensures same { self.new.bytes.now ≡ self.old.bytes.now }
        ensures steps { OnOk result (self.new.place ≡ self.old.place + 1) }
        ensures stays { OnErr result (self.new.place ≡ self.old.place) }
        ensures good { OnOk result ((self.new.place ≤ length self.old.bytes.now) × (within 32 126 (slice_index self.old.bytes.now self.old.place) ≡ true)) }
        ensures refused { IfErr result (Refused (λ e. e ≡ Value self.old.place) self.old.bytes.now self.old.place 1 (within 32 126 (slice_index self.old.bytes.now self.old.place))) }
    {
        let [b] = self.item::<1>()?;
        if !is_letter(b) {
            return Err(NumberFault::Value(self.place));
        }
        self.place += 1;
        Ok(())
    }

    // The bytes from the place on.
    pub(crate) fn rest(&self) -> &'a [u8]
        ensures { result.now ≡ drop self.now.place self.now.bytes.now }
    {
        &self.bytes[self.place..]
    }
}
