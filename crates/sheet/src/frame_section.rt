ghost use Rattle.std.specs.Prelude.{◌≡◌, ◌+◌, ◌≤◌, length, MatchResult};
ghost use Rattle.sheet.specs.Faults.{item_answer};
ghost use Rattle.sheet.specs.Sheets.{frame_items, frame_bytes};
ghost use Rattle.sheet.specs.Sections.{FrameTold, Puts};

use crate::fault::{FrameFault, NumberFault};
use crate::reader::Reader;
use crate::writer::Writer;
use tally::frame::{Frame, WIDEST};

impl Reader<'_> {
    // The frame and the turnover that the first section tells, in a field of this order.
    // Inlined, as the numbers are.
    #[inline(always)]
    pub(crate) fn frame(&mut self, order: u32) -> Result<(Frame, u32), FrameFault>
        requires order { 1 ≤ order }
        requires start { self.old.place ≡ 0 }
        ensures same { self.new.bytes.now ≡ self.old.bytes.now }
        ensures answers { MatchResult result (λ h. (self.new.place ≡ 20) × FrameTold order self.old.bytes.now h.0.width h.0.spare h.1) (λ e. item_answer 1 e.0 ≡ frame_items order self.old.bytes.now) }
    {
        let _four = self.number(4..=4, NumberFault::Count)?;
        let _order = self.number(order..=order, NumberFault::Value)?;
        let width = self.number(1..=WIDEST, NumberFault::Value)?;
        let spare = self.number(0..=WIDEST, NumberFault::Value)?;
        let turnover = self.number(0..=(order - 1) / 4, NumberFault::Value)?;
        let frame = Frame { width, spare };
        Ok((frame, turnover))
    }
}

impl Writer<'_> {
    // Puts the section of the frame.
    pub(crate) fn frame(&mut self, order: u32, frame: Frame, turnover: u32)
        requires { self.old.place + 20 ≤ length self.old.out.now }
        ensures same_reference { self.new.out.ghost_name ≡ self.old.out.ghost_name }
        ensures puts { Puts (frame_bytes order frame.width frame.spare turnover) self.old.out.now self.old.place self.new.out.now self.new.place }
    {
        self.number(4);
        self.number(order);
        self.number(frame.width());
        self.number(frame.spare());
        self.number(turnover);
    }
}
