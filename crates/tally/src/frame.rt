ghost use Rattle.std.specs.Prelude.{◌≡◌, ◌+◌, ◌*◌, ◌≤◌, IfOk};
ghost use Rattle.algebra.specs.Refusals.{reply};
ghost use Rattle.tally.specs.declared.frame.TheConstants.{WIDEST};
ghost use Rattle.tally.specs.Contents.{framing};

use algebra::refusal::Refusal;

/// The most that a width or a spare may be.
pub const WIDEST: u32 = 32;

/// The width w and the spare s of a tally, which keeps 2 w + s sums: w is the number of codes that a difference can name,
/// and s the number of sums more by which it is checked.
#[derive(Clone, Copy, PartialEq, Eq, Debug)]
pub struct Frame {
    pub width: u32,
    pub spare: u32,
    ghost ok: { (1 ≤ width) × (width ≤ WIDEST) × (spare ≤ WIDEST) },
}

impl Frame {
    /// A frame of width 1 to 32 and spare 0 to 32.
    pub fn new(width: u32, spare: u32) -> Result<Frame, Refusal>
        ensures answers { reply result ≡ framing width spare }
        ensures made { IfOk result (λ f. (f.width ≡ width) × (f.spare ≡ spare)) }
    {
        if width == 0 || width > WIDEST || spare > WIDEST {
            return Err(Refusal::Frame);
        }
        Ok(Frame { width, spare })
    }

    /// The number of codes that a difference can name.
    pub fn width(self) -> u32
        ensures { result ≡ self.width }
    {
        self.width
    }

    /// The number of sums more by which a difference is checked.
    pub fn spare(self) -> u32
        ensures { result ≡ self.spare }
    {
        self.spare
    }

    /// The number of sums.
    pub fn count(self) -> usize
        ensures { result ≡ 2 * self.width + self.spare }
    {
        (2 * self.width + self.spare) as usize
    }
}
