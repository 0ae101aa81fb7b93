ghost use Rattle.std.specs.Prelude.{◌≡◌};
ghost use Rattle.sheet.specs.Sheets.{within};

// The most bytes of a job name.
pub(crate) const LONGEST: usize = 40;

// Whether a byte may stand in a job name.
pub(crate) fn is_letter(b: u8) -> bool
    ensures { result ≡ within 32 126 b }
{
    matches!(b, b' '..=b'~')
}
