ghost use Rattle.std.specs.Prelude.{◌≡◌, length, MatchResult};
ghost use Rattle.algebra.specs.Refusals.{reply};
ghost use Rattle.tally.specs.Contents.{count};
ghost use Rattle.tally.specs.Bodies.{contents, element};
ghost use Rattle.sheet.specs.Sheets.{writing};
ghost use Rattle.sheet.specs.Reads.{Written, WritesAgain};

use crate::check_name::check_name;
use crate::writer::Writer;
use algebra::field::{Field, field_laws};
use algebra::refusal::Refusal;
use tally::closed::Closed;

/// Writes the sheet of a tally and a job name to the start of `out`, and answers its length.
pub fn write<F: Field>(tally: &Closed<F>, name: &[u8], out: &mut [u8]) -> Result<usize, Refusal>
    ensures answers { reply result ≡ writing (count (contents F.Ring tally.now)) (length out.old) name.now }
    ensures written { MatchResult result (Written F.Field.order (element F.Ring F.Field.own) (contents F.Ring tally.now) name.now out.old out.new) (λ _. out.new ≡ out.old) }
    ensures again { WritesAgain F.Field.order (element F.Ring F.Field.own) (contents F.Ring tally.now) name.now out.old out.new result }
{
    check_name(name)?;
    let order = field_laws::<F>();
    let frame = tally.frame();
    let needed = 4 * (7 + frame.count()) + name.len();
    if out.len() < needed {
        return Err(Refusal::Short(needed));
    }
    let mut writer = Writer::new(out);
    writer.frame(order, frame, tally.turnover());
    writer.sums(tally);
    writer.name(name);
    Ok(needed)
}
