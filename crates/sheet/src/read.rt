ghost use Rattle.std.specs.Prelude.{◌≡◌, MatchResult};
ghost use Rattle.tally.specs.Bodies.{contents, element};
ghost use Rattle.sheet.specs.Faults.{sheet_reply};
ghost use Rattle.sheet.specs.Sheets.{reading};
ghost use Rattle.sheet.specs.Reads.{Taken, ReadsBack, ReadsLog};

use crate::fault::SheetFault;
use crate::reader::Reader;
use algebra::code::Code;
use algebra::field::Field;
use tally::closed::Closed;
use tally::sums::MOST_SUMS;

/// Fills the tally from the sheet at the start of the bytes, and answers the job name and the bytes after the sheet.
/// The first fault from the left refuses it, and leaves the tally as it was.
pub fn read<'a, F: Field>(
    tally: &mut Closed<F>,
    bytes: &'a [u8],
) -> Result<(&'a [u8], &'a [u8]), SheetFault>
    ensures answers { sheet_reply result ≡ reading F.Field.order bytes.now }
    ensures taken { MatchResult result (λ p. Taken F.Field.order (element F.Ring F.Field.own) bytes.now p.0.now p.1.now (contents F.Ring tally.new)) (λ _. tally.new ≡ tally.old) }
    ensures back { ReadsBack F.Field.order (element F.Ring F.Field.own) bytes.now (λ p. p.0.now) (λ p. p.1.now) result (contents F.Ring tally.new) }
    ensures logged { ReadsLog F.Ring.ring F.Field.order (element F.Ring F.Field.own) bytes.now result (contents F.Ring tally.new) }
{
    let order = F::size();
    let mut reader = Reader::new(bytes);
    let (frame, turnover) = reader.frame(order)?;
    // the library allocates nothing, so there is room for the codes of any frame
    let mut room = [Code(0); MOST_SUMS];
    reader.sums(order, &mut room[..frame.count()])?;
    let name = reader.name()?;
    // All of the room, past the sums too, where the codes are 0: from a fixed number of codes a tally is filled faster.
    tally.restore(frame, turnover, &room);
    Ok((name, reader.rest()))
}
