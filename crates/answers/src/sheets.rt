use crate::no_answer::NoAnswer;
use crate::{question, tallies};
use algebra::field::Field;
use std::alloc::Global;
use tally::closed::Closed;
use tally::frame::Frame;

// The bytes of a word of hexadecimal digits in lower case, or of a hyphen for none.
fn bytes(heap: Global, word: &str) -> Result<Vec<u8>, NoAnswer> {
    if word == "-" {
        return Ok(Vec::new(heap));
    }
    // Tested before there is room for the bytes: a word that is no row of bytes takes none. The crate hex reads upper case too.
    let is_digit = |letter| matches!(letter, b'0'..=b'9' | b'a'..=b'f');
    if word.len() % 2 != 0 || !word.bytes().all(is_digit) {
        return Err(NoAnswer::NoQuestion);
    }
    let mut all = vec![in heap; 0u8; word.len() / 2]?;
    hex::decode_to_slice(word, &mut all).map_err(|_| NoAnswer::NoQuestion)?;
    Ok(all)
}

// The sheet of a tally and a name, from the words for the output, the name and the tally.
pub fn write<F: Field>(heap: Global, words: &[&str]) -> Result<String, NoAnswer> {
    let [out, name, numbers @ ..] = words else {
        return Err(NoAnswer::NoQuestion);
    };
    let name = bytes(heap, name)?;
    let numbers = question::numbers(heap, numbers)?;
    let [width, spare, turnover, sums @ ..] = numbers.as_slice() else {
        return Err(NoAnswer::NoQuestion);
    };
    // A word that is no length is no question, even where the frame is refused.
    question::length(out, 0)?;
    let tally = tallies::held::<F>(heap, *width, *spare, *turnover, sums)?;
    let needed = 28 + 4 * tally.frame().count();
    let long = question::length(out, needed.saturating_add(name.len()))?;
    let mut out = vec![in heap; 0u8; long]?;
    let n = sheet::write::write(&tally, &name, &mut out)?;
    let sheet = text::write::hexadecimal(heap, out.as_slice().split_at(n).0)?;
    Ok(format!(in heap; "ok {sheet}")?)
}

// The tally, the name and the number of bytes after a sheet.
pub fn read<F: Field>(heap: Global, words: &[&str]) -> Result<String, NoAnswer> {
    let [word] = words else {
        return Err(NoAnswer::NoQuestion);
    };
    let all = bytes(heap, word)?;
    let mut tally = Closed::<F>::blank(Frame::new(1, 0)?);
    let (name, rest) = sheet::read::read(&mut tally, &all)?;
    let name = text::write::hexadecimal(heap, name)?;
    let sums = text::write::codes(heap, tally.sums())?;
    let frame = tally.frame();
    Ok(format!(in heap;
        "ok {} {} {} {name} {}{sums}",
        frame.width(),
        frame.spare(),
        tally.turnover(),
        rest.len()
    )?)
}
