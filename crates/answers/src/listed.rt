use crate::no_answer::NoAnswer;
use crate::question;
use algebra::dual::Dual;
use algebra::field::Field;
use algebra::ring::Ring;
use roots::list::{RootList, roots};
use roots::record::RootRecord;
use std::alloc::{AllocError, Global};
use std::fmt::Write;

// The roots, in a list and a work space of the lengths asked for. The words are the two lengths, then the coefficients.
pub fn listed<F: Field + Clone + Drop>(heap: Global, words: &[&str]) -> Result<String, NoAnswer> {
    let [list, work, codes @ ..] = words else {
        return Err(NoAnswer::NoQuestion);
    };
    let numbers = question::numbers(heap, codes)?;
    let f = text::read::codes(heap, &numbers)?;
    let room = question::length(list, f.len().saturating_sub(1))?;
    let levels = F::height() as usize + 1;
    let long = question::length(work, levels.saturating_mul(f.len()))?;
    let mut list = vec![in heap; RootRecord::default(); room]?;
    let mut work = vec![in heap; Dual::<F>::zero(); long]?;
    let all = roots(&f, &mut list, &mut work)?;
    list.truncate(all.count);
    Ok(told(heap, all, &list)?)
}

// The number of roots, whether they split f, the trials, and each root with its multiplicity.
fn told(heap: Global, all: RootList, list: &[RootRecord]) -> Result<String, AllocError> {
    let splits = if all.splits { "yes" } else { "no" };
    let mut text = format!(in heap; "ok {} {splits} {}", all.count, all.trials)?;
    // A loop, since a type that shows a record so would be longer.
    for record in list {
        write!(text, " {}:{}", record.code.0, record.multiplicity)?;
    }
    Ok(text)
}
