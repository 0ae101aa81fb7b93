use crate::no_answer::NoAnswer;
use crate::question;
use algebra::code::Code;
use algebra::dual::Dual;
use algebra::field::Field;
use algebra::ring::Ring;
use roots::lift::lift;
use std::alloc::Global;

// The lift of a code from a level, in a work space of the length asked for. The words are the length of the work space, the
// level, the code and the coefficients.
pub fn lifted<F: Field + Clone + Drop>(heap: Global, words: &[&str]) -> Result<String, NoAnswer> {
    let [work, level, code, codes @ ..] = words else {
        return Err(NoAnswer::NoQuestion);
    };
    let level = question::number(level)?;
    let code = question::number(code)?;
    let numbers = question::numbers(heap, codes)?;
    let long = question::length(work, 2 * numbers.len())?;
    let f = text::read::codes(heap, &numbers)?;
    let mut work = vec![in heap; Dual::<F>::zero(); long]?;
    match lift(&f, level, Code(code), &mut work)? {
        Some(root) => Ok(format!(in heap; "ok {}", root.0)?),
        None => Ok(String::from_str(heap, "ok none")?),
    }
}
