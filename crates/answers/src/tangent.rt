use crate::no_answer::NoAnswer;
use crate::question;
use algebra::dual::Dual;
use algebra::field::Field;
use algebra::refusal::Refusal;
use algebra::ring::Ring;
use roots::level::tangent_level;
use std::alloc::Global;

// A level of the tangent tower, in a work space of the length that is needed. A level above the field's is no question.
pub fn tangent<F: Field + Clone + Drop>(heap: Global, words: &[&str]) -> Result<String, NoAnswer> {
    let [level, codes @ ..] = words else {
        return Err(NoAnswer::NoQuestion);
    };
    let level = question::number(level)?;
    let numbers = question::numbers(heap, codes)?;
    let f = text::read::codes(heap, &numbers)?;
    let mut work = vec![in heap; Dual::<F>::zero(); 2 * f.len()]?;
    match tangent_level(&f, level, &mut work) {
        Ok(()) => Ok(format!(in heap; "ok{}", text::write::pairs(heap, &work[0..f.len()])?)?),
        Err(Refusal::Level(_)) => Err(NoAnswer::NoQuestion),
        Err(why) => Err(why.into()),
    }
}
