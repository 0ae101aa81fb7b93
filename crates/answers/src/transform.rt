use crate::no_answer::NoAnswer;
use crate::question;
use algebra::field::Field;
use algebra::graeffe::graeffe;
use algebra::ring::Ring;
use std::alloc::{AllocError, Global};

// The Graeffe transform of f, in an output of this length, as `write` writes it.
fn transformed<R: Ring + Clone + Drop, W: Fn(Global, &[R]) -> Result<String, AllocError>>(
    heap: Global,
    f: &[R],
    long: usize,
    write: W,
) -> Result<String, NoAnswer>
    requires { W.IsAlwaysCallable write }
{
    let mut out = vec![in heap; R::zero(); long]?;
    graeffe(f, &mut out)?;
    let row = write(heap, &out[0..f.len()])?;
    Ok(format!(in heap; "ok{row}")?)
}

// The transform of the elements of the codes.
pub fn double<F: Field + Clone + Drop>(heap: Global, words: &[&str]) -> Result<String, NoAnswer> {
    let [out, codes @ ..] = words else {
        return Err(NoAnswer::NoQuestion);
    };
    let codes = question::numbers(heap, codes)?;
    let long = question::length(out, codes.len())?;
    let f = text::read::elements::<F>(heap, &codes)?;
    transformed(heap, &f, long, text::write::codes::<F>)
}

// The transform of the dual numbers.
pub fn pairs<F: Field + Clone + Drop>(heap: Global, words: &[&str]) -> Result<String, NoAnswer> {
    let [out, duals @ ..] = words else {
        return Err(NoAnswer::NoQuestion);
    };
    let f = text::read::pairs::<F>(heap, duals)?.ok_or(NoAnswer::NoQuestion)?;
    let long = question::length(out, f.len())?;
    transformed(heap, &f, long, text::write::pairs::<F>)
}
