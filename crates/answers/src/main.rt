//! Answers questions, one a line, each over one of the two fields. A line that is no question is answered `error`.
#![tactic(auto)]

mod lifted;
mod listed;
mod no_answer;
mod question;
mod sheets;
mod tallies;
mod tangent;
mod transform;

use crate::no_answer::NoAnswer;
use algebra::field::Field;
use fields::residue::Residue;
use fields::seventeen::Seventeen;
use std::alloc::{AllocError, Global};
use std::io;
use std::io::{BufRead, BufReader};

// The answer over the field F to the question of this name.
fn over<F: Field + Clone + Drop>(
    heap: Global,
    name: &str,
    words: &[&str],
) -> Result<String, NoAnswer> {
    // A match: a table of functions would be the same list, with a type for each entry.
    match name {
        "double" => transform::double::<F>(heap, words),
        "pairs" => transform::pairs::<F>(heap, words),
        "tangent" => tangent::tangent::<F>(heap, words),
        "lift" => lifted::lifted::<F>(heap, words),
        "roots" => listed::listed::<F>(heap, words),
        "log" => tallies::log::<F>(heap, words),
        "compare" => tallies::compare::<F>(heap, words),
        "write" => sheets::write::<F>(heap, words),
        "read" => sheets::read::<F>(heap, words),
        _ => Err(NoAnswer::NoQuestion),
    }
}

fn answered(heap: Global, line: &str) -> Result<String, NoAnswer> {
    let words = text::read::words(heap, line)?;
    match words.as_slice() {
        [name, "17", rest @ ..] => over::<Seventeen>(heap, name, rest),
        [name, "469762049", rest @ ..] => over::<Residue>(heap, name, rest),
        _ => Err(NoAnswer::NoQuestion),
    }
}

fn answer(heap: Global, line: &str) -> Result<String, AllocError> {
    answered(heap, line).or_else(|why| why.line(heap))
}

fn main(rt: HostRuntime) -> io::Result<()> {
    let heap = rt.alloc();
    for line in BufReader::new(heap, rt.stdin())?.lines(heap) {
        let line = line?;
        rt.println(answer(heap, line.as_str())?)?;
    }
    Ok(())
}
