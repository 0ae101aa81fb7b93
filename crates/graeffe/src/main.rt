//! Reads polynomials, one a line, as decimal coefficient codes with the constant first,
//! and prints the Graeffe transform of each over the field of 17 and over that of 469762049.
#![tactic(auto)]

use algebra::field::Field;
use algebra::graeffe::graeffe;
use algebra::ring::Ring;
use fields::residue::Residue;
use fields::seventeen::Seventeen;
use std::alloc::{AllocError, Global};
use std::io;
use std::io::{BufRead, BufReader};

// The transform over one field, or why there is none.
fn over<F: Field + Clone + Drop>(heap: Global, codes: &[u32]) -> Result<String, AllocError> {
    if let Some(code) = codes.iter().find(|code| **code >= F::size()) {
        return format!(in heap; " {code} is no code of this field");
    }
    let f = text::read::elements::<F>(heap, codes)?;
    let mut out = vec![in heap; F::zero(); codes.len()]?;
    match graeffe(&f, &mut out) {
        Ok(()) => text::write::codes(heap, &out),
        Err(why) => format!(in heap; " {why}"),
    }
}

// What is printed of one line.
// rootlist has its like: a function of both would take a closure for each field, to save three lines.
fn told(heap: Global, line: &str) -> Result<String, AllocError> {
    let words = text::read::words(heap, line)?;
    let Some(codes) = text::read::numbers(heap, &words)? else {
        return format!(in heap; "{line}\n  not a row of decimal numbers of at most 32 bits");
    };
    let small = over::<Seventeen>(heap, &codes)?;
    let large = over::<Residue>(heap, &codes)?;
    format!(in heap; "{line}\n  over 17:{small}\n  over 469762049:{large}")
}

fn main(rt: HostRuntime) -> io::Result<()> {
    let heap = rt.alloc();
    for line in BufReader::new(heap, rt.stdin())?.lines(heap) {
        let line = line?;
        rt.println(told(heap, line.as_str())?)?;
    }
    Ok(())
}
