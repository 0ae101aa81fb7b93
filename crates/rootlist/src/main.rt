//! Reads polynomials, one a line, as decimal coefficient codes with the constant first, and prints for each, over the field of
//! 17 and over that of 469762049, its roots with their multiplicities, whether it splits, and how many elements were tried.
#![tactic(auto)]

mod told;

use algebra::code::Code;
use algebra::dual::Dual;
use algebra::field::Field;
use algebra::ring::Ring;
use fields::residue::Residue;
use fields::seventeen::Seventeen;
use roots::list::roots;
use roots::record::RootRecord;
use std::alloc::{AllocError, Global};
use std::io;
use std::io::{BufRead, BufReader};

// The roots over one field, or why there are none.
fn over<F: Field + Clone + Drop>(heap: Global, f: &[Code]) -> Result<String, AllocError> {
    let levels = F::height() as usize + 1;
    let mut list = vec![in heap; RootRecord::default(); f.len()]?;
    let mut work = vec![in heap; Dual::<F>::zero(); levels.saturating_mul(f.len())]?;
    match roots(f, &mut list, &mut work) {
        Ok(all) => {
            list.truncate(all.count);
            told::roots(heap, all, &list)
        }
        Err(why) => format!(in heap; "{why}"),
    }
}

// What is printed of one line.
// graeffe has its like: a function of both would take a closure for each field, to save three lines.
fn shown(heap: Global, line: &str) -> Result<String, AllocError> {
    let words = text::read::words(heap, line)?;
    let Some(numbers) = text::read::numbers(heap, &words)? else {
        return format!(in heap; "{line}\n  not a row of decimal numbers of at most 32 bits");
    };
    let f = text::read::codes(heap, &numbers)?;
    let small = over::<Seventeen>(heap, &f)?;
    let large = over::<Residue>(heap, &f)?;
    format!(in heap; "{line}\n  over 17: {small}\n  over 469762049: {large}")
}

fn main(rt: HostRuntime) -> io::Result<()> {
    let heap = rt.alloc();
    for line in BufReader::new(heap, rt.stdin())?.lines(heap) {
        let line = line?;
        rt.println(shown(heap, line.as_str())?)?;
    }
    Ok(())
}
