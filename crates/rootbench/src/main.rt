//! Times the list of roots of a polynomial of degree 255 with distinct roots, over the field of 469762049 elements. Standard
//! output has what was found, the same on every run, and standard error the time.
#![tactic(auto)]

mod polynomial;

use algebra::code::Code;
use algebra::dual::Dual;
use algebra::field::Field;
use algebra::refusal::Refusal;
use algebra::ring::Ring;
use fields::residue::Residue;
use roots::list::{RootList, roots};
use roots::record::RootRecord;
use std::io;
use std::time::Instant;

const DEGREE: usize = 255;

// The number of lists after the first.
const ROUNDS: u32 = 20;

// The last of as many lists of roots as asked, and one more.
fn lists<F: Field>(
    f: &[Code],
    list: &mut [RootRecord],
    work: &mut [Dual<F>],
    rounds: u32,
) -> Result<RootList, Refusal> {
    for _ in 0..rounds {
        roots(f, list, work)?;
    }
    roots(f, list, work)
}

fn main(rt: HostRuntime) -> io::Result<()> {
    let heap = rt.alloc();
    let f = polynomial::codes::<Residue>(heap, DEGREE)?;
    let mut list = vec![in heap; RootRecord::default(); DEGREE]?;
    let mut work = vec![in heap; Dual::<Residue>::zero(); (Residue::height() as usize + 1)
        * (DEGREE + 1)]?;
    let start = Instant::now(&rt)?;
    let done = lists(&f, &mut list, &mut work, ROUNDS);
    let micros = start.elapsed(&rt)?.as_micros() / (u128::from(ROUNDS) + 1);
    let Ok(all) = done else {
        return eprintln!(rt; "the list was refused");
    };
    let sum = list
        .iter()
        .map(|record| u64::from(record.code.0))
        .fold(0, u64::saturating_add);
    println!(rt; "{} roots, sum of their codes: {sum}", all.count)?;
    let splits = if all.splits { "yes" } else { "no" };
    println!(rt; "splits: {splits}, trials: {}", all.trials)?;
    eprintln!(rt; "{micros} microseconds a list of roots")
}
