//! Reads calls on a tally over the field of 469762049, one a line, such as `in 447 14` and `out 397 2`; prints each line that is
//! denied with the reason, and at the end the turnover and the codes of the sums.
#![tactic(auto)]

mod denial;

use crate::denial::Denial;
use algebra::code::Code;
use fields::residue::Residue;
use std::alloc::{AllocError, Global};
use std::io;
use std::io::{BufRead, BufReader};
use tally::closed::Closed;
use tally::frame::Frame;
use tally::open::Open;

// Makes the call of these words.
fn call(tally: &mut Open<Residue>, words: &[&str]) -> Result<(), Denial> {
    let [way, code, quantity] = words else {
        return Err(Denial::Form);
    };
    let code = Code(text::read::number(code).ok_or(Denial::Form)?);
    let quantity = text::read::number(quantity).ok_or(Denial::Form)?;
    match *way {
        "in" => Ok(tally.enter(code, quantity)?),
        "out" => Ok(tally.withdraw(code, quantity)?),
        _ => Err(Denial::Form),
    }
}

// The turnover and the sums.
fn contents(heap: Global, tally: &Closed<Residue>) -> Result<String, AllocError> {
    let sums = text::write::codes(heap, tally.sums())?;
    format!(in heap; "turnover {}\nsums{sums}", tally.turnover())
}

fn main(rt: HostRuntime) -> io::Result<()> {
    let heap = rt.alloc();
    let mut tally = Open::<Residue>::open(Frame::new(2, 0).unwrap());
    for line in BufReader::new(heap, rt.stdin())?.lines(heap) {
        let line = line?;
        let words = text::read::words(heap, line.as_str())?;
        if let Err(why) = call(&mut tally, &words) {
            println!(rt; "{line}: denied, {why}")?;
        }
    }
    rt.println(contents(heap, &tally.close())?)
}
