//! Times the Graeffe transform of 257 coefficients over the field of 469762049 elements. Standard output has the sum of the
//! codes of the last transform, the same on every run, and standard error the times.
#![tactic(auto)]

use algebra::code::Code;
use algebra::field::Field;
use algebra::graeffe::graeffe;
use algebra::refusal::Refusal;
use fields::residue::Residue;
use std::alloc::{AllocError, Global};
use std::time::Instant;
use std::{io, iter};

const SIZE: usize = 257;

// Half the number of transforms.
const ROUNDS: u32 = 100;

// The multiplications of one transform: for each k, the lesser of k and 256 - k products, and one square.
const PRODUCTS: u128 = 16641;

// The elements whose codes follow a fixed linear congruence.
// rootbench has the congruence too: a function of both would want a library of its own.
fn filled<F: Field + Drop>(heap: Global, n: usize) -> Result<Vec<F>, AllocError> {
    iter::successors(Some(1u32), |code| {
        Some(code.wrapping_mul(1103515245).wrapping_add(12345))
    })
    .skip(1)
    .take(n)
    .map(|code| F::from_code(Code(code % F::size())))
    .collect(heap)
}

// Transforms f into out and out into f, as often as asked.
fn transforms<F: Field>(f: &mut [F], out: &mut [F], rounds: u32) -> Result<(), Refusal> {
    for _ in 0..rounds {
        graeffe(f, out)?;
        graeffe(out, f)?;
    }
    Ok(())
}

fn main(rt: HostRuntime) -> io::Result<()> {
    let heap = rt.alloc();
    let mut f = filled::<Residue>(heap, SIZE)?;
    let mut out = filled::<Residue>(heap, SIZE)?;
    let start = Instant::now(&rt)?;
    let done = transforms(&mut f, &mut out, ROUNDS);
    let spent = start.elapsed(&rt)?.as_nanos() / 2 / u128::from(ROUNDS);
    if done.is_err() {
        return eprintln!(rt; "a transform was refused");
    }
    let sum = f
        .iter()
        .map(|x| u64::from(x.to_code().0))
        .fold(0, u64::saturating_add);
    println!(rt; "sum of the codes: {sum}")?;
    let micros = spent / 1000;
    let each = spent / PRODUCTS;
    let tenths = spent * 10 / PRODUCTS % 10;
    eprintln!(rt; "{micros} microseconds a transform, {each}.{tenths} nanoseconds a multiplication")
}
