use algebra::code::Code;
use algebra::field::Field;
use std::alloc::{AllocError, Global};
use std::iter;

// Multiplies a polynomial by x - r. Its top coefficient, which must be zero, gives way to the one below.
fn times<F: Field>(f: &mut [F], r: F) {
    let back = r.neg();
    let mut below = F::zero();
    for place in f.iter_mut() {
        let here = *place;
        *place = below.add(back.mul(here));
        below = here;
    }
}

// The codes of the product of x - r, where the codes of the r follow a fixed linear congruence.
pub fn codes<F: Field + Clone + Drop>(
    heap: Global,
    degree: usize,
) -> Result<Vec<Code>, AllocError> {
    let mut f = vec![in heap; F::one()]?;
    // bench has this congruence too: a function of both would want a library of its own.
    let drawn = iter::successors(Some(1u32), |code| {
        Some(code.wrapping_mul(1103515245).wrapping_add(12345))
    });
    for code in drawn.skip(1).take(degree) {
        f.push(F::zero())?;
        times(&mut f, F::from_code(Code(code % F::size())));
    }
    f.iter().map(|x| x.to_code()).collect(heap)
}
