ghost use Rattle.std.specs.Prelude.{◌≡◌, ◌+◌, ◌<◌, length, MatchResult};
ghost use Rattle.algebra.specs.Polynomials.{coefficient, product, alternate, sign};
ghost use Rattle.algebra.specs.Graeffe.{transform};
ghost use Rattle.algebra.specs.Refusals.{reply};
ghost use Rattle.algebra.specs.Transforms.{values, transforming, Transformed};

use crate::refusal::Refusal;
use crate::ring::Ring;

/// The most coefficients that a polynomial may have.
pub const MOST: usize = 257;

// (-1)^k times the coefficient at 2k of f(x) f(-x). The places i and 2k - i give the same term, so the sum is the middle
// term f_k f_k less twice the alternating sum of f_i f_(2k-i) below the middle, which is kept as odd - even.
fn middle<R: Ring>(f: &[R], k: usize) -> R
    requires { k < length f.now }
    ensures means { R.Ring.value result ≡ R.Ring.ring.times (sign R.Ring.ring k) (coefficient R.Ring.ring (product R.Ring.ring (values R.Ring f.now) (alternate R.Ring.ring (values R.Ring f.now))) (k + k)) }
    ensures held { R.Ring.canonical result }
{
    // the number of places on each side of k
    let reach = k.min(f.len() - 1 - k);
    let below = &f[k - reach..k];
    let above = &f[k + 1..k + 1 + reach];
    let mut odd = R::zero();
    let mut even = R::zero();
    for (x, y) in below.iter().zip(above.iter().rev()) {
        let next = even.add(x.mul(*y));
        even = odd;
        odd = next;
    }
    let half = odd.add(even.neg());
    f[k].mul(f[k]).add(half.add(half).neg())
}

/// The coefficient at k of the Graeffe transform of f; zero past its end.
pub fn graeffe_at<R: Ring>(f: &[R], k: usize) -> R
    ensures means { R.Ring.value result ≡ coefficient R.Ring.ring (transform R.Ring.ring (values R.Ring f.now)) k }
    ensures held { R.Ring.canonical result }
{
    if k >= f.len() {
        return R::zero();
    }
    let term = middle(f, k);
    if (f.len() - 1 - k) % 2 == 0 {
        term
    } else {
        term.neg()
    }
}

/// Writes the Graeffe transform of f into the front of out, and leaves the rest of it.
pub fn graeffe<R: Ring>(f: &[R], out: &mut [R]) -> Result<(), Refusal>
    ensures answers { reply result ≡ transforming (length f.now) (length out.old) }
    ensures leaves { MatchResult result (λ _. Transformed R.Ring f.now out.old out.new) (λ _. out.new ≡ out.old) }
{
    let n = f.len();
    if f.is_empty() || n > MOST {
        return Err(Refusal::Length(n));
    }
    if out.len() < n {
        return Err(Refusal::Short(n));
    }
    for (k, place) in out[..n].iter_mut().enumerate() {
        *place = graeffe_at(f, k);
    }
    Ok(())
}
