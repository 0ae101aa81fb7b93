ghost use Rattle.std.specs.Prelude.{◌≡◌, ℕ, ◌<◌, List, ◌∷◌, ◌++◌, IfOk, Some, string_bytes, decimal};
ghost use Rattle.std.specs.List.{All, flat_map};
ghost use Rattle.algebra.specs.Refusals.{answer};
ghost use Rattle.text.specs.Bytes.{bytes_text};
ghost use Rattle.text.specs.Elements.{Shown, both_mean, both_named};
ghost use Rattle.text.specs.Lines.{code_text, pair_text, refusal_text};

use algebra::dual::Dual;
use algebra::field::Field;
use algebra::refusal::Refusal;
use std::alloc::{AllocError, Global};
use std::fmt;
use std::fmt::{Display, Write};

/// The items, a blank before each.
pub fn row<T: Display>(heap: Global, items: &[T]) -> Result<String, AllocError>
    ensures { IfOk result (λ s. (show : T → List ℕ) → All (λ x. T.output x ≡ Some (show x)) items.now → string_bytes s ≡ flat_map (λ x. 32 ∷ show x) items.now) }
{
    let mut text = String::new(heap);
    // A loop, since what a closure writes to a text that it borrows is not known to proofs.
    for item in items {
        write!(text, " {item}")?;
    }
    Ok(text)
}

/// The codes of the elements, a blank before each.
pub fn codes<F: Field>(heap: Global, elements: &[F]) -> Result<String, AllocError>
    ensures { IfOk result (λ s. Shown F.Ring.value (λ c. F.Ring.value (F.Field.at c)) (λ c. c < F.Field.order) code_text elements.now (string_bytes s)) }
{
    let codes: Vec<u32> = elements.iter().map(|x| x.to_code().0).collect(heap)?;
    row(heap, &codes)
}

// Two codes, shown with a colon between.
#[derive(Clone, Copy)]
struct Pair {
    re: u32,
    eps: u32,
}

impl Display for Pair {
    ghost output = { λ p. Some (decimal p.re ++ (58 ∷ decimal p.eps)) };

    fn fmt<W: fmt::Write>(&self, f: &mut fmt::Formatter<W>) -> fmt::Result {
        write!(f, "{}:{}", self.re, self.eps)
    }
}

/// The codes of both parts of the dual numbers, with a colon between, a blank before each.
pub fn pairs<F: Field>(heap: Global, duals: &[Dual<F>]) -> Result<String, AllocError>
    ensures { IfOk result (λ s. Shown (both_mean F.Ring.value) (both_named (λ c. F.Ring.value (F.Field.at c))) (λ p. (p.0 < F.Field.order) × (p.1 < F.Field.order)) pair_text duals.now (string_bytes s)) }
{
    let pairs: Vec<Pair> = duals
        .iter()
        .map(|x| Pair {
            re: x.re.to_code().0,
            eps: x.eps.to_code().0,
        })
        .collect(heap)?;
    row(heap, &pairs)
}

/// A refusal by its number and values.
pub fn refused(heap: Global, why: Refusal) -> Result<String, AllocError>
    ensures { IfOk result (λ s. string_bytes s ≡ refusal_text (answer why)) }
{
    match why.told() {
        (number, Some(value)) => format!(in heap; "refused {number} {value}"),
        (number, None) => format!(in heap; "refused {number}"),
    }
}

/// The bytes in hexadecimal digits, two a byte, and a hyphen where there is none.
pub fn hexadecimal(heap: Global, bytes: &[u8]) -> Result<String, AllocError>
    ensures { IfOk result (λ s. string_bytes s ≡ bytes_text bytes.now) }
{
    if bytes.is_empty() {
        return String::from_str(heap, "-");
    }
    hex::encode(heap, bytes)
}
