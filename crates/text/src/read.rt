ghost use Rattle.std.specs.Prelude.{◌≡◌, ℕ, List, map, IfOk, Some, None, MatchOption};
ghost use Rattle.std.specs.Fn.{FnReturnsAt};
ghost use Rattle.std.specs.List.{Any, AllZip};
ghost use Rattle.text.specs.Numbers.{number_of, length_of, pair_of, all_of};
ghost use Rattle.text.specs.Words.{Words};
ghost use Rattle.text.specs.Elements.{IsRead, Named, both_mean, BothHeld, both_named};

use algebra::code::Code;
use algebra::dual::Dual;
use algebra::field::Field;
use std::alloc::{AllocError, Global};

/// The number that a word of decimal digits stands for, if it has at most 32 bits.
pub fn number(word: &str) -> Option<u32>
    ensures { result ≡ number_of word.now }
{
    // parse also takes a plus sign
    if word.starts_with('+') {
        None
    } else {
        word.parse().ok()
    }
}

/// The words of a line, parted by blanks.
pub fn words<'a>(heap: Global, line: &'a str) -> Result<Vec<&'a str>, AllocError>
    ensures { IfOk result (λ v. Words line.now (map (λ w. w.now) v.items)) }
{
    line.split_whitespace().collect(heap)
}

// What each of the words is read as, or none where one is read as nothing.
fn each<T: Drop, P: Fn(&str) -> Option<T>>(
    heap: Global,
    words: &[&str],
    read: P,
) -> Result<Option<Vec<T>>, AllocError>
    requires { P.IsAlwaysCallable read }
    ensures { IfOk result (λ o. MatchOption o (Any (λ w. FnReturnsAt P.Fn read w.now None) words.now) (λ v. AllZip (λ w x. FnReturnsAt P.Fn read w.now (Some x)) words.now v.items)) }
{
    // A loop, since what is collected into an Option promises nothing of where it stops.
    let mut all = Vec::new(heap);
    for word in words {
        let Some(x) = read(word) else {
            return Ok(None);
        };
        all.push(x)?;
    }
    Ok(Some(all))
}

/// The numbers that the words stand for, or none where one stands for no number.
pub fn numbers(heap: Global, words: &[&str]) -> Result<Option<Vec<u32>>, AllocError>
    ensures { IfOk result (λ o. MatchOption o (all_of (λ w. number_of w.now) words.now ≡ None) (λ v. all_of (λ w. number_of w.now) words.now ≡ Some v.items)) }
{
    each(heap, words, number)
}

/// The numbers as codes, whether or not they are codes of a field.
pub fn codes(heap: Global, numbers: &[u32]) -> Result<Vec<Code>, AllocError>
    ensures { IfOk result (λ v. map (λ c. c.0) v.items ≡ numbers.now) }
{
    numbers.iter().map(|n| Code(*n)).collect(heap)
}

/// The elements of a row of codes.
pub fn elements<F: Field + Drop>(heap: Global, codes: &[u32]) -> Result<Vec<F>, AllocError>
    ensures { IfOk result (λ v. Named F.Ring.value F.Ring.canonical (λ c. F.Ring.value (F.Field.at c)) codes.now v.items) }
{
    codes
        .iter()
        .map(|code| F::from_code(Code(*code)))
        .collect(heap)
}

// The dual number that a word of two numbers with a colon between stands for.
fn dual<F: Field>(word: &str) -> Option<Dual<F>>
    ensures { IsRead (both_mean F.Ring.value) (BothHeld F.Ring.canonical) (both_named (λ c. F.Ring.value (F.Field.at c))) (pair_of word.now) result }
{
    let (re, eps) = word.split_once(':')?;
    let (re, eps) = (number(re)?, number(eps)?);
    Some(Dual {
        re: F::from_code(Code(re)),
        eps: F::from_code(Code(eps)),
    })
}

/// The dual numbers that the words stand for, or none where one stands for none.
pub fn pairs<F: Field + Drop>(
    heap: Global,
    words: &[&str],
) -> Result<Option<Vec<Dual<F>>>, AllocError>
    ensures { IfOk result (λ o. MatchOption o (all_of (λ w. pair_of w.now) words.now ≡ None) (λ v. (codes : List (ℕ × ℕ)) × (all_of (λ w. pair_of w.now) words.now ≡ Some codes) × Named (both_mean F.Ring.value) (BothHeld F.Ring.canonical) (both_named (λ c. F.Ring.value (F.Field.at c))) codes v.items)) }
{
    each(heap, words, |word| dual::<F>(word))
}

/// A length: the number that the word stands for, or what is needed where the word is a hyphen.
pub fn length(word: &str, needed: usize) -> Option<usize>
    ensures { result ≡ length_of word.now needed }
{
    if word == "-" {
        Some(needed)
    } else {
        number(word).map(|n| n as usize)
    }
}
