use crate::no_answer::NoAnswer;
use crate::question;
use algebra::code::Code;
use algebra::field::Field;
use algebra::refusal::Refusal;
use std::alloc::{AllocError, Global};
use tally::call::Call;
use tally::closed::Closed;
use tally::frame::Frame;
use tally::open::Open;

// A call on a tally, with its code and quantity.
#[derive(Clone, Copy)]
struct Asked {
    call: Call,
    code: Code,
    quantity: u32,
}

impl Asked {
    // The call of a word such as +447*14 or -397*2.
    fn of(word: &str) -> Option<Asked> {
        let (call, rest) = match word.strip_prefix('+') {
            Some(rest) => (Call::Enter, rest),
            None => (Call::Withdraw, word.strip_prefix('-')?),
        };
        let (code, quantity) = rest.split_once('*')?;
        Some(Asked {
            call,
            code: Code(text::read::number(code)?),
            quantity: text::read::number(quantity)?,
        })
    }

    fn make<F: Field>(self, tally: &mut Open<F>) -> Result<(), Refusal> {
        match self.call {
            Call::Enter => tally.enter(self.code, self.quantity),
            Call::Withdraw => tally.withdraw(self.code, self.quantity),
        }
    }
}

// An answer as it stands in a row of answers: `ok`, or the refusal's number and value with a colon between.
fn short(heap: Global, answer: Result<(), Refusal>) -> Result<String, AllocError> {
    match answer.map_err(|why| why.told()) {
        Ok(()) => String::from_str(heap, "ok"),
        Err((number, Some(value))) => format!(in heap; "{number}:{value}"),
        Err((number, None)) => format!(in heap; "{number}"),
    }
}

// Makes the calls on the tally, and gives their answers with commas between, or a hyphen where there is no call.
fn run<F: Field>(heap: Global, tally: &mut Open<F>, calls: &[Asked]) -> Result<String, AllocError> {
    if calls.is_empty() {
        return String::from_str(heap, "-");
    }
    let mut row = String::new(heap);
    for asked in calls {
        if !row.is_empty() {
            row.push_str(",")?;
        }
        row.push_str(short(heap, asked.make(tally))?.as_str())?;
    }
    Ok(row)
}

// The answers to the calls on a tally of the frame in the first two words, then its turnover and its sums.
pub fn log<F: Field>(heap: Global, words: &[&str]) -> Result<String, NoAnswer> {
    let [width, spare, calls @ ..] = words else {
        return Err(NoAnswer::NoQuestion);
    };
    let width = question::number(width)?;
    let spare = question::number(spare)?;
    let calls: Option<Vec<Asked>> = calls.iter().map(|word| Asked::of(word)).collect(heap)?;
    let calls = calls.ok_or(NoAnswer::NoQuestion)?;
    let mut tally = Open::<F>::open(Frame::new(width, spare)?);
    let answers = run(heap, &mut tally, &calls)?;
    let tally = tally.close();
    let turnover = tally.turnover();
    let sums = text::write::codes(heap, tally.sums())?;
    Ok(format!(in heap; "ok {answers} {turnover}{sums}")?)
}

// A closed tally as a sheet could hold it: refused by its frame, and no question where the sums are not as many as the frame
// has or one is no code, or the turnover is above the limit.
pub fn held<F: Field>(
    heap: Global,
    width: u32,
    spare: u32,
    turnover: u32,
    sums: &[u32],
) -> Result<Closed<F>, NoAnswer> {
    let frame = Frame::new(width, spare)?;
    if sums.len() != frame.count()
        || turnover > (F::size() - 1) / 4
        || sums.iter().any(|code| *code >= F::size())
    {
        return Err(NoAnswer::NoQuestion);
    }
    let codes = text::read::codes(heap, sums)?;
    let mut tally = Closed::<F>::blank(frame);
    tally.restore(frame, turnover, &codes);
    Ok(tally)
}

// A tally of turnover 0 by its frame and its sums.
fn restored<F: Field>(heap: Global, numbers: &[u32]) -> Result<Closed<F>, NoAnswer> {
    let [width, spare, sums @ ..] = numbers else {
        return Err(NoAnswer::NoQuestion);
    };
    held::<F>(heap, *width, *spare, 0, sums)
}

// Whether two tallies, given by their frames and sums with a / between, are equal.
pub fn compare<F: Field>(heap: Global, words: &[&str]) -> Result<String, NoAnswer> {
    let mut parts = words.splitn(2, |word| *word == "/");
    let (Some(left), Some(right)) = (parts.next(), parts.next()) else {
        return Err(NoAnswer::NoQuestion);
    };
    let left = question::numbers(heap, left)?;
    let right = question::numbers(heap, right)?;
    let left = restored::<F>(heap, &left)?;
    let right = restored::<F>(heap, &right)?;
    let equal = if left.compare(&right)? {
        "ok equal"
    } else {
        "ok unequal"
    };
    Ok(String::from_str(heap, equal)?)
}
