use roots::list::RootList;
use roots::record::RootRecord;
use std::alloc::{AllocError, Global};
use std::fmt::Write;

// How often a root counts.
fn times(heap: Global, multiplicity: u32) -> Result<String, AllocError> {
    match multiplicity {
        1 => String::from_str(heap, "once"),
        2 => String::from_str(heap, "twice"),
        n => format!(in heap; "{n} times"),
    }
}

// The roots with their multiplicities.
fn records(heap: Global, list: &[RootRecord]) -> Result<String, AllocError> {
    if list.is_empty() {
        return String::from_str(heap, "no roots");
    }
    let mut text = String::from_str(heap, if list.len() == 1 { "root" } else { "roots" })?;
    for (i, record) in list.iter().enumerate() {
        let comma = if i == 0 { "" } else { "," };
        let often = times(heap, record.multiplicity)?;
        write!(text, "{comma} {} {often}", record.code.0)?;
    }
    Ok(text)
}

// The roots, whether they split the polynomial, and how many elements were tried.
pub fn roots(heap: Global, all: RootList, list: &[RootRecord]) -> Result<String, AllocError> {
    let found = records(heap, list)?;
    let splits = if all.splits {
        "splits"
    } else {
        "does not split"
    };
    let s = if all.trials == 1 { "" } else { "s" };
    format!(in heap; "{found}; {splits}; {} trial{s}", all.trials)
}
