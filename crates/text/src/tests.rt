// That calls succeed where memory suffices, which no contract says. The programs call what needs a field.
use crate::{read, write};
use algebra::refusal::Refusal;
use std::test::Fail;

#[test]
fn calls_succeed(rt: HostRuntime) -> Result<(), Fail> {
    let heap = rt.alloc();
    let words = read::words(heap, " 4 12\t1 ")?;
    assert_eq!(rt; words.len(), 3);
    let numbers = read::numbers(heap, &words)?;
    assert!(rt; numbers.is_some());
    let codes = read::codes(heap, &[4, 12, 1])?;
    assert_eq!(rt; codes.len(), 3);
    assert_eq!(rt; write::row(heap, &[4, 12, 1])?.as_str(), " 4 12 1");
    assert_eq!(rt;
        write::refused(heap, Refusal::Code(17))?.as_str(),
        "refused 2 17"
    );
    assert_eq!(rt; write::hexadecimal(heap, &[10, 255])?.as_str(), "0aff");
    Ok(())
}
