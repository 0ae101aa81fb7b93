use algebra::code::Code;

// What a trial tells of the roots whose power is the element tried: none, this one alone,
// or those that both of its square roots have a level below.
#[derive(Clone, Copy, PartialEq, Eq, Debug)]
pub(crate) enum Verdict {
    Nothing,
    Root(Code),
    Both,
}
