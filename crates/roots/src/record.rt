use algebra::code::Code;

/// A root by its code, and its multiplicity.
#[derive(Clone, Copy, Default, PartialEq, Eq, Debug)]
pub struct RootRecord {
    pub code: Code,
    pub multiplicity: u32,
}
