/// The number of an element, from 0 to one less than the field's order.
#[derive(Clone, Copy, Default, PartialEq, Eq, PartialOrd, Ord, Debug)]
pub struct Code(pub u32);

/// The number of times that the primitive element is taken in a power of it.
#[derive(Clone, Copy, PartialEq, Eq, PartialOrd, Ord, Debug)]
pub struct Exponent(pub u32);
