/// A number as a line spells it: from -2^63 to 2^64 - 1.
#[derive(Clone, Copy, Debug, PartialEq, Eq)]
pub struct Literal {
    pub negative: bool,
    pub magnitude: u64,
}

/// What a token says, and whether that stands for something that passes its limit.
#[derive(Clone, Copy, Debug)]
pub struct Limited<T> {
    pub value: T,
    pub passes: bool,
}
