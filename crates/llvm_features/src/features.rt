//! What a line has that the profile lacks, and what helps.

/// What a line has that the profile lacks, and lifting doesn't take away.
#[derive(Clone, Copy, Debug, PartialEq, Eq)]
pub struct Reason {
    /// The line's number, counted from 1.
    pub line: u32,
    pub feature: Feature,
}

/// What a line has that the profile lacks.
#[derive(Clone, Copy, Debug, PartialEq, Eq)]
pub enum Feature {
    /// A byte that begins no token.
    Spelling,
    /// `alloca`
    FrameMemory,
    Float,
    Global,
    NoStrategy,
    Varargs,
    IndirectCall,
    Exceptions,
    PointerCast,
    Atomics,
    Aggregates,
    Assembly,
    /// A `load` or `store` of another type than `i64` and a pointer.
    SmallAccess,
    /// A `load`, a `store` or a step at a pointer outside the heap.
    PlainPointer,
    /// An intrinsic that isn't written out.
    Intrinsic,
    /// `gc_new.T` without a layout `%T`.
    NoLayout,
}

impl Feature {
    /// What it is.
    pub fn what(self) -> &'static str {
        match self {
            Feature::Spelling => "a vector, a packed layout or a quoted name",
            Feature::FrameMemory => "alloca",
            Feature::Float => "floating point",
            Feature::Global => "a global",
            Feature::NoStrategy => "a function without the strategy",
            Feature::Varargs => "a variable number of arguments",
            Feature::IndirectCall => "a call through a pointer",
            Feature::Exceptions => "an exception",
            Feature::PointerCast => "a cast between pointers and integers",
            Feature::Atomics => "an atomic or volatile access",
            Feature::Aggregates => "a value of several parts",
            Feature::Assembly => "assembly",
            Feature::SmallAccess => "an access to other than i64 and ptr addrspace(1)",
            Feature::PlainPointer => "memory outside the heap",
            Feature::Intrinsic => "an intrinsic that isn't written out",
            Feature::NoLayout => "an object whose layout is gone",
        }
    }

    /// What helps.
    pub fn help(self) -> &'static str {
        match self {
            Feature::Spelling => "-fno-vectorize -fno-slp-vectorize, plain names",
            Feature::FrameMemory => "-O1, or -passes=sroa; what stays goes into an object",
            Feature::Float => "integers",
            Feature::Global => "a field of an object that is passed",
            Feature::NoStrategy => "gc \"statepoint-example\" before its {",
            Feature::Varargs => "an array and its length",
            Feature::IndirectCall => "a switch over a number, with direct calls",
            Feature::Exceptions => "-fno-exceptions, and answers that tell",
            Feature::PointerCast => "a field that holds the number",
            Feature::Atomics => "plain accesses; tasks take turns at polls alone",
            Feature::Aggregates => "an object, or a result by result",
            Feature::Assembly => "the same in C",
            Feature::SmallAccess => "fields as long and pointers of address space 1",
            Feature::PlainPointer => "pointers of address space 1",
            Feature::Intrinsic => "-fno-builtin, or the same in C",
            Feature::NoLayout => "--layouts FILE, with its line %T = type { .. }",
        }
    }
}
