/// The entry of a function in a stack map.
#[derive(Clone, Copy, Debug, PartialEq, Eq)]
pub struct FuncEntry {
    /// The address at which the function's code begins.
    pub address: u64,
    /// The bytes of its frame, without the return address of its caller.
    pub frame_bytes: u64,
    /// How many of the map's records are the function's.
    pub records: u64,
}

/// A location of a record: where a value is, or which constant it is.
#[derive(Clone, Copy, Debug, PartialEq, Eq)]
pub struct Place {
    /// 1 Register, 2 Direct (register + offset), 3 Indirect (the word at register + offset), 4 Constant (the offset),
    /// 5 ConstantIndex (the offset is the number of one of the map's constants).
    pub kind: u8,
    /// The bytes of the value.
    pub size: u16,
    /// The DWARF number of the register.
    pub register: u16,
    /// An offset in bytes, a small constant, or the number of a constant.
    pub offset: i32,
}
