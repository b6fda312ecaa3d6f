//! The rules that the bytes of a stack map keep, with their codes and messages.

ghost use Rattle.std.specs.Prelude.{◌≡◌};

use std::error::Error;
use std::fmt;

/// What bytes that are no stack map break. Fields are looked at in the order in which they stand.
#[derive(Clone, Copy, Debug, PartialEq, Eq)]
pub enum MapRule {
    /// A field isn't whole. Code 1, at the field.
    Short,
    /// The version isn't 3. Code 2, at byte 0.
    BadVersion,
    /// A reserved field or one of padding isn't 0. Code 3, at the field.
    BadReserved,
    /// The record counts of the functions don't add up to the number of records, which is judged after the last function's
    /// entry and stands at byte 12; or the constant of a ConstantIndex isn't there, at its number. Code 4.
    BadCount,
    /// A location has none of the kinds 1 to 5. Code 5, at the kind.
    BadKind,
    /// Bytes stand behind the last record. Code 6, at the first of them.
    Trailing,
}

impl MapRule {
    ghost use Rattle.map_bytes.specs.Codes.{rule_code};

    /// The number of the rule, from 1.
    pub fn code(&self) -> u8
        ensures { result ≡ rule_code self.now }
    {
        match self {
            MapRule::Short => 1,
            MapRule::BadVersion => 2,
            MapRule::BadReserved => 3,
            MapRule::BadCount => 4,
            MapRule::BadKind => 5,
            MapRule::Trailing => 6,
        }
    }
}

impl fmt::Display for MapRule {
    fn fmt<W: fmt::Write>(&self, f: &mut fmt::Formatter<W>) -> fmt::Result {
        f.write_str(match self {
            MapRule::Short => "1 Short",
            MapRule::BadVersion => "2 BadVersion",
            MapRule::BadReserved => "3 BadReserved",
            MapRule::BadCount => "4 BadCount",
            MapRule::BadKind => "5 BadKind",
            MapRule::Trailing => "6 Trailing",
        })
    }
}

/// The first fault of bytes that are no stack map: its place in bytes from the first byte of the map, and the rule.
#[derive(Clone, Copy, Debug, PartialEq, Eq)]
pub struct MapFault {
    pub at: u64,
    pub rule: MapRule,
}

impl fmt::Display for MapFault {
    fn fmt<W: fmt::Write>(&self, f: &mut fmt::Formatter<W>) -> fmt::Result {
        let at = self.at;
        let rule = self.rule;
        write!(f, "map byte {at}: {rule}")
    }
}

impl Error for MapFault {}
