//! Why a text is not read, by its line.

ghost use Rattle.std.specs.Prelude.{◌≡◌};

use line_parts::Stop;

/// Why a text is not read. Lines are numbered from 1.
#[derive(Clone, Copy, Debug, PartialEq, Eq)]
pub enum ReadFault {
    /// The line has no reading in its place.
    Syntax { line: u32 },
    /// The line passes a limit of the profile.
    Limit { line: u32 },
    /// Memory that was wanted and could not be had.
    Memory,
}

/// Why a line in its place isn't read.
#[derive(Clone, Copy, Debug, PartialEq, Eq)]
pub enum LineFault {
    NoReading,
    OverLimit,
    Memory,
}

impl From<Stop> for LineFault {
    ghost use Rattle.ir_reader.specs.LineFaults.{line_fault};

    ghost from_gives = { λ stop fault. fault ≡ line_fault stop };

    fn from(stop: Stop) -> LineFault {
        match stop {
            Stop::NoReading => LineFault::NoReading,
            Stop::Memory => LineFault::Memory,
        }
    }
}
