//! How many cases hold.

ghost use Rattle.std.specs.Prelude.{◌≡◌, ◌+◌, ◌↔◌, IsTrue, min, if◌then◌else◌};

use std::fmt;

/// How many cases there are, and of how many what is expected holds. Counts stop at 2^32 - 1.
#[derive(Clone, Copy, Debug)]
pub struct Tally {
    pub cases: u32,
    pub held: u32,
}

impl Tally {
    /// Of no cases.
    pub fn new() -> Tally
        ensures { result ≡ record { cases = 0; held = 0 } }
    {
        Tally { cases: 0, held: 0 }
    }

    /// Whether each case holds.
    pub fn all_hold(&self) -> bool
        ensures { IsTrue result ↔ (self.now.cases ≡ self.now.held) }
    {
        self.cases == self.held
    }

    /// Counts one more case, which holds or doesn't.
    pub fn count(&mut self, holds: bool)
        ensures cases { self.new.cases ≡ min (self.old.cases + 1) 4294967295 }
        ensures held { self.new.held ≡ min (self.old.held + (if holds then 1 else 0)) 4294967295 }
    {
        self.add(Tally {
            cases: 1,
            held: if holds { 1 } else { 0 },
        });
    }

    /// Adds what was counted elsewhere.
    pub fn add(&mut self, other: Tally)
        ensures cases { self.new.cases ≡ min (self.old.cases + other.cases) 4294967295 }
        ensures held { self.new.held ≡ min (self.old.held + other.held) 4294967295 }
    {
        self.cases = self.cases.saturating_add(other.cases);
        self.held = self.held.saturating_add(other.held);
    }
}

impl fmt::Display for Tally {
    fn fmt<W: fmt::Write>(&self, f: &mut fmt::Formatter<W>) -> fmt::Result {
        write!(f, "{} of {} cases hold", self.held, self.cases)
    }
}
