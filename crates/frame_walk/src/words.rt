//! The words of a stack that are still to be lent. Only `first` takes some of them out, so that no return word is ever written.

ghost use Rattle.std.specs.Prelude.{◌≡◌, ◌+◌, ◌<◌, ◌≤◌, ◌++◌, length, take, drop, slice_index};
ghost use Rattle.std.specs.Borrow.{sem, LendsBoth, Array, u64};
ghost use Rattle.frame_walk.specs.Lent.{LendsFirst};

/// The words of a stack from a frame on, lent.
#[derive(Drop)]
pub(crate) struct Words<'a> {
    rest: &'a mut [u64],
}

impl<'a> Words<'a> {
    /// These words.
    pub(crate) fn of(rest: &'a mut [u64]) -> Words<'a>
        ensures same_reference { result.rest.ghost_name ≡ rest.entry.ghost_name }
        ensures words { result.rest.now ≡ rest.old }
    {
        Words { rest }
    }

    /// How many there are.
    pub(crate) fn len(&self) -> usize
        ensures { result ≡ length self.now.rest.now }
    {
        self.rest.len()
    }

    /// The word with this place.
    pub(crate) fn word(&self, place: usize) -> u64
        requires { place < length self.now.rest.now }
        ensures { result ≡ slice_index self.now.rest.now place }
    {
        self.rest[place]
    }

    /// All of them, by value.
    pub(crate) fn take(&mut self) -> Words<'a>
        ensures same_reference { result.rest.ghost_name ≡ self.old.rest.ghost_name }
        ensures words { result.rest.now ≡ self.old.rest.now }
    {
        Words {
            rest: std::mem::take(&mut self.rest),
        }
    }

    /// A frame of so many words, and what lies behind its return word. The words end as the frame ends, the return word as it is
    /// and the rest as it ends.
    pub(crate) fn first(self, count: usize) -> (&'a mut [u64], Words<'a>)
        requires { count < length self.rest.now }
        ensures* ends { sem 𝓛 (LendsFirst self.entry.rest count result.0.ghost_name result.1.rest.ghost_name) }
        ensures frame { result.0.now ≡ take count self.entry.rest.now }
        ensures rest { result.1.rest.now ≡ drop (count + 1) self.entry.rest.now }
    {
        let Words { rest } = self;
        let (frame, behind) = split_frame(rest, count);
        let (_, below) = split_frame(behind, 1);
        (frame, Words { rest: below })
    }
}

/// So many words, and the others.
pub(crate) fn split_frame(rest: &mut [u64], count: usize) -> (&mut [u64], &mut [u64])
    requires { count ≤ length rest.old }
    ensures* ends { sem 𝓛 (LendsBoth (Array u64 0) (Array u64 0) (Array u64 0) rest.entry result ◌++◌) }
    ensures front { result.0.now ≡ take count rest.old }
    ensures back { result.1.now ≡ drop count rest.old }
{
    rest.split_at_mut(count)
}
