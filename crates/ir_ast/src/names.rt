//! Names, of which the short ones take no memory.

ghost use Rattle.std.specs.Prelude.{◌≡◌, ◌≤◌, ◌++◌, decimal, length, IfOk};

use crate::clones::TryClone;
use itoa::Buffer;
use smallvec::SmallVec;
use sp_ids::Memory;
use std::alloc::{AllocError, Global};
use std::fmt;
use std::marker::Model;

// Names of so many bytes, as most are, take no memory of their own.
const SHORT: usize = 14;

/// A name without its `%` or `@` (LLVM Language Reference, "Identifiers"). Contracts see the list of
/// its bytes.
#[derive(Drop)]
pub struct Name {
    spelled: Spelled,
}

#[derive(Drop)]
pub(crate) enum Spelled {
    // how many bytes, and these
    Short(u8, [u8; SHORT]),
    Long(Box<Vec<u8>>),
}

impl Model for Name {
    ghost use Rattle.std.specs.Prelude.{ℕ, List};
    ghost use Rattle.ir_ast.specs.Spellings.{bytes_spelled};

    ghost Value = { List ℕ };

    ghost view = { λ name. bytes_spelled name.spelled };
}

impl Name {
    /// The name of these bytes.
    pub fn of(alloc: Global, bytes: &[u8]) -> Result<Name, AllocError>
        ensures { IfOk result (λ name. name ≡ bytes.now) }
    {
        if bytes.len() > SHORT {
            return long(alloc, bytes);
        }
        Ok(short(bytes))
    }

    /// The name of this front and of the decimal digits of a number behind it.
    pub fn numbered(alloc: Global, front: &[u8], number: u32) -> Result<Name, Memory>
        ensures { IfOk result (λ name. name ≡ front.now ++ decimal number) }
    {
        let mut buffer = Buffer::new();
        let mut bytes = SmallVec::<u8, 16>::new(alloc);
        bytes.extend_from_slice(front)?;
        bytes.extend_from_slice(buffer.format(number).as_bytes())?;
        Ok(Name::of(alloc, bytes.as_slice())?)
    }

    /// Its bytes.
    pub fn bytes(&self) -> &[u8]
        ensures { result.now ≡ self.now }
    {
        match &self.spelled {
            Spelled::Short(count, bytes) => &bytes[..(*count as usize).min(SHORT)],
            Spelled::Long(bytes) => bytes.as_slice(),
        }
    }
}

fn short(bytes: &[u8]) -> Name
    requires { length bytes.now ≤ 14 }
    ensures { result ≡ bytes.now }
{
    let mut room = [0; SHORT];
    room[..bytes.len()].copy_from_slice(bytes);
    Name {
        spelled: Spelled::Short(bytes.len() as u8, room),
    }
}

#[inline(never)]
fn long(alloc: Global, bytes: &[u8]) -> Result<Name, AllocError>
    ensures { IfOk result (λ name. name ≡ bytes.now) }
{
    let owned = Vec::from_slice(alloc, bytes)?;
    let boxed = Box::new(alloc, owned)?;
    Ok(Name {
        spelled: Spelled::Long(boxed),
    })
}

impl TryClone for Name {
    fn try_clone_in(&self, alloc: Global) -> Result<Name, Memory> {
        Ok(Name::of(alloc, self.bytes())?)
    }
}

impl fmt::Debug for Name {
    fn fmt<W: fmt::Write>(&self, f: &mut fmt::Formatter<W>) -> fmt::Result {
        f.debug_struct("Name")
            .field("bytes", &self.bytes())
            .finish()
    }
}
