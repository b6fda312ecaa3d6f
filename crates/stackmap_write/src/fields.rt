//! Numbers as little-endian fields.
ghost use Rattle.std.specs.Prelude.{◌≡◌, ◌++◌, OnOk};
ghost use Rattle.std.specs.Int.{w32, cast_unsigned};
ghost use Rattle.byteorder.specs.Endian.{little_bytes};

use byteorder::{ByteOrder, LittleEndian};
use sp_ids::Memory;

pub(crate) fn put_u8(bytes: &mut Vec<u8>, number: u8) -> Result<(), Memory>
    ensures { OnOk result (bytes.new.items ≡ bytes.old.items ++ little_bytes 1 number) }
{
    bytes.push(number)?;
    Ok(())
}

pub(crate) fn put_u16(bytes: &mut Vec<u8>, number: u16) -> Result<(), Memory>
    ensures { OnOk result (bytes.new.items ≡ bytes.old.items ++ little_bytes 2 number) }
{
    let mut field = [0; 2];
    LittleEndian::write_u16(&mut field, number);
    bytes.extend_from_slice(&field)?;
    Ok(())
}

pub(crate) fn put_u32(bytes: &mut Vec<u8>, number: u32) -> Result<(), Memory>
    ensures { OnOk result (bytes.new.items ≡ bytes.old.items ++ little_bytes 4 number) }
{
    let mut field = [0; 4];
    LittleEndian::write_u32(&mut field, number);
    bytes.extend_from_slice(&field)?;
    Ok(())
}

pub(crate) fn put_i32(bytes: &mut Vec<u8>, number: i32) -> Result<(), Memory>
    ensures { OnOk result (bytes.new.items ≡ bytes.old.items ++ little_bytes 4 (cast_unsigned w32 number)) }
{
    let mut field = [0; 4];
    LittleEndian::write_i32(&mut field, number);
    bytes.extend_from_slice(&field)?;
    Ok(())
}

pub(crate) fn put_u64(bytes: &mut Vec<u8>, number: u64) -> Result<(), Memory>
    ensures { OnOk result (bytes.new.items ≡ bytes.old.items ++ little_bytes 8 number) }
{
    let mut field = [0; 8];
    LittleEndian::write_u64(&mut field, number);
    bytes.extend_from_slice(&field)?;
    Ok(())
}
