//! Numbers that wrap and signed numbers.

ghost use Rattle.std.specs.Prelude.{◌≤◌};

use anyhow::Result;
use sp_ids::{sign, wrap};

pub(crate) fn show(rt: &impl Print) -> Result<()> {
    show_wrapped(rt, 1, 2)?;
    show_wrapped(rt, 1, 3)?;
    show_wrapped(rt, 63, u64::MAX)?;
    show_wrapped(rt, 64, u64::MAX)?;
    show_signed(rt, 1, 1)?;
    show_signed(rt, 1, 2)?;
    show_signed(rt, 63, 1 << 62)?;
    show_signed(rt, 64, u64::MAX)?;
    show_signed(rt, 64, 1 << 63)
}

fn show_wrapped(rt: &impl Print, width: u32, n: u64) -> Result<()>
    requires some_bits { 1 ≤ width }
    requires word { width ≤ 64 }
{
    let wrapped = wrap(width, n);
    println!(rt; "wrap {width} {n}: {wrapped}")?;
    Ok(())
}

fn show_signed(rt: &impl Print, width: u32, n: u64) -> Result<()>
    requires some_bits { 1 ≤ width }
    requires word { width ≤ 64 }
{
    let signed = sign(width, n);
    println!(rt; "sign {width} {n}: {signed}")?;
    Ok(())
}
