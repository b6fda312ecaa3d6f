//! The cases of the file `cases`.
//!
//! A part `= REMARK: STEPS NUMBERS` opens a case, with the bound on steps and the input's numbers. Each part `=func NAME ARGUMENTS`
//! behind it is a function of its module (`modules`).

ghost use Rattle.std.specs.Prelude.{◌≤◌, length};
ghost use Rattle.sp_ids.specs.declared.limits.TheConstants.{FILE_BYTES};
ghost use Rattle.flat_code.specs.Codes.{IsReadyModule};

use crate::forms::is_source_form;
use crate::modules::{func_of, module_of};
use anyhow::{Result, bail};
use case_files::{Part, case_lines, parts_in};
use ir_ast::{Func, Module};
use ir_meaning::{made, reference};
use move_plan::Plan;
use sp_ids::limits::FILE_BYTES;
use std::alloc::Global;
use tool_io::{DiskFiles, Files, MemSink};

// More than any case writes.
const ROOM: usize = 1_000;

/// A run of a module.
#[derive(Drop)]
struct Case<'a> {
    remark: &'a str,
    // the bound on steps, and the input
    numbers: &'a str,
    funcs: Vec<Func>,
}

pub(crate) fn show(rt: &HostRuntime) -> Result<()> {
    let file = DiskFiles::new(rt).take(rt.alloc(), "cases", FILE_BYTES)?;
    for case in cases_of(rt.alloc(), &file)? {
        show_case(rt, case)?;
    }
    Ok(())
}

fn cases_of(alloc: Global, file: &[u8]) -> Result<Vec<Case<'_>>>
    requires { length file.now ≤ FILE_BYTES }
{
    let lines = case_lines(alloc, file)?;
    let mut cases = Vec::new(alloc);
    for part in &parts_in(alloc, &lines)? {
        take_part(alloc, &mut cases, part)?;
    }
    Ok(cases)
}

fn take_part<'a>(alloc: Global, cases: &mut Vec<Case<'a>>, part: &Part<'_, 'a>) -> Result<()> {
    match part.head.split_once(' ') {
        Some(("", words)) => cases.push(case_of(alloc, words))?,
        Some(("func", words)) => match cases.last_mut() {
            Some(case) => case.funcs.push(func_of(alloc, words, part.body)?)?,
            None => bail!("a function before the first case"),
        },
        _ => bail!("no part that may stand here"),
    }
    Ok(())
}

fn case_of(alloc: Global, words: &str) -> Case<'_> {
    let (remark, numbers) = words.split_once(": ").unwrap_or((words, ""));
    Case {
        remark,
        numbers,
        funcs: Vec::new(alloc),
    }
}

fn show_case(rt: &HostRuntime, case: Case) -> Result<()> {
    let Case {
        remark,
        numbers,
        funcs,
    } = case;
    let whole = module_of(rt.alloc(), funcs)?;
    if !is_source_form(&whole) {
        bail!("a module isn't of the source form");
    }
    println!(rt; "{remark}")?;
    show_run(rt, &whole, numbers)
}

fn show_run(rt: &HostRuntime, whole: &Module, numbers: &str) -> Result<()>
    requires { IsReadyModule whole.now.content }
{
    let alloc = rt.alloc();
    let (steps, numbers) = numbers.split_once(' ').unwrap_or((numbers, ""));
    let mut input = Vec::new(alloc);
    for number in numbers.split_whitespace() {
        input.push(number.parse()?)?;
    }
    let Ok(plan) = Plan::read(alloc, b"") else {
        bail!("the plan has a fault");
    };
    let steps = steps.parse()?;
    let mut out = MemSink::new(alloc, ROOM)?;
    let ran = reference(alloc, whole, &input, &plan, steps, &mut out);
    let written = String::from_utf8_lossy(alloc, out.bytes())?;
    println!(rt; "{ran:?}, written {written:?}")?;
    let (_ran, objects) = made(alloc, whole, &input, &plan, steps)?;
    for one in &objects {
        println!(rt; "event {}: an object of {} bytes", one.event, one.footprint)?;
    }
    Ok(())
}
