//! Files of cases: `=behind` has what stands behind each text that follows, `= EXPECTED: REMARK` a text.

ghost use Rattle.std.specs.Prelude.{◌≤◌, length};
ghost use Rattle.sp_ids.specs.declared.limits.TheConstants.{FILE_BYTES};

use case_files::{Part, Refusal, case_lines, parts_in, push_text};
use std::alloc::Global;

/// A text with what is expected of it.
#[derive(Drop)]
pub(crate) struct Case<'a> {
    /// Its line in the file of cases.
    pub(crate) line: u32,
    pub(crate) expected: &'a str,
    pub(crate) remark: &'a str,
    pub(crate) text: Vec<u8>,
}

// What was read so far of a file of cases, and what stands behind each text that follows.
#[derive(Drop)]
struct Sheet<'a> {
    alloc: Global,
    behind: Vec<u8>,
    cases: Vec<Case<'a>>,
}

impl<'a> Sheet<'a> {
    fn take(&mut self, part: &Part<'_, 'a>) -> Result<(), Refusal> {
        match part.head.split_once(' ') {
            Some(("", words)) => self.add_case(part, words),
            None if part.head == "behind" => self.set_behind(part),
            _ => Err(Refusal::Head(part.line)),
        }
    }

    fn set_behind(&mut self, part: &Part<'_, 'a>) -> Result<(), Refusal> {
        self.behind.clear();
        push_text(&mut self.behind, part.body)?;
        Ok(())
    }

    fn add_case(&mut self, part: &Part<'_, 'a>, words: &'a str) -> Result<(), Refusal> {
        let (expected, remark) = words.split_once(": ").unwrap_or((words, ""));
        let mut text = Vec::new(self.alloc);
        push_text(&mut text, part.body)?;
        text.extend_from_slice(&self.behind)?;
        self.cases.push(Case {
            line: part.line,
            expected,
            remark,
            text,
        })?;
        Ok(())
    }
}

/// The cases of a file.
pub(crate) fn cases_of(alloc: Global, file: &[u8]) -> Result<Vec<Case<'_>>, Refusal>
    requires { length file.now ≤ FILE_BYTES }
{
    let lines = case_lines(alloc, file)?;
    let mut sheet = Sheet {
        alloc,
        behind: Vec::new(alloc),
        cases: Vec::new(alloc),
    };
    for part in &parts_in(alloc, &lines)? {
        sheet.take(part)?;
    }
    Ok(sheet.cases)
}
