//! Files of cases: texts with what is expected of them. Empty lines at the end of a part don't count.

ghost use Rattle.std.specs.Prelude.{◌≤◌, length};
ghost use Rattle.sp_ids.specs.declared.limits.TheConstants.{FILE_BYTES};

use crate::escapes::unescaped;
use crate::expected::Expected;
use case_files::{CaseLine, Part, Refusal, case_lines, filled, parts_in, push_text};
use ir_ast::Form;
use std::alloc::{AllocError, Global};
use std::fmt;

/// A text with what is expected of it.
#[derive(Drop)]
pub(crate) struct Case<'a> {
    /// Its line in the file of cases.
    pub(crate) line: u32,
    /// The name of its group.
    pub(crate) group: &'a str,
    /// What tells it from the others: a remark, or its own line.
    pub(crate) note: &'a str,
    pub(crate) form: Form,
    pub(crate) text: Vec<u8>,
    pub(crate) expected: Expected,
}

impl fmt::Display for Case<'_> {
    fn fmt<W: fmt::Write>(&self, f: &mut fmt::Formatter<W>) -> fmt::Result {
        write!(f, "{}: {}: {}", self.line, self.group, self.note)
    }
}

// What stands around a text.
#[derive(Drop)]
struct Frame {
    before: Vec<u8>,
    after: Vec<u8>,
}

impl Frame {
    fn around(&self, alloc: Global, text: &[u8]) -> Result<Vec<u8>, AllocError> {
        joined(alloc, [self.before.as_slice(), text, self.after.as_slice()])
    }
}

// Where texts may stand.
#[derive(Drop)]
struct Place<'a> {
    name: &'a str,
    frame: Frame,
}

// What cases have in common. By lines, each line is a text of its own.
#[derive(Clone, Copy)]
struct Group<'a> {
    name: &'a str,
    form: Form,
    place: &'a str,
    by_lines: bool,
}

impl<'a> Group<'a> {
    // `NAME, FORM` or `NAME, FORM, PLACE`.
    fn of(words: &'a str, by_lines: bool) -> Option<Group<'a>> {
        let (name, words) = words.split_once(", ")?;
        let (form, place) = words.split_once(", ").unwrap_or((words, ""));
        let form = match form {
            "source" => Form::Source,
            "rewritten" => Form::Rewritten,
            _ => return None,
        };
        Some(Group {
            name,
            form,
            place,
            by_lines,
        })
    }
}

// What was read so far of a file of cases.
#[derive(Drop)]
struct Sheet<'a> {
    alloc: Global,
    places: Vec<Place<'a>>,
    group: Option<Group<'a>>,
    cases: Vec<Case<'a>>,
}

impl<'a> Sheet<'a> {
    fn take(&mut self, part: &Part<'_, 'a>) -> Result<(), Refusal> {
        match part.head.split_once(' ') {
            Some(("", words)) => self.add_cases(part, words),
            Some(("lines", words)) => self.open_group(part.line, Group::of(words, true)),
            Some(("texts", words)) => self.open_group(part.line, Group::of(words, false)),
            Some(("place", words)) => self.add_place(part, words),
            None if part.head == "here" => self.close_place(part),
            None if part.head == "printed" => self.expect_printed(part),
            _ => Err(Refusal::Head(part.line)),
        }
    }

    fn open_group(&mut self, line: u32, group: Option<Group<'a>>) -> Result<(), Refusal> {
        self.group = group;
        match group {
            Some(_) => Ok(()),
            None => Err(Refusal::Head(line)),
        }
    }

    // `NAME` or `NAME, which stands PLACE`, and what stands before a text.
    fn add_place(&mut self, part: &Part<'_, 'a>, words: &'a str) -> Result<(), Refusal> {
        let (name, outer) = words.split_once(", which stands ").unwrap_or((words, ""));
        let Frame { before, after } = self.frame(part.line, outer)?;
        let own = self.written(part)?;
        let before = joined(self.alloc, [before.as_slice(), own.as_slice(), b""])?;
        self.places.push(Place {
            name,
            frame: Frame { before, after },
        })?;
        Ok(())
    }

    // What stands behind a text at the last place.
    fn close_place(&mut self, part: &Part<'_, 'a>) -> Result<(), Refusal> {
        let Some(Place { name, frame }) = self.places.pop() else {
            return Err(Refusal::Head(part.line));
        };
        let Frame { before, after } = frame;
        let own = self.written(part)?;
        let after = joined(self.alloc, [own.as_slice(), after.as_slice(), b""])?;
        self.places.push(Place {
            name,
            frame: Frame { before, after },
        })?;
        Ok(())
    }

    // A copy of what stands around texts at this place, as a line names it. Around those at none nothing stands.
    fn frame(&self, line: u32, name: &str) -> Result<Frame, Refusal> {
        let (before, after) = match self.places.iter().find(|place| place.name == name) {
            Some(place) => (place.frame.before.as_slice(), place.frame.after.as_slice()),
            None if name.is_empty() => (b"".as_slice(), b"".as_slice()),
            None => return Err(Refusal::Words(line)),
        };
        Ok(Frame {
            before: Vec::from_slice(self.alloc, before)?,
            after: Vec::from_slice(self.alloc, after)?,
        })
    }

    // `EXPECTED` or `EXPECTED: REMARK`, and one text, or one a line.
    fn add_cases(&mut self, part: &Part<'_, 'a>, words: &'a str) -> Result<(), Refusal> {
        let Some(group) = self.group else {
            return Err(Refusal::Head(part.line));
        };
        let (expected, remark) = words.split_once(": ").unwrap_or((words, ""));
        if group.by_lines {
            self.add_lines(group, expected, part.body)
        } else {
            let text = self.written(part)?;
            self.add_case(group, part.line, remark, expected, &text)
        }
    }

    fn add_lines(
        &mut self,
        group: Group<'a>,
        expected: &str,
        body: &[CaseLine<'a>],
    ) -> Result<(), Refusal> {
        for line in body {
            if !line.text.is_empty() {
                let written = joined(self.alloc, [line.text.as_bytes(), b"\n", b""])?;
                let text = unescaped(self.alloc, line.number, &written)?;
                self.add_case(group, line.number, line.text, expected, &text)?;
            }
        }
        Ok(())
    }

    fn add_case(
        &mut self,
        group: Group<'a>,
        line: u32,
        note: &'a str,
        expected: &str,
        text: &[u8],
    ) -> Result<(), Refusal> {
        let text = self.frame(line, group.place)?.around(self.alloc, text)?;
        let Some(expected) = Expected::of(self.alloc, expected, &text)? else {
            return Err(Refusal::Words(line));
        };
        self.cases.push(Case {
            line,
            group: group.name,
            note,
            form: group.form,
            text,
            expected,
        })?;
        Ok(())
    }

    // The printed text that is expected of the last case.
    fn expect_printed(&mut self, part: &Part<'_, 'a>) -> Result<(), Refusal> {
        let printed = self.written(part)?;
        match self.cases.last_mut() {
            Some(
                Case {
                    expected: Expected::Prints(text),
                    ..
                },
            ) => {
                *text = printed;
                Ok(())
            }
            _ => Err(Refusal::Head(part.line)),
        }
    }

    // The text that the lines of a part stand for.
    fn written(&self, part: &Part<'_, 'a>) -> Result<Vec<u8>, Refusal> {
        let mut lines = Vec::new(self.alloc);
        push_text(&mut lines, filled(part.body))?;
        unescaped(self.alloc, part.line, &lines)
    }
}

fn joined(alloc: Global, parts: [&[u8]; 3]) -> Result<Vec<u8>, AllocError> {
    let mut whole = Vec::new(alloc);
    for part in parts {
        whole.extend_from_slice(part)?;
    }
    Ok(whole)
}

/// The cases of a file.
pub(crate) fn cases_of(alloc: Global, file: &[u8]) -> Result<Vec<Case<'_>>, Refusal>
    requires { length file.now ≤ FILE_BYTES }
{
    let lines = case_lines(alloc, file)?;
    let mut sheet = Sheet {
        alloc,
        places: Vec::new(alloc),
        group: None,
        cases: Vec::new(alloc),
    };
    for part in &parts_in(alloc, &lines)? {
        sheet.take(part)?;
    }
    Ok(sheet.cases)
}
