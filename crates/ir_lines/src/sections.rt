//! The definitions of a text, and their blocks.

ghost use Rattle.std.specs.Prelude.{◌≡◌, ℕ, [], ◌++◌, ◌<◌, position, length, map, decimal, option_map, option_to_list, unwrap_or, IfSome, IfOk, OnOk};
ghost use Rattle.std.specs.Option.{option_copied};
ghost use Rattle.line_parts.specs.Seen.{seen_argument};
ghost use Rattle.ir_lines.specs.Sections.{is_label, label_said, until_label, is_digit, is_number, is_numbered, count_numbered, arguments_named, first_block, block_at, labelled_blocks, blocks_of};
ghost use Rattle.ir_lines.specs.Parted.{definition_with};
ghost use Rattle.ir_lines.specs.Tables.{seen_definition, seen_block};
ghost use Rattle.std.specs.List.{list_all};
ghost use Rattle.ir_lines.specs.Views.{said, seen_lines};

use ir_reader::{Argument, NumberedReading, Reading, TypeWord};
use std::alloc::{AllocError, Global};

/// A definition: its head, and the lines between the head and the closing brace.
#[derive(Clone, Copy)]
pub struct Definition<'t, 'a> {
    pub line: u32,
    pub answer: TypeWord,
    pub name: &'a [u8],
    pub arguments: &'t [Argument<'a>],
    pub strategy: Option<&'a [u8]>,
    pub body: &'t [NumberedReading<'a>],
}

/// A block: the line and the name of its label, or of the head where the first block has none, and its lines.
#[derive(Clone, Copy)]
pub struct BlockLines<'t, 'a, 'n> {
    pub line: u32,
    pub name: &'n [u8],
    pub lines: &'t [NumberedReading<'a>],
}

fn label_of<'a>(reading: &Reading<'a>) -> Option<&'a [u8]>
    ensures { option_copied result ≡ label_said (said reading.now) }
{
    match reading {
        Reading::Label { name } => Some(name.bytes),
        _ => None,
    }
}

fn is_label(reading: &Reading) -> bool
    ensures { result ≡ is_label (said reading.now) }
{
    matches!(reading, Reading::Label { .. })
}

fn first_label(lines: &[NumberedReading]) -> Option<usize>
    ensures is { result ≡ position (λ l. is_label (said l.reading)) lines.now }
    ensures below { IfSome result (λ end. end < length lines.now) }
{
    lines.iter().position(|line| is_label(&line.reading))
}

// The lines before the next label.
fn until_label<'t, 'a>(lines: &'t [NumberedReading<'a>]) -> &'t [NumberedReading<'a>]
    ensures { seen_lines result.now ≡ until_label (seen_lines lines.now) }
{
    match first_label(lines) {
        Some(end) => &lines[..end],
        None => lines,
    }
}

/// The definition whose head this line is, with this body.
pub fn definition_with<'t, 'a>(
    line: &'t NumberedReading<'a>,
    body: &'t [NumberedReading<'a>],
) -> Option<Definition<'t, 'a>>
    ensures { option_to_list (option_map seen_definition result) ≡ definition_with line.now.line (said line.now.reading) (seen_lines body.now) }
{
    match &line.reading {
        Reading::Define {
            answer,
            name,
            arguments,
            strategy,
        } => Some(Definition {
            line: line.line,
            answer: *answer,
            name: name.bytes,
            arguments: arguments.as_slice(),
            strategy: *strategy,
            body,
        }),
        _ => None,
    }
}

fn is_digit(byte: u8) -> bool
    ensures { result ≡ is_digit byte }
{
    48 <= byte && byte <= 57
}

fn are_digits(name: &[u8]) -> bool
    ensures { result ≡ list_all is_digit name.now }
{
    name.iter().all(|byte| is_digit(*byte))
}

fn is_number(name: &[u8]) -> bool
    ensures { result ≡ is_number name.now }
{
    name.len() != 0 && are_digits(name)
}

fn is_numbered(argument: &Argument) -> bool
    ensures { result ≡ is_numbered (seen_argument argument.now).name }
{
    match argument.name {
        Some(name) => is_number(name.bytes),
        None => true,
    }
}

fn decimal(alloc: Global, number: usize) -> Result<Vec<u8>, AllocError>
    ensures { IfOk result (λ bytes. bytes.items ≡ decimal number) }
{
    Ok(number.to_string(alloc)?.into_bytes())
}

/// The names that a head gives: those of its arguments, and that of its first block where that has no label.
#[derive(Drop)]
pub struct HeadNames {
    pub arguments: Vec<Vec<u8>>,
    pub entry: Vec<u8>,
}

// The name of an argument, where this many before it lack a name or are named by a number.
fn argument_name(alloc: Global, argument: &Argument, numbered: usize) -> Result<Vec<u8>, AllocError>
    ensures { IfOk result (λ name. name.items ≡ unwrap_or (seen_argument argument.now).name (decimal numbered)) }
{
    match argument.name {
        Some(name) => Vec::from_slice(alloc, name.bytes),
        None => decimal(alloc, numbered),
    }
}

impl HeadNames {
    /// The names that the head with these arguments gives.
    pub fn of(alloc: Global, arguments: &[Argument]) -> Result<HeadNames, AllocError>
        ensures arguments { IfOk result (λ names. (line : ℕ) → map (λ n. n.items) names.arguments.items
            ≡ map (λ one. one.name) (arguments_named line [] (map seen_argument arguments.now))) }
        ensures entry { IfOk result (λ names. names.entry.items ≡ decimal (count_numbered (map seen_argument arguments.now))) }
    {
        let mut names = Vec::with_capacity(alloc, arguments.len())?;
        let mut numbered = 0;
        for argument in arguments {
            names.push(argument_name(alloc, argument, numbered)?)?;
            if is_numbered(argument) {
                numbered += 1;
            }
        }
        let entry = decimal(alloc, numbered)?;
        Ok(HeadNames {
            arguments: names,
            entry,
        })
    }
}

// The first block, where it has no label.
fn first_block<'t, 'a: 'n, 'n>(
    func: &Definition<'t, 'a>,
    entry: &'n [u8],
) -> Option<BlockLines<'t, 'a, 'n>>
    requires { entry.now ≡ decimal (count_numbered (map seen_argument func.now.arguments.now)) }
    ensures { option_to_list (option_map seen_block result) ≡ first_block (seen_definition func.now) (seen_lines func.now.body.now) }
{
    match func.body.first() {
        Some(first) => {
            if is_label(&first.reading) {
                None
            } else {
                Some(BlockLines {
                    line: func.line,
                    name: entry,
                    lines: until_label(func.body),
                })
            }
        }
        None => None,
    }
}

// The block whose label this line is, with these lines after it.
fn block_at<'t, 'a: 'n, 'n>(
    line: &NumberedReading<'a>,
    after: &'t [NumberedReading<'a>],
) -> Option<BlockLines<'t, 'a, 'n>>
    ensures { option_to_list (option_map seen_block result) ≡ block_at line.now.line (label_said (said line.now.reading)) (seen_lines after.now) }
{
    match label_of(&line.reading) {
        Some(name) => Some(BlockLines {
            line: line.line,
            name,
            lines: until_label(after),
        }),
        None => None,
    }
}

fn add_labelled<'t, 'a: 'n, 'n>(
    body: &'t [NumberedReading<'a>],
    found: &mut Vec<BlockLines<'t, 'a, 'n>>,
) -> Result<(), AllocError>
    ensures { OnOk result (map seen_block found.new.items ≡ map seen_block found.old.items ++ labelled_blocks (seen_lines body.now)) }
{
    for (i, line) in body.iter().enumerate() {
        if let Some(block) = block_at(line, &body[i + 1..]) {
            found.push(block)?;
        }
    }
    Ok(())
}

/// The blocks of a definition, in its order.
pub fn blocks<'t, 'a: 'n, 'n>(
    alloc: Global,
    func: &Definition<'t, 'a>,
    entry: &'n [u8],
) -> Result<Vec<BlockLines<'t, 'a, 'n>>, AllocError>
    requires { entry.now ≡ decimal (count_numbered (map seen_argument func.now.arguments.now)) }
    ensures { IfOk result (λ found. map seen_block found.items ≡ blocks_of (seen_definition func.now)) }
{
    let mut found = Vec::new(alloc);
    if let Some(block) = first_block(func, entry) {
        found.push(block)?;
    }
    add_labelled(func.body, &mut found)?;
    Ok(found)
}
