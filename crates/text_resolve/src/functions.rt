//! The functions of a resolved text.

ghost use Rattle.std.specs.Prelude.{◌≡◌, [], ◌∷◌, ◌++◌, map, flat_map, length, IfOk, OnOk, List};
ghost use Rattle.std.specs.List.{All};
ghost use Rattle.ir_ast.specs.Blocks.{EndsAtTerminator};
ghost use Rattle.line_parts.specs.Seen.{seen_argument};
ghost use Rattle.ir_lines.specs.Modules.{insts_of, numbers_of, block_of};
ghost use Rattle.ir_lines.specs.Notes.{Notes};
ghost use Rattle.ir_lines.specs.Scope.{scope_of};
ghost use Rattle.ir_lines.specs.Sections.{arguments_named, blocks_of};
ghost use Rattle.ir_lines.specs.Statements.{Line};
ghost use Rattle.ir_lines.specs.Tables.{seen_definition, seen_block, IsTop};
ghost use Rattle.ir_lines.specs.Views.{seen_lines};
ghost use Rattle.module_build.specs.Built.{known_with, lined_function};
ghost use Rattle.module_build.specs.Known.{known_in};
ghost use Rattle.module_build.specs.Lost.{tables_in};
ghost use Rattle.module_build.specs.Placed.{IsPlacedFunction};
ghost use Rattle.text_resolve.specs.Built.{FunctionsLost};
ghost use Rattle.text_resolve.specs.Lost.{LinesLost, BlocksLost, FunctionLost};
ghost use Rattle.text_resolve.specs.Parts.{headed, parted};
ghost use Rattle.text_resolve.specs.Rows.{rows_of};

use crate::bodies::note_body;
use case_lines::CaseLines;
use ir_ast::{Block, Form, Func, Inst};
use ir_lines::best::First;
use ir_lines::operands::type_of;
use ir_lines::scope::{Local, Top};
use ir_lines::sections::{BlockLines, Definition, HeadNames, blocks, definition_with};
use ir_reader::{NumberedReading, Reading};
use module_build::build::owned;
use module_build::heads::arguments_of;
use module_build::lines::{behind, resolve_line};
use module_build::scope::Scope;
use sp_ids::Memory;
use std::alloc::Global;

// The room for the instructions of the lines of a block: behind a `switch`, the last, stand its cases, which are none.
fn room_for(lines: &[NumberedReading]) -> usize {
    let cases = lines.iter().rev().take_while(|line| is_case(line)).count();
    lines.len().saturating_sub(cases)
}

// Room for one instruction more in the first block: a rewriting puts a poll there.
fn spare_for(is_first: bool) -> usize {
    if is_first { 1 } else { 0 }
}

// Whether it belongs to a `switch`.
fn is_case(line: &NumberedReading) -> bool {
    matches!(line.reading, Reading::Case { .. } | Reading::SwitchEnd)
}

fn insts(
    scope: &Scope,
    alloc: Global,
    lines: &[NumberedReading],
    spare: usize,
    numbers: &mut Vec<u32>,
    first: &mut First,
) -> Result<Vec<Inst>, Memory>
    ensures insts { IfOk result (λ insts. insts.items ≡ insts_of (known_in scope.now) (seen_lines lines.now)) }
    ensures numbers { OnOk result (numbers.new.items
        ≡ numbers.old.items ++ numbers_of (known_in scope.now) (seen_lines lines.now)) }
    ensures noted { OnOk result (Notes first.old.found first.new.found (LinesLost scope.now.form (tables_in scope.now) (seen_lines lines.now))) }
{
    let mut insts = Vec::with_capacity(alloc, room_for(lines).saturating_add(spare))?;
    for (i, line) in lines.iter().enumerate() {
        resolve_line(
            scope,
            alloc,
            line,
            behind(lines, i),
            &mut insts,
            numbers,
            first,
        )?;
    }
    Ok(insts)
}

// A block, and the lines of its instructions behind the others.
fn block(
    scope: &Scope,
    alloc: Global,
    block: &BlockLines,
    spare: usize,
    numbers: &mut Vec<u32>,
    first: &mut First,
) -> Result<Block, Memory>
    requires { EndsAtTerminator (insts_of (known_in scope.now) (seen_lines block.now.lines.now)) }
    ensures block { IfOk result (λ made. made ≡ record {
      name = block.now.name.now;
      insts = insts_of (known_in scope.now) (seen_lines block.now.lines.now);
    }) }
    ensures numbers { OnOk result (numbers.new.items
        ≡ numbers.old.items ++ numbers_of (known_in scope.now) (seen_lines block.now.lines.now)) }
    ensures noted { OnOk result (Notes first.old.found first.new.found (LinesLost scope.now.form (tables_in scope.now) (seen_lines block.now.lines.now))) }
{
    let insts = insts(scope, alloc, block.lines, spare, numbers, first)?;
    let name = owned(alloc, block.name)?;
    Ok(Block::of(name, insts))
}

// The blocks, and the lines of their instructions behind the others.
fn built_blocks(
    scope: &Scope,
    alloc: Global,
    blocks: &[BlockLines],
    numbers: &mut Vec<u32>,
    first: &mut First,
) -> Result<Vec<Block>, Memory>
    requires { All (λ block. EndsAtTerminator (insts_of (known_in scope.now) block.lines)) (map seen_block blocks.now) }
    ensures blocks { IfOk result (λ built. built.items ≡ map (block_of (known_in scope.now)) (map seen_block blocks.now)) }
    ensures numbers { OnOk result (numbers.new.items ≡ numbers.old.items
        ++ flat_map (λ block. numbers_of (known_in scope.now) block.lines) (map seen_block blocks.now)) }
    ensures noted { OnOk result (Notes first.old.found first.new.found (BlocksLost scope.now.form (tables_in scope.now) (map seen_block blocks.now))) }
{
    let mut built = Vec::with_capacity(alloc, blocks.len())?;
    for one in blocks {
        let spare = spare_for(built.is_empty());
        let made = block(scope, alloc, one, spare, numbers, first)?;
        built.push(made)?;
    }
    Ok(built)
}

// The function that a definition with these names and blocks stands for, with the lines of its instructions.
fn function(
    scope: &Scope,
    alloc: Global,
    func: &Definition,
    names: &HeadNames,
    blocks: &[BlockLines],
    first: &mut First,
) -> Result<Func, Memory>
    requires names { map (λ n. n.items) names.now.arguments.items
        ≡ map (λ one. one.name) (arguments_named func.now.line [] (map seen_argument func.now.arguments.now)) }
    requires blocks { map seen_block blocks.now ≡ blocks_of (seen_definition func.now) }
    requires placed { IsPlacedFunction (known_in scope.now) (seen_definition func.now) }
    ensures made { IfOk result (λ made. made ≡ lined_function (known_in scope.now) (seen_definition func.now)) }
    ensures noted { OnOk result (Notes first.old.found first.new.found (BlocksLost scope.now.form (tables_in scope.now) (map seen_block blocks.now))) }
{
    let mut numbers = Vec::with_capacity(alloc, func.body.len())?;
    let built = built_blocks(scope, alloc, blocks, &mut numbers, first)?;
    let name = owned(alloc, func.name)?;
    let args = arguments_of(alloc, func.line, func.arguments, names.arguments.as_slice())?;
    let whole = Func::of(name, type_of(func.answer), args, built);
    Ok(whole.with_lines(numbers))
}

/// A function, and the lines of the cases of its instructions.
#[derive(Drop)]
pub(crate) struct Built {
    pub(crate) func: Func,
    pub(crate) cases: CaseLines,
}

// The function of a definition, with the lines of its cases; notes what resolving it loses.
fn resolve_function(
    alloc: Global,
    form: Form,
    top: &Top,
    func: &Definition,
    first: &mut First,
) -> Result<Built, Memory>
    requires { let own = seen_definition func.now in IsPlacedFunction (known_with top.now own) own }
    ensures func { let own = seen_definition func.now in
        IfOk result (λ built. built.func ≡ lined_function (known_with top.now own) own) }
    ensures cases { IfOk result (λ built. built.cases ≡ rows_of (seen_definition func.now).body) }
    ensures noted { (lines : List Line) → IsTop lines top.now → OnOk result (Notes first.old.found first.new.found
        (FunctionLost form (scope_of lines (seen_definition func.now)) (seen_definition func.now))) }
{
    let names = HeadNames::of(alloc, func.arguments)?;
    let sections = blocks(alloc, func, names.entry.as_slice())?;
    let local = Local::of(alloc, form, func, &names, sections.as_slice(), first)?;
    let cases = note_body(alloc, func.body, first)?;
    let scope = Scope {
        form,
        top,
        local: &local,
    };
    let func = function(&scope, alloc, func, &names, sections.as_slice(), first)?;
    Ok(Built { func, cases })
}

// Adds the function of a definition behind others, and the lines of its cases behind those of the others; notes what
// resolving it loses.
fn add_function(
    alloc: Global,
    form: Form,
    top: &Top,
    func: &Definition,
    made: &mut Vec<Func>,
    cases: &mut Vec<CaseLines>,
    first: &mut First,
) -> Result<(), Memory>
    requires { let own = seen_definition func.now in IsPlacedFunction (known_with top.now own) own }
    ensures funcs { let own = seen_definition func.now in
        OnOk result (made.new.items ≡ made.old.items ++ lined_function (known_with top.now own) own ∷ []) }
    ensures cases { OnOk result (cases.new.items ≡ cases.old.items ++ rows_of (seen_definition func.now).body ∷ []) }
    ensures noted { (lines : List Line) → IsTop lines top.now → OnOk result (Notes first.old.found first.new.found
        (FunctionLost form (scope_of lines (seen_definition func.now)) (seen_definition func.now))) }
{
    let Built {
        func: built,
        cases: rows,
    } = resolve_function(alloc, form, top, func, first)?;
    made.push(built)?;
    cases.push(rows)?;
    Ok(())
}

// The same, where this line is the head of a definition that has this body; else nothing.
fn add_line<'t, 'a>(
    alloc: Global,
    form: Form,
    top: &Top,
    line: &'t NumberedReading<'a>,
    body: &'t [NumberedReading<'a>],
    made: &mut Vec<Func>,
    cases: &mut Vec<CaseLines>,
    first: &mut First,
) -> Result<(), Memory>
    requires { All (λ func. IsPlacedFunction (known_with top.now func) func) (headed line.now (seen_lines body.now)) }
    ensures funcs { OnOk result (made.new.items ≡ made.old.items
        ++ map (λ func. lined_function (known_with top.now func) func) (headed line.now (seen_lines body.now))) }
    ensures cases { OnOk result (cases.new.items ≡ cases.old.items ++ map (λ func. rows_of func.body) (headed line.now (seen_lines body.now))) }
    ensures noted { (lines : List Line) → IsTop lines top.now
        → OnOk result (Notes first.old.found first.new.found (FunctionsLost form lines (headed line.now (seen_lines body.now)))) }
{
    match definition_with(line, body) {
        Some(func) => add_function(alloc, form, top, &func, made, cases, first),
        None => Ok(()),
    }
}

/// Adds the functions of the definitions whose heads are among these lines, which have these bodies, and the lines of
/// their cases behind those of the others; notes what resolving them loses. A body is let go with its function.
pub(crate) fn resolve_functions<'a>(
    alloc: Global,
    form: Form,
    top: &Top,
    outer: &[NumberedReading<'a>],
    bodies: Vec<Vec<NumberedReading<'a>>>,
    made: &mut Vec<Func>,
    cases: &mut Vec<CaseLines>,
    first: &mut First,
) -> Result<(), Memory>
    requires bodies { length bodies.items ≡ length outer.now }
    requires placed { All (λ func. IsPlacedFunction (known_with top.now func) func) (parted outer.now bodies.items) }
    ensures funcs { OnOk result (made.new.items ≡ made.old.items
        ++ map (λ func. lined_function (known_with top.now func) func) (parted outer.now bodies.entry.items)) }
    ensures cases { OnOk result (cases.new.items ≡ cases.old.items ++ map (λ func. rows_of func.body) (parted outer.now bodies.entry.items)) }
    ensures noted { (lines : List Line) → IsTop lines top.now
        → OnOk result (Notes first.old.found first.new.found (FunctionsLost form lines (parted outer.now bodies.entry.items))) }
{
    let mut place = 0;
    for body in bodies {
        add_line(
            alloc,
            form,
            top,
            &outer[place],
            body.as_slice(),
            made,
            cases,
            first,
        )?;
        place += 1;
    }
    Ok(())
}
