//! What names stand for.

ghost use Rattle.std.specs.Prelude.{◌≡◌, ◌↔◌, ◌⊎◌, IsTrue, [], ◌∷◌, ◌++◌, false, map, option_map, option_to_list, if◌then◌else◌, IfOk, OnOk};
ghost use Rattle.ir_ast.specs.Faults.Reserved.{IsInsertedName};
ghost use Rattle.line_parts.specs.Seen.{seen_type, seen_argument};
ghost use Rattle.ir_lines.specs.Again.{at_name, named_layouts, named_heads, named_values, named_blocks, FoundAfter, IsAgain, IsBadName, TopAgain, FoundByNames, results_of, layout_line};
ghost use Rattle.ir_lines.specs.Notes.{Notes};
ghost use Rattle.ir_lines.specs.Parts.{gives};
ghost use Rattle.ir_lines.specs.Sections.{layout_said, head_said, arguments_named, result_named, blocks_of};
ghost use Rattle.ir_lines.specs.Tables.{seen_definition, seen_block, seen_head, IsTop, IsLocal, AddsLayouts, AddsHeads, AddsValues, AddsBlocks};
ghost use Rattle.ir_lines.specs.Views.{said, seen_lines};

use crate::best::First;
use crate::names::Names;
use crate::parts::given;
use crate::sections::{BlockLines, Definition, HeadNames};
use ir_ast::Form;
use ir_reader::{Argument, NumberedReading, Reading, TypeWord};
use std::alloc::{AllocError, Global};

/// A declaration or a definition.
#[derive(Clone, Copy)]
pub struct Head<'t, 'a> {
    pub line: u32,
    pub defined: bool,
    pub name: &'a [u8],
    pub answer: TypeWord,
    pub parameters: &'t [Argument<'a>],
}

/// What the lines of all functions can name.
#[derive(Drop)]
pub struct Top<'t, 'a> {
    pub layouts: Names<'a>,
    /// How many fields each layout has.
    pub fields: Vec<usize>,
    pub heads: Names<'a>,
    pub head_list: Vec<Head<'t, 'a>>,
    /// The names of the definitions.
    pub functions: Names<'a>,
}

// The name and the fields of a line that is a layout.
fn layout_of<'t, 'a>(line: &'t NumberedReading<'a>) -> Option<(&'a [u8], &'t [TypeWord])>
    ensures { option_to_list (option_map (λ one. layout_line line.now.line one.0.now (map seen_type one.1.now)) result)
        ≡ layout_said line.now.line (said line.now.reading) }
{
    match &line.reading {
        Reading::Layout { name, fields } => Some((name.bytes, fields.as_slice())),
        _ => None,
    }
}

/// The head of a line that is one.
pub fn head_of<'t, 'a>(line: &'t NumberedReading<'a>) -> Option<Head<'t, 'a>>
    ensures { option_to_list (option_map seen_head result) ≡ head_said line.now.line (said line.now.reading) }
{
    match &line.reading {
        Reading::Declare {
            answer,
            name,
            parameters,
        } => Some(Head {
            line: line.line,
            defined: false,
            name: name.bytes,
            answer: *answer,
            parameters: parameters.as_slice(),
        }),
        Reading::Define {
            answer,
            name,
            arguments,
            ..
        } => Some(Head {
            line: line.line,
            defined: true,
            name: name.bytes,
            answer: *answer,
            parameters: arguments.as_slice(),
        }),
        _ => None,
    }
}

impl<'t, 'a> Top<'t, 'a> {
    /// What these lines give, and the faults of a layout or a head whose name an earlier one has.
    pub fn of(
        alloc: Global,
        lines: &'t [NumberedReading<'a>],
        first: &mut First,
    ) -> Result<Top<'t, 'a>, AllocError>
        ensures is { IfOk result (λ top. IsTop (seen_lines lines.now) top) }
        ensures noted { OnOk result (Notes first.old.found first.new.found (TopAgain (seen_lines lines.now))) }
    {
        let mut top = Top {
            layouts: Names::new(alloc),
            fields: Vec::new(alloc),
            heads: Names::new(alloc),
            head_list: Vec::new(alloc),
            functions: Names::new(alloc),
        };
        for line in lines {
            top.add_layout(line, first)?;
            top.add_head(line, first)?;
        }
        Ok(top)
    }

    fn add_layout(
        &mut self,
        line: &NumberedReading<'a>,
        first: &mut First,
    ) -> Result<(), AllocError>
        ensures added { OnOk result (AddsLayouts self.old self.new (layout_said line.now.line (said line.now.reading))) }
        ensures noted { OnOk result (Notes first.old.found first.new.found
            (FoundAfter IsAgain self.old.layouts (named_layouts (layout_said line.now.line (said line.now.reading))))) }
    {
        match layout_of(line) {
            Some((name, fields)) => self.push_layout(line.line, name, fields, first),
            None => Ok(()),
        }
    }

    fn push_layout(
        &mut self,
        line: u32,
        name: &'a [u8],
        fields: &[TypeWord],
        first: &mut First,
    ) -> Result<(), AllocError>
        ensures added { OnOk result (AddsLayouts self.old self.new (record { line = line; name = name.now; fields = map seen_type fields.now } ∷ [])) }
        ensures noted { OnOk result (Notes first.old.found first.new.found (FoundAfter IsAgain self.old.layouts ((line, name.now) ∷ []))) }
    {
        let is_new = self.layouts.add(name)?;
        self.fields.push(fields.len())?;
        first.note_if(!is_new, line, 3);
        Ok(())
    }

    fn add_head(
        &mut self,
        line: &'t NumberedReading<'a>,
        first: &mut First,
    ) -> Result<(), AllocError>
        ensures added { OnOk result (AddsHeads self.old self.new (head_said line.now.line (said line.now.reading))) }
        ensures noted { OnOk result (Notes first.old.found first.new.found
            (FoundAfter IsAgain self.old.heads (named_heads (head_said line.now.line (said line.now.reading))))) }
    {
        match head_of(line) {
            Some(head) => self.push_head(head, first),
            None => Ok(()),
        }
    }

    fn push_head(&mut self, head: Head<'t, 'a>, first: &mut First) -> Result<(), AllocError>
        ensures added { OnOk result (AddsHeads self.old self.new (seen_head head.entry ∷ [])) }
        ensures noted { OnOk result (Notes first.old.found first.new.found
            (FoundAfter IsAgain self.old.heads ((head.entry.line, head.entry.name.now) ∷ []))) }
    {
        let is_new = self.heads.add(head.name)?;
        self.head_list.push(head)?;
        self.add_function(head.defined, head.name)?;
        first.note_if(!is_new, head.line, 3);
        Ok(())
    }

    fn add_function(&mut self, defined: bool, name: &'a [u8]) -> Result<(), AllocError>
        ensures same { OnOk result (self.new ≡ record self.old { functions = self.new.functions }) }
        ensures functions { OnOk result (self.new.functions ≡ self.old.functions ++ (if defined then name.now ∷ [] else [])) }
    {
        if defined {
            self.functions.add(name)?;
        }
        Ok(())
    }

    /// What the first head of this name says.
    pub fn head(&self, name: &[u8]) -> Option<&Head<'t, 'a>>
        ensures { option_map (λ head. seen_head head.now) result ≡ at_name self.now.heads (map seen_head self.now.head_list.items) name.now }
    {
        let place = self.heads.find(name)?;
        self.head_list.get(place)
    }

    /// How many fields the first layout of this name has.
    pub fn field_count(&self, name: &[u8]) -> Option<usize>
        ensures { result ≡ at_name self.now.layouts self.now.fields.items name.now }
    {
        let place = self.layouts.find(name)?;
        self.fields.get(place).copied()
    }
}

/// What the lines of one function can name besides.
#[derive(Drop)]
pub struct Local<'n> {
    pub values: Names<'n>,
    pub types: Vec<TypeWord>,
    pub blocks: Names<'n>,
    pub answer: TypeWord,
}

fn is_inserted(name: &[u8]) -> bool
    ensures { IsTrue result ↔ IsInsertedName name.now }
{
    name.starts_with(b"sp.")
}

// Whether no value and no label of a text in this form may have the name.
fn is_reserved(form: Form, name: &[u8]) -> bool
    ensures { IsTrue result ↔ ((form ≡ Form.Source) × IsInsertedName name.now) }
{
    match form {
        Form::Source => is_inserted(name),
        Form::Rewritten => false,
    }
}

// Notes the faults of a name of a value or a label, which an earlier one may have.
fn note_name(form: Form, is_new: bool, line: u32, name: &[u8], first: &mut First)
    ensures { Notes first.old.found first.new.found (λ at code. (at ≡ line)
        × (((code ≡ 3) × (is_new ≡ false)) ⊎ ((code ≡ 14) × (form ≡ Form.Source) × IsInsertedName name.now))) }
{
    first.note_if(!is_new, line, 3);
    first.note_if(is_reserved(form, name), line, 14);
}

impl<'n> Local<'n> {
    /// What the definition gives, and the faults of a value or a label whose name an earlier one has or which is
    /// named as an inserted one.
    pub fn of<'t, 'a: 'n>(
        alloc: Global,
        form: Form,
        func: &Definition<'t, 'a>,
        names: &'n HeadNames,
        blocks: &[BlockLines<'t, 'a, 'n>],
        first: &mut First,
    ) -> Result<Local<'n>, AllocError>
        requires names { map (λ n. n.items) names.now.arguments.items
            ≡ map (λ one. one.name) (arguments_named func.now.line [] (map seen_argument func.now.arguments.now)) }
        requires blocks { map seen_block blocks.now ≡ blocks_of (seen_definition func.now) }
        ensures is { IfOk result (λ local. IsLocal (seen_definition func.now) local) }
        ensures noted { OnOk result (Notes first.old.found first.new.found (FoundByNames form (seen_definition func.now))) }
    {
        let room = func.arguments.len() + func.body.len();
        let mut local = Local {
            values: Names::with_room(alloc, room)?,
            types: Vec::with_capacity(alloc, room)?,
            blocks: Names::with_room(alloc, blocks.len())?,
            answer: func.answer,
        };
        local.add_arguments(
            form,
            func.line,
            func.arguments,
            names.arguments.as_slice(),
            first,
        )?;
        local.add_results(form, func.body, first)?;
        local.add_blocks(form, blocks, first)?;
        Ok(local)
    }

    // The arguments, which have these names.
    fn add_arguments(
        &mut self,
        form: Form,
        line: u32,
        arguments: &[Argument],
        names: &'n [Vec<u8>],
        first: &mut First,
    ) -> Result<(), AllocError>
        requires { map (λ n. n.items) names.now ≡ map (λ one. one.name) (arguments_named line [] (map seen_argument arguments.now)) }
        ensures added { OnOk result (AddsValues self.old self.new (arguments_named line [] (map seen_argument arguments.now))) }
        ensures noted { OnOk result (Notes first.old.found first.new.found
            (FoundAfter (IsBadName form) self.old.values (named_values (arguments_named line [] (map seen_argument arguments.now))))) }
    {
        for (i, argument) in arguments.iter().enumerate() {
            self.add_value(form, line, names[i].as_slice(), argument.ty, first)?;
        }
        Ok(())
    }

    // The results of lines.
    fn add_results<'a: 'n>(
        &mut self,
        form: Form,
        lines: &[NumberedReading<'a>],
        first: &mut First,
    ) -> Result<(), AllocError>
        ensures added { OnOk result (AddsValues self.old self.new (results_of (seen_lines lines.now))) }
        ensures noted { OnOk result (Notes first.old.found first.new.found
            (FoundAfter (IsBadName form) self.old.values (named_values (results_of (seen_lines lines.now))))) }
    {
        for line in lines {
            self.add_result(form, line, first)?;
        }
        Ok(())
    }

    fn add_result<'a: 'n>(
        &mut self,
        form: Form,
        line: &NumberedReading<'a>,
        first: &mut First,
    ) -> Result<(), AllocError>
        ensures added { OnOk result (AddsValues self.old self.new (result_named line.now.line (gives (said line.now.reading)))) }
        ensures noted { OnOk result (Notes first.old.found first.new.found
            (FoundAfter (IsBadName form) self.old.values (named_values (result_named line.now.line (gives (said line.now.reading)))))) }
    {
        match given(&line.reading) {
            Some((name, ty)) => self.add_value(form, line.line, name, ty, first),
            None => Ok(()),
        }
    }

    fn add_blocks<'t, 'a>(
        &mut self,
        form: Form,
        blocks: &[BlockLines<'t, 'a, 'n>],
        first: &mut First,
    ) -> Result<(), AllocError>
        ensures added { OnOk result (AddsBlocks self.old self.new (map seen_block blocks.now)) }
        ensures noted { OnOk result (Notes first.old.found first.new.found
            (FoundAfter (IsBadName form) self.old.blocks (named_blocks (map seen_block blocks.now)))) }
    {
        for block in blocks {
            self.add_block(form, block.line, block.name, first)?;
        }
        Ok(())
    }

    fn add_value(
        &mut self,
        form: Form,
        line: u32,
        name: &'n [u8],
        ty: TypeWord,
        first: &mut First,
    ) -> Result<(), AllocError>
        ensures added { OnOk result (AddsValues self.old self.new (record { line = line; name = name.now; ty = seen_type ty } ∷ [])) }
        ensures noted { OnOk result (Notes first.old.found first.new.found (FoundAfter (IsBadName form) self.old.values ((line, name.now) ∷ []))) }
    {
        let is_new = self.values.add(name)?;
        self.types.push(ty)?;
        note_name(form, is_new, line, name, first);
        Ok(())
    }

    fn add_block(
        &mut self,
        form: Form,
        line: u32,
        name: &'n [u8],
        first: &mut First,
    ) -> Result<(), AllocError>
        ensures values { OnOk result (self.new.values ≡ self.old.values) }
        ensures types { OnOk result (self.new.types.items ≡ self.old.types.items) }
        ensures blocks { OnOk result (self.new.blocks ≡ self.old.blocks ++ name.now ∷ []) }
        ensures answer { OnOk result (self.new.answer ≡ self.old.answer) }
        ensures noted { OnOk result (Notes first.old.found first.new.found (FoundAfter (IsBadName form) self.old.blocks ((line, name.now) ∷ []))) }
    {
        let is_new = self.blocks.add(name)?;
        note_name(form, is_new, line, name, first);
        Ok(())
    }

    /// The type of the first value of this name.
    pub fn type_of(&self, name: &[u8]) -> Option<TypeWord>
        ensures { option_map seen_type result ≡ at_name self.now.values (map seen_type self.now.types.items) name.now }
    {
        let place = self.values.find(name)?;
        self.types.get(place).copied()
    }
}
