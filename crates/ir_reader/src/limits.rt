//! The limits of the profile that a line, a function or a module may pass.

ghost use Rattle.std.specs.Prelude.{◌≡◌, IsTrue, length, nat_le};
ghost use Rattle.ir_reader.specs.Limits.{name_fits, said_fits, said_counts_as, counts_fit, counted, counted_in};
ghost use Rattle.line_forms.specs.Seen.{seen};

use crate::states::{Counted, Counts};
use ir_ast::Form as TextForm;
use line_forms::{Kept, Reading};
use sp_ids::limits::{
    ARGUMENTS, FIELDS, FUNCTION_VALUES, FUNCTIONS, LAYOUTS, LIVE_ENTRIES, MODULE_INSTRUCTIONS,
    NAME_BYTES,
};

fn name_fits(name: &[u8]) -> bool
    ensures { result ≡ name_fits name.now }
{
    name.len() <= NAME_BYTES as usize
}

// The values that a frame keeps at one call.
const KEPT_ENTRIES: usize = 64;

fn kept_fits(kept: &Kept) -> bool
    ensures { result ≡ nat_le (length kept.now.items) 64 }
{
    kept.as_slice().len() <= KEPT_ENTRIES
}

/// Whether all that the line says is within the limits.
#[inline(always)]
pub fn reading_fits(reading: &Reading) -> bool
    ensures { result ≡ said_fits (seen reading.now) }
{
    match reading {
        Reading::Layout { name, fields } => {
            name_fits(name.bytes) && fields.len() <= FIELDS as usize
        }
        Reading::Define {
            name,
            arguments,
            ..
        } => { name_fits(name.bytes) && arguments.len() <= ARGUMENTS as usize }
        Reading::ValueCall { kept, .. } => kept_fits(kept),
        Reading::VoidCall { kept, .. } => kept_fits(kept),
        Reading::Statepoint { call, live, .. } => {
            kept_fits(&call.kept) && live.len() <= LIVE_ENTRIES as usize
        }
        _ => true,
    }
}

/// What the line counts as.
#[inline(always)]
pub fn counted_as(reading: &Reading) -> Counted
    ensures { result ≡ said_counts_as (seen reading.now) }
{
    match reading {
        Reading::Layout { .. } => Counted::Layout,
        Reading::Define { arguments, .. } => Counted::Function(arguments.len()),
        Reading::Declare { .. } => Counted::Nothing,
        Reading::Close => Counted::Nothing,
        Reading::Label { .. } => Counted::Nothing,
        Reading::Case { .. } => Counted::Nothing,
        Reading::SwitchEnd => Counted::Nothing,
        Reading::Phi { .. } => Counted::Instruction,
        Reading::ValueCall { .. } => Counted::Instruction,
        Reading::VoidCall { .. } => Counted::Instruction,
        Reading::Binary { .. } => Counted::Instruction,
        Reading::Compare { .. } => Counted::Instruction,
        Reading::Convert { .. } => Counted::Instruction,
        Reading::Select { .. } => Counted::Instruction,
        Reading::ScalarElement { .. } => Counted::Instruction,
        Reading::LayoutElement { .. } => Counted::Instruction,
        Reading::Load { .. } => Counted::Instruction,
        Reading::Store { .. } => Counted::Instruction,
        Reading::Jump { .. } => Counted::Instruction,
        Reading::Branch { .. } => Counted::Instruction,
        Reading::Switch { .. } => Counted::Instruction,
        Reading::ReturnVoid => Counted::Instruction,
        Reading::Return { .. } => Counted::Instruction,
        Reading::Unreachable => Counted::Instruction,
        Reading::Cast { .. } => Counted::Instruction,
        Reading::Statepoint { .. } => Counted::Instruction,
        Reading::GcResult { .. } => Counted::Instruction,
        Reading::GcRelocate { .. } => Counted::Relocate,
    }
}

impl Counted {
    /// What a line counts as in a text of this form: instructions are counted in the source form.
    pub fn in_form(self, form: TextForm) -> Counted
        ensures { result ≡ counted_in form self }
    {
        match (form, self) {
            (TextForm::Rewritten, Counted::Instruction) => Counted::Nothing,
            (_, counted) => counted,
        }
    }
}

impl Counts {
    /// With one more line.
    pub fn with(self, line: Counted) -> Counts
        requires { IsTrue (counts_fit self) }
        ensures { result ≡ counted line self }
    {
        match line {
            Counted::Layout => Counts {
                layouts: self.layouts + 1,
                relocates: 0,
                ..self
            },
            Counted::Function(arguments) => Counts {
                functions: self.functions + 1,
                values: arguments,
                relocates: 0,
                ..self
            },
            Counted::Instruction => Counts {
                values: self.values + 1,
                instructions: self.instructions + 1,
                relocates: 0,
                ..self
            },
            Counted::Relocate => Counts {
                relocates: self.relocates + 1,
                ..self
            },
            Counted::Nothing => Counts {
                relocates: 0,
                ..self
            },
        }
    }

    /// Whether no count passes its limit.
    pub fn fit(self) -> bool
        ensures { result ≡ counts_fit self }
    {
        self.layouts <= LAYOUTS
            && self.functions <= FUNCTIONS
            && self.values <= FUNCTION_VALUES as usize
            && self.instructions <= MODULE_INSTRUCTIONS
            && self.relocates <= LIVE_ENTRIES
    }
}
