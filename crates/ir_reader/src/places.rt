//! Where lines may stand.

ghost use Rattle.std.specs.Prelude.{◌≡◌};
ghost use Rattle.ir_reader.specs.Places.{behind_top, behind_instruction, behind_closed, behind_case, behind, behind_label};

use crate::states::Place;
use line_forms::Form;

impl Place {
    /// The place behind a line of this form, if it may stand here.
    pub fn behind(self, form: Form) -> Option<Place>
        ensures { result ≡ behind self form }
    {
        match self {
            Place::Top => behind_top(form),
            Place::Entry | Place::Block => behind_instruction(form),
            Place::Closed => match form {
                Form::Close => Some(Place::Top),
                _ => None,
            },
            Place::Cases => match form {
                Form::Case => Some(Place::Cases),
                Form::SwitchEnd => Some(Place::Closed),
                _ => None,
            },
        }
    }

    /// The place behind a label, if one may stand here.
    pub fn behind_label(self) -> Option<Place>
        ensures { result ≡ behind_label self }
    {
        match self {
            Place::Entry | Place::Closed => Some(Place::Block),
            _ => None,
        }
    }
}

fn behind_top(form: Form) -> Option<Place>
    ensures { result ≡ behind_top form }
{
    match form {
        Form::Define => Some(Place::Entry),
        Form::Dropped(_) | Form::Layout | Form::Declare => Some(Place::Top),
        _ => None,
    }
}

fn behind_instruction(form: Form) -> Option<Place>
    ensures { result ≡ behind_instruction form }
{
    match form {
        Form::Binary(_)
        | Form::Compare
        | Form::Convert(_)
        | Form::Cast(_)
        | Form::Select
        | Form::Phi
        | Form::ScalarElement
        | Form::LayoutElement
        | Form::Load
        | Form::Store
        | Form::ValueCall
        | Form::VoidCall
        | Form::Statepoint
        | Form::GcResult
        | Form::GcRelocate => Some(Place::Block),
        Form::Jump | Form::Branch | Form::ReturnVoid | Form::Return | Form::Unreachable => {
            Some(Place::Closed)
        }
        Form::Switch => Some(Place::Cases),
        _ => None,
    }
}
