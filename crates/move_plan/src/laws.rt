//! A line has at most one reading, and a text stands for exactly one plan or has one least fault, and for exactly one input or
//! has one first fault.

ghost use Rattle.std.specs.Prelude.{◌≡◌, ◌⊎◌, ℕ, ℤ, List, Option};
ghost use Rattle.move_plan.specs.declared.plan_lines.PlanLine.{PlanLine as Said};
ghost use Rattle.move_plan.specs.PlanLines.{ReadsAs};
ghost use Rattle.move_plan.specs.Plans.{IsPlanOf};
ghost use Rattle.move_plan.specs.PlanFaults.{HasNoFault, IsLeastFault};
ghost use Rattle.move_plan.specs.InputNumbers.{Holds};
ghost use Rattle.move_plan.specs.Inputs.{HasNoInputFault, IsFirstInputFault, IsInputOf};

/// A line of a plan has at most one reading: it is blank, or says one thing.
pub fn one_reading()
    ensures { (line : List ℕ) (one other : Option Said) → ReadsAs line one → ReadsAs line other → one ≡ other }
{}

/// A text stands for at most one plan.
pub fn one_plan()
    ensures { (text : List ℕ) (one other : List Said) → IsPlanOf text one → IsPlanOf text other → one ≡ other }
{}

/// A plan's text has at most one least fault.
pub fn one_fault()
    ensures { (text : List ℕ) (line code other_line other_code : ℕ) → IsLeastFault text line code → IsLeastFault text other_line other_code
        → (line ≡ other_line) × (code ≡ other_code) }
{}

/// A line of an input holds at most one number.
pub fn one_number()
    ensures { (line : List ℕ) (one other : Option ℤ) → Holds line one → Holds line other → one ≡ other }
{}

/// A text stands for at most one input.
pub fn one_input()
    ensures { (text : List ℕ) (one other : List ℤ) → IsInputOf text one → IsInputOf text other → one ≡ other }
{}

/// An input's text has at most one first fault.
pub fn one_input_fault()
    ensures { (text : List ℕ) (line other : ℕ) → IsFirstInputFault text line → IsFirstInputFault text other → line ≡ other }
{}

/// A text stands for a plan and has no fault, or it has a least fault. So every text without a fault stands for a plan.
pub fn plan_or_fault()
    ensures { (text : List ℕ) → ((plan : List Said) × IsPlanOf text plan × HasNoFault text) ⊎ ((line : ℕ) × (code : ℕ) × IsLeastFault text line code) }
{}

/// A text stands for an input and has no fault, or it has a first fault. So every text without a fault stands for an input.
pub fn input_or_fault()
    ensures { (text : List ℕ) → ((numbers : List ℤ) × IsInputOf text numbers × HasNoInputFault text) ⊎ ((line : ℕ) × IsFirstInputFault text line) }
{}
