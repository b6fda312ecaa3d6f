//! What lines say, by their forms.

use crate::bundles::LiveEntries;
use crate::kept::Kept;
use ir_ast::Pred;
use line_parts::{AllPassed, Arguments, Entries, Fields, Parameters, TypeWord, Value};
use line_tokens::{Binary, Cast, Conversion, Literal, Width};
use sp_text::Name;

/// The type of a function, `R (A, ..)`.
#[derive(Drop)]
pub struct FunctionType {
    pub answer: TypeWord,
    pub parameters: Parameters,
}

/// The call that a statepoint makes (Garbage Collection Safepoints in LLVM, "llvm.experimental.gc.statepoint").
#[derive(Drop)]
pub struct StatepointCall<'a> {
    pub id: Literal,
    /// The type that the line gives the callee.
    pub function_type: FunctionType,
    pub callee: Name<'a>,
    /// How many arguments the line says that there are.
    pub count: Literal,
    pub passed: AllPassed<'a>,
    pub kept: Kept<'a>,
}

/// What a line says. Names stand without their mark, and are slices of the text.
#[derive(Drop)]
pub enum Reading<'a> {
    /// `%T = type { F, F, .. }`
    Layout {
        name: Name<'a>,
        fields: Fields,
    },
    /// `declare R @name(A, A, ..)`. Names that the line gives its parameters mean nothing.
    Declare {
        answer: TypeWord,
        name: Name<'a>,
        parameters: Arguments<'a>,
    },
    /// `define R @name(T %a, T %b, ..) gc "S" {`, with the bytes of S.
    Define {
        answer: TypeWord,
        name: Name<'a>,
        arguments: Arguments<'a>,
        strategy: Option<&'a [u8]>,
    },
    /// `}`, the end of a definition.
    Close,
    /// `name:`, the head of a block.
    Label {
        name: Name<'a>,
    },
    /// `%x = OP iN V, V`
    Binary {
        result: Name<'a>,
        op: Binary,
        width: Width,
        left: Value<'a>,
        right: Value<'a>,
    },
    /// `%x = icmp PRED T V, V`
    Compare {
        result: Name<'a>,
        pred: Pred,
        ty: TypeWord,
        left: Value<'a>,
        right: Value<'a>,
    },
    /// `%x = trunc iN V to iM`, and so `zext` and `sext`
    Convert {
        result: Name<'a>,
        op: Conversion,
        width: Width,
        value: Value<'a>,
        to: Width,
    },
    /// `%x = select i1 V, T V, T V`
    Select {
        result: Name<'a>,
        condition: Value<'a>,
        left_ty: TypeWord,
        left: Value<'a>,
        right_ty: TypeWord,
        right: Value<'a>,
    },
    /// `%x = phi T [ V, %l ], [ V, %m ], ..`
    Phi {
        result: Name<'a>,
        ty: TypeWord,
        entries: Entries<'a>,
    },
    /// `%x = getelementptr E, P V, iN V`, where E is `i8`, `i16`, `i32`, `i64` or `ptr addrspace(1)`
    ScalarElement {
        result: Name<'a>,
        element: TypeWord,
        address: Value<'a>,
        width: Width,
        index: Value<'a>,
    },
    /// `%x = getelementptr %T, P V, iN V`, and maybe `, i32 C`, the place of a field
    LayoutElement {
        result: Name<'a>,
        layout: Name<'a>,
        address: Value<'a>,
        width: Width,
        index: Value<'a>,
        place: Option<Literal>,
    },
    /// `%x = load T, P V`
    Load {
        result: Name<'a>,
        ty: TypeWord,
        address: Value<'a>,
    },
    /// `store T V, P V`
    Store {
        ty: TypeWord,
        value: Value<'a>,
        address: Value<'a>,
    },
    /// `%x = call T @f(T V, ..) [ "deopt"(T V, ..) ]`
    ValueCall {
        result: Name<'a>,
        answer: TypeWord,
        callee: Name<'a>,
        passed: AllPassed<'a>,
        kept: Kept<'a>,
    },
    /// `call void @f(T V, ..) [ "deopt"(T V, ..) ]`
    VoidCall {
        callee: Name<'a>,
        passed: AllPassed<'a>,
        kept: Kept<'a>,
    },
    /// `br label %l`
    Jump {
        label: Name<'a>,
    },
    /// `br i1 V, label %l, label %m`
    Branch {
        condition: Value<'a>,
        on_true: Name<'a>,
        on_false: Name<'a>,
    },
    /// `switch iN V, label %l [`; its cases and its end are the next readings.
    Switch {
        width: Width,
        value: Value<'a>,
        default: Name<'a>,
    },
    /// `iN C, label %m` in a `switch`
    Case {
        width: Width,
        value: Value<'a>,
        label: Name<'a>,
    },
    /// `]`, the end of a `switch`
    SwitchEnd,
    /// `ret void`
    ReturnVoid,
    /// `ret T V`
    Return {
        ty: TypeWord,
        value: Value<'a>,
    },
    /// `unreachable`
    Unreachable,
    /// `%x = CAST T V to U`
    Cast {
        result: Name<'a>,
        op: Cast,
        from: TypeWord,
        value: Value<'a>,
        to: TypeWord,
    },
    /// `%t = call token (..) @llvm.experimental.gc.statepoint.p0(i64 ID, i32 0, ptr elementtype(R (A, ..)) @f, i32 C,
    /// i32 0, T V, .., i32 0, i32 0) [ "deopt"(T V, ..), "gc-live"(P V, ..) ]`, with the live entries, in the rewritten form
    Statepoint {
        result: Name<'a>,
        call: Box<StatepointCall<'a>>,
        live: LiveEntries<'a>,
    },
    /// `%x = call T @llvm.experimental.gc.result.S(token %t)`, in the rewritten form
    GcResult {
        result: Name<'a>,
        answer: TypeWord,
        token: Name<'a>,
    },
    /// `%x = call P @llvm.experimental.gc.relocate.p1(token %t, i32 B, i32 D)`, in the rewritten form
    GcRelocate {
        result: Name<'a>,
        token: Name<'a>,
        base: Literal,
        derived: Literal,
    },
}
