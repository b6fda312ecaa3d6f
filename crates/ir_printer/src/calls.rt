//! Calls, statepoints, and the results and relocates after them.
ghost use Rattle.std.specs.Prelude.{◌≡◌, ◌≤◌, ◌++◌, ℕ, List, [], codes, map, drop, OnOk, OnErr};
ghost use Rattle.std.specs.List.{zip};
ghost use Rattle.ir_ast.specs.declared.types.Ty.TheVariants.{Ptr};
ghost use Rattle.ir_printer.specs.Operands.{parameter_text, typed_text, argument_text};
ghost use Rattle.ir_printer.specs.Lists.{joined};
ghost use Rattle.ir_printer.specs.Calls.{callee_name, deopt_text, live_text, bundles_text, call_start_text, call_text, statepoint_words, elementtype_words, end_words, arguments_of, target_text, counted_text, statepoint_text, result_suffix, result_words, result_text, relocate_words, relocate_text};

use crate::operands::{Argument, NextArgument, NextTyped, ParameterWord, Typed, Value, operand_of};
use crate::puts::put_then;
use crate::runs::put_from;
use crate::words::{Integer, TypeWord};
use ir_ast::{Callee, Inst, Operand, Ty};
use piece_writer::{
    Bytes, Decimal, Each, Joined, Led, PairPrinter, Pairs, Piece, PieceSink, Printer, Row,
};
use print_tables::{Scope, after};
use tool_io::Failed;

// The name of a callee, without the `@`.
#[derive(Drop)]
struct CalleeName<'a> {
    scope: &'a Scope<'a>,
    callee: Callee,
}

impl Piece for CalleeName<'_> {
    ghost text = { λ piece. callee_name piece.scope.now piece.callee };

    fn put_into<W: PieceSink>(&self, out: &mut W) -> Result<(), Failed> {
        match self.callee {
            Callee::Fun(func) => out.put(self.scope.function(func)),
            Callee::New(layout) => out.put_both(b"gc_new.", self.scope.layout(layout)),
            Callee::Print => out.put(b"print_i64"),
            Callee::Read => out.put(b"read_i64"),
            Callee::TaskStart => out.put(b"task_start"),
            Callee::Poll => out.put(b"gc.safepoint_poll"),
            Callee::Check => out.put(b"gc_check"),
            Callee::Same => out.put(b"gc_same"),
        }
    }
}

// Puts an argument beside its type.
#[derive(Drop)]
struct Arguments<'a>(&'a Scope<'a>);

impl PairPrinter<Ty, Operand> for Arguments<'_> {
    ghost pair_text = { λ printer ty operand. argument_text printer.0.now ty operand };

    fn put_pair<W: PieceSink>(
        &self,
        ty: &Ty,
        operand: &Operand,
        out: &mut W,
    ) -> Result<(), Failed> {
        Argument {
            scope: self.0,
            ty: *ty,
            operand: *operand,
        }
        .put_into(out)
    }
}

// Puts an argument beside its type, after a comma.
#[derive(Drop)]
struct NextArguments<'a>(&'a Scope<'a>);

impl PairPrinter<Ty, Operand> for NextArguments<'_> {
    ghost pair_text = { λ printer ty operand. codes ", " ++ argument_text printer.0.now ty operand };

    fn put_pair<W: PieceSink>(
        &self,
        ty: &Ty,
        operand: &Operand,
        out: &mut W,
    ) -> Result<(), Failed> {
        NextArgument {
            scope: self.0,
            ty: *ty,
            operand: *operand,
        }
        .put_into(out)
    }
}

// Arguments with commas between them.
#[derive(Drop)]
struct ArgumentList<'a> {
    scope: &'a Scope<'a>,
    types: &'a [Ty],
    operands: &'a [Operand],
}

impl Piece for ArgumentList<'_> {
    ghost text = { λ piece. joined (codes ", ") (arguments_of piece.scope.now piece.types.now piece.operands.now) };

    fn put_into<W: PieceSink>(&self, out: &mut W) -> Result<(), Failed> {
        let arguments = Pairs {
            printer: Arguments(self.scope),
            first: self.types,
            second: self.operands,
        };
        arguments.put_at(0, out)?;
        let next = Pairs {
            printer: NextArguments(self.scope),
            first: self.types,
            second: self.operands,
        };
        put_from(&next, 1, out)
    }
}

// Puts a live entry.
#[derive(Drop)]
struct LiveEntries<'a>(&'a Scope<'a>);

impl Printer<Operand> for LiveEntries<'_> {
    ghost element_text = { λ printer entry. typed_text printer.0.now Ptr entry };

    fn put_element<W: PieceSink>(&self, entry: &Operand, out: &mut W) -> Result<(), Failed> {
        Typed {
            scope: self.0,
            ty: Ty::Ptr,
            operand: *entry,
        }
        .put_into(out)
    }
}

// Puts an operand of a "deopt" bundle.
#[derive(Drop)]
struct DeoptEntries<'a>(&'a Scope<'a>);

impl Printer<(Ty, Operand)> for DeoptEntries<'_> {
    ghost element_text = { λ printer entry. typed_text printer.0.now entry.0 entry.1 };

    fn put_element<W: PieceSink>(&self, entry: &(Ty, Operand), out: &mut W) -> Result<(), Failed> {
        Typed {
            scope: self.0,
            ty: entry.0,
            operand: entry.1,
        }
        .put_into(out)
    }
}

// Puts a parameter's type.
#[derive(Clone, Copy)]
struct Parameters;

impl Printer<Ty> for Parameters {
    ghost element_text = { λ printer ty. parameter_text ty };

    fn put_element<W: PieceSink>(&self, ty: &Ty, out: &mut W) -> Result<(), Failed> {
        ParameterWord(*ty).put_into(out)
    }
}

#[derive(Drop)]
struct Deopt<'a> {
    scope: &'a Scope<'a>,
    bundle: &'a [(Ty, Operand)],
}

impl Piece for Deopt<'_> {
    ghost text = { λ piece. deopt_text piece.scope.now piece.bundle.now };

    fn put_into<W: PieceSink>(&self, out: &mut W) -> Result<(), Failed> {
        let entries = Joined {
            separator: b", ",
            row: Each {
                printer: DeoptEntries(self.scope),
                elements: self.bundle,
            },
        };
        put_then(b"\"deopt\"(", &(entries, Bytes(b")")), out)
    }
}

#[derive(Drop)]
struct Live<'a> {
    scope: &'a Scope<'a>,
    entries: &'a [Operand],
}

impl Piece for Live<'_> {
    ghost text = { λ piece. live_text piece.scope.now piece.entries.now };

    fn put_into<W: PieceSink>(&self, out: &mut W) -> Result<(), Failed> {
        let entries = Joined {
            separator: b", ",
            row: Each {
                printer: LiveEntries(self.scope),
                elements: self.entries,
            },
        };
        put_then(b"\"gc-live\"(", &(entries, Bytes(b")")), out)
    }
}

// The bundles that have operands, in brackets.
#[derive(Drop)]
struct Bundles<'a> {
    scope: &'a Scope<'a>,
    bundle: &'a [(Ty, Operand)],
    entries: &'a [Operand],
}

impl Piece for Bundles<'_> {
    ghost text = { λ piece. bundles_text piece.scope.now piece.bundle.now piece.entries.now };

    fn put_into<W: PieceSink>(&self, out: &mut W) -> Result<(), Failed> {
        let deopt = Deopt {
            scope: self.scope,
            bundle: self.bundle,
        };
        let live = Live {
            scope: self.scope,
            entries: self.entries,
        };
        if self.bundle.is_empty() {
            if self.entries.is_empty() {
                Ok(())
            } else {
                (Bytes(b" [ "), live, Bytes(b" ]")).put_into(out)
            }
        } else if self.entries.is_empty() {
            (Bytes(b" [ "), deopt, Bytes(b" ]")).put_into(out)
        } else {
            (Bytes(b" [ "), deopt, Bytes(b", "), live, Bytes(b" ]")).put_into(out)
        }
    }
}

/// A call's line, after its result.
#[derive(Drop)]
pub(crate) struct Call<'a> {
    pub scope: &'a Scope<'a>,
    pub callee: Callee,
    pub types: &'a [Ty],
    pub inst: &'a Inst,
}

impl Piece for Call<'_> {
    ghost text = { λ piece. call_text piece.scope.now piece.callee piece.types.now piece.inst.now };

    fn put_into<W: PieceSink>(&self, out: &mut W) -> Result<(), Failed> {
        let arguments = ArgumentList {
            scope: self.scope,
            types: self.types,
            operands: self.inst.operands(),
        };
        let start = CallStart {
            scope: self.scope,
            ty: *self.inst.ty(),
            callee: self.callee,
        };
        let end = CallEnd {
            scope: self.scope,
            inst: self.inst,
        };
        (start, arguments, end).put_into(out)
    }
}

// The bracket after the arguments of a call, and its bundle, which few calls have.
#[derive(Drop)]
struct CallEnd<'a> {
    scope: &'a Scope<'a>,
    inst: &'a Inst,
}

impl Piece for CallEnd<'_> {
    ghost text = { λ piece. codes ")" ++ bundles_text piece.scope.now piece.inst.now.bundle [] };

    fn put_into<W: PieceSink>(&self, out: &mut W) -> Result<(), Failed> {
        if self.inst.bundle().is_empty() {
            out.put(b")")
        } else {
            put_bundle(self.scope, self.inst, out)
        }
    }
}

#[inline(never)]
fn put_bundle<W: PieceSink>(scope: &Scope<'_>, inst: &Inst, out: &mut W) -> Result<(), Failed>
    ensures ok { OnOk result (W.took out.old out.new (codes ")" ++ bundles_text scope.now inst.now.bundle [])) }
    ensures err { OnErr result (W.failed_within out.old out.new (codes ")" ++ bundles_text scope.now inst.now.bundle [])) }
{
    let bundles = Bundles {
        scope,
        bundle: inst.bundle(),
        entries: &[],
    };
    put_then(b")", &bundles, out)
}

// What a call's line begins with, after its result and before its arguments.
#[derive(Drop)]
struct CallStart<'a> {
    scope: &'a Scope<'a>,
    ty: Ty,
    callee: Callee,
}

impl Piece for CallStart<'_> {
    ghost text = { λ piece. call_start_text piece.scope.now piece.ty piece.callee };

    fn put_into<W: PieceSink>(&self, out: &mut W) -> Result<(), Failed> {
        match self.callee {
            Callee::Check => match self.ty {
                Ty::Void => out.put(b"call void @gc_check("),
                ty => (Bytes(b"call "), TypeWord(ty), Bytes(b" @gc_check(")).put_into(out),
            },
            callee => {
                let name = CalleeName {
                    scope: self.scope,
                    callee,
                };
                (
                    Bytes(b"call "),
                    TypeWord(self.ty),
                    Bytes(b" @"),
                    name,
                    Bytes(b"("),
                )
                    .put_into(out)
            }
        }
    }
}

#[tactic(auto, unfolding(crate::specs::Calls::statepoint_words))]
fn statepoint_start() -> &'static [u8]
    ensures { result.now ≡ statepoint_words }
{
    b"call token (i64, i32, ptr, i32, i32, ...) @llvm.experimental.gc.statepoint.p0(i64 "
}

#[tactic(auto, unfolding(crate::specs::Calls::elementtype_words))]
fn elementtype_start() -> &'static [u8]
    ensures { result.now ≡ elementtype_words }
{
    b", i32 0, ptr elementtype("
}

#[tactic(auto, unfolding(crate::specs::Calls::end_words))]
fn statepoint_end() -> &'static [u8]
    ensures { result.now ≡ end_words }
{
    b", i32 0, i32 0)"
}

// The type of what a statepoint calls, and its name.
#[derive(Drop)]
struct Target<'a> {
    scope: &'a Scope<'a>,
    callee: Callee,
    types: &'a [Ty],
    answer: Ty,
}

impl Piece for Target<'_> {
    ghost text = { λ piece. target_text piece.scope.now piece.callee piece.types.now piece.answer };

    fn put_into<W: PieceSink>(&self, out: &mut W) -> Result<(), Failed> {
        let parameters = Joined {
            separator: b", ",
            row: Each {
                printer: Parameters,
                elements: self.types,
            },
        };
        let name = CalleeName {
            scope: self.scope,
            callee: self.callee,
        };
        (
            TypeWord(self.answer),
            Bytes(b" ("),
            parameters,
            Bytes(b")) @"),
            name,
        )
            .put_into(out)
    }
}

// The number of the arguments of a statepoint, and the arguments.
#[derive(Drop)]
struct Counted<'a> {
    scope: &'a Scope<'a>,
    types: &'a [Ty],
    operands: &'a [Operand],
}

impl Piece for Counted<'_> {
    ghost text = { λ piece. counted_text piece.scope.now piece.types.now piece.operands.now };

    fn put_into<W: PieceSink>(&self, out: &mut W) -> Result<(), Failed> {
        let arguments = Led {
            separator: b", ",
            row: Pairs {
                printer: Arguments(self.scope),
                first: self.types,
                second: self.operands,
            },
        };
        (
            Bytes(b", i32 "),
            Decimal(self.types.len() as u64),
            Bytes(b", i32 0"),
            arguments,
        )
            .put_into(out)
    }
}

/// A statepoint's line, after its result.
#[derive(Drop)]
pub(crate) struct Statepoint<'a> {
    pub scope: &'a Scope<'a>,
    pub id: u64,
    pub callee: Callee,
    pub types: &'a [Ty],
    pub inst: &'a Inst,
}

impl Piece for Statepoint<'_> {
    ghost text = { λ piece. statepoint_text piece.scope.now piece.id piece.callee piece.types.now piece.inst.now };

    fn put_into<W: PieceSink>(&self, out: &mut W) -> Result<(), Failed> {
        let operands = self.inst.operands();
        let target = Target {
            scope: self.scope,
            callee: self.callee,
            types: self.types,
            answer: *self.inst.ty(),
        };
        let counted = Counted {
            scope: self.scope,
            types: self.types,
            operands,
        };
        let bundles = Bundles {
            scope: self.scope,
            bundle: self.inst.bundle(),
            entries: after(operands, self.types.len()),
        };
        (
            Bytes(statepoint_start()),
            Integer(64, self.id),
            Bytes(elementtype_start()),
            target,
            counted,
            Bytes(statepoint_end()),
            bundles,
        )
            .put_into(out)
    }
}

// The end of the name of a `gc.result`: its type.
#[derive(Clone, Copy)]
struct ResultSuffix(Ty);

impl Piece for ResultSuffix {
    ghost text = { λ piece. result_suffix piece.0 };

    fn put_into<W: PieceSink>(&self, out: &mut W) -> Result<(), Failed> {
        match self.0 {
            Ty::Ptr => out.put(b"p1"),
            ty => TypeWord(ty).put_into(out),
        }
    }
}

#[tactic(auto, unfolding(crate::specs::Calls::result_words))]
fn result_start() -> &'static [u8]
    ensures { result.now ≡ result_words }
{
    b" @llvm.experimental.gc.result."
}

/// The line of a `gc.result`, after its result.
#[derive(Drop)]
pub(crate) struct ResultCall<'a> {
    pub scope: &'a Scope<'a>,
    pub inst: &'a Inst,
}

impl Piece for ResultCall<'_> {
    ghost text = { λ piece. result_text piece.scope.now piece.inst.now };

    fn put_into<W: PieceSink>(&self, out: &mut W) -> Result<(), Failed> {
        let ty = *self.inst.ty();
        let token = Value {
            scope: self.scope,
            ty,
            operand: operand_of(self.inst, 0),
        };
        (
            Bytes(b"call "),
            TypeWord(ty),
            Bytes(result_start()),
            ResultSuffix(ty),
            Bytes(b"(token "),
            token,
            Bytes(b")"),
        )
            .put_into(out)
    }
}

#[tactic(auto, unfolding(crate::specs::Calls::relocate_words))]
fn relocate_start() -> &'static [u8]
    ensures { result.now ≡ relocate_words }
{
    b"call ptr addrspace(1) @llvm.experimental.gc.relocate.p1(token "
}

/// The line of a `gc.relocate`, after its result.
#[derive(Drop)]
pub(crate) struct Relocate<'a> {
    pub scope: &'a Scope<'a>,
    pub inst: &'a Inst,
}

impl Piece for Relocate<'_> {
    ghost text = { λ piece. relocate_text piece.scope.now piece.inst.now };

    fn put_into<W: PieceSink>(&self, out: &mut W) -> Result<(), Failed> {
        let token = Value {
            scope: self.scope,
            ty: *self.inst.ty(),
            operand: operand_of(self.inst, 0),
        };
        let base = NextTyped {
            scope: self.scope,
            ty: Ty::Int(32),
            operand: operand_of(self.inst, 1),
        };
        let derived = NextTyped {
            scope: self.scope,
            ty: Ty::Int(32),
            operand: operand_of(self.inst, 2),
        };
        (Bytes(relocate_start()), token, base, derived, Bytes(b")")).put_into(out)
    }
}
