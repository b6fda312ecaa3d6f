//! Declarations of the externals that a module calls.
ghost use Rattle.std.specs.Prelude.{◌≡◌, ◌++◌, ◌||◌, ◌-◌, ◌^◌, ◌<◌, codes, map, length};
ghost use Rattle.std.specs.List.{range_with_len, list_any};
ghost use Rattle.print_tables.specs.Externals.{calls};
ghost use Rattle.ir_printer.specs.Declarations.{new_words, result_of_words, fixed_declaration, declaration_text, declaration_if_called, fixed_externals, integer_widths, declarations_text, has_top};

use ir_ast::Layout;
use piece_writer::{Bytes, Decimal, Each, Joined, Piece, PieceSink, Printer, Row};
use print_tables::{Called, External, name_of_layout};
use tool_io::Failed;

#[tactic(auto, unfolding(crate::specs::Declarations::new_words))]
fn new_start() -> &'static [u8]
    ensures { result.now ≡ new_words }
{
    b"declare ptr addrspace(1) @gc_new."
}

#[tactic(auto, unfolding(crate::specs::Declarations::result_of_words))]
fn result_of_middle() -> &'static [u8]
    ensures { result.now ≡ result_of_words }
{
    b" @llvm.experimental.gc.result.i"
}

// The declaration of an external that is declared alike in each module.
#[tactic(auto, unfolding(crate::specs::Declarations::fixed_declaration))]
fn fixed(external: External) -> &'static [u8]
    ensures { result.now ≡ fixed_declaration external }
{
    match external {
        External::Print => b"declare void @print_i64(i64)\n",
        External::Read => b"declare i64 @read_i64()\n",
        External::TaskStart => b"declare void @task_start(ptr, ptr addrspace(1))\n",
        External::Poll => b"declare void @gc.safepoint_poll()\n",
        External::Check => { b"declare void @gc_check(ptr addrspace(1), ptr addrspace(1), i64)\n" }
        External::Same => {
            b"declare i1 @gc_same(ptr addrspace(1), ptr addrspace(1), ptr addrspace(1), ptr addrspace(1))\n"
        }
        External::StatepointFamily => {
            b"declare token @llvm.experimental.gc.statepoint.p0(i64, i32, ptr, i32, i32, ...)\n"
        }
        External::RelocateFamily => {
            b"declare ptr addrspace(1) @llvm.experimental.gc.relocate.p1(token, i32, i32)\n"
        }
        External::ResultPointer => {
            b"declare ptr addrspace(1) @llvm.experimental.gc.result.p1(token)\n"
        }
        External::New(_) | External::ResultOf(_) => b"",
    }
}

// The declaration of an external.
#[derive(Clone, Copy)]
struct Declaration<'a> {
    layouts: &'a [Layout],
    external: External,
}

impl Piece for Declaration<'_> {
    ghost text = { λ piece. declaration_text piece.layouts.now piece.external };

    fn put_into<W: PieceSink>(&self, out: &mut W) -> Result<(), Failed> {
        match self.external {
            External::New(layout) => (
                Bytes(new_start()),
                Bytes(name_of_layout(self.layouts, layout)),
                Bytes(b"(i64)\n"),
            )
                .put_into(out),
            External::ResultOf(width) => (
                Bytes(b"declare i"),
                Decimal(width as u64),
                Bytes(result_of_middle()),
                Decimal(width as u64),
                Bytes(b"(token)\n"),
            )
                .put_into(out),
            external => out.put(fixed(external)),
        }
    }
}

// The declaration of an external that the functions call, or nothing.
#[derive(Drop)]
struct Declared<'a> {
    layouts: &'a [Layout],
    called: &'a Called<'a>,
    external: External,
}

impl Piece for Declared<'_> {
    ghost text = { λ piece. declaration_if_called piece.layouts.now piece.called.now piece.external };

    fn put_into<W: PieceSink>(&self, out: &mut W) -> Result<(), Failed> {
        if self.called.calls(self.external) {
            Declaration {
                layouts: self.layouts,
                external: self.external,
            }
            .put_into(out)
        } else {
            Ok(())
        }
    }
}

// Puts the declaration of an external, if the functions call it.
#[derive(Drop)]
struct DeclaredOf<'a> {
    layouts: &'a [Layout],
    called: &'a Called<'a>,
}

impl Printer<External> for DeclaredOf<'_> {
    ghost element_text = { λ printer external. declaration_if_called printer.layouts.now printer.called.now external };

    fn put_element<W: PieceSink>(&self, external: &External, out: &mut W) -> Result<(), Failed> {
        Declared {
            layouts: self.layouts,
            called: self.called,
            external: *external,
        }
        .put_into(out)
    }
}

// The declarations of `gc_new` of the layouts.
#[derive(Drop)]
struct NewDeclarations<'a> {
    layouts: &'a [Layout],
    called: &'a Called<'a>,
    ghost few: { length layouts.now < 2 ^ 32 },
}

impl Row for NewDeclarations<'_> {
    ghost use Rattle.print_tables.specs.declared.externals.External.{External};

    ghost texts = { λ row. map (λ layout. declaration_if_called row.layouts.now row.called.now (External.New layout)) (range_with_len 0 (length row.layouts.now)) };

    fn count(&self) -> usize {
        self.layouts.len()
    }

    fn put_at<W: PieceSink>(&self, place: usize, out: &mut W) -> Result<(), Failed> {
        if place < self.layouts.len() {
            Declared {
                layouts: self.layouts,
                called: self.called,
                external: External::New(place as u32),
            }
            .put_into(out)
        } else {
            Ok(())
        }
    }
}

// The declarations of `gc.result` of the integer types.
#[derive(Drop)]
struct ResultDeclarations<'a> {
    layouts: &'a [Layout],
    called: &'a Called<'a>,
}

impl Row for ResultDeclarations<'_> {
    ghost use Rattle.print_tables.specs.declared.externals.External.{External};

    ghost texts = { λ row. map (λ width. declaration_if_called row.layouts.now row.called.now (External.ResultOf width)) integer_widths };

    #[tactic(auto, unfolding(crate::specs::Declarations::integer_widths))]
    fn count(&self) -> usize {
        64
    }

    fn put_at<W: PieceSink>(&self, place: usize, out: &mut W) -> Result<(), Failed> {
        if place < 64 {
            Declared {
                layouts: self.layouts,
                called: self.called,
                external: External::ResultOf(place as u32 + 1),
            }
            .put_into(out)
        } else {
            Ok(())
        }
    }
}

#[tactic(auto, unfolding(crate::specs::Declarations::fixed_externals))]
fn fixed_list() -> [External; 8]
    ensures { result ≡ fixed_externals }
{
    [
        External::Print,
        External::Read,
        External::TaskStart,
        External::Poll,
        External::Check,
        External::Same,
        External::StatepointFamily,
        External::RelocateFamily,
    ]
}

/// The declarations of the externals that the functions call.
#[derive(Drop)]
pub(crate) struct Declarations<'a> {
    pub layouts: &'a [Layout],
    pub called: &'a Called<'a>,
    ghost few: { length layouts.now < 2 ^ 32 },
}

impl Piece for Declarations<'_> {
    ghost text = { λ piece. declarations_text piece.layouts.now piece.called.now };

    fn put_into<W: PieceSink>(&self, out: &mut W) -> Result<(), Failed> {
        let layouts = self.layouts;
        let called = self.called;
        let externals = fixed_list();
        let news = Joined {
            separator: b"",
            row: NewDeclarations { layouts, called },
        };
        let fixed = Joined {
            separator: b"",
            row: Each {
                printer: DeclaredOf { layouts, called },
                elements: &externals,
            },
        };
        let results = Joined {
            separator: b"",
            row: ResultDeclarations { layouts, called },
        };
        let pointer = Declared {
            layouts,
            called,
            external: External::ResultPointer,
        };
        (news, fixed, results, pointer).put_into(out)
    }
}

/// Whether a layout or a declaration stands above the functions.
pub(crate) fn stands_above(layouts: &[Layout], called: &Called) -> bool
    ensures { result ≡ has_top layouts.now called.now }
{
    !layouts.is_empty() || declares_some(called)
}

// Whether an external other than `gc_new` is called.
fn declares_some(called: &Called) -> bool
    ensures { result ≡ (list_any (calls called.now) fixed_externals || (list_any (λ width. calls called.now (External.ResultOf width)) integer_widths || calls called.now External.ResultPointer)) }
{
    calls_fixed(called) || calls_result(called) || called.calls(External::ResultPointer)
}

fn calls_fixed(called: &Called) -> bool
    ensures { result ≡ list_any (calls called.now) fixed_externals }
{
    fixed_list().iter().any(|external| called.calls(*external))
}

fn calls_result(called: &Called) -> bool
    ensures { result ≡ list_any (λ width. calls called.now (External.ResultOf width)) integer_widths }
{
    calls_result_between(called, 1, 65)
}

// Whether the result of an integer type of a width from `from` up to and without `end` is called.
fn calls_result_between(called: &Called, from: u32, end: u32) -> bool
    ensures { result ≡ list_any (λ width. calls called.now (External.ResultOf width)) (range_with_len from (end - from)) }
{
    (from..end).any(|width| called.calls(External::ResultOf(width)))
}
