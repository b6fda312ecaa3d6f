//! Layouts, blocks, functions and the module.
ghost use Rattle.std.specs.Prelude.{◌≡◌, ◌≤◌, ◌++◌, [], ◌^◌, ◌<◌, codes, length, map, OnOk, OnErr};
ghost use Rattle.tool_io.specs.Counts.{Rose};
ghost use Rattle.tool_io.specs.Sink.{append_known, AppendsFront};
ghost use Rattle.ir_ast.specs.Funcs.{content_of};
ghost use Rattle.ir_ast.specs.Formed.{IsFormedModule};
ghost use Rattle.ir_ast.specs.Cells.{word_of};
ghost use Rattle.ir_printer.specs.Lists.{joined};
ghost use Rattle.ir_printer.specs.Declarations.{declarations_text};
ghost use Rattle.ir_printer.specs.Texts.{layout_text, argument_of, block_text, function_text, functions_text, text_of};

use crate::declarations::{Declarations, stands_above};
use crate::lines::Lines;
use crate::runs::Run;
use crate::words::{TypeWord, strategy};
use ir_ast::{Arg, Block, Cell, Func, Layout, Module};
use piece_writer::{Bytes, Each, Joined, Led, Piece, PieceSink, Printer, put_text};
use print_tables::{Called, Scope, Waypoints, count_results};
use tool_io::{Failed, Sink};

// Puts the type of a field.
#[derive(Clone, Copy)]
struct Fields;

impl Printer<Cell> for Fields {
    ghost element_text = { λ printer cell. word_of cell };

    fn put_element<W: PieceSink>(&self, cell: &Cell, out: &mut W) -> Result<(), Failed> {
        out.put(cell.word())
    }
}

// Puts the line of a layout.
#[derive(Clone, Copy)]
struct LayoutLines;

impl Printer<Layout> for LayoutLines {
    ghost element_text = { λ printer layout. layout_text layout };

    fn put_element<W: PieceSink>(&self, layout: &Layout, out: &mut W) -> Result<(), Failed> {
        let fields = Joined {
            separator: b", ",
            row: Each {
                printer: Fields,
                elements: layout.fields(),
            },
        };
        (
            Bytes(b"%"),
            Bytes(layout.name().bytes()),
            Bytes(b" = type { "),
            fields,
            Bytes(b" }\n"),
        )
            .put_into(out)
    }
}

// Puts an argument of a function's head.
#[derive(Clone, Copy)]
struct Heads;

impl Printer<Arg> for Heads {
    ghost element_text = { λ printer arg. argument_of arg };

    fn put_element<W: PieceSink>(&self, arg: &Arg, out: &mut W) -> Result<(), Failed> {
        (TypeWord(arg.ty), Bytes(b" %"), Bytes(arg.name.bytes())).put_into(out)
    }
}

// Puts a block: its label line, and its instructions.
#[derive(Drop)]
struct Blocks<'a>(&'a Scope<'a>);

impl Printer<Block> for Blocks<'_> {
    ghost element_text = { λ printer block. block_text printer.0.now block };

    fn put_element<W: PieceSink>(&self, block: &Block, out: &mut W) -> Result<(), Failed> {
        let lines = Run(Each {
            printer: Lines(self.0),
            elements: block.insts(),
        });
        (Bytes(block.name().bytes()), Bytes(b":\n"), lines).put_into(out)
    }
}

// Puts the function of a scope.
fn put_function<W: PieceSink>(scope: &Scope<'_>, out: &mut W) -> Result<(), Failed>
    ensures ok { OnOk result (W.took out.old out.new (function_text scope.now.layouts scope.now.funcs scope.now.func)) }
    ensures err { OnErr result (W.failed_within out.old out.new (function_text scope.now.layouts scope.now.funcs scope.now.func)) }
{
    let func = scope.func();
    let args = Joined {
        separator: b", ",
        row: Each {
            printer: Heads,
            elements: func.args(),
        },
    };
    let blocks = Joined {
        separator: b"",
        row: Each {
            printer: Blocks(scope),
            elements: func.blocks(),
        },
    };
    (
        (Bytes(b"define "), TypeWord(*func.answer()), Bytes(b" @")),
        Bytes(func.name().bytes()),
        Bytes(b"("),
        args,
        Bytes(strategy()),
        blocks,
        Bytes(b"}\n"),
    )
        .put_into(out)
}

// Puts a function.
#[derive(Clone, Copy)]
struct Functions<'a> {
    layouts: &'a [Layout],
    funcs: &'a [Func],
}

impl Printer<Func> for Functions<'_> {
    ghost element_text = { λ printer func. function_text printer.layouts.now (map content_of printer.funcs.now) func.content };

    fn put_element<W: PieceSink>(&self, func: &Func, out: &mut W) -> Result<(), Failed> {
        let results = count_results(func);
        if results < FEW {
            let scope = Scope::of_short(self.layouts, self.funcs, func);
            return put_function(&scope, out);
        }
        if results < SOME {
            return self.put_by_some(func, results, out);
        }
        self.put_by_many(func, results, out)
    }
}

// A function with fewer results is walked over from its start.
const FEW: usize = 32;

// How many waypoints a function with fewer results than these has at most.
const SOME: usize = 512;

// How many waypoints a function has at most.
const MANY: usize = 4_096;

// Room for waypoints is cleared in these functions alone.
impl Functions<'_> {
    #[inline(never)]
    fn put_by_some<W: PieceSink>(
        &self,
        func: &Func,
        results: usize,
        out: &mut W,
    ) -> Result<(), Failed>
        ensures ok { OnOk result (W.took out.old out.new (function_text self.now.layouts.now (map content_of self.now.funcs.now) func.now.content)) }
        ensures err { OnErr result (W.failed_within out.old out.new (function_text self.now.layouts.now (map content_of self.now.funcs.now) func.now.content)) }
    {
        let waypoints = Waypoints::<SOME>::of(func, results);
        let scope = Scope::of(self.layouts, self.funcs, func, &waypoints);
        put_function(&scope, out)
    }

    #[inline(never)]
    fn put_by_many<W: PieceSink>(
        &self,
        func: &Func,
        results: usize,
        out: &mut W,
    ) -> Result<(), Failed>
        ensures ok { OnOk result (W.took out.old out.new (function_text self.now.layouts.now (map content_of self.now.funcs.now) func.now.content)) }
        ensures err { OnErr result (W.failed_within out.old out.new (function_text self.now.layouts.now (map content_of self.now.funcs.now) func.now.content)) }
    {
        let waypoints = Waypoints::<MANY>::of(func, results);
        let scope = Scope::of(self.layouts, self.funcs, func, &waypoints);
        put_function(&scope, out)
    }
}

// The functions, with an empty line before each that isn't the first line of the text.
#[derive(Drop)]
struct AllFunctions<'a> {
    layouts: &'a [Layout],
    called: &'a Called<'a>,
}

impl Piece for AllFunctions<'_> {
    ghost text = { λ piece. functions_text piece.layouts.now piece.called.now };

    fn put_into<W: PieceSink>(&self, out: &mut W) -> Result<(), Failed> {
        let layouts = self.layouts;
        let funcs = self.called.funcs();
        let row = Each {
            printer: Functions { layouts, funcs },
            elements: funcs,
        };
        let separator = b"\n";
        if stands_above(layouts, self.called) {
            Led { separator, row }.put_into(out)
        } else {
            Joined { separator, row }.put_into(out)
        }
    }
}

// The text of a module.
#[derive(Drop)]
struct Whole<'a> {
    layouts: &'a [Layout],
    called: &'a Called<'a>,
    ghost few: { length layouts.now < 2 ^ 32 },
}

impl Piece for Whole<'_> {
    ghost text = { λ piece. joined [] (map layout_text piece.layouts.now) ++ (declarations_text piece.layouts.now piece.called.now ++ functions_text piece.layouts.now piece.called.now) };

    fn put_into<W: PieceSink>(&self, out: &mut W) -> Result<(), Failed> {
        let layouts = self.layouts;
        let called = self.called;
        let lines = Joined {
            separator: b"",
            row: Each {
                printer: LayoutLines,
                elements: layouts,
            },
        };
        let declarations = Declarations { layouts, called };
        let functions = AllFunctions { layouts, called };
        (lines, declarations, functions).put_into(out)
    }
}

/// Puts the printed text of a formed module: its layouts, the declarations of the externals that it
/// calls, and its functions. It takes no memory. After `Failed`, which comes only where the sink's
/// count of faults rose, a front of the text was added.
pub fn print<O: Sink>(program: &Module, out: &mut O) -> Result<(), Failed>
    requires { IsFormedModule program.now.content }
    ensures ok { OnOk result (O.written out.new ≡ append_known (O.written out.old) (text_of program.now.content)) }
    ensures err { OnErr result (AppendsFront (O.written out.old) (O.written out.new) (text_of program.now.content)) }
    ensures failed { OnErr result (Rose (O.faults out.old) (O.faults out.new)) }
    ensures count { O.faults out.old ≤ O.faults out.new }
{
    let called = Called::of(program.funcs());
    let whole = Whole {
        layouts: program.layouts(),
        called: &called,
    };
    put_text(&whole, out)
}
