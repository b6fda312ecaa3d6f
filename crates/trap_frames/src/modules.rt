//! Functions of a module by the addresses of their instructions.

ghost use Rattle.std.specs.Prelude.{◌≡◌, ◌==◌, ◌&&◌, ◌<◌, ◌^◌, ◌/◌, ◌%◌, nat_lt, length};
ghost use Rattle.ir_ast.specs.Funcs.{instructions_of};
ghost use Rattle.frame_forms.specs.CodeAddresses.{first_start};
ghost use Rattle.machine_meaning.specs.Code.{name_in};
ghost use Rattle.trap_frames.specs.Spans.{span_of};

use crate::asked::Functions;
use ir_ast::{Block, Module};

/// Where the first function starts.
const FIRST_START: u64 = 4_096;

impl Functions for Module {
    ghost names = { λ whole. name_in first_start whole.content.funcs };

    fn name_at(&self, address: u64) -> Option<&[u8]> {
        if address < FIRST_START {
            return None;
        }
        let mut behind = address - FIRST_START;
        for func in self.funcs() {
            let count = count_of(func.blocks());
            if is_instruction(behind, count) {
                return Some(func.name().bytes());
            }
            if behind < span_of(count) {
                return None;
            }
            behind -= span_of(count);
        }
        None
    }
}

// Whether an instruction of a function with so many stands so far behind its start.
fn is_instruction(behind: u64, count: u64) -> bool
    ensures { result ≡ ((behind % 4 == 0) && nat_lt (behind / 4) count) }
{
    behind % 4 == 0 && behind / 4 < count
}

// How many instructions these blocks have.
fn count_of(blocks: &[Block]) -> u64
    requires { length (instructions_of blocks.now) < 2 ^ 30 }
    ensures { result ≡ length (instructions_of blocks.now) }
{
    let mut count = 0;
    for block in blocks {
        count += block.insts().len() as u64;
    }
    count
}

// How many bytes lie between the start of a function with so many instructions and that of the next one.
fn span_of(count: u64) -> u64
    requires { count < 2 ^ 30 }
    ensures { result ≡ span_of count }
{
    (4 * count + 15) / 16 * 16
}
