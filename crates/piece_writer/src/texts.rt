//! Whole texts.
ghost use Rattle.std.specs.Prelude.{◌≡◌, ◌≤◌, length, OnOk, OnErr};
ghost use Rattle.tool_io.specs.Counts.{Rose};
ghost use Rattle.tool_io.specs.Sink.{append_known, AppendsFront};
ghost use Rattle.tool_io.specs.Told.{add_told};

use crate::{Piece, PieceWriter};
use tool_io::{Failed, Sink};

/// Puts the text of a piece into a sink, gathered into few puts. It takes no memory. After `Failed`,
/// which comes only where the sink's count of faults rose, a front of the text was added. A text of at
/// most 8,192 bytes is put by one call, also where that call fails.
pub fn put_text<P: Piece, S: Sink>(text: &P, out: &mut S) -> Result<(), Failed>
    ensures ok { OnOk result (S.written out.new ≡ append_known (S.written out.old) (P.text text.now)) }
    ensures err { OnErr result (AppendsFront (S.written out.old) (S.written out.new) (P.text text.now)) }
    ensures failed { OnErr result (Rose (S.faults out.old) (S.faults out.new)) }
    ensures count { S.faults out.old ≤ S.faults out.new }
    ensures by_one_put { length (P.text text.now) ≤ 8192 → OnOk result (S.puts out.new ≡ add_told (S.puts out.old) (P.text text.now)) }
    ensures unput { length (P.text text.now) ≤ 8192 → OnErr result (S.puts out.new ≡ S.puts out.old) }
{
    let mut writer = PieceWriter::new(out);
    text.put_into(&mut writer)?;
    writer.finish()
}
