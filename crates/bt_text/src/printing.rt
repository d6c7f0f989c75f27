//! Text straight to a sink. It takes no memory, so that only the sink can fail.

ghost use Rattle.std.specs.Prelude.{◌≡◌, ◌++◌, true, OnOk, OnErr};
ghost use Rattle.std.specs.Fmt.{decimal};
ghost use Rattle.std.specs.Io.KnownBytes.{Appends};
ghost use Rattle.bt_text.specs.Texts.{block_text, said_text, tail_text};

use crate::text::{ReplyText, Tail};
use bt_meta::{Block, DeviceFault, Sink, write_all};
use itoa::Buffer;

/// Writes the text.
pub fn print<O: Sink>(out: &mut O, text: &str) -> Result<(), DeviceFault>
    ensures ok { OnOk result (Appends (O.written out.old) (O.written out.new) text.now) }
    ensures err { OnErr result (O.failed out.new ≡ true) }
{
    write_all(out, text.as_bytes())
}

/// Writes the number in base ten.
pub fn print_number<O: Sink>(out: &mut O, number: u64) -> Result<(), DeviceFault>
    ensures ok { OnOk result (Appends (O.written out.old) (O.written out.new) (decimal number)) }
    ensures err { OnErr result (O.failed out.new ≡ true) }
{
    write_all(out, Buffer::new().format(number).as_bytes())
}

/// Writes the text, and then the number in base ten.
pub fn print_numbered<O: Sink>(out: &mut O, text: &str, number: u64) -> Result<(), DeviceFault>
    ensures ok { OnOk result (Appends (O.written out.old) (O.written out.new) (text.now ++ decimal number)) }
    ensures err { OnErr result (O.failed out.new ≡ true) }
{
    print(out, text)?;
    print_number(out, number)
}

/// Where a block stands: its piece, where it begins in it and its length, in bytes.
pub fn print_block<O: Sink>(out: &mut O, block: Block) -> Result<(), DeviceFault>
    ensures ok { OnOk result (Appends (O.written out.old) (O.written out.new) (block_text block)) }
    ensures err { OnErr result (O.failed out.new ≡ true) }
{
    print_number(out, u64::from(block.piece))?;
    print_numbered(out, " ", u64::from(block.begin))?;
    print_numbered(out, " ", u64::from(block.len))
}

/// Writes what stands behind a word.
fn print_tail<O: Sink>(out: &mut O, tail: Tail) -> Result<(), DeviceFault>
    ensures ok { OnOk result (Appends (O.written out.old) (O.written out.new) (tail_text tail)) }
    ensures err { OnErr result (O.failed out.new ≡ true) }
{
    match tail {
        Tail::Nothing => Ok(()),
        Tail::Block(block) => {
            print(out, " ")?;
            print_block(out, block)
        }
        Tail::Number(number) => print_numbered(out, " ", u64::from(number)),
    }
}

/// A reply of the picker.
pub fn print_said<O: Sink>(out: &mut O, said: ReplyText) -> Result<(), DeviceFault>
    ensures ok { OnOk result (Appends (O.written out.old) (O.written out.new) (said_text said)) }
    ensures err { OnErr result (O.failed out.new ≡ true) }
{
    print(out, said.word)?;
    print_tail(out, said.tail)
}
