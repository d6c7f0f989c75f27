//! A journal as text.

ghost use Rattle.std.specs.Prelude.{◌≡◌, ◌++◌, ◌∷◌, [], ℕ, List, codes, map, true, OnOk, OnErr};
ghost use Rattle.std.specs.Io.KnownBytes.{Appends};
ghost use Rattle.hex.specs.Hex.{encode_lower};
ghost use Rattle.bt_meta.specs.WireBits.{IsSpelled};
ghost use Rattle.bt_history.specs.Entries.{action_of, event_of};
ghost use Rattle.bt_text.specs.Journals.{arrived_text, request_text, level_text, level_digit, level_digits};
ghost use Rattle.bt_text.specs.Journals.{AreJournalLines, IsCallText, IsJournalLine};

use crate::printing::{print, print_number, print_numbered, print_said};
use crate::text::ReplyText;
use bt_meta::{Bitfield, DeviceFault, Sink, write_all};
use bt_picker::{Call, Entry};

/// Prints the lines of a journal: of each entry the worker, the call as a script has it, and the reply. The word of `next` is left out, a
/// block has its length in place of its bytes, a bitfield is in lower case, and of many levels each is a digit.
pub fn print_journal<O: Sink>(out: &mut O, journal: &[Entry]) -> Result<(), DeviceFault>
    ensures ok { OnOk result ((text : List ℕ) × AreJournalLines (map event_of journal.now) text
        × Appends (O.written out.old) (O.written out.new) text) }
    ensures err { OnErr result (O.failed out.new ≡ true) }
{
    for entry in journal {
        print_entry(out, entry)?;
    }
    Ok(())
}

/// Prints the line of one entry.
pub fn print_entry<O: Sink>(out: &mut O, entry: &Entry) -> Result<(), DeviceFault>
    ensures ok { OnOk result ((line : List ℕ) × IsJournalLine (event_of entry.now) line
        × Appends (O.written out.old) (O.written out.new) (line ++ codes "\n")) }
    ensures err { OnErr result (O.failed out.new ≡ true) }
{
    print_number(out, u64::from(entry.worker))?;
    print(out, " ")?;
    print_call(out, &entry.call)?;
    print(out, " = ")?;
    print_said(out, ReplyText::new(entry.reply))?;
    print(out, "\n")
}

/// The call of an entry, as a line of a script has it.
fn print_call<O: Sink>(out: &mut O, call: &Call) -> Result<(), DeviceFault>
    ensures ok { OnOk result ((text : List ℕ) × IsCallText (action_of call.now) text
        × Appends (O.written out.old) (O.written out.new) text) }
    ensures err { OnErr result (O.failed out.new ≡ true) }
{
    match call {
        Call::Join => print(out, "join"),
        Call::Bits(flags) => print_bits(out, "bits ", flags),
        Call::Have(piece) => print_numbered(out, "have ", u64::from(*piece)),
        Call::Choke => print(out, "choke"),
        Call::Unchoke => print(out, "unchoke"),
        Call::Next(_) => print(out, "next"),
        Call::Arrived {
            piece,
            begin,
            bytes,
        } => print_arrived(out, *piece, *begin, bytes.len()),
        Call::Settle(verdict) => print_numbered(out, "settle ", u64::from(verdict.piece())),
        Call::Leave => print(out, "leave"),
        Call::Want(flags) => print_bits(out, "want ", flags),
        Call::Haves(flags) => print_bits(out, "haves ", flags),
        Call::Depth(depth) => print_numbered(out, "depth ", u64::from(*depth)),
        Call::Release { piece, begin } => print_request(out, "release ", *piece, *begin),
        Call::Level { piece, level } => print_level(out, *piece, *level),
        Call::Levels(levels) => print_levels(out, levels.as_slice()),
        Call::InOrder(true) => print(out, "inorder yes"),
        Call::InOrder(false) => print(out, "inorder no"),
        Call::Reach(level) => print_numbered(out, "reach ", u64::from(*level)),
        Call::InOrderFrom(level) => print_numbered(out, "inorderfrom ", u64::from(*level)),
        Call::Lack(piece) => print_numbered(out, "lack ", u64::from(*piece)),
        Call::Late { piece, begin } => print_request(out, "late ", *piece, *begin),
        Call::Alone(true) => print(out, "alone yes"),
        Call::Alone(false) => print(out, "alone no"),
    }
}

/// Prints the word, and the request that it is told of: the piece, and where the block begins.
fn print_request<O: Sink>(
    out: &mut O,
    word: &str,
    piece: u32,
    begin: u32,
) -> Result<(), DeviceFault>
    ensures ok { OnOk result (Appends (O.written out.old) (O.written out.new) (request_text word.now piece begin)) }
    ensures err { OnErr result (O.failed out.new ≡ true) }
{
    print(out, word)?;
    print_number(out, u64::from(piece))?;
    print_numbered(out, " ", u64::from(begin))
}

/// The level of one piece.
fn print_level<O: Sink>(out: &mut O, piece: u32, level: u8) -> Result<(), DeviceFault>
    ensures ok { OnOk result (Appends (O.written out.old) (O.written out.new) (level_text piece level)) }
    ensures err { OnErr result (O.failed out.new ≡ true) }
{
    print_numbered(out, "level ", u64::from(piece))?;
    print_numbered(out, " ", u64::from(level))
}

/// The level of each piece.
fn print_levels<O: Sink>(out: &mut O, levels: &[u8]) -> Result<(), DeviceFault>
    ensures ok { OnOk result (Appends (O.written out.old) (O.written out.new) (codes "levels " ++ level_digits levels.now)) }
    ensures err { OnErr result (O.failed out.new ≡ true) }
{
    print(out, "levels ")?;
    print_digits(out, levels)
}

/// These levels, a digit each.
fn print_digits<O: Sink>(out: &mut O, levels: &[u8]) -> Result<(), DeviceFault>
    ensures ok { OnOk result (Appends (O.written out.old) (O.written out.new) (level_digits levels.now)) }
    ensures err { OnErr result (O.failed out.new ≡ true) }
{
    for level in levels {
        print_digit(out, *level)?;
    }
    Ok(())
}

/// A level, as one digit.
fn print_digit<O: Sink>(out: &mut O, level: u8) -> Result<(), DeviceFault>
    ensures ok { OnOk result (Appends (O.written out.old) (O.written out.new) (level_digit level ∷ [])) }
    ensures err { OnErr result (O.failed out.new ≡ true) }
{
    let digit = b'0' + level.min(9);
    write_all(out, &[digit])
}

/// An arrival, with its length in place of its bytes.
fn print_arrived<O: Sink>(
    out: &mut O,
    piece: u32,
    begin: u32,
    len: usize,
) -> Result<(), DeviceFault>
    ensures ok { OnOk result (Appends (O.written out.old) (O.written out.new) (arrived_text piece begin len)) }
    ensures err { OnErr result (O.failed out.new ≡ true) }
{
    print_numbered(out, "block ", u64::from(piece))?;
    print_numbered(out, " ", u64::from(begin))?;
    print_numbered(out, " ", len as u64)
}

/// Prints the word, and a bitfield as its message spells it, in hexadecimal.
fn print_bits<O: Sink>(out: &mut O, word: &str, flags: &Bitfield) -> Result<(), DeviceFault>
    ensures ok { OnOk result ((wire : List ℕ) × IsSpelled flags.now wire
        × Appends (O.written out.old) (O.written out.new) (word.now ++ encode_lower wire)) }
    ensures err { OnErr result (O.failed out.new ≡ true) }
{
    print(out, word)?;
    print_hexadecimal(out, flags.as_wire())
}

/// Bytes, two digits each.
fn print_hexadecimal<O: Sink>(out: &mut O, bytes: &[u8]) -> Result<(), DeviceFault>
    ensures ok { OnOk result (Appends (O.written out.old) (O.written out.new) (encode_lower bytes.now)) }
    ensures err { OnErr result (O.failed out.new ≡ true) }
{
    for byte in bytes {
        print_byte(out, *byte)?;
    }
    Ok(())
}

/// A byte, as two digits.
fn print_byte<O: Sink>(out: &mut O, byte: u8) -> Result<(), DeviceFault>
    ensures ok { OnOk result (Appends (O.written out.old) (O.written out.new) (encode_lower (byte ∷ []))) }
    ensures err { OnErr result (O.failed out.new ≡ true) }
{
    let mut digits = [0; 2];
    // It fails only where there is room for more or fewer digits.
    let _ = hex::encode_to_slice([byte], &mut digits);
    write_all(out, &digits)
}
