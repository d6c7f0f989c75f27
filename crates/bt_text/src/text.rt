//! Values as the program prints them.

ghost use Rattle.std.specs.Prelude.{◌≡◌, Some};
ghost use Rattle.bt_text.specs.Texts.{is_plain, name_byte, name_text, reply_text, block_text, said_text, tail_text};

use bt_history::Reply;
use bt_meta::Block;
use std::fmt;

/// A name that may be any bytes: printable ASCII as it is but for `%`, and any other byte as `%` and two hexadecimal digits.
#[derive(Clone, Copy)]
pub struct Name<'a>(pub &'a [u8]);

impl fmt::Display for Name<'_> {
    ghost output = { λ name. Some (name_text name.0.now) };

    fn fmt<W: fmt::Write>(&self, f: &mut fmt::Formatter<W>) -> fmt::Result {
        for byte in self.0 {
            let letter = NameByte(*byte);
            write!(f, "{letter}")?;
        }
        Ok(())
    }
}

/// A byte of a name.
#[derive(Clone, Copy)]
struct NameByte(u8);

impl fmt::Display for NameByte {
    ghost output = { λ byte. Some (name_byte byte.0) };

    #[tactic(auto, using(std::proofs::lemmas::Fmt::hex_byte))]
    fn fmt<W: fmt::Write>(&self, f: &mut fmt::Formatter<W>) -> fmt::Result {
        let byte = self.0;
        if is_plain(byte) {
            let letter = char::from(byte);
            write!(f, "{letter}")
        } else {
            write!(f, "%{byte:02x}")
        }
    }
}

/// Whether a name shows the byte as it is.
fn is_plain(byte: u8) -> bool
    ensures { result ≡ is_plain byte }
{
    byte > b' ' && byte < 0x7f && byte != b'%'
}

/// What stands behind the word of a reply.
#[derive(Clone, Copy)]
pub enum Tail {
    Nothing,
    Block(Block),
    Number(u8),
}

impl fmt::Display for Tail {
    ghost output = { λ tail. Some (tail_text tail) };

    fn fmt<W: fmt::Write>(&self, f: &mut fmt::Formatter<W>) -> fmt::Result {
        match *self {
            Tail::Nothing => Ok(()),
            Tail::Block(block) => {
                let shown = BlockText(block);
                write!(f, " {shown}")
            }
            Tail::Number(number) => write!(f, " {number}"),
        }
    }
}

/// A reply of the picker: a word, and what stands behind it.
#[derive(Clone, Copy)]
pub struct ReplyText {
    pub word: &'static str,
    pub tail: Tail,
}

impl ReplyText {
    /// A word with nothing behind it.
    fn bare(word: &'static str) -> ReplyText
        ensures word { result.word.now ≡ word.now }
        ensures tail { result.tail ≡ Tail.Nothing }
    {
        ReplyText {
            word,
            tail: Tail::Nothing,
        }
    }

    /// What is said for a reply.
    pub fn new(reply: Reply) -> ReplyText
        ensures { said_text result ≡ reply_text reply }
    {
        match reply {
            Reply::Joined => ReplyText::bare("joined"),
            Reply::Noted(true) => ReplyText::bare("noted yes"),
            Reply::Noted(false) => ReplyText::bare("noted no"),
            Reply::Quiet => ReplyText::bare("quiet"),
            Reply::Cancel(block) => ReplyText {
                word: "cancel",
                tail: Tail::Block(block),
            },
            Reply::Request(block) => ReplyText {
                word: "request",
                tail: Tail::Block(block),
            },
            Reply::InFlight(block) => ReplyText {
                word: "inflight",
                tail: Tail::Block(block),
            },
            Reply::Choked => ReplyText::bare("choked"),
            Reply::PipeFull => ReplyText::bare("pipefull"),
            Reply::Idle => ReplyText::bare("idle"),
            Reply::NothingLeft => ReplyText::bare("nothing"),
            Reply::Stored => ReplyText::bare("stored"),
            Reply::Completed => ReplyText::bare("completed"),
            Reply::Dropped => ReplyText::bare("dropped"),
            Reply::Had => ReplyText::bare("had"),
            Reply::Failed => ReplyText::bare("failed"),
            Reply::Refused(reason) => ReplyText {
                word: "refused",
                tail: Tail::Number(reason.number()),
            },
        }
    }
}

impl fmt::Display for ReplyText {
    ghost output = { λ said. Some (said_text said) };

    fn fmt<W: fmt::Write>(&self, f: &mut fmt::Formatter<W>) -> fmt::Result {
        let ReplyText { word, tail } = *self;
        write!(f, "{word}{tail}")
    }
}

/// Where a block stands: its piece, where it begins in it and its length, in bytes.
#[derive(Clone, Copy)]
struct BlockText(Block);

impl fmt::Display for BlockText {
    ghost output = { λ shown. Some (block_text shown.0) };

    fn fmt<W: fmt::Write>(&self, f: &mut fmt::Formatter<W>) -> fmt::Result {
        let Block { piece, begin, len } = self.0;
        write!(f, "{piece} {begin} {len}")
    }
}
