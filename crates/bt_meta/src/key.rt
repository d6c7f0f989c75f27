//! The keys of a metainfo file.

ghost use Rattle.std.specs.Prelude.{◌≡◌};
ghost use Rattle.bt_meta.specs.Keys.{key_name};

use std::fmt;

/// A key of a metainfo file that is read (BEP 3, "metainfo files").
#[derive(Clone, Copy, Debug, PartialEq, Eq)]
pub enum Key {
    Info,
    Name,
    PieceLength,
    Pieces,
    Length,
    Files,
    Path,
}

impl Key {
    /// The key as it stands in the file.
    pub fn name(self) -> &'static str
        ensures { result.now ≡ key_name self }
    {
        match self {
            Key::Info => "info",
            Key::Name => "name",
            Key::PieceLength => "piece length",
            Key::Pieces => "pieces",
            Key::Length => "length",
            Key::Files => "files",
            Key::Path => "path",
        }
    }
}

impl fmt::Display for Key {
    ghost use Rattle.std.specs.Prelude.{Some};

    ghost output = { λ key. Some (key_name key) };

    fn fmt<W: fmt::Write>(&self, f: &mut fmt::Formatter<W>) -> fmt::Result {
        write!(f, "{}", self.name())
    }
}
