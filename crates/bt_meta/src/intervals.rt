//! Laws of the geometry: the pieces tile the content, and the blocks of a piece tile it.
ghost use Rattle.std.specs.Prelude.{ℕ, ◌≡◌, ◌+◌, ◌<◌};
ghost use Rattle.bt_meta.specs.Layout.{IsLayout, Layout, block, block_count, piece_count, piece_len, piece_start};

use crate::torrent::Torrent;

/// Piece 0 begins where the content does, each piece ends where the next one begins, and the last one ends with the content.
pub fn pieces_tile_the_content(torrent: &Torrent, piece: u32)
    requires { piece < piece_count torrent.now.layout }
    ensures first { piece_start torrent.now.layout 0 ≡ 0 }
    ensures some { 0 < piece_len torrent.now.layout piece }
    ensures next { piece + 1 < piece_count torrent.now.layout →
        piece_start torrent.now.layout piece + piece_len torrent.now.layout piece
        ≡ piece_start torrent.now.layout (piece + 1) }
    ensures last { piece + 1 ≡ piece_count torrent.now.layout →
        piece_start torrent.now.layout piece + piece_len torrent.now.layout piece
        ≡ torrent.now.layout.total }
{
    // Says to the proof that the torrent's parts fit together.
    let _layout = torrent.piece_count();
}

/// Block 0 begins where the piece does, each block ends where the next one begins, and the last one ends with the piece.
pub fn blocks_tile_a_piece(torrent: &Torrent, piece: u32, index: u32)
    requires piece { piece < piece_count torrent.now.layout }
    requires index { index < block_count torrent.now.layout piece }
    ensures first { (block torrent.now.layout piece 0).begin ≡ 0 }
    ensures some { 0 < (block torrent.now.layout piece index).len }
    ensures next { index + 1 < block_count torrent.now.layout piece →
        (block torrent.now.layout piece index).begin + (block torrent.now.layout piece index).len
        ≡ (block torrent.now.layout piece (index + 1)).begin }
    ensures last { index + 1 ≡ block_count torrent.now.layout piece →
        (block torrent.now.layout piece index).begin + (block torrent.now.layout piece index).len
        ≡ piece_len torrent.now.layout piece }
{}
