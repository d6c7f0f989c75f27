//! What goes over all pieces of a bitfield that comes or goes, or over all blocks of a line.

ghost use Rattle.std.specs.Prelude.{◌≡◌, ◌<◌, ◌+◌, ◌^◌, ◌==◌, ◌&&◌, [], false, if◌then◌else◌, not, true, length, slice_index_or, unwrap_or};
ghost use Rattle.std.specs.List.{filter};
ghost use Rattle.std.specs.Option.{option_copied};
ghost use Rattle.bt_history.specs.Peers.{has_place};
ghost use Rattle.bt_tables.specs.Floors.{AreFloors};
ghost use Rattle.bt_tables.specs.Tables.{AreCounted, edit, hidden_rows, less_available, lowered, lowered_by, more_available, peer_row, piece_row};
ghost use Rattle.bt_tables.specs.Tables.{level_row, levelled_by, recounted, shown_rows, wanted_level};

use crate::floors::Floors;
use crate::full::has_all;
use crate::line::Line;
use crate::peers::Peers;
use crate::piece::Change;
use crate::pieces::Pieces;
use bt_history::USUAL_LEVEL;
use bt_meta::{BLOCK_SIZE, Bitfield, Block};

/// The worker's peer shows the pieces of `after` in place of those that it showed, or none.
pub fn recount(pieces: &mut Pieces, peers: &Peers, worker: u32, after: Option<&Bitfield>)
    requires worker { worker < length peers.now }
    requires few { AreCounted (recounted pieces.old (peer_row peers.now worker).shows (unwrap_or (option_copied after) [])) }
    ensures { pieces.new ≡ recounted pieces.old (peer_row peers.now worker).shows (unwrap_or (option_copied after.entry) []) }
{
    hide_all(pieces, peers, worker);
    if let Some(flags) = after {
        show_all(pieces, flags);
    }
}

/// The worker's peer shows its pieces no more.
fn hide_all(pieces: &mut Pieces, peers: &Peers, worker: u32)
    requires { worker < length peers.now }
    ensures { pieces.new ≡ hidden_rows (peer_row peers.now worker).shows pieces.old }
{
    if pieces.len() <= peers.pieces() as usize && peers.shows_all(worker) && !pieces.is_crowded() {
        pieces.hide_each();
    } else {
        hide_shown(pieces, peers, worker);
    }
}

/// The same, piece by piece.
fn hide_shown(pieces: &mut Pieces, peers: &Peers, worker: u32)
    requires { worker < length peers.now }
    ensures { pieces.new ≡ hidden_rows (peer_row peers.now worker).shows pieces.old }
{
    let mut from = 0;
    while from < peers.pieces() {
        match peers.first_shown(worker, from) {
            Some(piece) => {
                hide(pieces, piece);
                from = piece + 1;
            }
            None => return,
        }
    }
}

/// A peer that showed nothing shows the pieces of the set.
fn show_all(pieces: &mut Pieces, flags: &Bitfield)
    requires { AreCounted (shown_rows flags.now pieces.old) }
    ensures { pieces.new ≡ shown_rows flags.now pieces.old }
{
    if pieces.len() <= flags.count() as usize && has_all(flags) {
        pieces.show_each();
    } else {
        show_shown(pieces, flags);
    }
}

/// The same, piece by piece.
fn show_shown(pieces: &mut Pieces, flags: &Bitfield)
    requires { AreCounted (shown_rows flags.now pieces.old) }
    ensures { pieces.new ≡ shown_rows flags.now pieces.old }
{
    let mut from = 0;
    while from < flags.count() {
        match flags.first_from(from) {
            Some(piece) => {
                show(pieces, piece);
                from = piece + 1;
            }
            None => return,
        }
    }
}

/// One peer less shows the piece, if there is such a piece.
#[inline(always)]
fn hide(pieces: &mut Pieces, piece: u32)
    ensures { pieces.new ≡ edit pieces.old piece (less_available true) }
{
    if (piece as usize) < pieces.len() {
        pieces.hide(piece);
    }
}

/// One peer more shows the piece, if there is such a piece.
#[inline(always)]
fn show(pieces: &mut Pieces, piece: u32)
    requires { piece < length pieces.old → (piece_row pieces.old piece).availability + 1 < 2 ^ 16 }
    ensures { pieces.new ≡ edit pieces.old piece (more_available true) }
{
    if (piece as usize) < pieces.len() {
        pieces.show(piece);
    }
}

/// Just the pieces with their flag set are wanted, all of them at the usual level.
pub fn rewant(pieces: &mut Pieces, flags: &Bitfield)
    ensures { pieces.new ≡ levelled_by (wanted_level flags.now) pieces.old }
{
    for piece in 0..pieces.len() as u32 {
        put_level(pieces, piece, wanted_level(flags, piece));
    }
}

/// Each piece has the level of its place in the list, and none that has no place there is wanted.
pub fn relevel(pieces: &mut Pieces, levels: &[u8])
    ensures { pieces.new ≡ levelled_by (λ p. slice_index_or levels.now p 0) pieces.old }
{
    for piece in 0..pieces.len() as u32 {
        put_level(pieces, piece, level_in(levels, piece));
    }
}

/// The piece has this level from now on. Most pieces have the told one before: then no group is looked up.
#[inline(always)]
pub fn put_level(pieces: &mut Pieces, piece: u32, level: u8)
    requires { piece < length pieces.old }
    ensures { pieces.new ≡ edit pieces.old piece (level_row level) }
{
    if pieces.row(piece).level() != level {
        pieces.apply(piece, Change::Level(level));
    }
}

/// The level of a piece that is wanted just where its flag is set.
fn wanted_level(flags: &Bitfield, piece: u32) -> u8
    ensures { result ≡ wanted_level flags.now piece }
{
    if has(flags, piece) { USUAL_LEVEL } else { 0 }
}

/// The level of its place in the list, or 0.
fn level_in(levels: &[u8], piece: u32) -> u8
    ensures { result ≡ slice_index_or levels.now piece 0 }
{
    let place = piece as usize;
    if place < levels.len() {
        levels[place]
    } else {
        0
    }
}

/// Whether there is such a piece and it is in the set.
fn has(flags: &Bitfield, piece: u32) -> bool
    ensures { result ≡ slice_index_or flags.now piece false }
{
    piece < flags.count() && flags.has(piece)
}

/// Frees the blocks of the line that the peer isn't late with: one peer less is asked for each.
pub fn lower_all(pieces: &mut Pieces, floors: &mut Floors, peers: &Peers, line: &Line)
    requires { AreFloors floors.old peers.now pieces.old }
    ensures pieces { pieces.new ≡ lowered_by (filter (λ b. not (has_place b line.now.overdue)) line.now.asked) pieces.old }
    ensures floors { AreFloors floors.new peers.now pieces.new }
{
    for (index, block) in line.blocks().iter().enumerate() {
        lower_unless(pieces, floors, peers, *block, line.is_late_at(index));
    }
}

/// One peer less is asked for the block, unless that is late with it.
fn lower_unless(pieces: &mut Pieces, floors: &mut Floors, peers: &Peers, block: Block, late: bool)
    requires { AreFloors floors.old peers.now pieces.old }
    ensures pieces { pieces.new ≡ (if not late then lowered block pieces.old else pieces.old) }
    ensures floors { AreFloors floors.new peers.now pieces.new }
{
    if !late {
        lower(pieces, floors, peers, block);
    }
}

/// One peer less is asked for the block, whose piece may be unbegun again.
pub fn lower(pieces: &mut Pieces, floors: &mut Floors, peers: &Peers, block: Block)
    requires { AreFloors floors.old peers.now pieces.old }
    ensures pieces { pieces.new ≡ lowered block pieces.old }
    ensures floors { AreFloors floors.new peers.now pieces.new }
{
    if (block.piece as usize) < pieces.len() {
        pieces.apply(block.piece, Change::Lower(block.begin / BLOCK_SIZE));
        floors.admit(peers, pieces, block.piece);
    }
}

/// Frees those blocks of the line that are of the piece and that the peer isn't late with. No floor is told of it.
pub fn lower_piece(pieces: &mut Pieces, line: &Line, piece: u32)
    ensures { pieces.new ≡ lowered_by (filter (λ b. (piece == b.piece) && not (has_place b line.now.overdue)) line.now.asked) pieces.old }
{
    for (index, block) in line.blocks().iter().enumerate() {
        lower_if(pieces, *block, line.is_prompt_of(index, piece));
    }
}

/// One peer less is asked for the block, if it is one of those.
fn lower_if(pieces: &mut Pieces, block: Block, is_one: bool)
    ensures { pieces.new ≡ (if is_one then lowered block pieces.old else pieces.old) }
{
    if is_one && (block.piece as usize) < pieces.len() {
        pieces.apply(block.piece, Change::Lower(block.begin / BLOCK_SIZE));
    }
}
