//! Where in a journal the bytes of held blocks stand.

ghost use Rattle.std.specs.Prelude.{◌≡◌, ◌<◌, ◌≤◌, ◌+◌, ◌*◌, ◌/◌, ℕ, List, IfOk, IsTrue, length, slice_set};
ghost use Rattle.bt_meta.specs.Layout.{block_count, block_size, piece_count};
ghost use Rattle.bt_history.specs.declared.event.Action.TheVariants.{Arrived};
ghost use Rattle.bt_history.specs.Entries.{action_of};
ghost use Rattle.bt_history.specs.History.{stores};
ghost use Rattle.bt_picker.specs.Places.{PlacesState, fresh_places, place_noted, placed, slot};

use bt_history::{Call, Reply};
use bt_meta::{BLOCK_SIZE, Torrent};
use std::alloc::{AllocError, Global};
use std::marker::Model;

/// For each block the place in a journal of the entry that stored it last. Of a block that is held this is the entry with its bytes. The
/// blocks of all pieces stand in one list, as many for each piece as the first one has, which has the most.
pub struct Places {
    width: u32,
    places: Vec<u32>,
}

/// The end of all places is one call for whoever owns them.
impl Drop for Places {
    fn drop(self) {
        let Places {
            width: _,
            places: _places,
        } = self;
    }
}

impl Model for Places {
    ghost use Rattle.bt_picker.specs.Places.{PlacesState};

    ghost Value = { PlacesState };

    ghost view = { λ p. record { width = p.width; places = p.places.items } };
}

impl Places {
    /// Those of a journal in which no block was stored.
    pub fn new(alloc: Global, torrent: &Torrent) -> Result<Places, AllocError>
        ensures { IfOk result (λ places. places ≡ fresh_places torrent.now.layout) }
    {
        let pieces = torrent.piece_count();
        let width = torrent.block_count(0);
        let blocks = pieces as usize * width as usize;
        Ok(Places {
            width,
            places: vec![in alloc; 0; blocks]?,
        })
    }

    /// The place that was noted last of the block.
    pub fn of(&self, piece: u32, index: u32) -> u32
        requires { slot self.now.width piece index < length self.now.places }
        ensures { result ≡ place_noted self.now piece index }
    {
        self.places[piece as usize * self.width as usize + index as usize]
    }

    /// Notes the place of the entry of this call with its reply, if it stored a block.
    pub fn note(&mut self, call: &Call, reply: Reply, place: u32)
        requires { (piece begin : ℕ) (bytes : List ℕ) → action_of call.now ≡ Arrived piece begin bytes → IsTrue (stores reply) →
            slot self.old.width piece (begin / block_size) < length self.old.places }
        ensures { self.new ≡ placed self.old (action_of call.now) reply place }
    {
        if let Call::Arrived { piece, begin, .. } = call {
            if reply.is_stored() {
                self.put(*piece, begin / BLOCK_SIZE, place);
            }
        }
    }

    /// Notes the place of the block.
    fn put(&mut self, piece: u32, index: u32, place: u32)
        requires { slot self.old.width piece index < length self.old.places }
        ensures { self.new ≡ record self.old { places = slice_set self.old.places (slot self.old.width piece index) place } }
    {
        self.places[piece as usize * self.width as usize + index as usize] = place;
    }
}
