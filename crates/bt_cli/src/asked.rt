//! What the words of a command line that runs sessions say.

ghost use Rattle.std.specs.Prelude.{◌≡◌, ◌≤◌, ◌<◌, ◌⊎◌, false, length, option_map, IfErr, IfOk, OnOk};
ghost use Rattle.bt_cli.specs.Asks.{IsWanted};

use crate::failure::Failure;
use crate::options::Options;
use crate::wrong::Wrong;
use bt_peer::MOST_STREAMS;
use bt_picker::{MOST_TOLD_DEPTH, MOST_WORKERS, Rules};
use bt_session::MOST_CHECKERS;
use bt_text::{MOST_DEPTH, read_hex};
use std::alloc::Global;

/// What the words of a command line that runs sessions say: `clap` has found each of these values, by the option of its name.
#[derive(Clone, Copy)]
pub struct Asked<'w> {
    pub meta: &'w str,
    pub out: Option<&'w str>,
    pub seed: u64,
    pub journal: bool,
    pub want: Option<&'w str>,
    pub depth: u32,
    pub random: u32,
    pub checkers: u32,
}

/// Options, or what is wrong with a command line.
pub type Judged<T> = Result<T, Wrong>;

impl<'w> Asked<'w> {
    /// What a run is asked for, each value that of the option of its name.
    pub fn options(&self, alloc: Global) -> Result<Judged<Options>, Failure<'w>>
        ensures seed { IfOk result (λ judged. IfOk judged (λ options. options.seed ≡ self.now.seed)) }
        ensures journal { IfOk result (λ judged. IfOk judged (λ options. options.journal ≡ self.now.journal)) }
        ensures want { IfOk result (λ judged. IfOk judged (λ options.
            IsWanted (option_map (λ text. text.now) self.now.want) (option_map (λ bytes. bytes.items) options.want))) }
        ensures depth { IfOk result (λ judged. IfOk judged (λ options. options.rules.depth ≡ self.now.depth)) }
        ensures random { IfOk result (λ judged. IfOk judged (λ options. options.rules.random ≡ self.now.random)) }
        ensures askers { IfOk result (λ judged. IfOk judged (λ options. options.rules.askers ≡ MOST_WORKERS)) }
        ensures deepest { IfOk result (λ judged. IfOk judged (λ options. options.rules.deepest ≡ MOST_DEPTH)) }
        ensures strict { IfOk result (λ judged. IfOk judged (λ options. options.rules.«open» ≡ 0)) }
        ensures rush { IfOk result (λ judged. IfOk judged (λ options. options.rules.rush ≡ MOST_TOLD_DEPTH)) }
        ensures shown { IfOk result (λ judged. IfOk judged (λ options. options.rules.shown ≡ false)) }
        ensures checkers { IfOk result (λ judged. IfOk judged (λ options. options.checkers ≡ self.now.checkers)) }
    {
        let want = match self.want {
            Some(text) => match read_hex(alloc, text.as_bytes())? {
                Some(bytes) => Some(bytes),
                None => return Ok(Err(Wrong::Want)),
            },
            None => None,
        };
        Ok(Ok(Options {
            seed: self.seed,
            journal: self.journal,
            want,
            rules: Rules {
                depth: self.depth,
                random: self.random,
                askers: MOST_WORKERS,
                deepest: MOST_DEPTH,
                open: 0,
                rush: MOST_TOLD_DEPTH,
                shown: false,
            },
            checkers: self.checkers,
        }))
    }

    /// Whether a run of these streams takes these numbers; `clap` refuses others, but nothing proves that of what it found.
    pub fn fit(&self, streams: &[&str]) -> Judged<()>
        ensures depth { OnOk result ((1 ≤ self.now.depth) × (self.now.depth ≤ MOST_DEPTH)) }
        ensures checkers { OnOk result ((1 ≤ self.now.checkers) × (self.now.checkers ≤ MOST_CHECKERS)) }
        ensures streams { OnOk result ((1 ≤ length streams.now) × (length streams.now ≤ MOST_STREAMS)) }
        ensures bad_depth { result ≡ Err Wrong.Depth → (self.now.depth < 1) ⊎ (MOST_DEPTH < self.now.depth) }
        ensures bad_checkers { result ≡ Err Wrong.Checkers → (self.now.checkers < 1) ⊎ (MOST_CHECKERS < self.now.checkers) }
        ensures bad_streams { IfErr result (λ wrong. (wrong ≡ Wrong.Depth) ⊎ (wrong ≡ Wrong.Checkers) ⊎ ((wrong ≡ Wrong.Streams)
            × ((length streams.now < 1) ⊎ (MOST_STREAMS < length streams.now)))) }
    {
        if self.depth < 1 || self.depth > MOST_DEPTH {
            return Err(Wrong::Depth);
        }
        if self.checkers < 1 || self.checkers > MOST_CHECKERS {
            return Err(Wrong::Checkers);
        }
        if streams.is_empty() || streams.len() > MOST_STREAMS {
            return Err(Wrong::Streams);
        }
        Ok(())
    }
}
