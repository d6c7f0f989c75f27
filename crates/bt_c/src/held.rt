//! The picker that stands behind a handle.

ghost use Rattle.std.specs.Prelude.{◌≡◌, ◌≤◌};
ghost use Rattle.bt_history.specs.Setting.{AreRules};
ghost use Rattle.bt_c.specs.Engines.{state_of};
ghost use Rattle.bt_c.specs.Rules.{rules_of_setting};

use crate::engine::Engine;
use bt_meta::{ListedFile, Torrent};
use std::sync::Arc;

/// A picker behind a handle, its torrent, and the torrent's files, if a metainfo file lists them. Its calls test what the picker's own
/// calls require of their callers.
#[derive(Drop)]
pub struct Held {
    pub engine: Engine,
    pub torrent: Arc<Torrent>,
    pub files: Vec<ListedFile>,
    ghost are_rules: { AreRules (state_of engine).setting.torrent (rules_of_setting (state_of engine).setting) },
    ghost own_torrent: { torrent.value.layout ≡ (state_of engine).setting.torrent },
    ghost has_worker: { 1 ≤ (state_of engine).setting.workers },
}
