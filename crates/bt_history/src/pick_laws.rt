//! What holds of the pick, the one reply that is given of those that the rules allow: laws of the definitions alone, as in `laws`.
ghost use Rattle.std.specs.Prelude.{◌≡◌, ◌<◌};
ghost use Rattle.bt_history.specs.Setting.{setting_of};
ghost use Rattle.bt_history.specs.Entries.{event_of, history_of};
ghost use Rattle.bt_history.specs.Legal.{IsAllowed, IsLegal};
ghost use Rattle.bt_history.specs.Picks.{ArePicked, calls_of, IsPicked};

use crate::call::Entry;
use crate::rules::Rules;
use bt_meta::Torrent;

/// The pick is one of the replies that the rules allow.
pub fn picks_are_allowed(
    torrent: &Torrent,
    workers: u32,
    rules: Rules,
    older: &[Entry],
    entry: &Entry,
)
    requires worker { entry.now.worker < workers }
    requires picked { IsPicked (setting_of torrent.now.layout workers rules) (history_of older.now) (event_of entry.now) }
    ensures { IsAllowed (setting_of torrent.now.layout workers rules) (history_of older.now) (event_of entry.now) }
{}

/// After one history a call of a worker has one pick: a block of a torrent has one turn, and no other block has the same.
pub fn one_pick(
    torrent: &Torrent,
    workers: u32,
    rules: Rules,
    older: &[Entry],
    one: &Entry,
    other: &Entry,
)
    requires worker { one.now.worker ≡ other.now.worker }
    requires call { (event_of one.now).action ≡ (event_of other.now).action }
    requires picked { IsPicked (setting_of torrent.now.layout workers rules) (history_of older.now) (event_of one.now) }
    requires too { IsPicked (setting_of torrent.now.layout workers rules) (history_of older.now) (event_of other.now) }
    ensures { one.now.reply ≡ other.now.reply }
{}

/// Two journals whose replies are all picks are the same where their calls are: a replay gives the same replies, one by one.
pub fn replays_are_exact(
    torrent: &Torrent,
    workers: u32,
    rules: Rules,
    one: &[Entry],
    other: &[Entry],
)
    requires picked { ArePicked (setting_of torrent.now.layout workers rules) (history_of one.now) }
    requires too { ArePicked (setting_of torrent.now.layout workers rules) (history_of other.now) }
    requires calls { calls_of (history_of one.now) ≡ calls_of (history_of other.now) }
    ensures { history_of one.now ≡ history_of other.now }
{}

/// A journal whose replies are all picks is legal.
pub fn picked_is_legal(torrent: &Torrent, workers: u32, rules: Rules, journal: &[Entry])
    requires { ArePicked (setting_of torrent.now.layout workers rules) (history_of journal.now) }
    ensures { IsLegal (setting_of torrent.now.layout workers rules) (history_of journal.now) }
{}
