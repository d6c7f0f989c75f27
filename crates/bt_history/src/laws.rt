//! What holds after every legal history, whoever made it: laws of the definitions alone. Each is a function with an empty body
//! whose contract is the law; a journal that a desk keeps, or that `audit` accepts, meets what they require.
ghost use Rattle.std.specs.Prelude.{ℕ, if◌then◌else◌, is_some, ◌≡◌, ◌↔◌, ◌≢◌, ◌≤◌, ◌<◌, ◌+◌, ◌∷◌, ◌++◌, ◌==◌, ◌&&◌, ◌||◌, not, IsTrue, false, true};
ghost use Rattle.std.specs.List.{filter};
ghost use Rattle.sha1.specs.Sha1.{sha1};
ghost use Rattle.bt_meta.specs.declared.block.Block.{Block};
ghost use Rattle.bt_meta.specs.Layout.{hash_of};
ghost use Rattle.bt_history.specs.declared.call.Reply.{Reply};
ghost use Rattle.bt_history.specs.declared.rules.TheConstants.{MOST_LEVEL};
ghost use Rattle.bt_history.specs.Setting.{deepest_line, is_block, setting_of};
ghost use Rattle.bt_history.specs.Entries.{action_of, counting, delaying, discarding, event_of, giving_up, history_of, lacking, losing};
ghost use Rattle.bt_history.specs.Losses.{LeavesPeers};
ghost use Rattle.bt_history.specs.Flights.{CountsOne};
ghost use Rattle.bt_history.specs.Before.{had_before, kept_before, never_loses, requested_before, sender_before, tells_flight};
ghost use Rattle.bt_history.specs.Before.{asked_before, chosen_before, doubles_before, late_before, next_before, outstanding_before, shows_before};
ghost use Rattle.bt_history.specs.Before.{never_adds, never_deepens, never_levels, never_releases, next_strict, next_unrushed, endgame_of_all};
ghost use Rattle.bt_history.specs.Before.{doubles_unreached, in_order_before, never_reaches, never_windows, next_unwindowed, usable_unreached};
ghost use Rattle.bt_history.specs.Before.{any_asker_count, asked_alone_undelayed, asked_of_any, is_candidate_undelayed, never_delays};
ghost use Rattle.bt_history.specs.Before.{never_alone, resumes_undelayed, resumes_unowned, usable_undelayed, usable_unowned};
ghost use Rattle.bt_history.specs.History.{requested_by, same_begin};
ghost use Rattle.bt_history.specs.Epochs.{asked_alone, epoch, is_idle, pass_by};
ghost use Rattle.bt_history.specs.Next.{Exactly, doubles, is_candidate, is_strict, next_answer, resumes, usable};
ghost use Rattle.bt_history.specs.Peers.{asked, asked_count, depth_of, depth_so_far, due, due_count, late, ListsAsked, outstanding, shows};
ghost use Rattle.bt_history.specs.Peers.{alone, dues, expected, is_open, joined, overdue, reach, told_depth};
ghost use Rattle.bt_history.specs.Pieces.{asker_count, held, full, content, had, endgame, unasked, awaited, wanted, was_endgame, sender, chosen};
ghost use Rattle.bt_history.specs.Pieces.{is_free_for, is_own, is_sole};
ghost use Rattle.bt_history.specs.Pieces.{asked_of_some, availability, begun, comes_in_order, kept, level, open_count, order_from, unbegun};
ghost use Rattle.bt_history.specs.Legal.{IsLegal, place_at};
ghost use Rattle.bt_history.specs.PickRules.{IsBy, rule_of};
ghost use Rattle.bt_history.specs.Plain.{IsLegalBefore};
ghost use Rattle.bt_history.specs.Assured.{Assures};

use crate::call::{Call, Entry, Reply};
use crate::event::Event;
use crate::rules::Rules;
use bt_meta::{Block, Torrent};

/// Nobody is asked for a block that is held.
pub fn held_is_asked_of_nobody(
    torrent: &Torrent,
    workers: u32,
    rules: Rules,
    journal: &[Entry],
    block: Block,
    worker: u32,
)
    requires legal { IsLegal (setting_of torrent.now.layout workers rules) (history_of journal.now) }
    requires held { IsTrue (held (history_of journal.now) block) }
    ensures { asked (history_of journal.now) worker block ≡ false }
{}

/// Asked blocks and due cancels of a peer, counted together, are never more than the greatest depth since it joined or choked us.
pub fn asked_and_due_are_few(
    torrent: &Torrent,
    workers: u32,
    rules: Rules,
    journal: &[Entry],
    worker: u32,
)
    requires { IsLegal (setting_of torrent.now.layout workers rules) (history_of journal.now) }
    ensures { asked_count (setting_of torrent.now.layout workers rules) (history_of journal.now) worker
        + due_count (setting_of torrent.now.layout workers rules) (history_of journal.now) worker
        ≤ depth_so_far (setting_of torrent.now.layout workers rules) (history_of journal.now) worker }
{}

/// The blocks outstanding at a peer are exactly those asked of it, each listed once.
pub fn outstanding_are_the_asked(
    torrent: &Torrent,
    workers: u32,
    rules: Rules,
    journal: &[Entry],
    worker: u32,
)
    requires { IsLegal (setting_of torrent.now.layout workers rules) (history_of journal.now) }
    ensures { ListsAsked (setting_of torrent.now.layout workers rules) (history_of journal.now) worker }
{}

/// A piece that is had is full, and its joined bytes have the hash that the metainfo gives.
pub fn had_is_full_and_hashed(
    torrent: &Torrent,
    workers: u32,
    rules: Rules,
    journal: &[Entry],
    piece: u32,
)
    requires legal { IsLegal (setting_of torrent.now.layout workers rules) (history_of journal.now) }
    requires had { IsTrue (had (history_of journal.now) piece) }
    ensures full { IsTrue (full (setting_of torrent.now.layout workers rules) (history_of journal.now) piece) }
    ensures hash { sha1 (content (setting_of torrent.now.layout workers rules) (history_of journal.now) piece)
        ≡ hash_of torrent.now.layout piece }
{}

/// A block that is asked of two peers, neither of which is late with it, tells that there was an endgame before.
pub fn doubles_come_of_endgame(
    torrent: &Torrent,
    workers: u32,
    rules: Rules,
    journal: &[Entry],
    block: Block,
    worker: u32,
    other: u32,
)
    requires legal { IsLegal (setting_of torrent.now.layout workers rules) (history_of journal.now) }
    requires apart { worker ≢ other }
    requires expected { IsTrue (expected (history_of journal.now) worker block) }
    requires too { IsTrue (expected (history_of journal.now) other block) }
    ensures { IsTrue (was_endgame (setting_of torrent.now.layout workers rules) (history_of journal.now)) }
{}

/// No block is asked of a second peer while an awaited one is unasked, unless each peer that is asked for it is late with it. A request of a
/// block that another peer is asked for and isn't late with comes in endgame alone, where each awaited block is held or asked of somebody. Each
/// wanted block is awaited, or by the rules each that a joined peer shows.
pub fn second_peers_wait_for_endgame(
    torrent: &Torrent,
    workers: u32,
    rules: Rules,
    older: &[Entry],
    entry: &Entry,
    block: Block,
    other: u32,
)
    requires legal { IsLegal (setting_of torrent.now.layout workers rules) (event_of entry.now ∷ history_of older.now) }
    requires request { entry.now.reply ≡ Reply.Request block }
    requires expected { IsTrue (expected (history_of older.now) other block) }
    ensures endgame { IsTrue (endgame (setting_of torrent.now.layout workers rules) (history_of older.now)) }
    ensures none { (lacking : Block) → IsTrue (is_block torrent.now.layout lacking)
        → IsTrue (awaited (setting_of torrent.now.layout workers rules) (history_of older.now) lacking.piece)
        → unasked (setting_of torrent.now.layout workers rules) (history_of older.now) lacking ≡ false }
{}

/// A block that another peer is asked for and isn't late with is requested only of a peer that is asked for fewer blocks than the rules say.
pub fn second_peers_have_few(
    torrent: &Torrent,
    workers: u32,
    rules: Rules,
    older: &[Entry],
    entry: &Entry,
    block: Block,
    other: u32,
)
    requires legal { IsLegal (setting_of torrent.now.layout workers rules) (event_of entry.now ∷ history_of older.now) }
    requires request { entry.now.reply ≡ Reply.Request block }
    requires expected { IsTrue (expected (history_of older.now) other block) }
    ensures { asked_count (setting_of torrent.now.layout workers rules) (history_of older.now) entry.now.worker < rules.rush }
{}

/// Where that number is no less than any depth, it is no bound: the answer to Next is what it was before there was one.
pub fn no_rush_is_as_before(
    torrent: &Torrent,
    workers: u32,
    rules: Rules,
    journal: &[Entry],
    worker: u32,
)
    requires legal { IsLegal (setting_of torrent.now.layout workers rules) (history_of journal.now) }
    requires none { deepest_line (setting_of torrent.now.layout workers rules) ≤ rules.rush }
    ensures { next_answer (setting_of torrent.now.layout workers rules) (history_of journal.now) worker
        ≡ next_unrushed (setting_of torrent.now.layout workers rules) (history_of journal.now) worker }
{}

/// Endgame waits for all that is wanted, as it did, where the rules don't have it otherwise, and where a joined peer shows each wanted piece
/// that isn't complete.
pub fn shown_endgame_is_as_before(torrent: &Torrent, workers: u32, rules: Rules, journal: &[Entry])
    requires legal { IsLegal (setting_of torrent.now.layout workers rules) (history_of journal.now) }
    requires shown { IsTrue rules.shown → (piece : ℕ)
        → IsTrue (wanted (setting_of torrent.now.layout workers rules) (history_of journal.now) piece)
        → had (history_of journal.now) piece ≡ false
        → 0 < availability (setting_of torrent.now.layout workers rules) (history_of journal.now) piece }
    ensures { endgame (setting_of torrent.now.layout workers rules) (history_of journal.now)
        ≡ endgame_of_all (setting_of torrent.now.layout workers rules) (history_of journal.now) }
{}

/// A block is asked of no more peers than the rules say, those aside that are late with it.
pub fn askers_are_few(
    torrent: &Torrent,
    workers: u32,
    rules: Rules,
    journal: &[Entry],
    block: Block,
)
    requires legal { IsLegal (setting_of torrent.now.layout workers rules) (history_of journal.now) }
    requires some { 1 ≤ rules.askers }
    ensures { asker_count (setting_of torrent.now.layout workers rules) (history_of journal.now) block ≤ rules.askers }
{}

/// A bound on askers that is no less than the workers is none: endgame asks what it asked before there was a bound.
pub fn wide_is_as_before(
    torrent: &Torrent,
    workers: u32,
    rules: Rules,
    journal: &[Entry],
    worker: u32,
    block: Block,
)
    requires worker { worker < workers }
    requires wide { workers ≤ rules.askers }
    ensures { doubles (setting_of torrent.now.layout workers rules) (history_of journal.now) worker block
        ≡ doubles_before (setting_of torrent.now.layout workers rules) (history_of journal.now) worker block }
{}

/// A block that is released is asked of this peer no more, and all else is as it was: what is asked and in which order, which cancels are
/// due, the bytes that are held and who sent them, each peer with its depth and its reach, who works alone, which pieces are complete, their
/// levels and their order.
pub fn release_frees_one(
    journal: &[Entry],
    worker: u32,
    piece: u32,
    begin: u32,
    other: u32,
    block: Block,
)
    ensures asked { asked (giving_up worker piece begin Reply.Quiet ∷ history_of journal.now) other block
        ≡ (not ((worker == other) && same_begin (place_at piece begin) block) && asked (history_of journal.now) other block) }
    ensures due { due (giving_up worker piece begin Reply.Quiet ∷ history_of journal.now) other block
        ≡ due (history_of journal.now) other block }
    ensures held { held (giving_up worker piece begin Reply.Quiet ∷ history_of journal.now) block ≡ held (history_of journal.now) block }
    ensures line { outstanding (giving_up worker piece begin Reply.Quiet ∷ history_of journal.now) other
        ≡ filter (λ b. not ((worker == other) && same_begin (place_at piece begin) b)) (outstanding (history_of journal.now) other) }
    ensures cancels { dues (giving_up worker piece begin Reply.Quiet ∷ history_of journal.now) other ≡ dues (history_of journal.now) other }
    ensures bytes { kept (giving_up worker piece begin Reply.Quiet ∷ history_of journal.now) block ≡ kept (history_of journal.now) block }
    ensures sender { sender (giving_up worker piece begin Reply.Quiet ∷ history_of journal.now) block ≡ sender (history_of journal.now) block }
    ensures depth { told_depth (giving_up worker piece begin Reply.Quiet ∷ history_of journal.now) other ≡ told_depth (history_of journal.now) other }
    ensures shows { shows (giving_up worker piece begin Reply.Quiet ∷ history_of journal.now) other block.piece
        ≡ shows (history_of journal.now) other block.piece }
    ensures joined { joined (giving_up worker piece begin Reply.Quiet ∷ history_of journal.now) other ≡ joined (history_of journal.now) other }
    ensures opened { is_open (giving_up worker piece begin Reply.Quiet ∷ history_of journal.now) other ≡ is_open (history_of journal.now) other }
    ensures late { late (giving_up worker piece begin Reply.Quiet ∷ history_of journal.now) other ≡ late (history_of journal.now) other }
    ensures had { had (giving_up worker piece begin Reply.Quiet ∷ history_of journal.now) block.piece ≡ had (history_of journal.now) block.piece }
    ensures level { level (giving_up worker piece begin Reply.Quiet ∷ history_of journal.now) block.piece ≡ level (history_of journal.now) block.piece }
    ensures reach { reach (giving_up worker piece begin Reply.Quiet ∷ history_of journal.now) other ≡ reach (history_of journal.now) other }
    ensures order { order_from (giving_up worker piece begin Reply.Quiet ∷ history_of journal.now) ≡ order_from (history_of journal.now) }
    ensures alone { alone (giving_up worker piece begin Reply.Quiet ∷ history_of journal.now) other ≡ alone (history_of journal.now) other }
{}

/// A peer that has a piece no more shows it no more, is asked for none of its blocks, and has told something. All else is as it was: what else is
/// shown, what else is asked and in which order, which cancels are due, the bytes that are held and who sent them, each peer with its depth and
/// its reach, who works alone, which pieces are complete, their levels and their order.
pub fn lack_takes_one(
    journal: &[Entry],
    worker: u32,
    piece: u32,
    interests: bool,
    other: u32,
    block: Block,
)
    ensures shows { shows (lacking worker piece (Reply.Noted interests) ∷ history_of journal.now) other block.piece
        ≡ (not ((worker == other) && (piece == block.piece)) && shows (history_of journal.now) other block.piece) }
    ensures asked { asked (lacking worker piece (Reply.Noted interests) ∷ history_of journal.now) other block
        ≡ (not ((worker == other) && (piece == block.piece)) && asked (history_of journal.now) other block) }
    ensures due { due (lacking worker piece (Reply.Noted interests) ∷ history_of journal.now) other block
        ≡ due (history_of journal.now) other block }
    ensures held { held (lacking worker piece (Reply.Noted interests) ∷ history_of journal.now) block ≡ held (history_of journal.now) block }
    ensures line { outstanding (lacking worker piece (Reply.Noted interests) ∷ history_of journal.now) other
        ≡ filter (λ b. not ((worker == other) && (piece == b.piece))) (outstanding (history_of journal.now) other) }
    ensures cancels { dues (lacking worker piece (Reply.Noted interests) ∷ history_of journal.now) other ≡ dues (history_of journal.now) other }
    ensures bytes { kept (lacking worker piece (Reply.Noted interests) ∷ history_of journal.now) block ≡ kept (history_of journal.now) block }
    ensures sender { sender (lacking worker piece (Reply.Noted interests) ∷ history_of journal.now) block ≡ sender (history_of journal.now) block }
    ensures late { late (lacking worker piece (Reply.Noted interests) ∷ history_of journal.now) other ≡ ((worker == other) || late (history_of journal.now) other) }
    ensures depth { told_depth (lacking worker piece (Reply.Noted interests) ∷ history_of journal.now) other ≡ told_depth (history_of journal.now) other }
    ensures joined { joined (lacking worker piece (Reply.Noted interests) ∷ history_of journal.now) other ≡ joined (history_of journal.now) other }
    ensures opened { is_open (lacking worker piece (Reply.Noted interests) ∷ history_of journal.now) other ≡ is_open (history_of journal.now) other }
    ensures reach { reach (lacking worker piece (Reply.Noted interests) ∷ history_of journal.now) other ≡ reach (history_of journal.now) other }
    ensures had { had (lacking worker piece (Reply.Noted interests) ∷ history_of journal.now) block.piece
        ≡ had (history_of journal.now) block.piece }
    ensures level { level (lacking worker piece (Reply.Noted interests) ∷ history_of journal.now) block.piece ≡ level (history_of journal.now) block.piece }
    ensures order { order_from (lacking worker piece (Reply.Noted interests) ∷ history_of journal.now) ≡ order_from (history_of journal.now) }
    ensures alone { alone (lacking worker piece (Reply.Noted interests) ∷ history_of journal.now) other ≡ alone (history_of journal.now) other }
{}

/// A piece that is lost is had no more, and none of its blocks is held. All other pieces and blocks are as they were, with their bytes and who sent
/// them. So is all that is known of the peers, with what is asked of them, and the levels and the order.
pub fn lose_takes_one(older: &[Event], worker: u32, piece: u32, other: u32, block: Block)
    ensures had { had (losing worker piece ∷ older.now) block.piece ≡ (not (piece == block.piece) && had older.now block.piece) }
    ensures bytes { kept (losing worker piece ∷ older.now) block ≡ (if piece == block.piece then None else kept older.now block) }
    ensures sender { sender (losing worker piece ∷ older.now) block ≡ (if piece == block.piece then None else sender older.now block) }
    ensures peers { LeavesPeers (losing worker piece) older.now other block }
{}

/// A block that is discarded is held no more. All other blocks are as they were, with their bytes and who sent them, and so are the pieces that
/// are had. So is all that is known of the peers, with what is asked of them, and the levels and the order.
pub fn discard_frees_one(
    older: &[Event],
    worker: u32,
    piece: u32,
    begin: u32,
    other: u32,
    block: Block,
)
    ensures had { had (discarding worker piece begin ∷ older.now) block.piece ≡ had older.now block.piece }
    ensures bytes { kept (discarding worker piece begin ∷ older.now) block
        ≡ (if same_begin (place_at piece begin) block then None else kept older.now block) }
    ensures sender { sender (discarding worker piece begin ∷ older.now) block
        ≡ (if same_begin (place_at piece begin) block then None else sender older.now block) }
    ensures peers { LeavesPeers (discarding worker piece begin) older.now other block }
{}

/// A request in flight that counts is one more block asked of its peer, the last of the peer's line. All else is as it was: what is late and to
/// be cancelled, what is held and complete, and all that was told of peers, levels and the order.
pub fn in_flight_asks_one(older: &[Event], worker: u32, requested: Block, other: u32, block: Block)
    ensures { CountsOne (counting worker requested) requested older.now other block }
{}

/// Where the newest call tells of no request in flight, its reply asks for what it asked for before there was such a call: a request alone does.
pub fn unrequested_is_as_before(
    torrent: &Torrent,
    workers: u32,
    rules: Rules,
    older: &[Event],
    newest: &Event,
)
    requires legal { IsLegal (setting_of torrent.now.layout workers rules) (newest.now ∷ older.now) }
    requires untold { tells_flight newest.now.action ≡ false }
    ensures { requested_by newest.now.reply ≡ requested_before newest.now.reply }
{}

/// No call of a journal tells of one.
pub fn journals_tell_no_flight(call: &Call)
    ensures { tells_flight (action_of call.now) ≡ false }
{}

/// Where no piece was lost and no block discarded, what is had and held, and who sent it, is what it was before there were such calls.
pub fn never_lost_is_as_before(older: &[Event], block: Block)
    requires { IsTrue (never_loses older.now) }
    ensures had { had older.now block.piece ≡ had_before older.now block.piece }
    ensures bytes { kept older.now block ≡ kept_before older.now block }
    ensures sender { sender older.now block ≡ sender_before older.now block }
{}

/// That is so of each journal: no entry of one loses a piece or discards a block.
pub fn journals_lose_nothing(journal: &[Entry])
    ensures { never_loses (history_of journal.now) ≡ true }
{}

/// Where no block was released, what is asked is what it was before there was a release, and so are the lines of all peers.
pub fn unreleased_is_as_before(journal: &[Entry], worker: u32, block: Block)
    requires { IsTrue (never_releases (history_of journal.now)) }
    ensures asked { asked (history_of journal.now) worker block ≡ asked_before (history_of journal.now) worker block }
    ensures line { outstanding (history_of journal.now) worker ≡ outstanding_before (history_of journal.now) worker }
{}

/// Where no depth was told, that of the rules holds, and no other ever held.
pub fn undeepened_is_as_before(
    torrent: &Torrent,
    workers: u32,
    rules: Rules,
    journal: &[Entry],
    worker: u32,
)
    requires { IsTrue (never_deepens (history_of journal.now)) }
    ensures depth { depth_of (setting_of torrent.now.layout workers rules) (history_of journal.now) worker ≡ rules.depth }
    ensures so_far { depth_so_far (setting_of torrent.now.layout workers rules) (history_of journal.now) worker ≡ rules.depth }
{}

/// No depth is beyond both that of the rules and the deepest that they let be told.
pub fn depths_are_bounded(
    torrent: &Torrent,
    workers: u32,
    rules: Rules,
    journal: &[Entry],
    worker: u32,
)
    requires { IsLegal (setting_of torrent.now.layout workers rules) (history_of journal.now) }
    ensures { depth_so_far (setting_of torrent.now.layout workers rules) (history_of journal.now) worker
        ≤ deepest_line (setting_of torrent.now.layout workers rules) }
{}

/// Where no entry added to what a peer shows, each peer shows what it showed before that could be, and a bitfield comes too late when it did.
pub fn unadded_is_as_before(journal: &[Entry], worker: u32, piece: u32)
    requires { IsTrue (never_adds (history_of journal.now)) }
    ensures shows { shows (history_of journal.now) worker piece ≡ shows_before (history_of journal.now) worker piece }
    ensures late { late (history_of journal.now) worker ≡ late_before (history_of journal.now) worker }
{}

/// A peer that has nothing to be asked for has the same answer while the epoch doesn't rise, and its own worker tells nothing of it.
pub fn idle_until_the_epoch_rises(
    torrent: &Torrent,
    workers: u32,
    rules: Rules,
    older: &[Entry],
    newer: &[Entry],
    worker: u32,
    answer: Reply,
)
    requires legal { IsLegal (setting_of torrent.now.layout workers rules) (history_of newer.now ++ history_of older.now) }
    requires worker { worker < workers }
    requires idle { IsTrue (is_idle answer) }
    requires answered { next_answer (setting_of torrent.now.layout workers rules) (history_of older.now) worker ≡ Exactly answer }
    requires others { IsTrue (pass_by worker (history_of newer.now)) }
    requires same { epoch (setting_of torrent.now.layout workers rules) (history_of newer.now ++ history_of older.now)
        ≡ epoch (setting_of torrent.now.layout workers rules) (history_of older.now) }
    ensures { next_answer (setting_of torrent.now.layout workers rules) (history_of newer.now ++ history_of older.now) worker ≡ Exactly answer }
{}

/// Each held block has a worker whose peer brought it, and no other block has.
pub fn held_has_a_sender(journal: &[Entry], block: Block)
    ensures { is_some (sender (history_of journal.now) block) ≡ held (history_of journal.now) block }
{}

/// The level of a piece is never above the highest.
pub fn levels_are_few(torrent: &Torrent, workers: u32, rules: Rules, journal: &[Entry], piece: u32)
    requires { IsLegal (setting_of torrent.now.layout workers rules) (history_of journal.now) }
    ensures { level (history_of journal.now) piece ≤ MOST_LEVEL }
{}

/// No block is asked of a peer while an unasked one of a higher level could be, whether its piece is begun or not. So a level that is raised
/// waits for no begun piece of a lower one. In endgame no block is unasked, and all levels are alike.
pub fn higher_levels_first(
    torrent: &Torrent,
    workers: u32,
    rules: Rules,
    older: &[Entry],
    entry: &Entry,
    block: Block,
)
    requires legal { IsLegal (setting_of torrent.now.layout workers rules) (event_of entry.now ∷ history_of older.now) }
    requires request { entry.now.reply ≡ Reply.Request block }
    ensures { (other : Block) → IsTrue (is_block torrent.now.layout other)
        → IsTrue (usable (setting_of torrent.now.layout workers rules) (history_of older.now) entry.now.worker other)
        → level (history_of older.now) other.piece ≤ level (history_of older.now) block.piece }
{}

/// On a level whose pieces come in order, no block is asked of a peer while an unasked one of an earlier piece of that level could be, whether
/// that piece is begun or not.
pub fn rising_order(
    torrent: &Torrent,
    workers: u32,
    rules: Rules,
    older: &[Entry],
    entry: &Entry,
    block: Block,
)
    requires legal { IsLegal (setting_of torrent.now.layout workers rules) (event_of entry.now ∷ history_of older.now) }
    requires request { entry.now.reply ≡ Reply.Request block }
    requires in_order { IsTrue (comes_in_order (history_of older.now) block.piece) }
    ensures { (other : Block) → IsTrue (is_block torrent.now.layout other)
        → IsTrue (usable (setting_of torrent.now.layout workers rules) (history_of older.now) entry.now.worker other)
        → level (history_of older.now) other.piece ≡ level (history_of older.now) block.piece → block.piece ≤ other.piece }
{}

/// With 0 open pieces the answer to Next is that of strict priority: any begun piece comes before all others of its level.
pub fn no_open_is_strict(
    torrent: &Torrent,
    workers: u32,
    rules: Rules,
    journal: &[Entry],
    worker: u32,
)
    requires { rules.«open» ≡ 0 }
    ensures { next_answer (setting_of torrent.now.layout workers rules) (history_of journal.now) worker
        ≡ next_strict (setting_of torrent.now.layout workers rules) (history_of journal.now) worker }
{}

/// Open pieces stay few. Where more are open than the rules say, a piece begins only at a peer that has no block of a begun one of its level.
/// With 0 that is strict priority.
pub fn open_pieces_stay_few(
    torrent: &Torrent,
    workers: u32,
    rules: Rules,
    older: &[Entry],
    entry: &Entry,
    block: Block,
)
    requires legal { IsLegal (setting_of torrent.now.layout workers rules) (event_of entry.now ∷ history_of older.now) }
    requires request { entry.now.reply ≡ Reply.Request block }
    requires unordered { comes_in_order (history_of older.now) block.piece ≡ false }
    requires begins { IsTrue (unbegun (setting_of torrent.now.layout workers rules) (history_of older.now) block.piece) }
    requires many { rules.«open» < open_count (setting_of torrent.now.layout workers rules) (history_of older.now) }
    ensures { (other : Block) → IsTrue (is_block torrent.now.layout other)
        → IsTrue (usable (setting_of torrent.now.layout workers rules) (history_of older.now) entry.now.worker other)
        → level (history_of older.now) other.piece ≡ level (history_of older.now) block.piece
        → begun (setting_of torrent.now.layout workers rules) (history_of older.now) other.piece ≡ false }
{}

/// While no more pieces are open than the rules say, and enough are had, the rarest piece leads. A request is of a piece that fewest peers
/// show, of those with a block for the peer on its level. It is of a begun one where a begun one is as rare.
pub fn rarest_leads(
    torrent: &Torrent,
    workers: u32,
    rules: Rules,
    older: &[Entry],
    entry: &Entry,
    block: Block,
    other: Block,
)
    requires legal { IsLegal (setting_of torrent.now.layout workers rules) (event_of entry.now ∷ history_of older.now) }
    requires request { entry.now.reply ≡ Reply.Request block }
    requires unordered { comes_in_order (history_of older.now) block.piece ≡ false }
    requires some { 0 < rules.«open» }
    requires few { is_strict (setting_of torrent.now.layout workers rules) (history_of older.now) ≡ false }
    requires inside { IsTrue (is_block torrent.now.layout other) }
    requires usable { IsTrue (usable (setting_of torrent.now.layout workers rules) (history_of older.now) entry.now.worker other) }
    requires level { level (history_of older.now) other.piece ≡ level (history_of older.now) block.piece }
    ensures rarest { availability (setting_of torrent.now.layout workers rules) (history_of older.now) block.piece
        ≤ availability (setting_of torrent.now.layout workers rules) (history_of older.now) other.piece }
    ensures begun { availability (setting_of torrent.now.layout workers rules) (history_of older.now) other.piece
        ≡ availability (setting_of torrent.now.layout workers rules) (history_of older.now) block.piece
        → IsTrue (begun (setting_of torrent.now.layout workers rules) (history_of older.now) other.piece)
        → IsTrue (begun (setting_of torrent.now.layout workers rules) (history_of older.now) block.piece) }
{}

/// Of the open pieces one that fewest peers show goes on, however many are open.
pub fn rarest_goes_on(
    torrent: &Torrent,
    workers: u32,
    rules: Rules,
    older: &[Entry],
    entry: &Entry,
    block: Block,
    other: Block,
)
    requires legal { IsLegal (setting_of torrent.now.layout workers rules) (event_of entry.now ∷ history_of older.now) }
    requires request { entry.now.reply ≡ Reply.Request block }
    requires unordered { comes_in_order (history_of older.now) block.piece ≡ false }
    requires some { 0 < rules.«open» }
    requires on { IsTrue (begun (setting_of torrent.now.layout workers rules) (history_of older.now) block.piece) }
    requires inside { IsTrue (is_block torrent.now.layout other) }
    requires usable { IsTrue (usable (setting_of torrent.now.layout workers rules) (history_of older.now) entry.now.worker other) }
    requires level { level (history_of older.now) other.piece ≡ level (history_of older.now) block.piece }
    requires begun { IsTrue (begun (setting_of torrent.now.layout workers rules) (history_of older.now) other.piece) }
    ensures { availability (setting_of torrent.now.layout workers rules) (history_of older.now) block.piece
        ≤ availability (setting_of torrent.now.layout workers rules) (history_of older.now) other.piece }
{}

/// No block is requested of a peer beyond its reach.
pub fn no_request_beyond_reach(
    torrent: &Torrent,
    workers: u32,
    rules: Rules,
    older: &[Entry],
    entry: &Entry,
    block: Block,
)
    requires legal { IsLegal (setting_of torrent.now.layout workers rules) (event_of entry.now ∷ history_of older.now) }
    requires request { entry.now.reply ≡ Reply.Request block }
    ensures { level (history_of older.now) block.piece ≤ reach (history_of older.now) entry.now.worker }
{}

/// Where no reach was told each peer's is full, and what may be asked of a peer is what it was before there was a reach.
pub fn full_reach_is_as_before(
    torrent: &Torrent,
    workers: u32,
    rules: Rules,
    journal: &[Entry],
    worker: u32,
    block: Block,
)
    requires legal { IsLegal (setting_of torrent.now.layout workers rules) (history_of journal.now) }
    requires never { IsTrue (never_reaches (history_of journal.now)) }
    ensures reach { reach (history_of journal.now) worker ≡ MOST_LEVEL }
    ensures usable { usable (setting_of torrent.now.layout workers rules) (history_of journal.now) worker block
        ≡ usable_unreached (setting_of torrent.now.layout workers rules) (history_of journal.now) worker block }
    ensures doubles { doubles (setting_of torrent.now.layout workers rules) (history_of journal.now) worker block
        ≡ doubles_unreached (setting_of torrent.now.layout workers rules) (history_of journal.now) worker block }
{}

/// A request tells the rule that it is by: what it makes of the history tells which of the rules let it be made.
pub fn requests_tell_their_rule(
    torrent: &Torrent,
    workers: u32,
    rules: Rules,
    older: &[Entry],
    entry: &Entry,
    block: Block,
)
    requires legal { IsLegal (setting_of torrent.now.layout workers rules) (event_of entry.now ∷ history_of older.now) }
    requires request { entry.now.reply ≡ Reply.Request block }
    ensures { IsBy (setting_of torrent.now.layout workers rules) (history_of older.now) entry.now.worker block
        (rule_of (setting_of torrent.now.layout workers rules) (event_of entry.now ∷ history_of older.now) block) }
{}

/// A peer that works alone is the first to be asked for a block only of a piece that nobody else has to do with: all that is held of it came
/// from that peer, and no other is expected to bring a block of it. So a whole piece of its own has one sender.
pub fn alone_has_one_sender(
    torrent: &Torrent,
    workers: u32,
    rules: Rules,
    older: &[Entry],
    entry: &Entry,
    block: Block,
)
    requires legal { IsLegal (setting_of torrent.now.layout workers rules) (event_of entry.now ∷ history_of older.now) }
    requires request { entry.now.reply ≡ Reply.Request block }
    requires works { IsTrue (alone (history_of older.now) entry.now.worker) }
    requires first { IsTrue (unasked (setting_of torrent.now.layout workers rules) (history_of older.now) block) }
    ensures { IsTrue (is_sole (setting_of torrent.now.layout workers rules) (history_of older.now) entry.now.worker block.piece) }
{}

/// Nobody is the first to be asked for a block of a piece that is another peer's own.
pub fn belongs_to_one(
    torrent: &Torrent,
    workers: u32,
    rules: Rules,
    older: &[Entry],
    entry: &Entry,
    block: Block,
    owner: u32,
)
    requires legal { IsLegal (setting_of torrent.now.layout workers rules) (event_of entry.now ∷ history_of older.now) }
    requires request { entry.now.reply ≡ Reply.Request block }
    requires worker { owner < workers }
    requires other { owner ≢ entry.now.worker }
    requires own { IsTrue (is_own (setting_of torrent.now.layout workers rules) (history_of older.now) owner block.piece) }
    ensures { unasked (setting_of torrent.now.layout workers rules) (history_of older.now) block ≡ false }
{}

/// Where nobody was told to work alone nobody does, each peer may take part in every piece, and what may be asked of a peer is what it was
/// before a peer could work alone.
pub fn never_alone_is_as_before(
    torrent: &Torrent,
    workers: u32,
    rules: Rules,
    journal: &[Entry],
    worker: u32,
    block: Block,
)
    requires { IsTrue (never_alone (history_of journal.now)) }
    ensures alone { alone (history_of journal.now) worker ≡ false }
    ensures free { is_free_for (setting_of torrent.now.layout workers rules) (history_of journal.now) worker block.piece ≡ true }
    ensures usable { usable (setting_of torrent.now.layout workers rules) (history_of journal.now) worker block
        ≡ usable_unowned (setting_of torrent.now.layout workers rules) (history_of journal.now) worker block }
    ensures resumes { resumes (setting_of torrent.now.layout workers rules) (history_of journal.now) worker block.piece
        ≡ resumes_unowned (setting_of torrent.now.layout workers rules) (history_of journal.now) worker block.piece }
{}

/// Where no part of the levels was told to come in order, all pieces do, or none does: the answer to Next is what it was before.
pub fn no_window_is_as_before(
    torrent: &Torrent,
    workers: u32,
    rules: Rules,
    journal: &[Entry],
    worker: u32,
)
    requires legal { IsLegal (setting_of torrent.now.layout workers rules) (history_of journal.now) }
    requires never { IsTrue (never_windows (history_of journal.now)) }
    ensures order { order_from (history_of journal.now) ≡ (if in_order_before (history_of journal.now) then 0 else MOST_LEVEL + 1) }
    ensures answer { next_answer (setting_of torrent.now.layout workers rules) (history_of journal.now) worker
        ≡ next_unwindowed (setting_of torrent.now.layout workers rules) (history_of journal.now) worker }
{}

/// Where no entry gave pieces a level or an order, the same pieces are chosen as before that could be, and the answers to Next are the same.
pub fn flat_is_as_before(
    torrent: &Torrent,
    workers: u32,
    rules: Rules,
    journal: &[Entry],
    worker: u32,
    piece: u32,
)
    requires { IsTrue (never_levels (history_of journal.now)) }
    ensures chosen { chosen (history_of journal.now) piece ≡ chosen_before (history_of journal.now) piece }
    ensures answer { next_answer (setting_of torrent.now.layout workers rules) (history_of journal.now) worker
        ≡ next_before (setting_of torrent.now.layout workers rules) (history_of journal.now) worker }
{}

/// A peer that is told to be late with a block it was asked for keeps the request. The block stays asked of it, in its place in the line, and
/// counts for its depth; its cancel comes due as ever. It isn't expected of the peer any more. All else is as it was: what else is expected,
/// which cancels are due, the bytes that are held and who sent them, what each peer shows, its depth and its reach, who works alone, which
/// pieces are complete, their levels and their order.
pub fn late_keeps_the_request(
    journal: &[Entry],
    worker: u32,
    piece: u32,
    begin: u32,
    other: u32,
    block: Block,
)
    ensures overdue { overdue (delaying worker piece begin Reply.Quiet ∷ history_of journal.now) other block
        ≡ (((worker == other) && (same_begin (place_at piece begin) block && asked (history_of journal.now) other block))
        || overdue (history_of journal.now) other block) }
    ensures asked { asked (delaying worker piece begin Reply.Quiet ∷ history_of journal.now) other block ≡ asked (history_of journal.now) other block }
    ensures due { due (delaying worker piece begin Reply.Quiet ∷ history_of journal.now) other block ≡ due (history_of journal.now) other block }
    ensures held { held (delaying worker piece begin Reply.Quiet ∷ history_of journal.now) block ≡ held (history_of journal.now) block }
    ensures line { outstanding (delaying worker piece begin Reply.Quiet ∷ history_of journal.now) other ≡ outstanding (history_of journal.now) other }
    ensures cancels { dues (delaying worker piece begin Reply.Quiet ∷ history_of journal.now) other ≡ dues (history_of journal.now) other }
    ensures bytes { kept (delaying worker piece begin Reply.Quiet ∷ history_of journal.now) block ≡ kept (history_of journal.now) block }
    ensures sender { sender (delaying worker piece begin Reply.Quiet ∷ history_of journal.now) block ≡ sender (history_of journal.now) block }
    ensures depth { told_depth (delaying worker piece begin Reply.Quiet ∷ history_of journal.now) other ≡ told_depth (history_of journal.now) other }
    ensures shows { shows (delaying worker piece begin Reply.Quiet ∷ history_of journal.now) other block.piece
        ≡ shows (history_of journal.now) other block.piece }
    ensures joined { joined (delaying worker piece begin Reply.Quiet ∷ history_of journal.now) other ≡ joined (history_of journal.now) other }
    ensures opened { is_open (delaying worker piece begin Reply.Quiet ∷ history_of journal.now) other ≡ is_open (history_of journal.now) other }
    ensures late { late (delaying worker piece begin Reply.Quiet ∷ history_of journal.now) other ≡ late (history_of journal.now) other }
    ensures had { had (delaying worker piece begin Reply.Quiet ∷ history_of journal.now) block.piece ≡ had (history_of journal.now) block.piece }
    ensures level { level (delaying worker piece begin Reply.Quiet ∷ history_of journal.now) block.piece ≡ level (history_of journal.now) block.piece }
    ensures reach { reach (delaying worker piece begin Reply.Quiet ∷ history_of journal.now) other ≡ reach (history_of journal.now) other }
    ensures order { order_from (delaying worker piece begin Reply.Quiet ∷ history_of journal.now) ≡ order_from (history_of journal.now) }
    ensures alone { alone (delaying worker piece begin Reply.Quiet ∷ history_of journal.now) other ≡ alone (history_of journal.now) other }
{}

/// What any other peer is answered after a request was told late is what it is answered after the request was released.
pub fn late_is_release_for_others(
    torrent: &Torrent,
    workers: u32,
    rules: Rules,
    journal: &[Entry],
    worker: u32,
    piece: u32,
    begin: u32,
    other: u32,
)
    requires { worker ≢ other }
    ensures { next_answer (setting_of torrent.now.layout workers rules) (delaying worker piece begin Reply.Quiet ∷ history_of journal.now) other
        ≡ next_answer (setting_of torrent.now.layout workers rules) (giving_up worker piece begin Reply.Quiet ∷ history_of journal.now) other }
{}

/// Where no request was told late, nobody is late, and what is asked of a peer is expected of it. What may be asked of a peer is what it was
/// before a request could be late, and so is which pieces go on or begin, and whether an arrival tells other peers nothing.
pub fn never_late_is_as_before(
    torrent: &Torrent,
    workers: u32,
    rules: Rules,
    journal: &[Entry],
    worker: u32,
    block: Block,
)
    requires { IsTrue (never_delays (history_of journal.now)) }
    ensures expected { expected (history_of journal.now) worker block ≡ asked (history_of journal.now) worker block }
    ensures asked { asked_of_some (setting_of torrent.now.layout workers rules) (history_of journal.now) block
        ≡ asked_of_any (setting_of torrent.now.layout workers rules) (history_of journal.now) block }
    ensures askers { asker_count (setting_of torrent.now.layout workers rules) (history_of journal.now) block
        ≡ any_asker_count (setting_of torrent.now.layout workers rules) (history_of journal.now) block }
    ensures usable { usable (setting_of torrent.now.layout workers rules) (history_of journal.now) worker block
        ≡ usable_undelayed (setting_of torrent.now.layout workers rules) (history_of journal.now) worker block }
    ensures resumes { resumes (setting_of torrent.now.layout workers rules) (history_of journal.now) worker block.piece
        ≡ resumes_undelayed (setting_of torrent.now.layout workers rules) (history_of journal.now) worker block.piece }
    ensures candidate { is_candidate (setting_of torrent.now.layout workers rules) (history_of journal.now) worker block.piece
        ≡ is_candidate_undelayed (setting_of torrent.now.layout workers rules) (history_of journal.now) worker block.piece }
    ensures alone { asked_alone (setting_of torrent.now.layout workers rules) (history_of journal.now) worker block.piece block.begin
        ≡ asked_alone_undelayed (setting_of torrent.now.layout workers rules) (history_of journal.now) worker block.piece block.begin }
{}

/// With none of the later calls, bounds on askers and on whom endgame asks that are none, no number of open pieces, and an endgame that waits
/// for all that is wanted, a history is legal just where it was by the rules as they were.
pub fn plain_is_as_before(torrent: &Torrent, workers: u32, rules: Rules, journal: &[Entry])
    requires releases { IsTrue (never_releases (history_of journal.now)) }
    requires depths { IsTrue (never_deepens (history_of journal.now)) }
    requires adds { IsTrue (never_adds (history_of journal.now)) }
    requires levels { IsTrue (never_levels (history_of journal.now)) }
    requires reaches { IsTrue (never_reaches (history_of journal.now)) }
    requires delays { IsTrue (never_delays (history_of journal.now)) }
    requires alone { IsTrue (never_alone (history_of journal.now)) }
    requires wide { workers ≤ rules.askers }
    requires strict { rules.«open» ≡ 0 }
    requires deep { rules.depth ≤ rules.rush }
    requires all { rules.shown ≡ false }
    ensures { IsLegal (setting_of torrent.now.layout workers rules) (history_of journal.now)
        ↔ IsLegalBefore (setting_of torrent.now.layout workers rules) (history_of journal.now) }
{}

/// All laws in one: what a caller that has a picker, and no journal, is told of it.
pub fn legal_histories_assure(torrent: &Torrent, workers: u32, rules: Rules, journal: &[Entry])
    requires { IsLegal (setting_of torrent.now.layout workers rules) (history_of journal.now) }
    ensures { Assures (setting_of torrent.now.layout workers rules) (history_of journal.now) }
{}
