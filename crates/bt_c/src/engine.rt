//! The picker behind a handle, by what it keeps.
ghost use Rattle.std.specs.Prelude.{◌≡◌, ◌<◌, ◌≤◌, [], ℕ, true, IfOk, OnErr};
ghost use Rattle.bt_history.specs.Setting.{AreRules, setting_of};
ghost use Rattle.bt_picker.specs.Positions.{Gains};
ghost use Rattle.bt_picker.specs.Told.{action_told, telling};
ghost use Rattle.bt_history.specs.Entries.{action_of};
ghost use Rattle.bt_c.specs.Calling.{TakesMemory, is_unjournaled};
ghost use Rattle.bt_c.specs.declared.engine.Keeping.TheVariants as keeps;
ghost use Rattle.bt_c.specs.Engines.{content_kept, keeping_of, state_of};

use bt_history::{Call, MOST_WORKERS, Reply, Rules};
use bt_meta::{Bitfield, Torrent};
use bt_picker::{Desk, Keeper, Picker, Told};
use bytes::Bytes;
use std::alloc::{AllocError, Global};
use std::sync::Arc;

/// What a picker keeps of what is reported.
#[derive(Clone, Copy, Debug, PartialEq, Eq)]
pub enum Keeping {
    /// Neither content nor journal.
    Nothing,
    /// The blocks of the pieces that are begun, until they are complete.
    Begun,
    /// A journal of all calls, with all content.
    Journal,
}

/// A picker, by what it keeps.
#[derive(Drop)]
pub enum Engine {
    Picker(Picker),
    Keeper(Keeper),
    Desk(Desk),
}

/// Why an engine answers nothing to a call.
#[derive(Clone, Copy, Debug, PartialEq, Eq)]
pub enum Untold {
    NoMemory,
    /// No journal has such a call: it keeps what is to be lost, and has asked for all that is in flight.
    Journal,
}

impl From<AllocError> for Untold {
    ghost use Rattle.bt_c.specs.declared.engine.Untold.TheVariants as untold;

    ghost from_gives = { λ _ e. e ≡ untold.NoMemory };

    fn from(_fault: AllocError) -> Untold {
        Untold::NoMemory
    }
}

/// What is reported, as a call that owns what it carries.
fn owned(alloc: Global, told: Told<'_>) -> Result<Call, Untold>
    ensures ok { IfOk result (λ call. action_of call ≡ action_told told.entry) }
    ensures journal { result ≡ Err Untold.Journal → is_unjournaled (action_told told.entry) ≡ true }
{
    let call = match told {
        Told::Join => Call::Join,
        Told::Bits(flags) => Call::Bits(copy_of(alloc, flags)?),
        Told::Have(piece) => Call::Have(piece),
        Told::Choke => Call::Choke,
        Told::Unchoke => Call::Unchoke,
        Told::Next(word) => Call::Next(word),
        Told::Arrived {
            piece,
            begin,
            bytes,
        } => Call::Arrived {
            piece,
            begin,
            bytes: Bytes::copy_from_slice(alloc, bytes)?,
        },
        Told::Leave => Call::Leave,
        Told::Want(flags) => Call::Want(copy_of(alloc, flags)?),
        Told::Haves(flags) => Call::Haves(copy_of(alloc, flags)?),
        Told::Depth(depth) => Call::Depth(depth),
        Told::Release { piece, begin } => Call::Release { piece, begin },
        Told::Level { piece, level } => Call::Level { piece, level },
        Told::Levels(levels) => Call::Levels(Bytes::copy_from_slice(alloc, levels)?),
        Told::InOrder(rising) => Call::InOrder(rising),
        Told::Reach(level) => Call::Reach(level),
        Told::InOrderFrom(level) => Call::InOrderFrom(level),
        Told::Lack(piece) => Call::Lack(piece),
        Told::Late { piece, begin } => Call::Late { piece, begin },
        Told::Alone(alone) => Call::Alone(alone),
        Told::Lose(_) | Told::Discard { .. } | Told::Requested { .. } => {
            return Err(Untold::Journal);
        }
    };
    Ok(call)
}

/// A copy of the set.
fn copy_of(alloc: Global, flags: &Bitfield) -> Result<Bitfield, AllocError>
    ensures { IfOk result (λ copy. copy ≡ flags.now) }
{
    let mut copy = Bitfield::empty(alloc, flags.count())?;
    copy.copy_from(flags);
    Ok(copy)
}

impl Engine {
    /// A picker of the torrent with no call made yet.
    pub fn new(
        alloc: Global,
        keeping: Keeping,
        torrent: Arc<Torrent>,
        workers: u32,
        rules: Rules,
    ) -> Result<Engine, AllocError>
        requires workers { (1 ≤ workers) × (workers ≤ MOST_WORKERS) }
        requires rules { AreRules torrent.value.layout rules }
        ensures setting { IfOk result (λ e. (state_of e).setting ≡ setting_of torrent.value.layout workers rules) }
        ensures history { IfOk result (λ e. (state_of e).history ≡ []) }
        ensures keeping { IfOk result (λ e. keeping_of e ≡ keeping) }
    {
        Ok(match keeping {
            Keeping::Nothing => Engine::Picker(Picker::new(alloc, torrent, workers, rules)?),
            Keeping::Begun => Engine::Keeper(Keeper::new(alloc, torrent, workers, rules)?),
            Keeping::Journal => Engine::Desk(Desk::new(alloc, torrent, workers, rules)?),
        })
    }

    /// Whether the blocks that come are kept.
    pub fn keeps_content(&self) -> bool
        ensures { result ≡ content_kept (keeping_of self.now) }
    {
        match self {
            Engine::Picker(_) => false,
            Engine::Keeper(_) | Engine::Desk(_) => true,
        }
    }

    /// The picker, which answers all questions about an engine.
    pub fn picker(&self) -> &Picker
        ensures { result.now ≡ state_of self.now }
    {
        match self {
            Engine::Picker(picker) => picker,
            Engine::Keeper(keeper) => keeper.picker(),
            Engine::Desk(desk) => desk.picker(),
        }
    }

    /// Answers what a worker reports of its peer. Without memory, nothing changes, nor does a journal by what frees blocks with no check.
    #[inline(always)]
    pub fn tell(&mut self, alloc: Global, worker: u32, told: Told<'_>) -> Result<Reply, Untold>
        requires { worker < (state_of self.old).setting.workers }
        ensures ok { IfOk result (λ reply. Gains (state_of self.old) (state_of self.new) (telling worker told.entry reply)) }
        ensures err { OnErr result (state_of self.new ≡ state_of self.old) }
        // Only what takes memory can lack it.
        ensures short { result ≡ Err Untold.NoMemory → TakesMemory (keeping_of self.old) (action_told told.entry) }
        ensures journal { result ≡ Err Untold.Journal → (keeping_of self.old ≡ keeps.Journal) × (is_unjournaled (action_told told.entry) ≡ true) }
        ensures keeping { keeping_of self.new ≡ keeping_of self.old }
    {
        match self {
            Engine::Picker(picker) => Ok(picker.tell(worker, told)),
            _ => self.tell_kept(alloc, worker, told),
        }
    }

    /// The same, where content is kept. Out of line, since room for results is cleared where a function begins.
    #[inline(never)]
    fn tell_kept(&mut self, alloc: Global, worker: u32, told: Told<'_>) -> Result<Reply, Untold>
        requires worker { worker < (state_of self.old).setting.workers }
        requires kept { content_kept (keeping_of self.old) ≡ true }
        ensures ok { IfOk result (λ reply. Gains (state_of self.old) (state_of self.new) (telling worker told.entry reply)) }
        ensures err { OnErr result (state_of self.new ≡ state_of self.old) }
        ensures short { result ≡ Err Untold.NoMemory → TakesMemory (keeping_of self.old) (action_told told.entry) }
        ensures journal { result ≡ Err Untold.Journal → (keeping_of self.old ≡ keeps.Journal) × (is_unjournaled (action_told told.entry) ≡ true) }
        ensures keeping { keeping_of self.new ≡ keeping_of self.old }
    {
        match self {
            Engine::Picker(_) => unreachable!(),
            Engine::Keeper(keeper) => Ok(keeper.tell(alloc, worker, told)?),
            Engine::Desk(desk) => {
                let call = owned(alloc, told)?;
                Ok(desk.call(worker, call)?)
            }
        }
    }
}
