//! What a command that runs sessions is asked for.

ghost use Rattle.std.specs.Prelude.{◌≡◌, ◌≤◌, ◌<◌, IfOk, IfErr, OnOk};
ghost use Rattle.bt_text.specs.declared.fault.Fault.TheVariants.{Random};
ghost use Rattle.bt_cli.specs.Runs.{IsOptionFault, IsWant, IsWantFault, want_of};

use bt_meta::Bitfield;
use bt_picker::Rules;
use bt_text::Fault;
use std::alloc::Global;

/// What a command that runs sessions is asked for.
#[derive(Debug, Drop)]
pub struct Options {
    /// Settles what the picker's rules leave to chance.
    pub seed: u64,
    /// Whether the journal is printed before the report.
    pub journal: bool,
    /// The pieces that are to be downloaded, as the payload of a `bitfield` message spells them (BEP 3); each piece where it isn't given.
    pub want: Option<Vec<u8>>,
    pub rules: Rules,
    /// How many threads check pieces, where sessions run in threads; a run in one thread doesn't read it.
    pub checkers: u32,
}

/// The wanted pieces, if some are asked for, where the options fit a torrent of so many pieces.
pub fn fitting(alloc: Global, options: &Options, pieces: u32) -> Result<Option<Bitfield>, Fault>
    ensures want { IfOk result (IsWant pieces (want_of options.now)) }
    ensures random { OnOk result (options.now.rules.random ≤ pieces) }
    ensures err { IfErr result (IsOptionFault pieces options.now) }
{
    let want = read_want(alloc, options, pieces)?;
    fit_random(options.rules, pieces)?;
    Ok(want)
}

/// Refuses rules that pick more pieces at random than there are.
pub fn fit_random(rules: Rules, pieces: u32) -> Result<(), Fault>
    ensures ok { OnOk result (rules.random ≤ pieces) }
    ensures err { IfErr result (λ fault. (fault ≡ Random) × (pieces < rules.random)) }
{
    if rules.random > pieces {
        return Err(Fault::Random);
    }
    Ok(())
}

/// The flags of the wanted pieces, if the options have some, or what is wrong with them.
fn read_want(alloc: Global, options: &Options, pieces: u32) -> Result<Option<Bitfield>, Fault>
    ensures want { IfOk result (IsWant pieces (want_of options.now)) }
    ensures err { IfErr result (IsWantFault pieces (want_of options.now)) }
{
    match &options.want {
        Some(bytes) => Ok(Some(Bitfield::from_wire(alloc, bytes, pieces)?)),
        None => Ok(None),
    }
}
