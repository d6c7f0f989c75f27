//! What `clap` found on a command line.

ghost use Rattle.std.specs.Prelude.{◌≡◌, codes, map, option_map, Some, IfSome};
ghost use Rattle.clap.specs.Words.{first_value, found_of, matched_of, raw_values};

use crate::asked::Asked;
use crate::wrong::Wrong;
use bt_picker::Rules;
use clap::ArgMatches;

/// What the command line of `serial` or `run` says; none without META.
pub fn asked<'w>(arguments: &ArgMatches<'w>) -> Option<Asked<'w>>
    ensures meta { IfSome result (λ asked. first_value (found_of arguments.now) (codes "META") ≡ Some asked.meta.now) }
    ensures out { IfSome result (λ asked.
        option_map (λ text. text.now) asked.out ≡ first_value (found_of arguments.now) (codes "out")) }
    ensures want { IfSome result (λ asked.
        option_map (λ text. text.now) asked.want ≡ first_value (found_of arguments.now) (codes "want")) }
{
    let usual = Rules::usual();
    let meta = arguments.get_str("META")?;
    Some(Asked {
        meta,
        out: arguments.get_str("out"),
        seed: arguments.get_one::<u64>("seed").unwrap_or(0),
        journal: arguments.get_flag("journal"),
        want: arguments.get_str("want"),
        depth: arguments.get_one::<u32>("depth").unwrap_or(usual.depth),
        random: arguments.get_one::<u32>("random").unwrap_or(usual.random),
        checkers: arguments.get_one::<u32>("checkers").unwrap_or(1),
    })
}

/// An option of `run` that is given to `serial`.
pub fn misplaced_in_serial(arguments: &ArgMatches<'_>) -> Option<Wrong> {
    arguments.contains_id("checkers").then_some(Wrong::OfRun)
}

/// An option of `serial` that is given to `run`.
pub fn misplaced_in_run(arguments: &ArgMatches<'_>) -> Option<Wrong> {
    (arguments.contains_id("want") || arguments.get_flag("journal")).then_some(Wrong::OfSerial)
}
