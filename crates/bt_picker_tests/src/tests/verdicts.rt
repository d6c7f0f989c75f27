//! Verdicts that know what their desk was: their bytes are compared only where a check has failed since.
ghost use Rattle.std.specs.Prelude.{◌≡◌};
ghost use Rattle.bt_shared.specs.SharedJobs.{IsForDesk};

use super::setting::*;
use bt_picker::{Call, Reason, Reply};
use bt_shared::SharedVerdict;
use std::process::Abort;
use std::sync::Wait;
use std::test::*;

/// The last piece comes with another byte, and is checked three times: the first verdict fails it, so that the second finds nothing to check.
/// The right byte comes: the third verdict is of a byte that isn't held any more. One of the right byte completes the piece.
#[test]
fn a_verdict_from_before_a_failed_check(rt: HostRuntime) -> Result<(), Fail> {
    let alloc = rt.alloc();
    let mut seated = Seated::open(&rt, alloc, 1)?;
    seated.says(&rt, 0, Call::Join, Reply::Joined)?;
    seated.says(&rt, 0, block(2, b"x"), Reply::Completed)?;
    let first = seated.hashed(&rt, alloc, 0, 2)?;
    let second = seated.hashed(&rt, alloc, 0, 2)?;
    let third = seated.hashed(&rt, alloc, 0, 2)?;
    fails_once(&rt, &mut seated, first, second)?;
    seated.says(&rt, 0, block(2, b"a"), Reply::Completed)?;
    seated.settles_verdict(&rt, 0, third, Reply::Refused(Reason::Stale))?;
    let fourth = seated.hashed(&rt, alloc, 0, 2)?;
    seated.settles_verdict(&rt, 0, fourth, Reply::Had)
}

/// Two verdicts of one wrong byte: after the first no check is waited for.
fn fails_once<R: Wait + Abort>(
    rt: &R,
    seated: &mut Seated,
    first: SharedVerdict,
    second: SharedVerdict,
) -> Result<(), Fail>
    requires first { IsForDesk seated.old first }
    requires second { IsForDesk seated.old second }
    ensures { seated.new ≡ seated.old }
{
    seated.settles_verdict(rt, 0, first, Reply::Failed)?;
    seated.settles_verdict(rt, 0, second, Reply::Refused(Reason::NotWaiting))
}
