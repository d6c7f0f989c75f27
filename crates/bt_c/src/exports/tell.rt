//! Outcomes as C has them: a status, and a number or an answer.
ghost use Rattle.std.specs.Prelude.{◌≡◌};
ghost use Rattle.bt_c.specs.Outcomes.{number_told, status_of, told};

use crate::answer::Answer;
use crate::fault::Fault;
use bt_picker::Reply;

/// The status of what was done, or wasn't.
pub fn tell_done(outcome: Result<(), Fault>) -> u32
    ensures { result ≡ status_of outcome }
{
    match outcome {
        Ok(()) => 0,
        Err(fault) => fault.number(),
    }
}

/// The status of a call, with its answer.
#[inline(always)]
pub fn tell(outcome: Result<Reply, Fault>, answer: &mut Answer) -> u32
    ensures status { result ≡ status_of outcome }
    ensures answer { answer.new ≡ told outcome }
{
    match outcome {
        Ok(reply) => {
            *answer = Answer::of(reply);
            0
        }
        Err(fault) => {
            *answer = Answer::nothing();
            fault.number()
        }
    }
}

/// The status of a question, with a number of 64 bits.
pub fn tell_large(outcome: Result<u64, Fault>, number: &mut u64) -> u32
    ensures status { result ≡ status_of outcome }
    ensures number { number.new ≡ number_told outcome }
{
    match outcome {
        Ok(found) => {
            *number = found;
            0
        }
        Err(fault) => {
            *number = 0;
            fault.number()
        }
    }
}

/// The status of a question, with the number.
pub fn tell_number(outcome: Result<u32, Fault>, number: &mut u32) -> u32
    ensures status { result ≡ status_of outcome }
    ensures number { number.new ≡ number_told outcome }
{
    match outcome {
        Ok(found) => {
            *number = found;
            0
        }
        Err(fault) => {
            *number = 0;
            fault.number()
        }
    }
}
