//! Worked examples of the rules, judged by the definitions.
ghost use Rattle.bt_history.specs.Examples.{AreJudged, examples};

/// The worked examples are legal histories, and a wrong reply to the next call isn't allowed.
pub fn worked_examples()
    ensures { AreJudged examples }
{}
