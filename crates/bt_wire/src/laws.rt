//! Laws over the definitions that the other contracts cite. Each body is empty.

ghost use Rattle.bt_wire.specs.Laws.{OneAtAFront, OneReading, FedIsGivenThenHeld, AnyCutting};

/// At one front no message and no fault stand together, nor two faults: the three answers of `Inbound::next` exclude one another.
pub fn one_at_a_front(limit: u32)
    ensures { OneAtAFront limit }
{}

/// Bytes are read in one way: no other messages and no other rest are a reading of them.
pub fn one_reading(limit: u32)
    ensures { OneReading limit }
{}

/// In whatever portions bytes are fed and messages fetched, the messages' bytes and behind them the unread ones are all that was fed.
pub fn fed_is_given_then_held(limit: u32)
    ensures { FedIsGivenThenHeld limit }
{}

/// The messages given don't depend on how the stream is cut.
pub fn any_cutting(limit: u32)
    ensures { AnyCutting limit }
{}
