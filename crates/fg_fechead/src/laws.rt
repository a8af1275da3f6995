//! Laws of the parity datagram. Each is the contract of a function that does nothing.

ghost use Rattle.fg_fechead.specs.Laws.{ParityIsDecided, ReadsOneWay, WrittenIsRead};

/// Bytes are a parity datagram of at most one parity.
pub fn parity_datagrams_read_one_way()
    ensures { ReadsOneWay }
{}

/// Bytes are a parity datagram, or they are none.
pub fn parity_datagrams_are_decided()
    ensures { ParityIsDecided }
{}

/// What is written for a parity is read back as it was.
pub fn what_is_written_is_read()
    ensures { WrittenIsRead }
{}
