//! Laws of the media datagram. Each is the contract of a function that does nothing.

ghost use Rattle.fg_rtp.specs.Laws.{MediaIsDecided, ReadsMediaWords, ReadsOneWay, WrittenIsRead};

/// Bytes are a media datagram in at most one way, and its word is a media word.
pub fn media_datagrams_read_one_way()
    ensures one_way { ReadsOneWay }
    ensures media { ReadsMediaWords }
{}

/// Bytes are a media datagram, or they are none.
pub fn media_datagrams_are_decided()
    ensures { MediaIsDecided }
{}

/// What is written for a media word is read back as it was.
pub fn what_is_written_is_read()
    ensures { WrittenIsRead }
{}
