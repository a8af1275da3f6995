//! Laws of a survey's text, each the contract of a function that only calls laws of the crates below.
ghost use Rattle.fg_survey.specs.Laws.{OneReading, OneText};

use fg_fechead::laws::parity_datagrams_read_one_way;
use fg_rtp::laws::media_datagrams_read_one_way;

/// A datagram is read in one way.
pub fn one_reading()
    ensures { OneReading }
{
    media_datagrams_read_one_way();
    parity_datagrams_read_one_way();
}

/// A trace has one text.
pub fn one_text()
    ensures { OneText }
{
    one_reading();
}
