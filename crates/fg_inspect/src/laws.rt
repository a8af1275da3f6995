//! Laws of an inspection's text, each the contract of a function that only calls laws of the crates below.
ghost use Rattle.fg_inspect.specs.Laws.{OneReading, OneText, TextOfFront};

use fg_fechead::laws::parity_datagrams_read_one_way;
use fg_flows::laws::one_flow_has_a_port;
use fg_rtp::laws::media_datagrams_read_one_way;

/// A datagram on a port is read in one way.
pub fn one_reading()
    ensures { OneReading }
{
    media_datagrams_read_one_way();
    parity_datagrams_read_one_way();
    one_flow_has_a_port();
}

/// Records have one text, and that of the first of them is its front.
pub fn one_text()
    ensures one { OneText }
    ensures front { TextOfFront }
{
    one_reading();
}
