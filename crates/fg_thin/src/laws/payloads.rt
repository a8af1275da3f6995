//! The payloads of a stream as a function of its bytes.
ghost use Rattle.fg_thin.specs.PayloadLaws.{CutPayloads, FirstPayloads, HasCut};
ghost use Rattle.fg_thin.specs.TraceLaws.{StreamIsTrace, ThinnedIsTrace};

use fg_encode::laws::{cuts_are_payloads, records_fit, traces_are_short};
use fg_trace::laws::spelled_is_read;

/// A stream is cut into the payloads that are a function of its bytes.
pub fn payloads_are_the_cut()
    ensures cut { CutPayloads }
    ensures there { HasCut }
{}

/// The first payloads of a stream are the first of them.
pub fn first_payloads_are_taken_first()
    ensures { FirstPayloads }
{}

/// What is sent of a stream is a trace, whatever was lost: it is read as the records that weren't.
pub fn thinned_traces_are_traces()
    ensures payloads { ThinnedIsTrace }
    ensures stream { StreamIsTrace }
{
    records_fit();
    traces_are_short();
    cuts_are_payloads();
    payloads_are_the_cut();
    spelled_is_read();
}
