//! Laws of drills and samples, and of what comes back where a trace is repaired.
ghost use Rattle.fg_drill.specs.DrillLaws.{DrillsAreExact, DrillsComeBack, RepairsAreDrills, RepairsComeBack, SamplesAreCounted, SamplesAreTraces, SamplesComeBack};

use crate::laws::repaired::{thinned_comes_back, thinned_traces_come_back};
use fg_encode::laws::{cuts_are_payloads, whole_cut_is_all};
use fg_encode::stream::one_cut;
use fg_thin::laws::few::{
    losses_are_few, made_streams_are_cut, made_streams_are_packets, records_are_counted,
};
use fg_thin::laws::payloads::{payloads_are_the_cut, thinned_traces_are_traces};
use fg_trace::laws::one_trace;

/// What a repair of the trace of a thinned encoding gives is what a drill comes to.
pub fn repairs_are_drills()
    ensures whole { RepairsAreDrills }
    ensures exactly { DrillsAreExact }
{
    one_trace();
    one_cut();
    payloads_are_the_cut();
    thinned_traces_are_traces();
}

/// What a drill comes to brings its stream back: no play is inconsistent, and the lane is the stream without the slots that no
/// play shows, and all of it where what is sent peels.
pub fn drills_come_back()
    ensures { DrillsComeBack }
{
    losses_are_few();
    cuts_are_payloads();
    whole_cut_is_all();
    thinned_comes_back();
}

/// A sample is a trace, whatever of it is left out, and its records are counted.
pub fn samples_are_traces()
    ensures counted { SamplesAreCounted }
    ensures trace { SamplesAreTraces }
{
    made_streams_are_cut();
    made_streams_are_packets();
    records_are_counted();
    payloads_are_the_cut();
    thinned_traces_are_traces();
}

/// What a sample comes to brings the made stream back, as a drill does.
pub fn samples_come_back()
    ensures { SamplesComeBack }
{
    losses_are_few();
    cuts_are_payloads();
    whole_cut_is_all();
    thinned_comes_back();
    made_streams_are_cut();
    made_streams_are_packets();
}

/// What a repair comes to brings back each thinned encoding that the trace is.
pub fn repairs_come_back()
    ensures { RepairsComeBack }
{
    thinned_traces_come_back();
}
