//! What comes back of a thinned encoding that is repaired.
ghost use Rattle.fg_drill.specs.ComesBack.{EncodingComesBack, NothingIsInconsistent, NothingLostIsAll, NothingLostIsFew, NothingLostPeels, PeelingBringsAllBack, ThinnedTraceComesBack, ThinnedTraceIsRead, WhatIsShownComesBack};

use crate::laws::full::full_arrivals_peel;
use crate::laws::sent::{
    all_records_arrive, few_arrive, records_arrive_one_way, sent_records_are_true,
    sent_words_are_media,
};
use crate::laws::true_runs::{peeled_slots_are_shown, true_runs_are_repaired};
use fg_encode::laws::records_fit;
use fg_trace::laws::{one_trace, spelled_is_read};

/// A repair of a thinned encoding has no inconsistent play. Its lane is the stream without the
/// slots that no play shows, and the whole stream where the thinned encoding peels.
pub fn thinned_comes_back()
    ensures consistent { NothingIsInconsistent }
    ensures shown { WhatIsShownComesBack }
    ensures whole { PeelingBringsAllBack }
{
    sent_words_are_media();
    sent_records_are_true();
    few_arrive();
    records_arrive_one_way();
    true_runs_are_repaired();
    peeled_slots_are_shown();
}

/// Where nothing is left out, what is sent is the whole encoding. It peels at every playout,
/// and so the whole stream comes back.
pub fn nothing_lost_peels()
    ensures few { NothingLostIsFew }
    ensures all { NothingLostIsAll }
    ensures peels { NothingLostPeels }
    ensures whole { EncodingComesBack }
{
    sent_words_are_media();
    sent_records_are_true();
    few_arrive();
    all_records_arrive();
    full_arrivals_peel();
    thinned_comes_back();
}

/// A trace of a thinned encoding is read as its records, so that what a repair of that trace gives the
/// flow comes back.
pub fn thinned_traces_come_back()
    ensures read { ThinnedTraceIsRead }
    ensures comes_back { ThinnedTraceComesBack }
{
    records_fit();
    spelled_is_read();
    one_trace();
    thinned_comes_back();
}
