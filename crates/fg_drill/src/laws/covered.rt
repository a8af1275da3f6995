//! Losses that the parity of columns brings back.
ghost use Rattle.fg_drill.specs.Covered.{BurstsAreCovered, CoveredDrillsComeBack, CoveredLossesAreFew, CoveredLossesComeBack, CoveredLossesPeel, DropsAreBursts};

use crate::laws::repaired::thinned_comes_back;
use crate::laws::sent::{few_arrive, sent_records_are_true, sent_words_are_media};
use crate::laws::true_runs::runs_are_lawful;
use fg_encode::laws::{cuts_are_payloads, ends_are_the_layouts};
use fg_fechead::laws::what_is_written_is_read as parity_written_is_read;
use fg_playout::laws::runs_exist;
use fg_rtp::laws::what_is_written_is_read as media_written_is_read;
use fg_shape::laws::layouts_are_read;
use fg_thin::laws::few::losses_are_few;

/// A thinned encoding that lost media datagrams alone, at most one of a column, peels where the
/// playout waits for the columns.
pub fn covered_losses_peel()
    ensures { CoveredLossesPeel }
{
    sent_words_are_media();
    sent_records_are_true();
    few_arrive();
    media_written_is_read();
    parity_written_is_read();
    layouts_are_read();
    ends_are_the_layouts();
    runs_exist();
    runs_are_lawful();
}

/// So the whole stream comes back of it.
pub fn covered_losses_come_back()
    ensures { CoveredLossesComeBack }
{
    covered_losses_peel();
    thinned_comes_back();
}

/// And so a drill with such losses brings its stream back.
pub fn covered_drills_come_back()
    ensures { CoveredDrillsComeBack }
{
    covered_losses_peel();
    losses_are_few();
    cuts_are_payloads();
}

/// Covered losses are few where the first record isn't lost, so that the rest may be repaired.
pub fn covered_losses_are_few()
    ensures { CoveredLossesAreFew }
{}

/// A burst of as many datagrams as a row has, or of fewer, is such a loss in a block-aligned layout.
pub fn bursts_are_covered()
    ensures { BurstsAreCovered }
{
    covered_losses_are_few();
}

/// A burst is what is left out where the numbers of its records are told.
pub fn drops_are_bursts()
    ensures { DropsAreBursts }
{}
