//! Laws of the survey of an encoding of which records were left out. Each is the contract of a function that only calls laws
//! of the crates below.
ghost use Rattle.fg_surveyed.specs.Laws.{FewLossesLeaveMedia, NothingLostLeavesColumns, NothingLostLeavesMedia, SurveysTellLosses, TextsTellLosses};

use fg_encode::laws::{ends_are_the_layouts, records_fit};
use fg_fechead::laws::what_is_written_is_read as parity_written_is_read;
use fg_rtp::laws::what_is_written_is_read as media_written_is_read;
use fg_shape::laws::{each_slot_has_its_number, layouts_are_read};
use fg_survey::laws::one_text;
use fg_trace::laws::{one_trace, spelled_is_read};

/// The survey of what is left of an encoding tells one stream, which has lost as many media datagrams as were left out between
/// the first and the last one left, and its layout where the parity of a column is left.
pub fn surveys_tell_losses()
    ensures text { TextsTellLosses }
    ensures trace { SurveysTellLosses }
{
    media_written_is_read();
    parity_written_is_read();
    layouts_are_read();
    ends_are_the_layouts();
    one_text();
    records_fit();
    spelled_is_read();
    one_trace();
}

/// The losses of a drill leave media records so.
pub fn few_losses_leave_media()
    ensures { FewLossesLeaveMedia }
{}

/// An encoding of which nothing is lost leaves all its media records, and the parity of its columns.
pub fn nothing_lost_leaves_all()
    ensures media { NothingLostLeavesMedia }
    ensures columns { NothingLostLeavesColumns }
{
    each_slot_has_its_number();
}
