//! What is sent of an encoding arrives as true datagrams.
ghost use Rattle.fg_drill.specs.Sent.{AllRecordsArrive, ArriveOneWay, FewArrive, SentRecordsAreTrue, SentWordsAreMedia};

use fg_encode::laws::ends_are_the_layouts;
use fg_fechead::laws::{
    parity_datagrams_read_one_way, what_is_written_is_read as parity_written_is_read,
};
use fg_rtp::laws::{
    media_datagrams_read_one_way, what_is_written_is_read as media_written_is_read,
};
use fg_shape::laws::{each_slot_has_its_number, layouts_are_read};

/// The words of an encoding are media words.
pub fn sent_words_are_media()
    ensures { SentWordsAreMedia }
{}

/// The records of an encoding, with few left out, are read as true datagrams that come in their
/// turn.
pub fn sent_records_are_true()
    ensures { SentRecordsAreTrue }
{
    media_written_is_read();
    parity_written_is_read();
    layouts_are_read();
}

/// Where nothing is left out, all records of an encoding are read, and no media datagram is missing.
pub fn all_records_arrive()
    ensures { AllRecordsArrive }
{
    media_written_is_read();
    parity_written_is_read();
    layouts_are_read();
}

/// No more arrive than three for each payload.
pub fn few_arrive()
    ensures { FewArrive }
{
    ends_are_the_layouts();
    each_slot_has_its_number();
}

/// The records of a flow arrive in one way.
pub fn records_arrive_one_way()
    ensures { ArriveOneWay }
{
    media_datagrams_read_one_way();
    parity_datagrams_read_one_way();
}
