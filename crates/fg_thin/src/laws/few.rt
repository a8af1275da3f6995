//! Laws of made streams, and of losses: they are few.
ghost use Rattle.fg_thin.specs.Few.{LossesAreFew, RecordsAreCounted};
ghost use Rattle.fg_thin.specs.Made.{MadeIsCut, MadeIsPackets};

/// A made stream is seven whole packets for each of its datagrams.
pub fn made_streams_are_packets()
    ensures { MadeIsPackets }
{}

/// A made stream is cut into one payload for each of its datagrams, and ends with the last.
pub fn made_streams_are_cut()
    ensures { MadeIsCut }
{}

/// An encoding has one record for each slot, and one for each column and row that ends at one of them.
pub fn records_are_counted()
    ensures { RecordsAreCounted }
{}

/// The losses that may be asked for never are the first record, and never more than 32,000 media records in succession.
pub fn losses_are_few()
    ensures { LossesAreFew }
{
    fg_encode::laws::ends_are_the_layouts();
    fg_shape::laws::each_slot_has_its_number();
}
