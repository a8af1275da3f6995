//! Laws of the encoding. Each is the contract of a function that does nothing.
ghost use Rattle.fg_encode.specs.Laws.{ColumnsAreTheLayouts, CutsArePayloads, LaterChangesNothing, OneMoreAdds, RecordsFit, RowsAreTheLayouts, TracesAreShort, WholeCutIsAll};

use fg_shape::laws::one_column_and_one_row_end;

/// The equations that end at a slot are those of the layout: at most one column, and at most one row.
pub fn ends_are_the_layouts()
    ensures columns { ColumnsAreTheLayouts }
    ensures rows { RowsAreTheLayouts }
{
    one_column_and_one_row_end();
}

/// A payload more adds what is sent for its slot, and changes nothing that was sent before.
pub fn a_payload_more_adds_its_records()
    ensures unchanged { LaterChangesNothing }
    ensures adds { OneMoreAdds }
{}

/// Each record of what a stream of at most 2^40 bytes is sent as fits into a trace.
pub fn records_fit()
    ensures { RecordsFit }
{}

/// The trace of what a stream of at most 2^40 bytes is sent as has at most 2^42 bytes.
pub fn traces_are_short()
    ensures { TracesAreShort }
{
    ends_are_the_layouts();
}

/// The first payloads of a stream can be encoded, and are a front of its bytes, within the limit.
pub fn cuts_are_payloads()
    ensures { CutsArePayloads }
{}

/// A stream that ends with its last payload is its payloads, one after another.
pub fn whole_cut_is_all()
    ensures { WholeCutIsAll }
{}
