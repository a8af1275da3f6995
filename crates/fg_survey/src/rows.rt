//! What a port holds.
ghost use Rattle.std.specs.Prelude.{◌≡◌, ◌==◌, ◌∷◌, if◌then◌else◌, List};
ghost use Rattle.fg_survey.specs.Heard.{Heard};
ghost use Rattle.fg_survey.specs.Rows.{row};
ghost use Rattle.fg_survey.specs.Steps.{RowHasRoom};
ghost use Rattle.fg_survey.specs.Totals.{size};

use crate::reading::Reading;

/// What a port holds. Times are in microseconds.
#[derive(Clone, Copy)]
pub struct Row {
    /// The records.
    pub records: u64,
    /// The bytes of their datagrams.
    pub bytes: u64,
    /// The media datagrams.
    pub media: u64,
    /// The parity datagrams.
    pub parity: u64,
    /// The time of the first record.
    pub first: u64,
    /// The time of the last record.
    pub last: u64,
}

/// A port without a record.
pub(crate) const NO_ROW: Row = Row {
    records: 0,
    bytes: 0,
    media: 0,
    parity: 0,
    first: 0,
    last: 0,
};

impl Row {
    /// Counts a record.
    pub(crate) fn take(&mut self, time: u64, len: u16, reading: Reading)
        requires { RowHasRoom self.old }
        ensures { (before : List Heard) (x : Heard) → x.time ≡ time → size x ≡ len → x.reading ≡ reading
            → self.old ≡ row before → self.new ≡ row (x ∷ before) }
    {
        self.first = first_of(self.records, self.first, time);
        self.media += u64::from(reading.is_media());
        self.parity += u64::from(reading.is_parity());
        self.last = time;
        self.records += 1;
        self.bytes += u64::from(len);
    }
}

/// The first time, where there were so many records before this time.
fn first_of(records: u64, first: u64, time: u64) -> u64
    ensures { result ≡ (if records == 0 then time else first) }
{
    if records == 0 { time } else { first }
}
