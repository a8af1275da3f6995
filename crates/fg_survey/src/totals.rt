//! What a trace holds in all.
ghost use Rattle.std.specs.Prelude.{◌≡◌, ◌∷◌, [], List};
ghost use Rattle.fg_survey.specs.Heard.{Heard};
ghost use Rattle.fg_survey.specs.Steps.{TotalsHaveRoom};
ghost use Rattle.fg_survey.specs.Totals.{size, totals_of};

/// What a trace holds in all. Times are in microseconds.
#[derive(Clone, Copy)]
pub struct Totals {
    /// The records.
    pub records: u64,
    /// The bytes of their datagrams.
    pub bytes: u64,
    /// The first record's time.
    pub first: u64,
    /// The least time.
    pub least: u64,
    /// The greatest time.
    pub greatest: u64,
    /// The records whose time is below that of one before.
    pub backward: u64,
}

impl Totals {
    /// So many records of so many bytes, all at this time.
    pub(crate) fn at(records: u64, bytes: u64, time: u64) -> Totals
        ensures { result ≡ record { records = records; bytes = bytes; first = time; least = time; greatest = time; backward = 0 } }
    {
        Totals {
            records,
            bytes,
            first: time,
            least: time,
            greatest: time,
            backward: 0,
        }
    }

    /// Counts a record.
    pub(crate) fn take(&mut self, time: u64, len: u16)
        requires { TotalsHaveRoom self.old }
        ensures { (before : List Heard) (x : Heard) → x.time ≡ time → size x ≡ len → self.old ≡ totals_of before
            → self.new ≡ totals_of (x ∷ before) }
    {
        if self.records == 0 {
            *self = Totals::of_one(time, len);
            return;
        }
        self.backward += u64::from(time < self.greatest);
        self.least = time.min(self.least);
        self.greatest = time.max(self.greatest);
        self.records += 1;
        self.bytes += u64::from(len);
    }

    /// One record.
    fn of_one(time: u64, len: u16) -> Totals
        ensures { (x : Heard) → x.time ≡ time → size x ≡ len → result ≡ totals_of (x ∷ []) }
    {
        Totals::at(1, u64::from(len), time)
    }
}
