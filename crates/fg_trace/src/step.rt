//! What a reader of a trace answers, and how a command ends that reads one.
use fg_io::Fault;

/// The answer to a call for the next record.
#[derive(Clone, Copy, Debug, PartialEq, Eq)]
pub enum Step {
    /// The next record. Its datagram stands in the reader's payload.
    Datagram {
        /// The time in microseconds.
        time: u64,
        /// The UDP port.
        port: u16,
        /// How many bytes the datagram has.
        size: u16,
    },
    /// The input has ended at a record's end.
    End,
}

/// Why there is no next record. The places count bytes from the trace's first.
#[derive(Clone, Copy, Debug, PartialEq, Eq)]
pub enum TraceFault {
    /// The source failed. What was read is kept, and a later call goes on after it.
    ReadFault,
    /// The input doesn't begin with the magic. The place is that of the first byte that differs, or the input's length
    /// where it ends before.
    NotTrace(u64),
    /// The input has more bytes than it may, and the next record isn't whole within the limit. The place is that of the
    /// record's first byte.
    TooLong(u64),
    /// The input ends inside a record, of which this is the place of the first byte.
    Cut(u64),
}

/// How a command ends that reads a trace.
#[derive(Clone, Copy, Debug, PartialEq, Eq)]
pub enum Finish {
    /// The trace was read to its end, and all was written.
    Done,
    /// The source failed.
    ReadFault,
    /// A sink or an outlet failed.
    WriteFault,
    /// As [`TraceFault::NotTrace`].
    NotTrace(u64),
    /// As [`TraceFault::Cut`].
    Cut(u64),
    /// As [`TraceFault::TooLong`].
    TooLong(u64),
    /// There was no memory.
    Memory,
}

impl From<Fault> for Finish {
    ghost use Rattle.std.specs.Prelude.{◌≡◌};
    ghost use Rattle.fg_trace.specs.Finish.{finish_after};

    ghost from_gives = { λ fault finish. finish ≡ finish_after fault };

    fn from(fault: Fault) -> Finish {
        match fault {
            Fault::Read => Finish::ReadFault,
            Fault::Write => Finish::WriteFault,
            Fault::Memory => Finish::Memory,
        }
    }
}
