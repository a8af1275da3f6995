//! How a call of the program ends.
ghost use Rattle.std.specs.Prelude.{◌≡◌, IfErr, IfOk};
ghost use Rattle.fg_commands.specs.Ended.{status_of};
ghost use Rattle.fg_commands.specs.Endings.{why_of_capture, why_of_checked, why_of_fault, why_of_finish, why_of_spelling, why_of_stream};

use fg_check::Checked;
use fg_cli::WordFault;
use fg_encode::stream::StreamFault;
use fg_io::Fault;
use fg_pcap::{CaptureEnding, SpellingEnding};
use fg_trace::Finish;
use fg_ts::TsFault;

/// Why the program ended.
#[derive(Clone, Copy, PartialEq, Eq)]
pub enum Why {
    /// All was done, and the outputs are whole.
    Done,
    /// The words break a rule of the command line, and this is the first.
    Words(WordFault),
    /// Reading the input failed.
    ReadFault,
    /// Writing to the output or a lane failed.
    WriteFault,
    /// The input is no trace: the place of the first byte that differs from the magic, or the input's length where it
    /// ends before.
    NotTrace(u64),
    /// The input ends inside a record, of which this is the place of the first byte. The outputs are those of the records
    /// before it.
    Cut(u64),
    /// The input has more bytes than it may, and this is the place of the first byte of the first record that isn't whole
    /// within the limit, or of a stream the first datagram. The outputs are those of what is before it.
    TooLong(u64),
    /// There was no memory.
    Memory,
    /// The input is no stream of whole transport packets. `Ragged` has its length, and `NoSync` the number of the first packet
    /// without the sync byte, counted from 0. The output is that of the datagrams before.
    NotTransport(TsFault),
    /// The input is no capture that is read here, and this is the place of the first byte that shows it: of the magic, of the
    /// version, of the link type, or of the header of a record that keeps too many bytes; or the input's length, where it ends
    /// within the file header. The output is that of the records before.
    NotCapture(u64),
    /// The record of this number, counted from 0, has a time or a size that no capture can tell. The output is that of the
    /// records before.
    Unfit(u64),
    /// The case of this number, counted from 0, is the first that proves no gap. Each case is judged.
    Unproved(u64),
    /// The line of this number, counted from 0, is the first that doesn't fit into a text of cases. The cases before it are judged.
    NotCase(u64),
}

/// How a call of the program ended.
#[derive(Clone, Copy)]
pub struct Ended {
    /// The exit status.
    pub status: u8,
    /// What it stands for.
    pub why: Why,
}

impl Ended {
    /// A call that ended so.
    pub(crate) fn of(why: Why) -> Ended
        ensures status { result.status ≡ status_of why }
        ensures why { result.why ≡ why }
    {
        Ended {
            status: why.status(),
            why,
        }
    }

    /// A call that came to an ending that is answered, or that a fault ended.
    pub(crate) fn by<E: Into<Why>>(came: Result<E, Fault>) -> Ended
        ensures status { result.status ≡ status_of result.why }
        ensures came { IfOk came (λ ending. E.converts ending result.why) }
        ensures failed { IfErr came (λ fault. result.why ≡ why_of_fault fault) }
    {
        match came {
            Ok(ending) => Ended::of(ending.into()),
            Err(fault) => Ended::of(fault.into()),
        }
    }
}

impl Why {
    /// The exit status: 0, 1, 2, 3, 4, 4, 5, 6, 7, 8, 8, 10 and 11 in the order of the variants.
    pub fn status(&self) -> u8
        ensures { result ≡ status_of self.now }
    {
        match self {
            Why::Done => 0,
            Why::Words(_) => 1,
            Why::ReadFault => 2,
            Why::WriteFault => 3,
            Why::NotTrace(_) | Why::Cut(_) => 4,
            Why::TooLong(_) => 5,
            Why::Memory => 6,
            Why::NotTransport(_) => 7,
            Why::NotCapture(_) | Why::Unfit(_) => 8,
            Why::Unproved(_) => 10,
            Why::NotCase(_) => 11,
        }
    }
}

/// A command that reads a trace ends so.
impl From<Finish> for Why {
    ghost from_gives = { λ finish why. why ≡ why_of_finish finish };

    fn from(finish: Finish) -> Why {
        match finish {
            Finish::Done => Why::Done,
            Finish::ReadFault => Why::ReadFault,
            Finish::WriteFault => Why::WriteFault,
            Finish::NotTrace(place) => Why::NotTrace(place),
            Finish::Cut(place) => Why::Cut(place),
            Finish::TooLong(place) => Why::TooLong(place),
            Finish::Memory => Why::Memory,
        }
    }
}

/// A command that reads a stream ends so, once all before its ending is done.
impl From<Option<StreamFault>> for Why {
    ghost from_gives = { λ ending why. why ≡ why_of_stream ending };

    fn from(ending: Option<StreamFault>) -> Why {
        match ending {
            None => Why::Done,
            Some(StreamFault::TooLong(place)) => Why::TooLong(place),
            Some(StreamFault::NotTransport(fault)) => Why::NotTransport(fault),
        }
    }
}

/// A command that a fault ends.
impl From<Fault> for Why {
    ghost from_gives = { λ fault why. why ≡ why_of_fault fault };

    fn from(fault: Fault) -> Why {
        match fault {
            Fault::Read => Why::ReadFault,
            Fault::Write => Why::WriteFault,
            Fault::Memory => Why::Memory,
        }
    }
}

/// A capture that is made into a trace ends so, once all before its ending is done.
impl From<CaptureEnding> for Why {
    ghost from_gives = { λ ending why. why ≡ why_of_capture ending };

    fn from(ending: CaptureEnding) -> Why {
        match ending {
            CaptureEnding::Ended => Why::Done,
            CaptureEnding::NotCapture(byte) => Why::NotCapture(byte),
            CaptureEnding::Cut(byte) => Why::Cut(byte),
            CaptureEnding::TooLong(byte) => Why::TooLong(byte),
        }
    }
}

/// A trace that is written as a capture ends so, once all before its ending is done.
impl From<SpellingEnding> for Why {
    ghost from_gives = { λ ending why. why ≡ why_of_spelling ending };

    fn from(ending: SpellingEnding) -> Why {
        match ending {
            SpellingEnding::Done => Why::Done,
            SpellingEnding::NotTrace(byte) => Why::NotTrace(byte),
            SpellingEnding::Unfit(number) => Why::Unfit(number),
            SpellingEnding::Cut(byte) => Why::Cut(byte),
            SpellingEnding::TooLong(byte) => Why::TooLong(byte),
        }
    }
}

/// A text of cases that is judged so.
impl From<Checked> for Why {
    ghost from_gives = { λ judged why. why ≡ why_of_checked judged };

    fn from(judged: Checked) -> Why {
        match judged {
            Checked::Done => Why::Done,
            Checked::Unproved(number) => Why::Unproved(number),
            Checked::NotCase(line) => Why::NotCase(line),
            Checked::TooLong(byte) => Why::TooLong(byte),
        }
    }
}
