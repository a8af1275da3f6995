//! The commands, and the names that may stand after them: one row for each name.
ghost use Rattle.std.specs.Prelude.{◌≡◌, ◌<◌, ◌↔◌, IfNone, IfSome, IsTrue};
ghost use Rattle.fg_cli.specs.Grammar.{Knows, Number, Either, about, command_about, command_text, commands, keys_of, most_of, needed, row, told_after, told_row};
ghost use Rattle.fg_cli.specs.Reading.{BeginsPlain, Reads, range_seen, row_seen};

mod table;

use crate::Name;

/// What the first word says is to be done.
#[derive(Clone, Copy, Debug, PartialEq, Eq)]
pub enum Command {
    Repair,
    Encode,
    Drill,
    Inspect,
    Sample,
    FromCapture,
    ToCapture,
    Monitor,
    Prove,
    Check,
    ChooseMatrix,
    Survey,
    Pick,
}

/// A name that may stand before an equals sign.
#[derive(Clone, Copy, PartialEq, Eq)]
pub enum Key {
    Flow,
    Window,
    Depth,
    Hold,
    Workers,
    Max,
    Columns,
    Rows,
    Fec,
    Layout,
    Packets,
    Rate,
    Port,
    Seq,
    Ssrc,
    Stamp,
    Drop,
    Every,
    Seed,
    Datagrams,
    Loss,
    Burst,
    Most,
    PickedFlow,
    PickedPort,
    PickedSource,
    Without,
    From,
    Until,
    Format,
}

/// The values that a name takes.
#[derive(Clone, Copy)]
pub enum Values {
    /// The numbers from the first to the second, in decimal digits.
    Number(u64, u64),
    /// One of two words, which stand for 0 and 1.
    Either(&'static str, &'static str),
}

/// What holds where a name isn't there.
#[derive(Clone, Copy)]
pub enum Absent {
    /// It must be there.
    Needed(Name),
    /// It has this value.
    Default(u64),
    /// It counts for nothing.
    Nothing,
}

/// What the table says of a name.
#[derive(Clone, Copy)]
pub struct Row {
    pub name: &'static str,
    pub values: Values,
    pub absent: Absent,
    /// How often the name may stand, and `None` where there is no limit.
    pub most: Option<usize>,
}

impl Command {
    /// All commands, in the order in which the help tells them.
    pub fn all() -> &'static [Command]
        ensures { result.now ≡ commands }
    {
        &[
            Command::Repair,
            Command::Encode,
            Command::Drill,
            Command::Inspect,
            Command::Sample,
            Command::FromCapture,
            Command::ToCapture,
            Command::Monitor,
            Command::Prove,
            Command::Check,
            Command::ChooseMatrix,
            Command::Survey,
            Command::Pick,
        ]
    }

    /// The word that names the command, and what the help says of it.
    fn words(self) -> (&'static str, &'static str)
        ensures { (result.0.now ≡ command_text self) × (result.1.now ≡ command_about self) }
    {
        match self {
            Command::Repair => (
                "repair",
                "writes each flow of a trace, repaired, to PORT.ts",
            ),
            Command::Encode => ("encode", "encodes a transport stream with parity"),
            Command::Drill => ("drill", "encodes a stream, drops records, and repairs it"),
            Command::Inspect => ("inspect", "writes a line for each record of a trace"),
            Command::Sample => ("sample", "makes a stream, drops records, and repairs it"),
            Command::FromCapture => ("fromcap", "writes the trace of the datagrams in a capture"),
            Command::ToCapture => ("tocap", "writes a capture of the records of a trace"),
            Command::Monitor => (
                "monitor",
                "writes a line for each break in a stream's continuity",
            ),
            Command::Prove => ("prove", "writes a case for each window that shows a gap"),
            Command::Check => ("check", "judges cases of gaps, a line for each"),
            Command::ChooseMatrix => ("plan", "writes the least matrix that brings a burst back"),
            Command::Survey => (
                "survey",
                "tells what a trace holds: ports, streams, losses, matrix",
            ),
            Command::Pick => ("pick", "writes the trace of some of a trace's records"),
        }
    }

    /// The word that names the command.
    pub fn word(self) -> &'static str
        ensures { result.now ≡ command_text self }
    {
        self.words().0
    }

    /// The command that the word names.
    pub fn named(word: &str) -> Option<Command>
        ensures found { IfSome result (λ command. word.now ≡ command_text command) }
        ensures none { IfNone result ((command : Command) → word.now ≡ command_text command → ⊥) }
    {
        for command in Command::all() {
            if command.word() == word {
                return Some(*command);
            }
        }
        None
    }

    /// What the help says of the command.
    pub fn about(self) -> &'static str
        ensures { result.now ≡ command_about self }
    {
        self.words().1
    }

    /// The names that may stand after the command, in the order in which missing ones are told.
    pub fn keys(self) -> &'static [Key]
        ensures { result.now ≡ keys_of self }
    {
        use Key::{
            Burst, Columns, Datagrams, Depth, Drop, Every, Fec, Flow, Format, From, Hold, Layout,
            Loss, Max, Most, Packets, PickedFlow, PickedPort, PickedSource, Port, Rate, Rows, Seed,
            Seq, Ssrc, Stamp, Until, Window, Without, Workers,
        };
        match self {
            Command::Repair => &[Flow, Window, Depth, Hold, Workers, Max],
            Command::Encode => &[
                Max, Columns, Rows, Fec, Layout, Packets, Rate, Port, Seq, Ssrc, Stamp,
            ],
            Command::Drill => &[
                Window, Depth, Hold, Workers, Max, Columns, Rows, Fec, Layout, Packets, Rate, Port,
                Seq, Ssrc, Stamp, Drop, Every,
            ],
            Command::Inspect => &[Flow, Max],
            Command::Sample => &[Workers, Seed, Datagrams, Loss],
            Command::FromCapture | Command::ToCapture | Command::Monitor | Command::Check => &[Max],
            Command::Prove => &[Flow, Window, Depth, Hold, Max],
            Command::ChooseMatrix => &[Burst, Most, Fec],
            Command::Survey => &[Max, Format],
            Command::Pick => &[
                PickedFlow,
                PickedPort,
                PickedSource,
                Without,
                From,
                Until,
                Max,
            ],
        }
    }

    /// How often a name may stand after the command, and `None` where there is no limit.
    pub fn most(self, key: Key) -> Option<usize>
        ensures { result ≡ most_of self key }
    {
        match self {
            Command::Prove => Some(1),
            _ => key.row().most,
        }
    }

    /// A name's row as the help tells it of the command.
    pub fn told(self, key: Key) -> Row
        ensures { row_seen result ≡ told_after self key }
    {
        match self {
            Command::Prove => Row {
                most: Some(1),
                ..key.told()
            },
            _ => key.told(),
        }
    }

    /// The name that may stand after the command and is spelled so.
    pub fn key(self, name: &str) -> Option<Key>
        ensures found { IfSome result (λ key. Knows self key × (name.now ≡ (row key).name)) }
        ensures none { IfNone result
            ((key : Key) → Knows self key → name.now ≡ (row key).name → ⊥) }
    {
        for key in self.keys() {
            if key.row().name == name {
                return Some(*key);
            }
        }
        None
    }
}

impl Key {
    /// The name's row of the table.
    pub fn row(self) -> Row
        ensures { row_seen result ≡ row self }
    {
        let (name, values, absent, most) = table::ROWS[self as usize];
        Row {
            name,
            values,
            absent,
            most,
        }
    }

    /// The name's row as the help tells it. No layout takes all columns and rows that the table takes, and no table of flows all
    /// flows.
    pub fn told(self) -> Row
        ensures { row_seen result ≡ told_row self }
    {
        match self {
            Key::Flow => Row {
                most: Some(64),
                ..Key::Flow.row()
            },
            Key::Columns => needed_row("columns", Values::Number(1, 20), Name::Columns),
            Key::Rows => needed_row("rows", Values::Number(4, 20), Name::Rows),
            _ => self.row(),
        }
    }

    /// What the help says of the name.
    pub fn about(self) -> &'static str
        ensures { result.now ≡ about self }
    {
        match self {
            Key::Flow => "media port P, with P+2 and P+4",
            Key::Window => "positions that are played at once",
            Key::Depth => "a datagram so far ahead plays them",
            Key::Hold => "microseconds that a datagram may wait",
            Key::Workers => "further threads that recover words",
            Key::Max => "most bytes of the input",
            Key::Columns => "columns of a matrix, with fec=both at least 4",
            Key::Rows => "rows of a matrix, of at most 100 datagrams",
            Key::Fec => "parity of columns, or of rows too",
            Key::Layout => "where the columns begin",
            Key::Packets => "transport packets in a datagram",
            Key::Rate => "transport bits a second",
            Key::Port => "the media port P, with P+2 and P+4",
            Key::Seq => "the first RTP sequence number",
            Key::Ssrc => "the RTP synchronization source",
            Key::Stamp => "the first RTP timestamp",
            Key::Drop => "a record left out",
            Key::Every => "its multiples are left out",
            Key::Seed => "what the stream is made from",
            Key::Datagrams => "media datagrams of the stream",
            Key::Loss => "records of a hundred left out",
            Key::Burst => "datagrams that are lost in succession",
            Key::Most => "percent of parity at most",
            Key::PickedFlow => "ports P, P+2 and P+4",
            Key::PickedPort => "a further port",
            Key::PickedSource => "only this source's media",
            Key::Without => "not this source's media",
            Key::From => "first time, in microseconds",
            Key::Until => "first time left out, microseconds",
            Key::Format => "lines of words, or of JSON",
        }
    }
}

/// The row of a name that must be there, once.
fn needed_row(name: &'static str, values: Values, missing: Name) -> Row
    ensures { row_seen result ≡ needed name.now (range_seen values) (Absent.Needed missing) }
{
    Row {
        name,
        values,
        absent: Absent::Needed(missing),
        most: Some(1),
    }
}

impl Values {
    /// The value that the text stands for.
    pub fn read(self, text: &str) -> Option<u64>
        ensures { Reads (range_seen self) text.now result }
    {
        match self {
            Values::Number(least, greatest) => number(text, least, greatest),
            Values::Either(first, second) => either(text, first, second),
        }
    }
}

/// The number in decimal digits, without a leading zero, from the least to the greatest.
fn number(text: &str, least: u64, greatest: u64) -> Option<u64>
    ensures { Reads (Number least greatest) text.now result }
{
    if !is_plain(text.as_bytes()) {
        return None;
    }
    let Ok(number) = text.parse::<u64>() else {
        return None;
    };
    if number < least || number > greatest {
        return None;
    }
    Some(number)
}

/// Whether a number's text begins with a digit, and with 0 only where it is 0. `parse` takes a sign
/// and leading zeros.
fn is_plain(text: &[u8]) -> bool
    ensures { IsTrue result ↔ BeginsPlain text.now }
{
    if text.is_empty() {
        return false;
    }
    text[0] > b'0' || (text[0] == b'0' && text.len() == 1)
}

/// 0 for the first word, and 1 for the second.
fn either(text: &str, first: &str, second: &str) -> Option<u64>
    ensures { Reads (Either first.now second.now) text.now result }
{
    if text == first {
        return Some(0);
    }
    if text == second {
        return Some(1);
    }
    None
}
