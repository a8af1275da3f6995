//! The line on the error sink.
ghost use Rattle.std.specs.Prelude.{◌≡◌, ◌++◌, ◌∷◌, [], None, IfErr, IfSome, IfNone, OnOk, OnErr, codes};
ghost use Rattle.std.specs.Fmt.{decimal};
ghost use Rattle.fg_io.specs.Faults.{Counts};
ghost use Rattle.fg_io.specs.Sink.{Gains, GainsPart};
ghost use Rattle.fg_commands.specs.Ended.{fault_line, words_line, name_text as text_of_name, layout_number as number_of_rule};
ghost use Rattle.fg_commands.specs.Lines.{line_text};

use crate::ended::Why;
use fg_cli::{Name, WordFault};
use fg_flows::FlowFault;
use fg_io::{Fault, Sink, write_pieces};
use fg_shape::LayoutFault;
use fg_ts::TsFault;
use itoa::Buffer;

/// What a line tells between its words.
#[derive(Clone, Copy)]
enum Told {
    Nothing,
    Number(u64),
    Text(&'static str),
}

/// A line in three parts: words, what it tells, and how it ends.
#[derive(Clone, Copy)]
struct Line {
    words: &'static [u8],
    told: Told,
    end: &'static [u8],
}

impl Line {
    /// A line of words alone.
    fn of(words: &'static [u8]) -> Line
        ensures { line_text result ≡ words.now ++ codes "\n" }
    {
        Line {
            words,
            told: Told::Nothing,
            end: b"\n",
        }
    }

    /// A line of words and a number.
    fn numbered(words: &'static [u8], number: u64) -> Line
        ensures { line_text result ≡ words.now ++ decimal number ++ codes "\n" }
    {
        Line {
            words,
            told: Told::Number(number),
            end: b"\n",
        }
    }
}

/// Writes the line for a program that ended so; nothing is written where all was done.
pub fn write_fault_line<E: Sink>(err: &mut E, why: Why) -> Result<(), Fault>
    ensures whole { OnOk result (Gains (E.written err.old) (fault_line why) (E.written err.new)) }
    ensures part { OnErr result (GainsPart (E.written err.old) (fault_line why)
        (E.written err.new)) }
    ensures fault { IfErr result (λ fault. fault ≡ Fault.Write) }
    ensures faults { Counts result [] ((E.faults err.old, E.faults err.new) ∷ []) }
    ensures quiet { why ≡ Why.Done → err.new ≡ err.old }
{
    match line_of(why) {
        Some(line) => write_line(err, line),
        None => Ok(()),
    }
}

/// The line for a program that ended so. None where all was done.
fn line_of(why: Why) -> Option<Line>
    ensures some { IfSome result (λ line. line_text line ≡ fault_line why) }
    ensures none { IfNone result (fault_line why ≡ []) }
    ensures done { why ≡ Why.Done → result ≡ None }
{
    match why {
        Why::Done => None,
        Why::Words(fault) => Some(words_line_of(fault)),
        Why::ReadFault => Some(Line::of(b"read fault")),
        Why::WriteFault => Some(Line::of(b"write fault")),
        Why::NotTrace(place) => Some(Line::numbered(b"not a trace at byte ", place)),
        Why::Cut(place) => Some(Line::numbered(b"cut at byte ", place)),
        Why::TooLong(place) => Some(Line::numbered(b"too long at byte ", place)),
        Why::Memory => Some(Line::of(b"no memory")),
        Why::NotTransport(TsFault::Ragged(size)) => {
            Some(Line::numbered(b"not transport: length ", size))
        }
        Why::NotTransport(TsFault::NoSync(number)) => {
            Some(Line::numbered(b"not transport: packet ", number))
        }
        Why::NotCapture(place) => Some(Line::numbered(b"not a capture at byte ", place)),
        Why::Unfit(number) => Some(Line {
            words: b"record ",
            told: Told::Number(number),
            end: b" does not fit a capture\n",
        }),
        Why::Unproved(number) => Some(Line::numbered(b"unproved case ", number)),
        Why::NotCase(line) => Some(Line::numbered(b"not a case at line ", line)),
    }
}

/// The line for words that break this rule first.
fn words_line_of(fault: WordFault) -> Line
    ensures { line_text result ≡ words_line fault }
{
    match fault {
        WordFault::NoCommand => Line::of(b"words: no command"),
        WordFault::BadWord(i) => Line::numbered(b"words: bad word ", i as u64),
        WordFault::Missing(name) => Line {
            words: b"words: missing ",
            told: Told::Text(name_text(name)),
            end: b"\n",
        },
        WordFault::Depth(i) => Line::numbered(b"words: depth below window at word ", i as u64),
        WordFault::Layout(fault) => Line::numbered(b"words: layout ", layout_number(fault)),
        WordFault::Flows(FlowFault::NoFlow) => Line::of(b"words: flows 1"),
        WordFault::Flows(FlowFault::TooMany) => Line::of(b"words: flows 2"),
        WordFault::Flows(FlowFault::Port(i)) => Line::numbered(b"words: flows 3 at ", i as u64),
        WordFault::Flows(FlowFault::Clash(i)) => Line::numbered(b"words: flows 4 at ", i as u64),
    }
}

/// The name as it is spelled in the words.
fn name_text(name: Name) -> &'static str
    ensures { result.now ≡ text_of_name name }
{
    match name {
        Name::Flow => "flow",
        Name::Columns => "columns",
        Name::Rows => "rows",
        Name::Seed => "seed",
        Name::Burst => "burst",
        Name::Most => "most",
    }
}

/// The number of a layout's rule.
fn layout_number(fault: LayoutFault) -> u64
    ensures { result ≡ number_of_rule fault }
{
    match fault {
        LayoutFault::Columns => 1,
        LayoutFault::Rows => 2,
        LayoutFault::Product => 3,
        LayoutFault::RowsNeedFour => 4,
    }
}

/// Writes a line.
fn write_line<E: Sink>(err: &mut E, line: Line) -> Result<(), Fault>
    ensures whole { OnOk result (Gains (E.written err.old) (line_text line) (E.written err.new)) }
    ensures part { OnErr result (GainsPart (E.written err.old) (line_text line)
        (E.written err.new)) }
    ensures fault { IfErr result (λ fault. fault ≡ Fault.Write) }
    ensures faults { Counts result [] ((E.faults err.old, E.faults err.new) ∷ []) }
{
    match line.told {
        Told::Nothing => write_parts(err, line.words, "", line.end),
        Told::Number(number) => write_parts(
            err,
            line.words,
            Buffer::new().format(number),
            line.end,
        ),
        Told::Text(text) => write_parts(err, line.words, text, line.end),
    }
}

/// Writes three texts.
fn write_parts<E: Sink>(err: &mut E, text: &[u8], more: &str, end: &[u8]) -> Result<(), Fault>
    ensures whole { OnOk result (Gains (E.written err.old)
        (text.now ++ more.now ++ end.now) (E.written err.new)) }
    ensures part { OnErr result (GainsPart (E.written err.old)
        (text.now ++ more.now ++ end.now) (E.written err.new)) }
    ensures fault { IfErr result (λ fault. fault ≡ Fault.Write) }
    ensures faults { Counts result [] ((E.faults err.old, E.faults err.new) ∷ []) }
{
    write_pieces(err, &[text, more.as_bytes(), end])
}
