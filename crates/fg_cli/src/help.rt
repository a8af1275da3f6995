//! The help of the program, written from the table of the words, and its version.
ghost use Rattle.std.specs.Prelude.{◌≡◌, ◌++◌, ◌∷◌, [], ◌-◌, ◌≤◌, IfNone, IfOk, IfSome, OnOk, drop, length, map, min, string_bytes};
ghost use Rattle.std.specs.Fmt.{decimal};
ghost use Rattle.std.specs.List.{flat_map};
ghost use Rattle.fg_cli.specs.Grammar.{commands, value_text};
ghost use Rattle.fg_cli.specs.Help.{IsQuestion, absent_text, answer_text, blanks, command_help, command_line, command_part, help, intro, key_line, outro, range_text, row_line, rules, spelling, times_text, version};
ghost use Rattle.fg_cli.specs.Reading.{range_seen, row_seen};

use crate::grammar::{Absent, Command, Key, Row, Values};
use itoa::Buffer;
use std::alloc::{AllocError, Global};

/// Blanks up to the column in which the meaning of a name begins.
const BLANKS: &str = "                          ";

/// What the program is, and how it is called.
const INTRO: &str = "\
fgate: repairs MPEG transport streams in RTP by SMPTE ST 2022-1 parity

usage: fgate COMMAND NAME=VALUE ..
       fgate COMMAND --help
       fgate --help
       fgate --version

repair, inspect, tocap, prove, survey and pick read a trace from standard input,
encode, drill and monitor a stream, fromcap a capture, and check the text of
prove; sample and plan read nothing. repair, drill and sample write each flow to
the file PORT.ts of this folder, and the report to standard output. encode,
fromcap and pick write a trace there, tocap a capture, and the others lines.
";

/// The lines that name the first rule that the words break.
const RULES: &str = "
standard error, with words counted from 0, which is the command:
  words: no command       there is no word
  words: bad word I       word I is none that may stand there
  words: missing NAME     NAME must be there
  words: depth below window at word I
  words: layout 1         columns are not 1..20
  words: layout 2         rows are not 4..20
  words: layout 3         columns times rows is more than 100
  words: layout 4         fec=both, and fewer than 4 columns
  words: flows 1          there is no flow
  words: flows 2          there are more than 64 flows
  words: flows 3 at I     flow I, counted from 0, is not 1..65531
  words: flows 4 at I     flow I shares P, P+2 or P+4 with an earlier flow
";

/// The statuses, and an example.
const OUTRO: &str = "
status:
  0  all was done
  1  the words are faulty, and nothing was read
  2  reading failed
  3  writing failed, or a lane is the input, the output or another lane
  4  the input is no trace, or ends inside a record
  5  the input is longer than its max, where the command has one
  6  there was no memory
  7  the stream is not of whole transport packets
  8  the input is no capture, or a record does not fit one
  10 a case proves no gap
  11 the text is not of cases

example: fgate repair flow=5000 flow=6000 < night.trace
";

/// What is asked of the program in place of a command.
#[derive(Clone, Copy, Debug, PartialEq, Eq)]
pub enum Question {
    /// How it is called.
    Help,
    /// How this command is called.
    HelpOn(Command),
    /// Which version it is.
    Version,
}

impl Question {
    /// The question that the words are, with no further word: `--help`, a command and `--help`, or `--version`.
    pub fn asked(words: &[String]) -> Option<Question>
        ensures found { IfSome result (IsQuestion (map string_bytes words.now)) }
        ensures none { IfNone result
            ((question : Question) → IsQuestion (map string_bytes words.now) question → ⊥) }
    {
        match words {
            [word] => Question::of_word(word.as_str()),
            [command, word] => Question::of_words(command.as_str(), word.as_str()),
            _ => None,
        }
    }

    /// The question that the word is.
    fn of_word(word: &str) -> Option<Question>
        ensures found { IfSome result (IsQuestion (word.now ∷ [])) }
        ensures none { IfNone result ((question : Question) → IsQuestion (word.now ∷ []) question → ⊥) }
    {
        if word == "--help" {
            return Some(Question::Help);
        }
        if word == "--version" {
            return Some(Question::Version);
        }
        None
    }

    /// The question that the two words are.
    fn of_words(command: &str, word: &str) -> Option<Question>
        ensures found { IfSome result (IsQuestion (command.now ∷ word.now ∷ [])) }
        ensures none { IfNone result
            ((question : Question) → IsQuestion (command.now ∷ word.now ∷ []) question → ⊥) }
    {
        if word != "--help" {
            return None;
        }
        let command = Command::named(command)?;
        Some(Question::HelpOn(command))
    }

    /// The answer, as lines of text.
    pub fn answer(self, alloc: Global) -> Result<Vec<u8>, AllocError>
        ensures { IfOk result (λ text. text.items ≡ answer_text self) }
    {
        match self {
            Question::Help => help_text(alloc),
            Question::HelpOn(command) => command_text(alloc, command),
            Question::Version => Vec::from_slice(alloc, version_text().as_bytes()),
        }
    }
}

/// The help: each command with its names, their values and defaults; the lines that tell faulty words; the statuses; and
/// an example. It has lines of at most 80 columns.
pub fn help_text(alloc: Global) -> Result<Vec<u8>, AllocError>
    ensures { IfOk result (λ text. text.items ≡ help) }
{
    let mut text = Vec::new(alloc);
    push_intro(&mut text)?;
    push_parts(&mut text)?;
    push_rules(&mut text)?;
    push_outro(&mut text)?;
    Ok(text)
}

/// The command's part of the help.
fn command_text(alloc: Global, command: Command) -> Result<Vec<u8>, AllocError>
    ensures { IfOk result (λ text. text.items ≡ command_help command) }
{
    let mut text = Vec::new(alloc);
    push_command(&mut text, command)?;
    Ok(text)
}

/// The program's name and version, as a line.
pub fn version_text() -> &'static str
    ensures { result.now ≡ version }
{
    "fgate 0.1.0\n"
}

/// Pushes what the program is, and how it is called.
#[tactic(auto, unfolding(crate::specs::Help::intro))]
fn push_intro(text: &mut Vec<u8>) -> Result<(), AllocError>
    ensures { OnOk result (text.new.items ≡ text.old.items ++ intro) }
{
    text.extend_from_slice(INTRO.as_bytes())
}

/// Pushes the lines that name the first rule that the words break.
#[tactic(auto, unfolding(crate::specs::Help::rules))]
fn push_rules(text: &mut Vec<u8>) -> Result<(), AllocError>
    ensures { OnOk result (text.new.items ≡ text.old.items ++ rules) }
{
    text.extend_from_slice(RULES.as_bytes())
}

/// Pushes the statuses and an example.
#[tactic(auto, unfolding(crate::specs::Help::outro))]
fn push_outro(text: &mut Vec<u8>) -> Result<(), AllocError>
    ensures { OnOk result (text.new.items ≡ text.old.items ++ outro) }
{
    text.extend_from_slice(OUTRO.as_bytes())
}

/// Pushes each command with its names, behind a blank line.
fn push_parts(text: &mut Vec<u8>) -> Result<(), AllocError>
    ensures { OnOk result (text.new.items ≡ text.old.items ++ flat_map command_part commands) }
{
    let commands = Command::all();
    for command in commands {
        push_part(text, *command)?;
    }
    Ok(())
}

/// Pushes a blank line and a command with its names.
#[tactic(auto, unfolding(crate::specs::Help::command_part))]
fn push_part(text: &mut Vec<u8>, command: Command) -> Result<(), AllocError>
    ensures { OnOk result (text.new.items ≡ text.old.items ++ command_part command) }
{
    text.push(b'\n')?;
    push_command(text, command)
}

/// Pushes a command with its names.
#[tactic(auto, unfolding(crate::specs::Help::command_help))]
fn push_command(text: &mut Vec<u8>, command: Command) -> Result<(), AllocError>
    ensures { OnOk result (text.new.items ≡ text.old.items ++ command_help command) }
{
    push_command_line(text, command)?;
    let keys = command.keys();
    for key in keys {
        push_key_line(text, command, *key)?;
    }
    Ok(())
}

/// Pushes the line of a command.
#[tactic(auto, unfolding(crate::specs::Help::command_line))]
fn push_command_line(text: &mut Vec<u8>, command: Command) -> Result<(), AllocError>
    ensures { OnOk result (text.new.items ≡ text.old.items ++ command_line command) }
{
    text.extend_from_slice(b"fgate ")?;
    text.extend_from_slice(command.word().as_bytes())?;
    text.extend_from_slice(b": ")?;
    text.extend_from_slice(command.about().as_bytes())?;
    text.push(b'\n')?;
    Ok(())
}

/// Pushes the line of a name that stands after a command.
fn push_key_line(text: &mut Vec<u8>, command: Command, key: Key) -> Result<(), AllocError>
    ensures { OnOk result (text.new.items ≡ text.old.items ++ key_line command key) }
{
    push_row_line(text, command.told(key), key.about())
}

/// Pushes a line of the table.
#[tactic(auto, unfolding(crate::specs::Help::row_line))]
fn push_row_line(text: &mut Vec<u8>, row: Row, meaning: &str) -> Result<(), AllocError>
    ensures { OnOk result (text.new.items ≡ text.old.items ++ row_line (row_seen row) meaning.now) }
{
    push_spelling(text, row.name, row.values)?;
    text.extend_from_slice(meaning.as_bytes())?;
    push_times(text, row.most)?;
    text.extend_from_slice(b"; ")?;
    push_absent(text, row.values, row.absent)?;
    text.push(b'\n')?;
    Ok(())
}

/// Pushes how a name and its values are spelled, in a column of their own.
fn push_spelling(text: &mut Vec<u8>, name: &str, values: Values) -> Result<(), AllocError>
    ensures { OnOk result (text.new.items
        ≡ text.old.items ++ spelling name.now (range_seen values)) }
{
    let start = text.len();
    text.extend_from_slice(b"  ")?;
    text.extend_from_slice(name.as_bytes())?;
    text.push(b'=')?;
    push_range(text, values)?;
    push_blanks(text, start)?;
    Ok(())
}

/// Pushes blanks behind what begins at the start, up to the column, and one at least.
#[tactic(auto, unfolding(crate::specs::Help::blanks))]
fn push_blanks(text: &mut Vec<u8>, start: usize) -> Result<(), AllocError>
    requires { start ≤ length text.old.items }
    ensures { OnOk result (text.new.items
        ≡ text.old.items ++ drop (min (length text.old.items - start) 25) blanks) }
{
    let width = (text.len() - start).min(25);
    text.extend_from_slice(&BLANKS.as_bytes()[width..])
}

/// Pushes the values that a name takes.
fn push_range(text: &mut Vec<u8>, values: Values) -> Result<(), AllocError>
    ensures { OnOk result (text.new.items ≡ text.old.items ++ range_text (range_seen values)) }
{
    match values {
        Values::Number(least, greatest) => {
            push_number(text, least)?;
            text.extend_from_slice(b"..")?;
            push_number(text, greatest)
        }
        Values::Either(first, second) => {
            text.extend_from_slice(first.as_bytes())?;
            text.push(b'|')?;
            text.extend_from_slice(second.as_bytes())
        }
    }
}

/// Pushes how often a name may stand, where a number above one is set for it.
fn push_times(text: &mut Vec<u8>, most: Option<usize>) -> Result<(), AllocError>
    ensures { OnOk result (text.new.items ≡ text.old.items ++ times_text most) }
{
    match most {
        Some(most) if most != 1 => {
            text.extend_from_slice(b", up to ")?;
            push_number(text, most as u64)?;
            text.extend_from_slice(b" times")
        }
        _ => Ok(()),
    }
}

/// Pushes what holds where a name isn't there.
fn push_absent(text: &mut Vec<u8>, values: Values, absent: Absent) -> Result<(), AllocError>
    ensures { OnOk result (text.new.items
        ≡ text.old.items ++ absent_text (range_seen values) absent) }
{
    match absent {
        Absent::Needed(_) => text.extend_from_slice(b"needed"),
        Absent::Default(value) => {
            text.extend_from_slice(b"default ")?;
            push_value(text, values, value)
        }
        Absent::Nothing => text.extend_from_slice(b"default none"),
    }
}

/// Pushes a value as it is written.
fn push_value(text: &mut Vec<u8>, values: Values, value: u64) -> Result<(), AllocError>
    ensures { OnOk result (text.new.items
        ≡ text.old.items ++ value_text (range_seen values) value) }
{
    match values {
        Values::Number(_, _) => push_number(text, value),
        Values::Either(first, _) if value == 0 => text.extend_from_slice(first.as_bytes()),
        Values::Either(_, second) => text.extend_from_slice(second.as_bytes()),
    }
}

/// Pushes a number in decimal.
fn push_number(text: &mut Vec<u8>, number: u64) -> Result<(), AllocError>
    ensures { OnOk result (text.new.items ≡ text.old.items ++ decimal number) }
{
    let mut digits = Buffer::new();
    text.extend_from_slice(digits.format(number).as_bytes())
}
