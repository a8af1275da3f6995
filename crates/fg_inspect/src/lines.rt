//! The lines of an inspection, made one after another.
ghost use Rattle.std.specs.Prelude.{◌≡◌, ◌+◌, ◌<◌, ◌^◌, ◌++◌, [], ◌∷◌, IfOk, OnOk, OnErr};
ghost use Rattle.std.specs.Fmt.{decimal};
ghost use Rattle.fg_io.specs.Faults.{Counts};
ghost use Rattle.fg_io.specs.Sink.{GainsPart};
ghost use Rattle.fg_io.specs.Sent.{Sent};
ghost use Rattle.fg_inspect.specs.Text.{kind_word, media_fault_number, fec_fault_number, reading_text, line};

use crate::reading::Reading;
use fg_fechead::FecFault;
use fg_flows::Kind;
use fg_io::{Fault, OutputBuffer, Sink};
use fg_rtp::MediaFault;
use itoa::Buffer;
use std::alloc::{AllocError, Global};

/// How many bytes of the lines are gathered before they are written.
const ROOM: usize = 16_384;

/// Room for a line.
const LINE: usize = 256;

/// The lines that are held, and how many were made.
#[derive(Drop)]
pub(crate) struct Lines {
    // A line is made here.
    line: Vec<u8>,
    pub(crate) held: OutputBuffer,
    /// The number of the next record.
    pub(crate) number: u64,
}

/// Pushes a number in decimal.
fn push_number(text: &mut Vec<u8>, number: u64) -> Result<(), AllocError>
    ensures { OnOk result (text.new.items ≡ text.old.items ++ decimal number) }
{
    let mut digits = Buffer::new();
    text.extend_from_slice(digits.format(number).as_bytes())
}

/// Pushes some words and a number.
fn push_named(text: &mut Vec<u8>, words: &str, number: u64) -> Result<(), AllocError>
    ensures { OnOk result (text.new.items ≡ text.old.items ++ words.now ++ decimal number) }
{
    text.extend_from_slice(words.as_bytes())?;
    push_number(text, number)
}

/// The number of a fault of a media datagram.
fn media_number(fault: MediaFault) -> u64
    ensures { result ≡ media_fault_number fault }
{
    match fault {
        MediaFault::Short => 1,
        MediaFault::Version => 2,
        MediaFault::Flags => 3,
        MediaFault::PayloadType => 4,
        MediaFault::Size => 5,
        MediaFault::NoSync => 6,
    }
}

/// The number of a fault of a parity datagram.
fn fec_number(fault: FecFault) -> u64
    ensures { result ≡ fec_fault_number fault }
{
    match fault {
        FecFault::Short => 1,
        FecFault::Version => 2,
        FecFault::NoExtension => 3,
        FecFault::OtherFec => 4,
        FecFault::Shape => 5,
        FecFault::Size => 6,
    }
}

/// The word for what a port carries.
fn word_for(kind: Kind) -> &'static str
    ensures { result.now ≡ kind_word kind }
{
    match kind {
        Kind::Media => "media",
        Kind::Column => "column",
        Kind::Row => "row",
    }
}

/// Pushes what a line tells of a datagram.
#[tactic(auto, unfolding(crate::specs::Text::reading_text))]
fn push_reading(text: &mut Vec<u8>, reading: Reading) -> Result<(), AllocError>
    ensures { OnOk result (text.new.items ≡ text.old.items ++ reading_text reading) }
{
    match reading {
        Reading::Media { seq, len } => {
            push_named(text, "media seq ", u64::from(seq))?;
            push_named(text, " len ", u64::from(len))
        }
        Reading::NoMedia(fault) => push_named(text, "media bad ", media_number(fault)),
        Reading::Parity {
            kind,
            base,
            offset,
            na,
        } => {
            text.extend_from_slice(word_for(kind).as_bytes())?;
            push_named(text, " base ", u64::from(base))?;
            push_named(text, " offset ", u64::from(offset))?;
            push_named(text, " na ", u64::from(na))
        }
        Reading::NoParity(kind, fault) => {
            text.extend_from_slice(word_for(kind).as_bytes())?;
            push_named(text, " bad ", fec_number(fault))
        }
        Reading::Other => text.extend_from_slice(b"other"),
    }
}

/// Pushes the line of a record with this number.
#[tactic(auto, unfolding(crate::specs::Text::line))]
fn push_line(
    text: &mut Vec<u8>,
    number: u64,
    time: u64,
    port: u16,
    size: u16,
    reading: Reading,
) -> Result<(), AllocError>
    ensures { OnOk result (text.new.items ≡ text.old.items ++ line number time port size reading) }
{
    push_number(text, number)?;
    push_named(text, " ", time)?;
    push_named(text, " ", u64::from(port))?;
    push_named(text, " ", u64::from(size))?;
    text.push(b' ')?;
    push_reading(text, reading)?;
    text.push(b'\n')?;
    Ok(())
}

impl Lines {
    /// No lines, with the memory to make and to hold them.
    pub(crate) fn new(alloc: Global) -> Result<Lines, AllocError>
        ensures { IfOk result (λ lines. (lines.held ≡ []) × (lines.number ≡ 0)) }
    {
        Ok(Lines {
            line: Vec::with_capacity(alloc, LINE)?,
            held: OutputBuffer::new(alloc, ROOM)?,
            number: 0,
        })
    }

    /// Adds the line of the next record, and writes what is held where there is no more room.
    pub(crate) fn add<K: Sink>(
        &mut self,
        time: u64,
        port: u16,
        size: u16,
        reading: Reading,
        out: &mut K,
    ) -> Result<(), Fault>
        requires { self.old.number < 2 ^ 60 }
        ensures sent { OnOk result (Sent (K.written out.old)
            (self.old.held ++ line self.old.number time port size reading)
            self.new.held (K.written out.new)) }
        ensures part { OnErr result (GainsPart (K.written out.old)
            (self.old.held ++ line self.old.number time port size reading)
            (K.written out.new)) }
        ensures number { OnOk result (self.new.number ≡ self.old.number + 1) }
        ensures faults { Counts result [] ((K.faults out.old, K.faults out.new) ∷ []) }
    {
        self.line.clear();
        push_line(&mut self.line, self.number, time, port, size, reading)?;
        self.held.add(&self.line, out)?;
        self.number += 1;
        Ok(())
    }
}
