//! The lines of a monitored stream, made one after another.
ghost use Rattle.std.specs.Prelude.{◌≡◌, ◌+◌, ◌<◌, ◌^◌, ◌++◌, [], ◌∷◌, IfOk, OnOk, OnErr, is_some};
ghost use Rattle.std.specs.List.{count_by};
ghost use Rattle.std.specs.Fmt.{decimal};
ghost use Rattle.fg_io.specs.Faults.{Counts};
ghost use Rattle.fg_io.specs.Sent.{Sent};
ghost use Rattle.fg_io.specs.Sink.{Gains, GainsPart};
ghost use Rattle.fg_monitor.specs.Text.{closing, last_line, line, line_if};

use crate::continuity::Break;
use fg_encode::stream::StreamFault;
use fg_io::{Fault, OutputBuffer, Sink};
use itoa::Buffer;
use std::alloc::{AllocError, Global};

/// How many bytes of the lines are gathered before they are written.
const ROOM: usize = 16_384;

/// Room for a line.
const LINE: usize = 128;

/// The lines that are held, and how many faults were told.
#[derive(Drop)]
pub(crate) struct Lines {
    // A line is made here.
    line: Vec<u8>,
    pub(crate) held: OutputBuffer,
    pub(crate) faults: u64,
}

/// Pushes some words and a number in decimal.
fn push_named(text: &mut Vec<u8>, words: &str, number: u64) -> Result<(), AllocError>
    ensures { OnOk result (text.new.items ≡ text.old.items ++ words.now ++ decimal number) }
{
    text.extend_from_slice(words.as_bytes())?;
    let mut digits = Buffer::new();
    text.extend_from_slice(digits.format(number).as_bytes())
}

/// Pushes the line of a fault.
#[tactic(auto, unfolding(crate::specs::Text::line))]
fn push_line(text: &mut Vec<u8>, told: Break) -> Result<(), AllocError>
    ensures { OnOk result (text.new.items ≡ text.old.items ++ line told) }
{
    push_named(text, "packet ", told.packet)?;
    push_named(text, " pid ", u64::from(told.pid))?;
    push_named(text, " counter ", u64::from(told.counter))?;
    push_named(text, " after ", u64::from(told.before))?;
    text.push(b'\n')?;
    Ok(())
}

/// Pushes the last line.
#[tactic(auto, unfolding(crate::specs::Text::last_line))]
fn push_last_line(text: &mut Vec<u8>, packets: u64, faults: u64) -> Result<(), AllocError>
    ensures { OnOk result (text.new.items ≡ text.old.items ++ last_line packets faults) }
{
    push_named(text, "packets ", packets)?;
    push_named(text, " faults ", faults)?;
    text.extend_from_slice(b"\n")
}

impl Lines {
    /// No lines, with the memory to make and to hold them.
    pub(crate) fn new(alloc: Global) -> Result<Lines, AllocError>
        ensures { IfOk result (λ lines. (lines.held ≡ []) × (lines.faults ≡ 0)) }
    {
        Ok(Lines {
            line: Vec::with_capacity(alloc, LINE)?,
            held: OutputBuffer::new(alloc, ROOM)?,
            faults: 0,
        })
    }

    /// Adds what there is to tell of the next packet, and writes what is held where there is no more room.
    #[inline]
    pub(crate) fn add<K: Sink>(&mut self, told: Option<Break>, out: &mut K) -> Result<(), Fault>
        requires { self.old.faults < 2 ^ 60 }
        ensures sent { OnOk result (Sent (K.written out.old) (self.old.held ++ line_if told)
            self.new.held (K.written out.new)) }
        ensures part { OnErr result (GainsPart (K.written out.old) (self.old.held ++ line_if told)
            (K.written out.new)) }
        ensures faults { OnOk result (self.new.faults
            ≡ self.old.faults + count_by is_some (told ∷ [])) }
        ensures counts { Counts result [] ((K.faults out.old, K.faults out.new) ∷ []) }
    {
        match told {
            Some(told) => self.add_line(told, out),
            None => Ok(()),
        }
    }

    /// Adds the line of a fault.
    // Seldom called: apart from this, `add` is a few instructions where it is called.
    #[inline(never)]
    fn add_line<K: Sink>(&mut self, told: Break, out: &mut K) -> Result<(), Fault>
        requires { self.old.faults < 2 ^ 60 }
        ensures sent { OnOk result (Sent (K.written out.old) (self.old.held ++ line told)
            self.new.held (K.written out.new)) }
        ensures part { OnErr result (GainsPart (K.written out.old) (self.old.held ++ line told)
            (K.written out.new)) }
        ensures faults { OnOk result (self.new.faults ≡ self.old.faults + 1) }
        ensures counts { Counts result [] ((K.faults out.old, K.faults out.new) ∷ []) }
    {
        self.line.clear();
        push_line(&mut self.line, told)?;
        self.held.add(&self.line, out)?;
        self.faults += 1;
        Ok(())
    }

    /// Adds the last line, where the stream ends with its last packet, and writes all that is held.
    pub(crate) fn close<K: Sink>(
        &mut self,
        ending: Option<StreamFault>,
        packets: u64,
        out: &mut K,
    ) -> Result<(), Fault>
        ensures whole { OnOk result (Gains (K.written out.old)
            (self.old.held ++ closing ending packets self.old.faults) (K.written out.new)) }
        ensures part { OnErr result (GainsPart (K.written out.old)
            (self.old.held ++ closing ending packets self.old.faults) (K.written out.new)) }
        ensures counts { Counts result [] ((K.faults out.old, K.faults out.new) ∷ []) }
    {
        self.add_closing(ending, packets, out)?;
        self.held.flush(out)
    }

    /// Adds the last line, where the stream ends with its last packet.
    fn add_closing<K: Sink>(
        &mut self,
        ending: Option<StreamFault>,
        packets: u64,
        out: &mut K,
    ) -> Result<(), Fault>
        ensures sent { OnOk result (Sent (K.written out.old)
            (self.old.held ++ closing ending packets self.old.faults)
            self.new.held (K.written out.new)) }
        ensures part { OnErr result (GainsPart (K.written out.old)
            (self.old.held ++ closing ending packets self.old.faults) (K.written out.new)) }
        ensures counts { Counts result [] ((K.faults out.old, K.faults out.new) ∷ []) }
    {
        match ending {
            None => {
                self.line.clear();
                push_last_line(&mut self.line, packets, self.faults)?;
                self.held.add(&self.line, out)
            }
            Some(StreamFault::NotTransport(_) | StreamFault::TooLong(_)) => Ok(()),
        }
    }
}
