//! A stream: the media datagrams of one sender on one port.
ghost use Rattle.std.specs.Prelude.{◌≡◌, ◌<◌, ◌^◌, ◌∷◌, [], ℕ, List, IfOk, OnOk, length};
ghost use Rattle.fg_streams.specs.Arrival.{Arrival};
ghost use Rattle.fg_streams.specs.Fates.{expected_in, first_in};
ghost use Rattle.fg_streams.specs.Steps.{IsStreamOf, told};
ghost use Rattle.fg_streams.specs.Summary.{summary_of};

use crate::bursts::{Burst, Lengths};
use crate::fates::Counts;
use crate::pace::Pace;
use crate::packets::{count_marks, mark, no_marks};
use crate::receiving::receive;
use crate::span::Span;
use crate::times::Times;
use std::alloc::{AllocError, Global};
use std::marker::Model;

/// What a stream shows, as it is taken datagram by datagram.
#[derive(Drop)]
pub struct Stream {
    span: Option<Span>,
    counts: Counts,
    times: Times,
    pace: Pace,
    // For each PID whether a packet had it.
    marks: Vec<bool>,
}

impl Model for Stream {
    ghost use Rattle.fg_streams.specs.Steps.{StreamHolds, StreamState};

    ghost Value = { StreamState };

    ghost view = { λ a. record { span = a.span; counts = a.counts; times = a.times; pace = a.pace; marks = a.marks.items } };

    ghost invariant = { λ a. StreamHolds a.span a.marks.items };
}

impl Stream {
    /// A stream that has no datagram yet. All its memory is taken here, about 25 KB.
    pub fn new(alloc: Global) -> Result<Stream, AllocError>
        ensures { IfOk result (λ stream. IsStreamOf stream []) }
    {
        Ok(Stream {
            span: None,
            counts: Counts::new(),
            times: Times::new(alloc)?,
            pace: Pace::new(),
            marks: no_marks(alloc)?,
        })
    }

    /// Takes the next datagram: its time in microseconds, its sequence number, its timestamp and its payload.
    ///
    /// After want of memory the stream tells nothing.
    pub fn take(&mut self, time: u64, seq: u16, ts: u32, payload: &[u8]) -> Result<(), AllocError>
        requires { (before : List Arrival) × IsStreamOf self.old before × (length before < 2 ^ 40) }
        ensures { OnOk result ((before : List Arrival) → IsStreamOf self.old before
            → IsStreamOf self.new ((record { time = time; seq = seq; ts = ts; payload = payload.now }) ∷ before)) }
    {
        let fate = receive(&mut self.span, &mut self.times, seq, time)?;
        self.counts.add(fate);
        self.pace.take(time, ts);
        mark(payload, &mut self.marks);
        Ok(())
    }

    /// Ends the stream: what it tells then is its summary.
    ///
    /// After want of memory the stream tells nothing.
    pub fn finish(&mut self) -> Result<(), AllocError>
        requires { (arrivals : List Arrival) × IsStreamOf self.old arrivals × (length arrivals < 2 ^ 40) }
        ensures { OnOk result ((arrivals : List Arrival) → IsStreamOf self.old arrivals
            → told self.new ≡ summary_of arrivals) }
    {
        self.times.finish()
    }

    /// The positions from the first to the top, once a datagram has come.
    pub fn span(&self) -> Option<Span>
        ensures { result ≡ (told self.now).span }
    {
        self.span
    }

    /// The first position, once a datagram has come.
    pub fn first(&self) -> u64
        ensures { result ≡ first_in (told self.now).span }
    {
        match self.span {
            None => 0,
            Some(span) => span.first,
        }
    }

    /// How many positions there are from the first to the top (RFC 3550, A.3).
    pub fn expected(&self) -> u64
        ensures { result ≡ expected_in (told self.now).span }
    {
        match self.span {
            None => 0,
            Some(span) => span.top.saturating_sub(span.first) + 1,
        }
    }

    /// What became of the datagrams.
    pub fn counts(&self) -> Counts
        ensures { result ≡ (told self.now).counts }
    {
        self.counts
    }

    /// The pace.
    pub fn pace(&self) -> Pace
        ensures { result ≡ (told self.now).pace }
    {
        self.pace
    }

    /// The bursts of losses by their lengths, once the stream has ended.
    pub fn lengths(&self) -> Lengths
        ensures { result ≡ (told self.now).lengths }
    {
        self.times.gaps.lengths
    }

    /// The ten longest bursts, once the stream has ended: the longest first, and of those as long the earliest.
    pub fn longest(&self) -> &[Burst]
        ensures { result.now ≡ (told self.now).longest }
    {
        &self.times.gaps.longest
    }

    /// How many PIDs the packets have.
    pub fn pids(&self) -> u64
        ensures { result ≡ (told self.now).pids }
    {
        count_marks(&self.marks)
    }
}
