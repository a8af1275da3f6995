//! The streams of a trace.
ghost use Rattle.std.specs.Prelude.{◌≡◌, ◌<◌, ◌^◌, ◌∷◌, [], List, IfOk, OnOk, false, length};
ghost use Rattle.fg_survey.specs.Heard.{Heard};
ghost use Rattle.fg_streams.specs.Steps.{IsStreamOf};
ghost use Rattle.fg_survey.specs.Steps.{KeepsStreams, HaveEnded, IsFoundAt, arrival_of, media_heard};
ghost use Rattle.fg_survey.specs.Senders.{listed};

use crate::reading::Reading;
use crate::senders::{Sender, find_near};
use fg_rtp::payload;
use fg_streams::Stream;
use std::alloc::{AllocError, Global};

/// The most streams.
const MOST: usize = 256;

/// The streams of a trace, and how many media datagrams are of none of them.
#[derive(Drop)]
pub(crate) struct Streams {
    /// The sender of each.
    pub(crate) senders: Vec<Sender>,
    pub(crate) streams: Vec<Stream>,
    /// How many media datagrams are of other senders.
    pub(crate) more: u64,
    /// Where the latest sender was found: the next is sought there first.
    pub(crate) near: usize,
}

/// A media datagram.
#[derive(Clone, Copy)]
pub(crate) struct Media {
    pub(crate) time: u64,
    pub(crate) sender: Sender,
    pub(crate) seq: u16,
    pub(crate) ts: u32,
}

impl Media {
    /// The media datagram with these numbers that came at this time on this port.
    pub(crate) fn new(time: u64, port: u16, seq: u16, ts: u32, ssrc: u32) -> Media
        ensures { result ≡ record { time = time; sender = record { port = port; ssrc = ssrc }; seq = seq; ts = ts } }
    {
        Media {
            time,
            sender: Sender { port, ssrc },
            seq,
            ts,
        }
    }
}

impl Streams {
    /// No stream.
    pub(crate) fn new(alloc: Global) -> Streams
        ensures { KeepsStreams result [] }
    {
        Streams {
            senders: Vec::new(alloc),
            streams: Vec::new(alloc),
            more: 0,
            near: 0,
        }
    }

    /// Takes a record.
    pub(crate) fn take(
        &mut self,
        alloc: Global,
        time: u64,
        port: u16,
        reading: Reading,
        datagram: &[u8],
    ) -> Result<(), AllocError>
        requires { (before : List Heard) × KeepsStreams self.old before × (length before < 2 ^ 40) }
        ensures { OnOk result ((before : List Heard) → KeepsStreams self.old before
            → KeepsStreams self.new ((record { time = time; port = port; datagram = datagram.now; reading = reading }) ∷ before)) }
    {
        match reading {
            Reading::Media { seq, ts, ssrc } => {
                let media = Media::new(time, port, seq, ts, ssrc);
                self.take_media(alloc, media, datagram)
            }
            Reading::Parity { .. } => Ok(()),
            Reading::Other => Ok(()),
        }
    }

    /// Takes a media datagram.
    fn take_media(&mut self, alloc: Global, media: Media, datagram: &[u8]) -> Result<(), AllocError>
        requires { (before : List Heard) × KeepsStreams self.old before × (length before < 2 ^ 40) }
        ensures { OnOk result ((before : List Heard) → KeepsStreams self.old before
            → KeepsStreams self.new (media_heard media datagram.now ∷ before)) }
    {
        match find_near(&self.senders, media.sender, self.near) {
            Some(place) => {
                self.near = place;
                self.take_at(place, media, datagram)
            }
            None => self.take_new(alloc, media, datagram),
        }
    }

    /// The same of a sender whose stream stands at this place.
    fn take_at(&mut self, place: usize, media: Media, datagram: &[u8]) -> Result<(), AllocError>
        requires few { (before : List Heard) × KeepsStreams self.old before × (length before < 2 ^ 40) }
        requires found { IsFoundAt self.old.senders.items media.sender place }
        ensures { OnOk result ((before : List Heard) → KeepsStreams self.old before
            → KeepsStreams self.new (media_heard media datagram.now ∷ before)) }
    {
        let Media { time, seq, ts, .. } = media;
        self.streams[place].take(time, seq, ts, payload(datagram))
    }

    /// The same of a sender that has no stream.
    fn take_new(&mut self, alloc: Global, media: Media, datagram: &[u8]) -> Result<(), AllocError>
        requires few { (before : List Heard) × KeepsStreams self.old before × (length before < 2 ^ 40) }
        requires new { listed self.old.senders.items media.sender ≡ false }
        ensures { OnOk result ((before : List Heard) → KeepsStreams self.old before
            → KeepsStreams self.new (media_heard media datagram.now ∷ before)) }
    {
        if self.senders.len() >= MOST {
            self.more += 1;
            return Ok(());
        }
        let stream = begun(alloc, media, datagram)?;
        self.senders.push(media.sender)?;
        self.streams.push(stream)?;
        Ok(())
    }

    /// Ends all streams: they then tell what they show.
    pub(crate) fn finish(&mut self) -> Result<(), AllocError>
        requires { (heard : List Heard) × KeepsStreams self.old heard × (length heard < 2 ^ 40) }
        ensures ended { OnOk result ((heard : List Heard) → KeepsStreams self.old heard → HaveEnded self.new heard) }
        ensures more { self.new.more ≡ self.old.more }
    {
        for i in 0..self.streams.len() {
            self.streams[i].finish()?;
        }
        Ok(())
    }
}

/// A stream of one datagram.
fn begun(alloc: Global, media: Media, datagram: &[u8]) -> Result<Stream, AllocError>
    ensures { IfOk result (λ stream. IsStreamOf stream (arrival_of media datagram.now ∷ [])) }
{
    let mut stream = Stream::new(alloc)?;
    stream.take(media.time, media.seq, media.ts, payload(datagram))?;
    Ok(stream)
}
