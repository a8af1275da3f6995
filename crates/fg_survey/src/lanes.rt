//! The parity that goes with media ports.
ghost use Rattle.std.specs.Prelude.{◌≡◌, ◌≢◌, ◌+◌, ◌<◌, ◌≤◌, ◌^◌, ◌∷◌, ◌++◌, [], ℕ, IfOk, IfSome, List, Option, None, OnOk, false, get_or, length, map};
ghost use Rattle.fg_survey.specs.Heard.{Heard};
ghost use Rattle.fg_survey.specs.declared.reading.Reading.TheVariants.{Parity};
ghost use Rattle.fg_survey.specs.Lanes.{AreApart, AreLanesBelow, ArePlaces, FitsCounts, IsLane, IsLaneAt, KeepsLanes, has_port, heard_as, port_of};
ghost use Rattle.fg_survey.specs.Matrix.{ahead_by, ahead_of};
ghost use Rattle.fg_survey.specs.Steps.{KeepsStreams, media_heard};
ghost use Rattle.fg_survey.specs.Tallies.{IsTally};

use crate::ports::PORTS;
use crate::reading::Reading;
use crate::senders::{Sender, find_near};
use crate::streams::{Media, Streams};
use crate::tally::Tally;
use fg_streams::Span;
use std::alloc::{AllocError, Global};

/// A port with a stream, and the parity that came after its first media datagram.
#[derive(Drop)]
pub(crate) struct Lane {
    /// The port of the media datagrams.
    pub(crate) port: u16,
    /// The sender of the last of them.
    pub(crate) ssrc: u32,
    /// Where this sender's stream stood of late: it is sought there first.
    pub(crate) near: usize,
    pub(crate) tally: Tally,
}

/// The lanes, and where to look for that of a port.
#[derive(Drop)]
pub(crate) struct Lanes {
    pub(crate) lanes: Vec<Lane>,
    /// For each port 0 where it has no lane, else one more than the place where it most likely stands.
    pub(crate) places: Vec<u16>,
}

/// What a parity datagram says.
#[derive(Clone, Copy)]
pub(crate) struct Protects {
    pub(crate) base: u16,
    pub(crate) offset: u8,
    pub(crate) number: u8,
}

/// How far a stream's top is ahead of a base.
fn ahead_of(span: Option<Span>, base: u16) -> u64
    ensures { result ≡ ahead_of base span }
{
    let Some(span) = span else {
        return 0;
    };
    let by = (span.top % 65_536 + 65_536 - u64::from(base)) % 65_536;
    if by < 32_768 { by } else { 0 }
}

/// How far the top of a sender's stream is ahead of a base, where the stream is told.
fn ahead_by(streams: &Streams, near: usize, sender: Sender, base: u16) -> u64
    requires { (heard : List Heard) × KeepsStreams streams.now heard }
    ensures { (heard : List Heard) → KeepsStreams streams.now heard → result ≡ ahead_by heard base sender }
{
    match find_near(&streams.senders, sender, near) {
        Some(place) => ahead_of(streams.streams[place].span(), base),
        None => 0,
    }
}

/// The place of the lane of this port.
pub(crate) fn find_lane(lanes: &[Lane], port: u16) -> Option<usize>
    ensures found { IfSome result (λ place. IsLaneAt lanes.now port place) }
    ensures none { result ≡ None → has_port (map port_of lanes.now) port ≡ false }
{
    for i in 0..lanes.len() {
        if lanes[i].port == port {
            return Some(i);
        }
    }
    None
}

/// The same, where it most likely stands at this place.
fn find_lane_near(lanes: &[Lane], port: u16, near: usize) -> Option<usize>
    ensures found { IfSome result (λ place. IsLaneAt lanes.now port place) }
    ensures none { result ≡ None → has_port (map port_of lanes.now) port ≡ false }
{
    if near < lanes.len() && lanes[near].port == port {
        return Some(near);
    }
    find_lane(lanes, port)
}

impl Lane {
    /// The lane of a port whose first media datagram is of this sender.
    fn new(alloc: Global, sender: Sender, near: usize) -> Result<Lane, AllocError>
        ensures port { IfOk result (λ lane. lane.port ≡ sender.port) }
        ensures ssrc { IfOk result (λ lane. lane.ssrc ≡ sender.ssrc) }
        ensures tally { IfOk result (λ lane. IsTally lane.tally [] []) }
    {
        Ok(Lane {
            port: sender.port,
            ssrc: sender.ssrc,
            near,
            tally: Tally::new(alloc)?,
        })
    }

    /// Takes a parity datagram on this port.
    fn take(&mut self, streams: &Streams, port: u16, parity: Protects)
        requires offset { (1 ≤ parity.offset) × (parity.offset ≤ 20) }
        requires number { (1 ≤ parity.number) × (parity.number ≤ 20) }
        requires few { (before : List Heard) × IsLane self.old before × (length before < 2 ^ 40) }
        requires known { (heard : List Heard) × KeepsStreams streams.now heard }
        ensures lane { (before : List Heard) (time : ℕ) (datagram : List ℕ) → KeepsStreams streams.now before
            → IsLane self.old before
            → IsLane self.new (heard_as time port datagram (Parity parity.base parity.offset parity.number) ∷ before) }
        ensures port { self.new.port ≡ self.old.port }
    {
        let sender = Sender {
            port: self.port,
            ssrc: self.ssrc,
        };
        let Protects {
            base,
            offset,
            number,
        } = parity;
        if u32::from(port) == u32::from(self.port) + 2 {
            self.tally
                .take_column(offset, number, ahead_by(streams, self.near, sender, base));
            return;
        }
        if u32::from(port) == u32::from(self.port) + 4 {
            self.tally
                .take_row(offset, number, ahead_by(streams, self.near, sender, base));
            return;
        }
    }
}

impl Lanes {
    /// No lane.
    pub(crate) fn new(alloc: Global) -> Result<Lanes, AllocError>
        ensures { IfOk result (λ lanes. KeepsLanes lanes []) }
    {
        Ok(Lanes {
            lanes: Vec::new(alloc),
            places: vec![in alloc; 0; PORTS]?,
        })
    }

    /// The place of the lane of this port.
    fn find(&self, port: u16) -> Option<usize>
        requires { ArePlaces self.now.places.items self.now.lanes.items }
        ensures found { IfSome result (λ place. IsLaneAt self.now.lanes.items port place) }
        ensures none { result ≡ None → has_port (map port_of self.now.lanes.items) port ≡ false }
    {
        let place = usize::from(self.places[usize::from(port)]);
        if place == 0 {
            return None;
        }
        find_lane_near(&self.lanes, port, place - 1)
    }

    /// Adds the lane of a port that has none.
    fn add(&mut self, lane: Lane) -> Result<(), AllocError>
        requires { ArePlaces self.old.places.items self.old.lanes.items }
        ensures lanes { OnOk result (self.new.lanes.items ≡ self.old.lanes.items ++ lane ∷ []) }
        ensures places { OnOk result (ArePlaces self.new.places.items self.new.lanes.items) }
    {
        let place = u16::try_from(self.lanes.len().saturating_add(1))
            .unwrap_or(0)
            .max(1);
        self.places[usize::from(lane.port)] = place;
        self.lanes.push(lane)?;
        Ok(())
    }

    /// Takes a parity datagram on this port for the lane so many ports below, where there is one.
    fn take_below(&mut self, streams: &Streams, below: u16, port: u16, parity: Protects)
        requires offset { (1 ≤ parity.offset) × (parity.offset ≤ 20) }
        requires number { (1 ≤ parity.number) × (parity.number ≤ 20) }
        requires places { ArePlaces self.old.places.items self.old.lanes.items }
        requires apart { AreApart self.old.lanes.items }
        requires few { (before : List Heard) × AreLanesBelow self.old.lanes.items below port before × (length before < 2 ^ 40) }
        requires known { (heard : List Heard) × KeepsStreams streams.now heard }
        ensures ports { map port_of self.new.lanes.items ≡ map port_of self.old.lanes.items }
        ensures places { self.new.places.items ≡ self.old.places.items }
        ensures others { (i : ℕ) (d : Lane) → i < length self.old.lanes.items
            → (get_or self.old.lanes.items i d).port + below ≢ port
            → get_or self.new.lanes.items i d ≡ get_or self.old.lanes.items i d }
        ensures own { (before : List Heard) (time : ℕ) (datagram : List ℕ) → KeepsStreams streams.now before
            → AreLanesBelow self.old.lanes.items below port before
            → AreLanesBelow self.new.lanes.items below port (heard_as time port datagram (Parity parity.base parity.offset parity.number) ∷ before) }
    {
        let Some(media) = port.checked_sub(below) else {
            return;
        };
        if let Some(place) = self.find(media) {
            self.lanes[place].take(streams, port, parity);
        }
    }

    /// Takes a parity datagram on this port: a column's goes with the media two ports below, a row's with that four below.
    fn take_parity(&mut self, streams: &Streams, port: u16, parity: Protects)
        requires offset { (1 ≤ parity.offset) × (parity.offset ≤ 20) }
        requires number { (1 ≤ parity.number) × (parity.number ≤ 20) }
        requires few { (before : List Heard) × KeepsLanes self.old before × (length before < 2 ^ 40) }
        requires known { (heard : List Heard) × KeepsStreams streams.now heard }
        ensures { (before : List Heard) (time : ℕ) (datagram : List ℕ) → KeepsStreams streams.now before
            → KeepsLanes self.old before
            → KeepsLanes self.new (heard_as time port datagram (Parity parity.base parity.offset parity.number) ∷ before) }
    {
        self.take_below(streams, 2, port, parity);
        self.take_below(streams, 4, port, parity);
    }

    /// Takes a media datagram, which its stream has taken.
    fn take_media(
        &mut self,
        alloc: Global,
        streams: &Streams,
        media: Media,
    ) -> Result<(), AllocError>
        requires { (before : List Heard) × KeepsLanes self.old before }
        ensures { OnOk result ((before : List Heard) (datagram : List ℕ)
            → KeepsStreams streams.now (media_heard media datagram ∷ before)
            → KeepsLanes self.old before → KeepsLanes self.new (media_heard media datagram ∷ before)) }
    {
        match self.find(media.sender.port) {
            Some(place) => {
                let lane = &mut self.lanes[place];
                lane.ssrc = media.sender.ssrc;
                lane.near = streams.near;
                Ok(())
            }
            None => self.take_first(alloc, streams, media),
        }
    }

    /// The same of one whose port has no lane.
    fn take_first(
        &mut self,
        alloc: Global,
        streams: &Streams,
        media: Media,
    ) -> Result<(), AllocError>
        requires none { has_port (map port_of self.old.lanes.items) media.sender.port ≡ false }
        requires places { ArePlaces self.old.places.items self.old.lanes.items }
        ensures { OnOk result ((before : List Heard) (datagram : List ℕ)
            → KeepsStreams streams.now (media_heard media datagram ∷ before)
            → KeepsLanes self.old before → KeepsLanes self.new (media_heard media datagram ∷ before)) }
    {
        match find_near(&streams.senders, media.sender, streams.near) {
            None => Ok(()),
            Some(near) => {
                let lane = Lane::new(alloc, media.sender, near)?;
                self.add(lane)?;
                Ok(())
            }
        }
    }

    /// Takes a record, which its stream has taken if it is a media datagram.
    pub(crate) fn take(
        &mut self,
        alloc: Global,
        streams: &Streams,
        time: u64,
        port: u16,
        reading: Reading,
    ) -> Result<(), AllocError>
        requires fits { FitsCounts reading }
        requires few { (before : List Heard) × KeepsLanes self.old before × (length before < 2 ^ 40) }
        requires known { (heard : List Heard) × KeepsStreams streams.now heard }
        ensures { OnOk result ((before : List Heard) (datagram : List ℕ)
            → KeepsStreams streams.now (heard_as time port datagram reading ∷ before)
            → KeepsLanes self.old before → KeepsLanes self.new (heard_as time port datagram reading ∷ before)) }
    {
        match reading {
            Reading::Media { seq, ts, ssrc } => {
                let media = Media::new(time, port, seq, ts, ssrc);
                self.take_media(alloc, streams, media)
            }
            Reading::Parity {
                base,
                offset,
                number,
            } => {
                let parity = Protects {
                    base,
                    offset,
                    number,
                };
                self.take_parity(streams, port, parity);
                Ok(())
            }
            Reading::Other => Ok(()),
        }
    }
}
