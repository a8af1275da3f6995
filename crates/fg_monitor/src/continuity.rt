//! The continuity of a stream, packet by packet.
ghost use Rattle.std.specs.Prelude.{◌≡◌, ◌+◌, ◌∷◌, ◌++◌, ◌<◌, ◌≤◌, ◌^◌, ◌↔◌, ◌⊎◌, ℕ, Option, None, Some, List, [], length, slice_index, IsTrue, IfOk, IfSome};
ghost use Rattle.fg_ts.specs.Fields.{AnnouncesBreak, HasPayload, counter_of};
ghost use Rattle.fg_ts.specs.Packets.{sync_byte};
ghost use Rattle.fg_monitor.specs.Continuity.{IsToldOf};
ghost use Rattle.fg_monitor.specs.Kept.{HasSeen};
ghost use Rattle.fg_monitor.specs.Steps.{GoesOnFrom, IsBreakOf, Repeats};

use fg_ts::{PACKET_LENGTH, break_there, counter, null_packet, payload_there, pid};
use std::alloc::{AllocError, Global};
use std::marker::Model;

/// How many PIDs there are, of 13 bits.
const PIDS: usize = 8192;

/// A packet whose continuity counter doesn't go on from that of the last packet of its PID.
#[derive(Clone, Copy, Debug, PartialEq, Eq)]
pub struct Break {
    /// The packet's number in the stream, counted from 0.
    pub packet: u64,
    /// Its PID, of 13 bits.
    pub pid: u16,
    /// Its continuity counter, of 4 bits.
    pub counter: u8,
    /// The counter of the last packet with this PID before it.
    pub before: u8,
}

/// What is kept of a packet.
#[derive(Clone, Copy)]
struct Last {
    counter: u8,
    payload: bool,
    // Whether it repeats the packet of its PID before it.
    repeat: bool,
}

/// Finds the breaks of a stream's continuity counters (ISO/IEC 13818-1), packet by packet.
///
/// The counter of a PID rises by one modulo 16 on each packet with payload, and stays on packets without. A packet may be
/// repeated once. A packet that announces a break may have any counter, and the next of its PID counts on from it. Null packets
/// aren't counted.
#[derive(Drop)]
pub struct Monitor {
    fed: u64,
    // By PID.
    lasts: Vec<Option<Last>>,
}

impl Model for Monitor {
    ghost use Rattle.std.specs.Prelude.{◌≡◌, length};
    ghost use Rattle.fg_monitor.specs.Kept.{MonitorState};

    ghost Value = { MonitorState };

    ghost view = { λ a. record { fed = a.fed; lasts = a.lasts.items } };

    ghost invariant = { λ a. length a.lasts.items ≡ 8192 };
}

impl Monitor {
    /// A monitor that was fed nothing. All its memory is taken here.
    pub fn new(alloc: Global) -> Result<Monitor, AllocError>
        ensures { IfOk result (λ monitor. HasSeen monitor []) }
    {
        Ok(Monitor {
            fed: 0,
            lasts: vec![in alloc; None; PIDS]?,
        })
    }

    /// Takes the next packet of the stream, and tells its fault, where it is one.
    ///
    /// The packet begins with the sync byte, and fewer than 2^40 packets were fed before.
    pub fn feed(&mut self, packet: &[u8; PACKET_LENGTH]) -> Option<Break>
        requires sync { slice_index packet.now 0 ≡ sync_byte }
        requires few { self.old.fed < 2 ^ 40 }
        ensures tells { (packets : List (List ℕ)) → HasSeen self.old packets
            → IsToldOf (packets ++ packet.now ∷ []) (length packets) result }
        ensures seen { (packets : List (List ℕ)) → HasSeen self.old packets
            → HasSeen self.new (packets ++ packet.now ∷ []) }
    {
        let number = self.fed;
        self.fed += 1;
        if null_packet(packet) {
            return None;
        }
        let place = usize::from(pid(packet));
        let before = self.lasts[place];
        let now = kept_of(before, packet);
        self.lasts[place] = Some(now);
        break_of(number, before, now, packet)
    }

    /// How many packets were fed.
    pub(crate) fn fed(&self) -> u64
        ensures { result ≡ self.now.fed }
    {
        self.fed
    }
}

/// What is kept of a packet, where this is kept of the last one of its PID.
fn kept_of(before: Option<Last>, packet: &[u8; PACKET_LENGTH]) -> Last
    ensures counter { result.counter ≡ counter_of packet.now }
    ensures payload { IsTrue result.payload ↔ HasPayload packet.now }
    ensures first { before ≡ None → ¬ IsTrue result.repeat }
    ensures repeat { IfSome before (λ last. IsTrue result.repeat ↔ Repeats last packet.now) }
{
    Last {
        counter: counter(packet),
        payload: payload_there(packet),
        repeat: match before {
            Some(last) => repeats(last, packet),
            None => false,
        },
    }
}

/// What there is to tell of the packet with this number, of which `now` is kept, where `before` is kept of the last one of its
/// PID.
fn break_of(
    number: u64,
    before: Option<Last>,
    now: Last,
    packet: &[u8; PACKET_LENGTH],
) -> Option<Break>
    requires counter { now.counter ≡ counter_of packet.now }
    requires payload { IsTrue now.payload ↔ HasPayload packet.now }
    ensures { IsBreakOf number before packet.now result }
{
    let last = before?;
    if goes_on(last, now, packet) {
        return None;
    }
    Some(Break {
        packet: number,
        pid: pid(packet),
        counter: now.counter,
        before: last.counter,
    })
}

/// Whether the packet is a repeat, where this is kept of the last one of its PID.
fn repeats(last: Last, packet: &[u8; PACKET_LENGTH]) -> bool
    ensures { IsTrue result ↔ Repeats last packet.now }
{
    counter(packet) == last.counter && last.payload && payload_there(packet) && !break_there(packet)
}

/// Whether the packet, of which `now` is kept, is no fault, where `last` is kept of the last one of its PID.
fn goes_on(last: Last, now: Last, packet: &[u8; PACKET_LENGTH]) -> bool
    requires counter { now.counter ≡ counter_of packet.now }
    requires payload { IsTrue now.payload ↔ HasPayload packet.now }
    ensures { IsTrue result ↔ (AnnouncesBreak packet.now ⊎ GoesOnFrom last packet.now) }
{
    let stays = now.counter == last.counter;
    let rises = now.counter == last.counter.wrapping_add(1) % 16;
    let right = if now.payload {
        rises || stays && last.payload && !last.repeat
    } else {
        stays
    };
    right || break_there(packet)
}
