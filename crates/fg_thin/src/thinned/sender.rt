//! What is sent of payloads, as bytes of a trace.
ghost use Rattle.std.specs.Prelude.{◌≡◌, ◌+◌, ◌*◌, ◌<◌, ◌≤◌, ◌^◌, List, ℕ, IfOk, length, min, take, drop, true, false, [], ◌∷◌, ◌++◌};
ghost use Rattle.std.specs.List.{flat_map};
ghost use Rattle.fg_ts.specs.Packets.{ArePackets};
ghost use Rattle.fg_trace.specs.Trace.{magic, spelling};
ghost use Rattle.fg_encode.specs.Encoder.{StandsAfter};
ghost use Rattle.fg_shape.specs.Settings.{CanEncode};
ghost use Rattle.fg_encode.specs.Encoding.{records_at};
ghost use Rattle.fg_thin.specs.Thinned.{is_lost, without};

use super::lost::Lost;
use super::outgoing::Outgoing;
use fg_encode::{Batch, Encoder};
use fg_shape::{Losses, Settings};
use std::alloc::{AllocError, Global};
use std::marker::Model;

/// Encodes payloads, leaves records out, and holds the bytes of the others until they are given.
#[derive(Drop)]
pub(crate) struct Sender {
    encoder: Encoder,
    batch: Batch,
    lost: Lost,
    number: u64,
    outgoing: Outgoing,
}

impl Model for Sender {
    ghost use Rattle.fg_thin.specs.Sending.{SenderState};

    ghost Value = { SenderState };

    ghost view = { λ a. record {
      encoder = a.encoder;
      losses = a.lost;
      number = a.number;
      held = a.outgoing;
    } };
}

impl Sender {
    /// Before the first payload, it holds the beginning of the trace. All its memory is taken here.
    pub(crate) fn new(
        alloc: Global,
        settings: Settings,
        losses: &Losses,
    ) -> Result<Sender, AllocError>
        requires { CanEncode settings }
        ensures stands { IfOk result (λ sender. StandsAfter sender.encoder []) }
        ensures settings { IfOk result (λ sender. sender.encoder.settings ≡ settings) }
        ensures losses { IfOk result (λ sender. (number : ℕ)
            → is_lost sender.losses number ≡ is_lost losses.now number) }
        ensures number { IfOk result (λ sender. sender.number ≡ 0) }
        ensures held { IfOk result (λ sender. sender.held ≡ magic) }
    {
        Ok(Sender {
            encoder: Encoder::new(alloc, settings)?,
            batch: Batch::new(alloc)?,
            lost: Lost::new(alloc, losses)?,
            number: 0,
            outgoing: Outgoing::new(alloc)?,
        })
    }

    /// Whether all that it held was given.
    pub(crate) fn is_empty(&self) -> bool
        ensures empty { result ≡ true → self.now.held ≡ [] }
        ensures some { result ≡ false → 0 < length self.now.held }
    {
        self.outgoing.is_empty()
    }

    /// Gives some of what it holds to the front of `into`, as much as there is or has room, and answers how much.
    pub(crate) fn give(&mut self, into: &mut [u8]) -> usize
        ensures count { result ≡ min (length into.old) (length self.old.held) }
        ensures bytes { take result into.new ≡ take result self.old.held }
        ensures left { self.new ≡ record self.old { held = drop result self.old.held } }
    {
        self.outgoing.give(into)
    }

    /// Takes the next payload. It then holds what is sent for it, in place of what it held.
    pub(crate) fn send(&mut self, payload: &[u8])
        requires stands { (payloads : List (List ℕ)) × StandsAfter self.old.encoder payloads }
        requires packets { (k : ℕ) × (1 ≤ k) × (k ≤ self.old.encoder.settings.packets) × ArePackets payload.now k }
        requires limit { 188 * self.old.encoder.settings.packets * self.old.encoder.taken + length payload.now ≤ 2 ^ 40 }
        requires number { self.old.number ≤ 2 ^ 60 }
        ensures held { (payloads : List (List ℕ)) → StandsAfter self.old.encoder payloads
            → self.new.held ≡ flat_map spelling (without (is_lost self.old.losses) self.old.number
            (records_at self.old.encoder.settings (payloads ++ payload.now ∷ []) (length payloads))) }
        ensures number { (payloads : List (List ℕ)) → StandsAfter self.old.encoder payloads
            → self.new.number ≡ self.old.number
            + length (records_at self.old.encoder.settings (payloads ++ payload.now ∷ []) (length payloads)) }
        ensures few { self.new.number ≤ self.old.number + 3 }
        ensures stands { (payloads : List (List ℕ)) → StandsAfter self.old.encoder payloads
            → length payload.now ≡ 188 * self.old.encoder.settings.packets
            → StandsAfter self.new.encoder (payloads ++ payload.now ∷ []) }
        ensures settings { self.new.encoder.settings ≡ self.old.encoder.settings }
        ensures losses { self.new.losses ≡ self.old.losses }
    {
        self.encoder.push(payload, &mut self.batch);
        self.outgoing.fill(&self.batch, self.number, &self.lost);
        self.number += self.batch.count() as u64;
    }
}
