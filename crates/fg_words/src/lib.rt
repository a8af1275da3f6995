//! Words, the units that forward error correction recovers.
#![tactic(auto)]

ghost use Rattle.std.specs.Prelude.{◌≡◌, ℕ, ◌*◌, ◌-◌, ◌<◌, ◌≤◌, ◌↔◌, ◌++◌, IfOk, IsTrue, length, replicate, slice_index};
ghost use Rattle.fg_words.specs.Word.{padded_word, transport_word, zero_word, word_xor, IsMedia};

mod lanes;
pub mod laws;
mod shared;

use fg_ts::{PACKET_LENGTH, SYNC_BYTE};
pub use shared::Shared;
use std::alloc::{AllocError, Global};

/// The RTP payload type of an MPEG transport stream (RFC 3551).
pub const TRANSPORT_TYPE: u8 = 33;

/// The most transport packets that a media datagram carries (SMPTE ST 2022-2).
pub const PACKETS_LIMIT: usize = 7;

/// The payload bytes that a word has room for: as many transport packets as a media datagram
/// carries.
pub const PAYLOAD_LIMIT: usize = PACKETS_LIMIT * PACKET_LENGTH;

/// What forward error correction can recover of a media datagram (SMPTE ST 2022-1, the recovery
/// fields).
#[derive(Clone, Copy)]
pub struct Word {
    /// The RTP payload type.
    pub pt: u8,
    /// The RTP timestamp, in units of 1/90,000 of a second.
    pub ts: u32,
    /// The payload's length in bytes.
    pub len: u16,
    /// The payload, padded with zeros.
    pub bytes: [u8; PAYLOAD_LIMIT],
}

impl Word {
    /// The word that is zero throughout.
    pub fn zero() -> Word
        ensures { result ≡ zero_word }
    {
        Word {
            pt: 0,
            ts: 0,
            len: 0,
            bytes: [0; PAYLOAD_LIMIT],
        }
    }

    /// The word with these fields and this payload, padded with zeros.
    pub fn of_payload(pt: u8, ts: u32, len: u16, payload: &[u8]) -> Word
        requires { length payload.now ≤ PAYLOAD_LIMIT }
        ensures { result ≡ padded_word pt ts len payload.now }
    {
        let mut word = Word::zero();
        word.fill(pt, ts, len, payload);
        word
    }

    /// XORs the other word into this one, field by field and byte by byte.
    pub fn xor_in(&mut self, other: &Word)
        ensures { self.new ≡ word_xor self.old other.now }
    {
        self.pt ^= other.pt;
        self.ts ^= other.ts;
        self.len ^= other.len;
        lanes::xor_bytes(&mut self.bytes, &other.bytes);
    }

    /// XORs the word of transport packets into this one, without making that word first.
    ///
    /// `ts` is its timestamp. The packets have at most 1,316 bytes.
    pub fn xor_transport(&mut self, ts: u32, payload: &[u8])
        requires { length payload.now ≤ PAYLOAD_LIMIT }
        ensures { self.new ≡ word_xor self.old (transport_word ts payload.now) }
    {
        self.pt ^= TRANSPORT_TYPE;
        self.ts ^= ts;
        self.len ^= payload.len() as u16;
        lanes::xor_front(&mut self.bytes, payload);
    }

    /// XORs the word of transport packets into both words. One call for both is less work than two.
    ///
    /// `ts` is its timestamp. The packets have at most 1,316 bytes.
    pub fn xor_transport_into_two(one: &mut Word, other: &mut Word, ts: u32, payload: &[u8])
        requires { length payload.now ≤ PAYLOAD_LIMIT }
        ensures one { one.new ≡ word_xor one.old (transport_word ts payload.now) }
        ensures other { other.new ≡ word_xor other.old (transport_word ts payload.now) }
    {
        let len = payload.len() as u16;
        one.pt ^= TRANSPORT_TYPE;
        one.ts ^= ts;
        one.len ^= len;
        other.pt ^= TRANSPORT_TYPE;
        other.ts ^= ts;
        other.len ^= len;
        lanes::xor_front_into_two(&mut one.bytes, &mut other.bytes, payload);
    }

    /// XORs two other words into this one. One call for both is less work than two.
    pub fn xor_in_two(&mut self, one: &Word, other: &Word)
        ensures { self.new ≡ word_xor self.old (word_xor one.now other.now) }
    {
        self.pt ^= one.pt ^ other.pt;
        self.ts ^= one.ts ^ other.ts;
        self.len ^= one.len ^ other.len;
        lanes::xor_two(&mut self.bytes, &one.bytes, &other.bytes);
    }

    /// XORs four other words into this one. One call for all is less work than four.
    pub fn xor_in_four(&mut self, first: &Word, second: &Word, third: &Word, fourth: &Word)
        ensures { self.new ≡ word_xor self.old
            (word_xor (word_xor first.now second.now) (word_xor third.now fourth.now)) }
    {
        self.pt ^= (first.pt ^ second.pt) ^ (third.pt ^ fourth.pt);
        self.ts ^= (first.ts ^ second.ts) ^ (third.ts ^ fourth.ts);
        self.len ^= (first.len ^ second.len) ^ (third.len ^ fourth.len);
        lanes::xor_four(
            &mut self.bytes,
            &first.bytes,
            &second.bytes,
            &third.bytes,
            &fourth.bytes,
        );
    }

    /// Whether all four fields are zero.
    pub fn is_zero(&self) -> bool
        ensures { IsTrue result ↔ (self.now ≡ zero_word) }
    {
        self.pt == 0 && self.ts == 0 && self.len == 0 && lanes::is_zero(&self.bytes)
    }

    /// Whether all four fields of the two words are equal.
    pub fn same(&self, other: &Word) -> bool
        ensures { IsTrue result ↔ (self.now ≡ other.now) }
    {
        self.pt == other.pt
            && self.ts == other.ts
            && self.len == other.len
            && self.bytes == other.bytes
    }

    /// Whether the word can be a media datagram's: payload type 33, 1 to 7 transport packets that
    /// each begin with the sync byte, and zeros after them.
    pub fn is_media(&self) -> bool
        ensures { IsTrue result ↔ IsMedia self.now }
    {
        let length = usize::from(self.len);
        let packets = length / PACKET_LENGTH;
        if self.pt != TRANSPORT_TYPE || packets == 0 || packets > PACKETS_LIMIT {
            return false;
        }
        if length != packets * PACKET_LENGTH {
            return false;
        }
        begins_with_sync(&self.bytes, packets) && lanes::is_zero_from(&self.bytes, length)
    }

    /// Sets all fields, the bytes to a payload that is padded with zeros.
    pub(crate) fn fill(&mut self, pt: u8, ts: u32, len: u16, payload: &[u8])
        requires { length payload.now ≤ PAYLOAD_LIMIT }
        ensures { self.new ≡ padded_word pt ts len payload.now }
    {
        self.pt = pt;
        self.ts = ts;
        self.len = len;
        put_padded(&mut self.bytes, payload);
    }

    /// Puts the word where several owners share it. Answers want of memory alone.
    pub fn share(self, alloc: Global) -> Result<Shared, AllocError>
        ensures { IfOk result (λ shared. shared ≡ self) }
    {
        Shared::new(alloc, self)
    }
}

/// Puts the payload at the front of the bytes, and zeros after it.
fn put_padded(bytes: &mut [u8; PAYLOAD_LIMIT], payload: &[u8])
    requires { length payload.now ≤ PAYLOAD_LIMIT }
    ensures { bytes.new ≡ payload.now ++ replicate (PAYLOAD_LIMIT - length payload.now) 0 }
{
    bytes[..payload.len()].copy_from_slice(payload);
    bytes[payload.len()..].fill(0);
}

/// Whether each of the first `packets` transport packets begins with the sync byte.
fn begins_with_sync(bytes: &[u8; PAYLOAD_LIMIT], packets: usize) -> bool
    requires { packets ≤ PACKETS_LIMIT }
    ensures { IsTrue result ↔ ((i : ℕ) → i < packets → slice_index bytes.now (PACKET_LENGTH * i) ≡ SYNC_BYTE) }
{
    for packet in 0..packets {
        if bytes[PACKET_LENGTH * packet] != SYNC_BYTE {
            return false;
        }
    }
    true
}
