//! Media datagrams.

ghost use Rattle.std.specs.Prelude.{◌≡◌, ℕ, ◌≤◌, ◌↔◌, ◌+◌, ◌++◌, IfErr, IfOk, OnErr, IsErrOf, IsTrue, drop, length, take};
ghost use Rattle.fg_words.specs.declared.Word.{Word};
ghost use Rattle.fg_rtp.specs.MediaDatagram.{FirstFault, HasHeader, HasPackets, IsMediaDatagram, IsSynced, header_fault, media_bytes, payload_of};
ghost use Rattle.fg_words.specs.Word.{transport_word, IsMedia};
ghost use Rattle.fg_rtp.specs.Header.{plain_header};

use crate::{HEADER_LENGTH, RtpFault, header_bytes, read};
use fg_ts::{PACKET_LENGTH, SYNC_BYTE};
use fg_words::{PAYLOAD_LIMIT, Shared, TRANSPORT_TYPE, Word};
use std::alloc::{AllocError, Global};

/// The bytes of the largest media datagram.
pub const MEDIA_LIMIT: usize = HEADER_LENGTH + PAYLOAD_LIMIT;

/// Why bytes are no media datagram.
#[derive(Clone, Copy, Debug, PartialEq, Eq)]
pub enum MediaFault {
    /// There are fewer than 12 bytes.
    Short,
    /// The version isn't 2.
    Version,
    /// There is padding, an extension or a contributing source.
    Flags,
    /// The payload type isn't 33.
    PayloadType,
    /// The payload isn't 1 to 7 whole transport packets.
    Size,
    /// A transport packet doesn't begin with the sync byte.
    NoSync,
}

impl From<RtpFault> for MediaFault {
    ghost from_gives = { λ fault e. e ≡ header_fault fault };

    fn from(fault: RtpFault) -> MediaFault {
        match fault {
            RtpFault::Short => MediaFault::Short,
            RtpFault::Version => MediaFault::Version,
        }
    }
}

/// The numbers of a media datagram.
#[derive(Clone, Copy)]
pub struct MediaHeader {
    /// The sequence number.
    pub seq: u16,
    /// The timestamp, in units of 1/90,000 of a second.
    pub ts: u32,
    /// The synchronization source.
    pub ssrc: u32,
}

/// Reads the numbers of a media datagram, and copies nothing of its payload, which `payload` gives.
///
/// The fault is the first that applies, in the order of its variants.
pub fn media_header(bytes: &[u8]) -> Result<MediaHeader, MediaFault>
    ensures ok { IfOk result (λ header. IsMediaDatagram bytes.now header.seq header.ssrc
        (transport_word header.ts (drop HEADER_LENGTH bytes.now))) }
    ensures size { IfOk result (λ header. HasPackets bytes.now) }
    ensures faults { (fault : MediaFault) → IsErrOf result fault ↔ FirstFault fault bytes.now }
    ensures refused { IfErr result (λ _. (seq ssrc : ℕ) (word : Word)
        → IsMediaDatagram bytes.now seq ssrc word → ⊥) }
{
    let header = read(bytes)?;
    if header.padding || header.extension || header.sources != 0 {
        return Err(MediaFault::Flags);
    }
    if header.pt != TRANSPORT_TYPE {
        return Err(MediaFault::PayloadType);
    }
    if !has_whole_packets(bytes) {
        return Err(MediaFault::Size);
    }
    if !is_synced(bytes) {
        return Err(MediaFault::NoSync);
    }
    Ok(MediaHeader {
        seq: header.seq,
        ts: header.ts,
        ssrc: header.ssrc,
    })
}

/// Reads a media datagram: its sequence number, its synchronization source and its word.
///
/// The fault is the first that applies, in the order of its variants.
pub fn media_word(bytes: &[u8]) -> Result<(u16, u32, Word), MediaFault>
    ensures ok { IfOk result (λ t. IsMediaDatagram bytes.now t.0 t.1 t.2) }
    ensures faults { (fault : MediaFault) → IsErrOf result fault ↔ FirstFault fault bytes.now }
    ensures only { IfOk result (λ t. (seq ssrc : ℕ) (word : Word)
        → IsMediaDatagram bytes.now seq ssrc word → (t.0 ≡ seq) × (t.1 ≡ ssrc) × (t.2 ≡ word)) }
    ensures refused { IfErr result (λ _. (seq ssrc : ℕ) (word : Word)
        → IsMediaDatagram bytes.now seq ssrc word → ⊥) }
{
    let header = media_header(bytes)?;
    let word = word_of(header.ts, payload(bytes));
    Ok((header.seq, header.ssrc, word))
}

/// Reads a media datagram: its sequence number, its synchronization source and a share of its word. The payload is copied
/// once, to where the share keeps it: where a spare share's word stood, if nobody else has a share of that.
///
/// The fault is the first that applies, in the order of its variants. There is no memory only for what is a media datagram.
pub fn media_share(
    alloc: Global,
    spare: Option<Shared>,
    bytes: &[u8],
) -> Result<Result<(u16, u32, Shared), MediaFault>, AllocError>
    ensures ok { IfOk result (λ read. IfOk read (λ t. IsMediaDatagram bytes.now t.0 t.1 t.2)) }
    ensures faults { IfOk result (λ read. (fault : MediaFault) → IsErrOf read fault ↔ FirstFault fault bytes.now) }
    ensures refused { IfOk result (λ read. IfErr read (λ _. (seq ssrc : ℕ) (word : Word)
        → IsMediaDatagram bytes.now seq ssrc word → ⊥)) }
    ensures memory { OnErr result ((seq : ℕ) × (ssrc : ℕ) × (word : Word)
        × IsMediaDatagram bytes.now seq ssrc word) }
{
    let header = match media_header(bytes) {
        Ok(header) => header,
        Err(fault) => return Ok(Err(fault)),
    };
    let share = share_of(alloc, spare, header.ts, payload(bytes))?;
    Ok(Ok((header.seq, header.ssrc, share)))
}

/// The bytes of a datagram after the fixed header, which are a media datagram's payload; none where it is shorter.
pub fn payload(bytes: &[u8]) -> &[u8]
    ensures rest { result.now ≡ drop HEADER_LENGTH bytes.now }
    ensures media { (seq ssrc : ℕ) (word : Word) → IsMediaDatagram bytes.now seq ssrc word
        → result.now ≡ payload_of word }
{
    bytes.get(HEADER_LENGTH..).unwrap_or(&[])
}

/// Writes the media datagram of a word to the front of `into`, and answers how many bytes that took: 12 and the
/// payload's. The marker is 0. What `into` holds behind the datagram stays.
pub fn write_media(seq: u16, ssrc: u32, word: &Word, into: &mut [u8; MEDIA_LIMIT]) -> usize
    requires { IsMedia word.now }
    ensures size { result ≡ HEADER_LENGTH + word.now.len }
    ensures written { into.new ≡ media_bytes seq ssrc word.now ++ drop result into.old }
    ensures datagram { IsMediaDatagram (take result into.new) seq ssrc word.now }
{
    let length = usize::from(word.len);
    write_payload(seq, word.ts, ssrc, &word.bytes[..length], into)
}

/// Writes the media datagram of transport packets to the front of `into`, and answers how many bytes that took: 12 and
/// the packets'. `ts` is the timestamp, and the marker is 0. What `into` holds behind the datagram stays.
pub fn write_payload(
    seq: u16,
    ts: u32,
    ssrc: u32,
    payload: &[u8],
    into: &mut [u8; MEDIA_LIMIT],
) -> usize
    requires { length payload.now ≤ PAYLOAD_LIMIT }
    ensures size { result ≡ HEADER_LENGTH + length payload.now }
    ensures written { into.new ≡ (plain_header TRANSPORT_TYPE seq ts ssrc ++ payload.now) ++ drop result into.old }
{
    let end = HEADER_LENGTH + payload.len();
    let header = header_bytes(TRANSPORT_TYPE, seq, ts, ssrc);
    into[..HEADER_LENGTH].copy_from_slice(&header);
    into[HEADER_LENGTH..end].copy_from_slice(payload);
    end
}

/// Whether the datagram's payload is 1 to 7 whole packets long.
fn has_whole_packets(bytes: &[u8]) -> bool
    requires { HasHeader bytes.now }
    ensures { IsTrue result ↔ HasPackets bytes.now }
{
    let length = bytes.len() - HEADER_LENGTH;
    length > 0 && length <= PAYLOAD_LIMIT && length % PACKET_LENGTH == 0
}

/// Whether each packet of the datagram's payload begins with the sync byte.
fn is_synced(bytes: &[u8]) -> bool
    requires { HasHeader bytes.now }
    ensures { IsTrue result ↔ IsSynced bytes.now }
{
    let packets = (bytes.len() - HEADER_LENGTH).div_ceil(PACKET_LENGTH);
    for packet in 0..packets {
        if bytes[HEADER_LENGTH + PACKET_LENGTH * packet] != SYNC_BYTE {
            return false;
        }
    }
    true
}

/// A share of the word of transport packets with this timestamp, where a spare share's word stood.
fn share_of(
    alloc: Global,
    spare: Option<Shared>,
    ts: u32,
    payload: &[u8],
) -> Result<Shared, AllocError>
    requires { length payload.now ≤ PAYLOAD_LIMIT }
    ensures { IfOk result (λ share. share ≡ transport_word ts payload.now) }
{
    let len = payload.len() as u16;
    Shared::refill(alloc, spare, TRANSPORT_TYPE, ts, len, payload)
}

/// The word of transport packets with this timestamp.
fn word_of(ts: u32, payload: &[u8]) -> Word
    requires { length payload.now ≤ PAYLOAD_LIMIT }
    ensures { result ≡ transport_word ts payload.now }
{
    Word::of_payload(TRANSPORT_TYPE, ts, payload.len() as u16, payload)
}
