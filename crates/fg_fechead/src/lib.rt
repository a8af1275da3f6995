//! Parity datagrams of forward error correction (SMPTE ST 2022-1, from Pro-MPEG Code of Practice 3).
#![tactic(auto)]

ghost use Rattle.std.specs.Prelude.{◌≡◌, ◌≤◌, ◌<◌, ◌+◌, ◌^◌, ◌↔◌, ℕ, List, [], ◌∷◌, ◌++◌, IfErr, IfOk, OnErr, IsErrOf, IsTrue, drop, length, slice_index, take};
ghost use Rattle.fg_fechead.specs.FecHeader.{header_of, parity_in, parity_from, parity_with, IsPlainXor};
ghost use Rattle.fg_fechead.specs.ParityDatagram.{parity_bytes, CanBeWritten, FirstFault, HasHeaders, HasPayload, IsParityDatagram};

pub mod laws;
#[cfg(test)]
mod tests;

use byteorder::{BigEndian, ByteOrder};
use fg_rtp::{HEADER_LENGTH, header_bytes};
use fg_shape::{Shape, shape_ok};
use fg_words::{PAYLOAD_LIMIT, Shared, Word};
use std::alloc::{AllocError, Global};

/// The bytes of the FEC header (SMPTE ST 2022-1).
pub const FEC_HEADER_LENGTH: usize = 16;

/// The bytes of both headers.
const HEADERS_LENGTH: usize = HEADER_LENGTH + FEC_HEADER_LENGTH;

/// The bytes of the largest parity datagram.
pub const PARITY_LIMIT: usize = HEADERS_LENGTH + PAYLOAD_LIMIT;

/// The RTP payload type that is written. It is a dynamic one (RFC 3551), and this project's own choice.
const PARITY_TYPE: u8 = 96;

/// E, in its byte.
const EXTENSION: u8 = 0x80;

/// D, in its byte.
const ROW: u8 = 0x40;

/// The version of RTP (RFC 3550).
const RTP_VERSION: u8 = 2;

/// What a parity datagram says, as it stands in its bytes.
///
/// A desk takes its base, shape and word, which is the parity that definitions of a desk speak of; and once the base has a
/// position, that is an equation.
#[derive(Clone, Copy)]
pub struct Parity {
    /// The first protected sequence number (SNBase).
    pub base: u16,
    /// How many datagrams are protected, and how far apart (NA and Offset).
    pub shape: Shape,
    /// Whether it belongs to the rows' stream (D). Nothing depends on it.
    pub row: bool,
    /// The XOR of the protected datagrams' words.
    pub word: Word,
}

/// What the FEC header of a parity datagram says.
#[derive(Clone, Copy)]
pub struct ParityHeader {
    /// The first protected sequence number (SNBase).
    pub base: u16,
    /// How many datagrams are protected, and how far apart (NA and Offset).
    pub shape: Shape,
    /// Whether it belongs to the rows' stream (D). Nothing depends on it.
    pub row: bool,
    /// The XOR of the protected datagrams' payload types (PT recovery).
    pub pt: u8,
    /// The XOR of their timestamps (TS recovery).
    pub ts: u32,
    /// The XOR of their payloads' lengths (length recovery).
    pub len: u16,
}

/// Why bytes are no parity datagram that is read.
#[derive(Clone, Copy, Debug, PartialEq, Eq)]
pub enum FecFault {
    /// There are fewer than 28 bytes.
    Short,
    /// The RTP version isn't 2.
    Version,
    /// E isn't 1.
    NoExtension,
    /// X, type or index isn't 0.
    OtherFec,
    /// The shape isn't one that is read: see `shape_ok`.
    Shape,
    /// The payload isn't 1 to 1,316 bytes long.
    Size,
}

/// Reads the FEC header of a parity datagram, and copies nothing of its payload.
///
/// Of the RTP header only the version is looked at, and of the FEC header neither the mask nor the
/// SNBase ext bits. The fault is the first that applies, in the order of its variants.
pub fn parity_header(bytes: &[u8]) -> Result<ParityHeader, FecFault>
    ensures ok { IfOk result (λ header. IsParityDatagram bytes.now
        (parity_with header (drop HEADERS_LENGTH bytes.now))) }
    ensures size { IfOk result (λ header. HasPayload bytes.now) }
    ensures faults { (fault : FecFault) → IsErrOf result fault ↔ FirstFault fault bytes.now }
    ensures refused { IfErr result (λ _. (parity : Parity)
        → IsParityDatagram bytes.now parity → ⊥) }
{
    if bytes.len() < HEADERS_LENGTH {
        return Err(FecFault::Short);
    }
    if bytes[0] >> 6 != RTP_VERSION {
        return Err(FecFault::Version);
    }
    let header = &bytes[HEADER_LENGTH..HEADERS_LENGTH];
    if header[4] >> 7 != 1 {
        return Err(FecFault::NoExtension);
    }
    if !is_plain_xor(header) {
        return Err(FecFault::OtherFec);
    }
    if !shape_ok(shape_of(header)) {
        return Err(FecFault::Shape);
    }
    if !has_payload(bytes) {
        return Err(FecFault::Size);
    }
    Ok(fields(header))
}

/// Reads a parity datagram. The fault is that of `parity_header`.
pub fn read(bytes: &[u8]) -> Result<Parity, FecFault>
    ensures ok { IfOk result (λ parity. IsParityDatagram bytes.now parity) }
    ensures faults { (fault : FecFault) → IsErrOf result fault ↔ FirstFault fault bytes.now }
    ensures refused { IfErr result (λ _. (parity : Parity)
        → IsParityDatagram bytes.now parity → ⊥) }
{
    let header = parity_header(bytes)?;
    Ok(Parity {
        base: header.base,
        shape: header.shape,
        row: header.row,
        word: Word::of_payload(header.pt, header.ts, header.len, payload(bytes)),
    })
}

/// Reads a parity datagram: its header and a share of its word. The payload is copied once, to where
/// the share keeps it: where a spare share's word stood, if nobody else has a share of that. The fault
/// is that of `parity_header`, and there is no memory only for what is a parity datagram.
pub fn parity_share(
    alloc: Global,
    spare: Option<Shared>,
    bytes: &[u8],
) -> Result<Result<(ParityHeader, Shared), FecFault>, AllocError>
    ensures ok { IfOk result (λ read. IfOk read (λ t. IsParityDatagram bytes.now (parity_from t.0 t.1))) }
    ensures faults { IfOk result (λ read. (fault : FecFault)
        → IsErrOf read fault ↔ FirstFault fault bytes.now) }
    ensures refused { IfOk result (λ read. IfErr read (λ _. (parity : Parity)
        → IsParityDatagram bytes.now parity → ⊥)) }
    ensures memory { OnErr result ((parity : Parity) × IsParityDatagram bytes.now parity) }
{
    let header = match parity_header(bytes) {
        Ok(header) => header,
        Err(fault) => return Ok(Err(fault)),
    };
    let share = Shared::refill(
        alloc,
        spare,
        header.pt,
        header.ts,
        header.len,
        payload(bytes),
    )?;
    Ok(Ok((header, share)))
}

/// Writes a parity datagram with `size` bytes of payload to the front of `into`, and answers how many bytes that took: 28
/// and the payload's.
///
/// The word's bytes from `size` on are zeros, so that what is read back is this parity. In the RTP header the payload type
/// is 96, the source is 0 and all else but number and timestamp too. Mask and SNBase ext bits are 0. What `into` holds
/// behind the datagram stays.
pub fn write(seq: u16, ts: u32, parity: &Parity, size: u16, into: &mut [u8; PARITY_LIMIT]) -> usize
    requires { CanBeWritten parity.now size }
    ensures size { result ≡ HEADERS_LENGTH + size }
    ensures written { take result into.new ≡ parity_bytes seq ts parity.now size }
    ensures behind { drop result into.new ≡ drop result into.old }
    ensures datagram { IsParityDatagram (take result into.new) parity.now }
{
    let end = HEADERS_LENGTH + usize::from(size);
    let rtp = header_bytes(PARITY_TYPE, seq, ts, 0);
    into[..HEADER_LENGTH].copy_from_slice(&rtp);
    let fec = fec_header(parity.base, parity.shape, parity.row, &parity.word);
    into[HEADER_LENGTH..HEADERS_LENGTH].copy_from_slice(&fec);
    into[HEADERS_LENGTH..end].copy_from_slice(front(&parity.word.bytes, size));
    end
}

/// The FEC header of a parity with these fields, mask and SNBase ext bits 0.
fn fec_header(base: u16, shape: Shape, row: bool, word: &Word) -> [u8; FEC_HEADER_LENGTH]
    requires { word.now.pt < 2 ^ 7 }
    ensures header { result ≡ header_of (record { base = base; shape = shape; row = row; word = word.now })
        (0 ∷ 0 ∷ 0 ∷ []) 0 }
    ensures base { base < 2 ^ 16 }
    ensures length { word.now.len < 2 ^ 16 }
    ensures timestamp { word.now.ts < 2 ^ 32 }
{
    let [b0, b1] = base.to_be_bytes();
    let [l0, l1] = word.len.to_be_bytes();
    let pt = EXTENSION + word.pt;
    let [t0, t1, t2, t3] = word.ts.to_be_bytes();
    let row = if row { ROW } else { 0 };
    let Shape { offset, na } = shape;
    [
        b0, b1, l0, l1, pt, 0, 0, 0, t0, t1, t2, t3, row, offset, na, 0,
    ]
}

/// The first bytes of a word.
fn front(bytes: &[u8; PAYLOAD_LIMIT], size: u16) -> &[u8]
    requires { size ≤ PAYLOAD_LIMIT }
    ensures front { result.now ≡ take size bytes.now }
    ensures room { length bytes.now ≡ PAYLOAD_LIMIT }
{
    &bytes[..usize::from(size)]
}

/// Whether X, type and index are 0.
fn is_plain_xor(header: &[u8]) -> bool
    requires { 16 ≤ length header.now }
    ensures { IsTrue result ↔ IsPlainXor header.now }
{
    header[12] >> 7 == 0 && header[12] & 0x3f == 0
}

/// Whether 1 to 1,316 bytes follow the headers.
fn has_payload(bytes: &[u8]) -> bool
    requires { HasHeaders bytes.now }
    ensures { IsTrue result ↔ HasPayload bytes.now }
{
    let size = bytes.len() - HEADERS_LENGTH;
    size > 0 && size <= PAYLOAD_LIMIT
}

/// The shape that a FEC header names.
fn shape_of(header: &[u8]) -> Shape
    requires { 16 ≤ length header.now }
    ensures offset { result.offset ≡ slice_index header.now 13 }
    ensures na { result.na ≡ slice_index header.now 14 }
{
    Shape {
        offset: header[13],
        na: header[14],
    }
}

/// The bytes after both headers.
fn payload(bytes: &[u8]) -> &[u8]
    requires { HasHeaders bytes.now }
    ensures { result.now ≡ drop HEADERS_LENGTH bytes.now }
{
    let (_, payload) = bytes.split_at(HEADERS_LENGTH);
    payload
}

/// What a FEC header says.
fn fields(header: &[u8]) -> ParityHeader
    requires { 16 ≤ length header.now }
    ensures { (payload : List ℕ) → parity_with result payload ≡ parity_in header.now payload }
{
    ParityHeader {
        base: BigEndian::read_u16(&header[0..2]),
        shape: shape_of(header),
        row: (header[12] >> 6) & 1 == 1,
        pt: header[4] & 0x7f,
        ts: BigEndian::read_u32(&header[8..12]),
        len: BigEndian::read_u16(&header[2..4]),
    }
}
