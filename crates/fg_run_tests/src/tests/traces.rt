//! The traces of the tests, and what they carry.
use std::alloc::{AllocError, Global};

/// What is sent on a flow.
#[derive(Clone, Copy)]
pub enum Sent {
    /// The media datagram of this number.
    Media(u16),
    /// Parity of this column of a block of 4 by 4.
    Column(u16),
    /// Parity of this row of it.
    Row(u16),
}

/// A block of 4 by 4 as it is sent: the parity of a row or column follows its last datagram, the column's first.
pub static BLOCK: [Sent; 24] = [
    Sent::Media(0),
    Sent::Media(1),
    Sent::Media(2),
    Sent::Media(3),
    Sent::Row(0),
    Sent::Media(4),
    Sent::Media(5),
    Sent::Media(6),
    Sent::Media(7),
    Sent::Row(1),
    Sent::Media(8),
    Sent::Media(9),
    Sent::Media(10),
    Sent::Media(11),
    Sent::Row(2),
    Sent::Media(12),
    Sent::Column(0),
    Sent::Media(13),
    Sent::Column(1),
    Sent::Media(14),
    Sent::Column(2),
    Sent::Media(15),
    Sent::Column(3),
    Sent::Row(3),
];

/// The size of a payload: seven transport packets.
pub const PAYLOAD: usize = 1_316;

/// The timestamp of a media datagram.
fn stamp(number: u16) -> u32 {
    u32::from(number) * 1000
}

/// A byte of the payload of a media datagram.
fn byte_at(number: u16, place: usize) -> u8 {
    if place % 188 == 0 {
        return 0x47;
    }
    (place % 251) as u8 ^ number.to_be_bytes()[1]
}

/// The exclusive or of such bytes.
fn sum_at(numbers: &[u16], place: usize) -> u8 {
    let mut sum = 0;
    for number in numbers {
        sum ^= byte_at(*number, place);
    }
    sum
}

/// Whether these bytes are the payloads of the media datagrams from this number up, of which the last may be cut.
pub fn are_payloads(bytes: &[u8], first: u16) -> bool {
    for (place, byte) in bytes.iter().enumerate() {
        let number = first.wrapping_add((place / PAYLOAD % 65_536) as u16);
        if *byte != byte_at(number, place % PAYLOAD) {
            return false;
        }
    }
    true
}

/// Adds the sum of the payloads of these media datagrams.
fn push_sum(bytes: &mut Vec<u8>, numbers: &[u16]) -> Result<(), AllocError> {
    for place in 0..PAYLOAD {
        bytes.push(sum_at(numbers, place))?;
    }
    Ok(())
}

/// Adds the head of a record at time 0, and the RTP header of its datagram, with SSRC 0.
fn push_heads(
    bytes: &mut Vec<u8>,
    port: u16,
    size: u16,
    kind: u8,
    number: u16,
    stamp: u32,
) -> Result<(), AllocError> {
    bytes.extend_from_slice(&[0; 8])?;
    bytes.extend_from_slice(&port.to_be_bytes())?;
    bytes.extend_from_slice(&size.to_be_bytes())?;
    bytes.extend_from_slice(&[0x80, kind])?;
    bytes.extend_from_slice(&number.to_be_bytes())?;
    bytes.extend_from_slice(&stamp.to_be_bytes())?;
    bytes.extend_from_slice(&[0; 4])
}

/// Adds the record of the media datagram of this number, which is its sequence number too.
fn push_media(bytes: &mut Vec<u8>, port: u16, number: u16) -> Result<(), AllocError> {
    push_heads(bytes, port, 1_328, 0x21, number, stamp(number))?;
    push_sum(bytes, &[number])
}

/// Adds the record of the parity datagram of four media datagrams, the first of this number and each this far from the one before.
/// Four lengths, and four payload types, come to nothing.
fn push_parity(
    bytes: &mut Vec<u8>,
    port: u16,
    kind: u8,
    first: u16,
    offset: u8,
) -> Result<(), AllocError> {
    let step = u16::from(offset);
    let second = first.wrapping_add(step);
    let third = second.wrapping_add(step);
    let fourth = third.wrapping_add(step);
    let stamps = stamp(first) ^ stamp(second) ^ stamp(third) ^ stamp(fourth);
    push_heads(bytes, port, 1_344, 0x60, 0, 0)?;
    bytes.extend_from_slice(&first.to_be_bytes())?;
    bytes.extend_from_slice(&[0, 0, 0x80, 0, 0, 0])?;
    bytes.extend_from_slice(&stamps.to_be_bytes())?;
    bytes.extend_from_slice(&[kind, offset, 4, 0])?;
    push_sum(bytes, &[first, second, third, fourth])
}

/// Adds the record of what is sent on the flow.
fn push_sent(bytes: &mut Vec<u8>, flow: u16, sent: Sent) -> Result<(), AllocError> {
    match sent {
        Sent::Media(number) => push_media(bytes, flow, number),
        Sent::Column(number) => push_parity(bytes, flow.wrapping_add(2), 0, number, 4),
        Sent::Row(number) => {
            push_parity(bytes, flow.wrapping_add(4), 0x40, number.wrapping_mul(4), 1)
        }
    }
}

/// Adds the records of what is sent on flow 5000, without those of these numbers.
fn push_all(bytes: &mut Vec<u8>, sent: &[Sent], lost: &[usize]) -> Result<(), AllocError> {
    for (number, sent) in sent.iter().enumerate() {
        if !lost.contains(&number) {
            push_sent(bytes, 5000, *sent)?;
        }
    }
    Ok(())
}

/// The trace of them.
pub fn trace(alloc: Global, sent: &[Sent], lost: &[usize]) -> Result<Vec<u8>, AllocError> {
    let mut bytes = Vec::from_slice(alloc, b"FECTRAC1")?;
    push_all(&mut bytes, sent, lost)?;
    Ok(bytes)
}

/// Adds the record of the media datagram of this number on each of the flows.
fn push_on_each(bytes: &mut Vec<u8>, flows: &[u16], number: u16) -> Result<(), AllocError> {
    for flow in flows {
        push_media(bytes, *flow, number)?;
    }
    Ok(())
}

/// Adds the records of so many media datagrams, from the first number up, on each of the flows in turn.
fn push_in_turn(
    bytes: &mut Vec<u8>,
    flows: &[u16],
    first: u16,
    count: u16,
) -> Result<(), AllocError> {
    for i in 0..count {
        push_on_each(bytes, flows, first.wrapping_add(i))?;
    }
    Ok(())
}

/// The trace of them.
pub fn in_turn(
    alloc: Global,
    flows: &[u16],
    first: u16,
    count: u16,
) -> Result<Vec<u8>, AllocError> {
    let mut bytes = Vec::from_slice(alloc, b"FECTRAC1")?;
    push_in_turn(&mut bytes, flows, first, count)?;
    Ok(bytes)
}

/// Adds the payloads of the media datagrams of the numbers 0 up.
fn push_payloads(bytes: &mut Vec<u8>, count: u16) -> Result<(), AllocError> {
    for number in 0..count {
        push_sum(bytes, &[number])?;
    }
    Ok(())
}

/// A transport stream of so many payloads.
pub fn stream(alloc: Global, count: u16) -> Result<Vec<u8>, AllocError> {
    let mut bytes = Vec::new(alloc);
    push_payloads(&mut bytes, count)?;
    Ok(bytes)
}
