//! The payload's bytes, a vector at a time.

ghost use Rattle.std.specs.Prelude.{◌≡◌, ℕ, ◌-◌, ◌*◌, ◌<◌, ◌≤◌, ◌++◌, ◌↔◌, IsTrue, bit_xor, length, replicate, slice_index};
ghost use Rattle.std.specs.Simd.Lanes.{zip2};

use crate::PAYLOAD_LIMIT;
use std::simd::prelude::*;

/// The bytes of a vector. Of 16, 32 and 64, 32 is as fast as any and leaves the shortest rest.
const LANES: usize = 32;

/// The whole vectors in a payload's bytes.
const VECTORS: usize = PAYLOAD_LIMIT / LANES;

/// The bytes that the whole vectors have.
const WHOLE: usize = VECTORS * LANES;

/// XORs the other bytes into these.
pub fn xor_bytes(bytes: &mut [u8; PAYLOAD_LIMIT], other: &[u8; PAYLOAD_LIMIT])
    ensures { bytes.new ≡ zip2 bit_xor bytes.old other.now }
{
    for vector in 0..VECTORS {
        let at = LANES * vector;
        let sum = u8x32::from_slice(&bytes[at..]) ^ u8x32::from_slice(&other[at..]);
        sum.copy_to_slice(&mut bytes[at..]);
    }
    let rest = u8x4::from_slice(&bytes[WHOLE..]) ^ u8x4::from_slice(&other[WHOLE..]);
    rest.copy_to_slice(&mut bytes[WHOLE..]);
}

/// XORs bytes into the front of these.
pub fn xor_front(bytes: &mut [u8; PAYLOAD_LIMIT], front: &[u8])
    requires { length front.now ≤ PAYLOAD_LIMIT }
    ensures { bytes.new ≡ zip2 bit_xor bytes.old (front.now ++ replicate (PAYLOAD_LIMIT - length front.now) 0) }
{
    match <&[u8; PAYLOAD_LIMIT]>::try_from(front) {
        Ok(whole) => xor_bytes(bytes, whole),
        Err(_) => xor_shorter(bytes, front),
    }
}

/// XORs bytes into the front of both. One pass for both is less work than two.
pub fn xor_front_into_two(
    one: &mut [u8; PAYLOAD_LIMIT],
    other: &mut [u8; PAYLOAD_LIMIT],
    front: &[u8],
)
    requires { length front.now ≤ PAYLOAD_LIMIT }
    ensures one { one.new ≡ zip2 bit_xor one.old (front.now ++ replicate (PAYLOAD_LIMIT - length front.now) 0) }
    ensures other { other.new ≡ zip2 bit_xor other.old (front.now ++ replicate (PAYLOAD_LIMIT - length front.now) 0) }
{
    match <&[u8; PAYLOAD_LIMIT]>::try_from(front) {
        Ok(whole) => xor_into_two(one, other, whole),
        Err(_) => {
            xor_shorter(one, front);
            xor_shorter(other, front);
        }
    }
}

/// XORs the same bytes into both.
fn xor_into_two(
    one: &mut [u8; PAYLOAD_LIMIT],
    other: &mut [u8; PAYLOAD_LIMIT],
    bytes: &[u8; PAYLOAD_LIMIT],
)
    ensures one { one.new ≡ zip2 bit_xor one.old bytes.now }
    ensures other { other.new ≡ zip2 bit_xor other.old bytes.now }
{
    for vector in 0..VECTORS {
        let at = LANES * vector;
        let next = u8x32::from_slice(&bytes[at..]);
        let first = u8x32::from_slice(&one[at..]) ^ next;
        let second = u8x32::from_slice(&other[at..]) ^ next;
        first.copy_to_slice(&mut one[at..]);
        second.copy_to_slice(&mut other[at..]);
    }
    let next = u8x4::from_slice(&bytes[WHOLE..]);
    let first = u8x4::from_slice(&one[WHOLE..]) ^ next;
    let second = u8x4::from_slice(&other[WHOLE..]) ^ next;
    first.copy_to_slice(&mut one[WHOLE..]);
    second.copy_to_slice(&mut other[WHOLE..]);
}

/// XORs bytes whose number isn't known before into the front of these.
fn xor_shorter(bytes: &mut [u8; PAYLOAD_LIMIT], front: &[u8])
    requires { length front.now ≤ PAYLOAD_LIMIT }
    ensures { bytes.new ≡ zip2 bit_xor bytes.old (front.now ++ replicate (PAYLOAD_LIMIT - length front.now) 0) }
{
    let vectors = front.len() / LANES;
    xor_front_whole(bytes, front, vectors);
    xor_front_rest(bytes, front, LANES * vectors);
}

/// XORs the first vectors of the front into these.
fn xor_front_whole(bytes: &mut [u8; PAYLOAD_LIMIT], front: &[u8], vectors: usize)
    requires front { LANES * vectors ≤ length front.now }
    requires limit { length front.now ≤ PAYLOAD_LIMIT }
    ensures below { (i : ℕ) → i < LANES * vectors
        → slice_index bytes.new i ≡ bit_xor (slice_index bytes.old i) (slice_index front.now i) }
    ensures rest { (i : ℕ) → LANES * vectors ≤ i → slice_index bytes.new i ≡ slice_index bytes.old i }
{
    for vector in 0..vectors {
        let at = LANES * vector;
        let sum = u8x32::from_slice(&bytes[at..]) ^ u8x32::from_slice(&front[at..]);
        sum.copy_to_slice(&mut bytes[at..]);
    }
}

/// XORs the bytes of the front from `start` on into these.
fn xor_front_rest(bytes: &mut [u8; PAYLOAD_LIMIT], front: &[u8], start: usize)
    requires { length front.now ≤ PAYLOAD_LIMIT }
    ensures below { (i : ℕ) → i < start → slice_index bytes.new i ≡ slice_index bytes.old i }
    ensures rest { (i : ℕ) → start ≤ i
        → slice_index bytes.new i ≡ bit_xor (slice_index bytes.old i) (slice_index front.now i) }
{
    for at in start..front.len() {
        bytes[at] ^= front[at];
    }
}

/// XORs the bytes of two others into these. One pass for both is less work than two.
pub fn xor_two(
    bytes: &mut [u8; PAYLOAD_LIMIT],
    one: &[u8; PAYLOAD_LIMIT],
    other: &[u8; PAYLOAD_LIMIT],
)
    ensures { bytes.new ≡ zip2 bit_xor bytes.old (zip2 bit_xor one.now other.now) }
{
    for vector in 0..VECTORS {
        let at = LANES * vector;
        let both = u8x32::from_slice(&one[at..]) ^ u8x32::from_slice(&other[at..]);
        let sum = u8x32::from_slice(&bytes[at..]) ^ both;
        sum.copy_to_slice(&mut bytes[at..]);
    }
    let both = u8x4::from_slice(&one[WHOLE..]) ^ u8x4::from_slice(&other[WHOLE..]);
    let rest = u8x4::from_slice(&bytes[WHOLE..]) ^ both;
    rest.copy_to_slice(&mut bytes[WHOLE..]);
}

/// XORs the bytes of four others into these. One pass for all is less work than four.
pub fn xor_four(
    bytes: &mut [u8; PAYLOAD_LIMIT],
    first: &[u8; PAYLOAD_LIMIT],
    second: &[u8; PAYLOAD_LIMIT],
    third: &[u8; PAYLOAD_LIMIT],
    fourth: &[u8; PAYLOAD_LIMIT],
)
    ensures { bytes.new ≡ zip2 bit_xor bytes.old
        (zip2 bit_xor (zip2 bit_xor first.now second.now) (zip2 bit_xor third.now fourth.now)) }
{
    for vector in 0..VECTORS {
        let at = LANES * vector;
        let two = u8x32::from_slice(&first[at..]) ^ u8x32::from_slice(&second[at..]);
        let others = u8x32::from_slice(&third[at..]) ^ u8x32::from_slice(&fourth[at..]);
        let all = two ^ others;
        let sum = u8x32::from_slice(&bytes[at..]) ^ all;
        sum.copy_to_slice(&mut bytes[at..]);
    }
    let two = u8x4::from_slice(&first[WHOLE..]) ^ u8x4::from_slice(&second[WHOLE..]);
    let others = u8x4::from_slice(&third[WHOLE..]) ^ u8x4::from_slice(&fourth[WHOLE..]);
    let rest = u8x4::from_slice(&bytes[WHOLE..]) ^ (two ^ others);
    rest.copy_to_slice(&mut bytes[WHOLE..]);
}

/// Whether all bytes are zero.
pub fn is_zero(bytes: &[u8; PAYLOAD_LIMIT]) -> bool
    ensures { IsTrue result ↔ (bytes.now ≡ replicate PAYLOAD_LIMIT 0) }
{
    union_of_whole(bytes) == 0 && is_zero_from(bytes, WHOLE)
}

/// The bits that are set in some byte of the whole vectors.
fn union_of_whole(bytes: &[u8; PAYLOAD_LIMIT]) -> u8
    ensures { (result ≡ 0) ↔ ((i : ℕ) → i < WHOLE → slice_index bytes.now i ≡ 0) }
{
    let mut union = u8x32::splat(0);
    for vector in 0..VECTORS {
        union |= u8x32::from_slice(&bytes[LANES * vector..]);
    }
    union.reduce_or()
}

/// Whether each byte from `start` on is zero.
pub fn is_zero_from(bytes: &[u8; PAYLOAD_LIMIT], start: usize) -> bool
    ensures { IsTrue result ↔ ((i : ℕ) → start ≤ i → slice_index bytes.now i ≡ 0) }
{
    for at in start..PAYLOAD_LIMIT {
        if bytes[at] != 0 {
            return false;
        }
    }
    true
}
