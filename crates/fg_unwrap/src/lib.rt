//! Positions: the number of each media datagram in its flow, which counts on where the 16 bits of its
//! sequence number wrap.
#![tactic(auto)]

ghost use Rattle.std.specs.Prelude.{◌≡◌, ◌^◌, ◌≤◌, ◌↔◌, pos, IfSome, IsNone};
ghost use Rattle.fg_unwrap.specs.Position.{IsBelowZero, IsPosition, position_of};

pub mod laws;
#[cfg(test)]
mod tests;

/// How many sequence numbers there are (RFC 3550: 16 bits).
const SEQUENCE_NUMBERS: u64 = 0x1_0000;

/// A sequence number that is so far ahead of another, or farther, counts as behind it.
const HALF: u16 = 0x8000;

/// The position of a sequence number, in the manner of RFC 3550's extended sequence number.
///
/// `top` is the greatest position so far, and `top_seq` its sequence number. The position is the one
/// from 32,768 before the top to 32,767 past it that the sequence number can stand for. `None` says
/// that this lies below 0.
#[inline]
pub fn position(top: u64, top_seq: u16, seq: u16) -> Option<u64>
    requires { top ≤ 2 ^ 62 }
    ensures some { IfSome result (λ position. IsPosition top top_seq seq (pos position)) }
    ensures none { IsNone result ↔ IsBelowZero top top_seq seq }
    ensures value { result ≡ position_of top top_seq seq }
{
    let ahead = seq.wrapping_sub(top_seq);
    if ahead < HALF {
        Some(top + u64::from(ahead))
    } else {
        top.checked_sub(SEQUENCE_NUMBERS - u64::from(ahead))
    }
}
