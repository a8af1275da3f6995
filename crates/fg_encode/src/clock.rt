//! When datagrams are sent, and how they are numbered.
ghost use Rattle.std.specs.Prelude.{◌≡◌, ◌≤◌, ◌^◌};
ghost use Rattle.fg_shape.specs.Shape.{position_limit};
ghost use Rattle.fg_encode.specs.Encoding.{sequence_of, time_of, timestamp_of};

use fg_shape::Settings;

/// The time in microseconds after so many bits of the stream.
pub fn time_after(settings: &Settings, bits: u64) -> u64
    requires rate { 1 ≤ settings.now.rate }
    requires limit { bits ≤ 2 ^ 43 }
    ensures { result ≡ time_of settings.now bits }
{
    bits * 1_000_000 / settings.rate
}

/// The RTP timestamp after so many bits of the stream.
pub fn timestamp_after(settings: &Settings, bits: u64) -> u32
    requires rate { 1 ≤ settings.now.rate }
    requires limit { bits ≤ 2 ^ 43 }
    ensures { result ≡ timestamp_of settings.now bits }
{
    ((u64::from(settings.stamp) + bits * 90_000 / settings.rate) % (1 << 32)) as u32
}

/// The RTP sequence number of a slot's media datagram.
pub fn sequence_at(settings: &Settings, slot: u64) -> u16
    requires { slot ≤ position_limit }
    ensures { result ≡ sequence_of settings.now slot }
{
    ((u64::from(settings.seq) + slot) % (1 << 16)) as u16
}
