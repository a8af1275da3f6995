//! The header of a record.
ghost use Rattle.std.specs.Prelude.{◌≡◌, ◌<◌, ◌≤◌, ◌^◌, ◌*◌, ◌+◌, ◌++◌, length};
ghost use Rattle.fg_pcap.specs.Capture.{four_bytes, microseconds};
ghost use Rattle.fg_pcap.specs.PacketHeader.{IsPacketHeader};

use crate::file_header::{ByteOrder, TimeUnit};

/// How many bytes a record has before those that were kept.
pub(crate) const PACKET_HEADER: usize = 16;

/// The numbers before the bytes of a record.
#[derive(Clone, Copy)]
pub(crate) struct PacketHeader {
    /// Whole seconds.
    pub(crate) seconds: u32,
    /// The fraction of a second, in the capture's unit.
    pub(crate) fraction: u32,
    /// How many bytes were kept.
    pub(crate) kept: u32,
    /// How many bytes were sent.
    pub(crate) original: u32,
}

impl PacketHeader {
    /// The header at the front of the bytes.
    pub(crate) fn read(order: ByteOrder, bytes: &[u8]) -> PacketHeader
        requires { PACKET_HEADER ≤ length bytes.now }
        ensures { IsPacketHeader order bytes.now result.seconds result.fraction result.kept
            result.original }
    {
        let (seconds, rest) = split_number(order, bytes);
        let (fraction, rest) = split_number(order, rest);
        let (kept, rest) = split_number(order, rest);
        let (original, _) = split_number(order, rest);
        PacketHeader {
            seconds,
            fraction,
            kept,
            original,
        }
    }

    /// When the record was taken, in microseconds, rounded down.
    pub(crate) fn time(self, unit: TimeUnit) -> u64
        ensures { result ≡ self.seconds * 10 ^ 6 + microseconds unit self.fraction }
    {
        let fraction = match unit {
            TimeUnit::Microseconds => self.fraction,
            TimeUnit::Nanoseconds => self.fraction / 1_000,
        };
        u64::from(self.seconds) * 1_000_000 + u64::from(fraction)
    }
}

/// The number that the first four bytes spell, and the bytes after them.
fn split_number(order: ByteOrder, bytes: &[u8]) -> (u32, &[u8])
    requires { 4 ≤ length bytes.now }
    ensures spelled { bytes.now ≡ four_bytes order result.0 ++ result.1.now }
    ensures fits { result.0 < 2 ^ 32 }
{
    let (first, rest) = bytes.split_first_chunk::<4>().unwrap();
    (number_of(order, *first), rest)
}

/// The number that four bytes spell.
fn number_of(order: ByteOrder, bytes: [u8; 4]) -> u32
    ensures { four_bytes order result ≡ bytes }
{
    match order {
        ByteOrder::HighestFirst => u32::from_be_bytes(bytes),
        ByteOrder::LowestFirst => u32::from_le_bytes(bytes),
    }
}
