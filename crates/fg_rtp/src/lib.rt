//! RTP headers (RFC 3550) and the media datagrams that carry transport packets (RFC 2250, RFC 3551,
//! SMPTE ST 2022-2).
#![tactic(auto)]

ghost use Rattle.std.specs.Prelude.{◌≡◌, ◌≤◌, ◌<◌, ◌≢◌, ◌↔◌, IfOk, IsErrOf, length};
ghost use Rattle.fg_rtp.specs.Header.{header, plain_header, version};

pub mod laws;
mod media;
#[cfg(test)]
mod tests;

use byteorder::{BigEndian, ByteOrder};
pub use media::{
    MEDIA_LIMIT, MediaFault, MediaHeader, media_header, media_share, media_word, payload,
    write_media, write_payload,
};

/// The bytes of the fixed header (RFC 3550).
pub const HEADER_LENGTH: usize = 12;

/// The first byte of a header of version 2 with no padding, no extension and no contributing source.
const VERSION_TWO: u8 = 0x80;

/// The fields of the fixed header of RTP (RFC 3550), but for the version.
#[derive(Clone, Copy)]
pub struct Rtp {
    /// Whether padding follows the payload.
    pub padding: bool,
    /// Whether an extension follows the header.
    pub extension: bool,
    /// The number of contributing sources.
    pub sources: u8,
    /// The marker bit.
    pub marker: bool,
    /// The payload type.
    pub pt: u8,
    /// The sequence number.
    pub seq: u16,
    /// The timestamp, for transport packets in units of 1/90,000 of a second.
    pub ts: u32,
    /// The synchronization source.
    pub ssrc: u32,
}

/// Why bytes have no RTP header.
#[derive(Clone, Copy)]
pub enum RtpFault {
    /// There are fewer than 12 bytes.
    Short,
    /// The version isn't 2.
    Version,
}

/// Reads the fixed header at the front of a datagram.
///
/// The fault is the first that applies, in the order of its variants.
pub fn read(bytes: &[u8]) -> Result<Rtp, RtpFault>
    ensures ok { IfOk result (λ rtp. rtp ≡ header bytes.now) }
    ensures short { IsErrOf result RtpFault.Short ↔ length bytes.now < HEADER_LENGTH }
    ensures version { IsErrOf result RtpFault.Version
        ↔ ((HEADER_LENGTH ≤ length bytes.now) × (version bytes.now ≢ 2)) }
{
    if bytes.len() < HEADER_LENGTH {
        return Err(RtpFault::Short);
    }
    if bytes[0] >> 6 != 2 {
        return Err(RtpFault::Version);
    }
    Ok(fields(bytes))
}

/// The fields of the fixed header at the front of a datagram.
fn fields(bytes: &[u8]) -> Rtp
    requires { HEADER_LENGTH ≤ length bytes.now }
    ensures { result ≡ header bytes.now }
{
    Rtp {
        padding: (bytes[0] >> 5) & 1 == 1,
        extension: (bytes[0] >> 4) & 1 == 1,
        sources: bytes[0] & 0x0f,
        marker: bytes[1] >> 7 == 1,
        pt: bytes[1] & 0x7f,
        seq: BigEndian::read_u16(&bytes[2..4]),
        ts: BigEndian::read_u32(&bytes[4..8]),
        ssrc: BigEndian::read_u32(&bytes[8..12]),
    }
}

/// The bytes of a fixed header with these fields, version 2 and nothing else set: no padding, no extension, no
/// contributing source, and marker 0.
pub fn header_bytes(pt: u8, seq: u16, ts: u32, ssrc: u32) -> [u8; HEADER_LENGTH]
    ensures { result ≡ plain_header pt seq ts ssrc }
{
    let [s0, s1] = seq.to_be_bytes();
    let [t0, t1, t2, t3] = ts.to_be_bytes();
    let [r0, r1, r2, r3] = ssrc.to_be_bytes();
    [VERSION_TWO, pt, s0, s1, t0, t1, t2, t3, r0, r1, r2, r3]
}
