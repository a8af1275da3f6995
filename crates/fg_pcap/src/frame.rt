//! Frames, and the datagrams in them.
ghost use Rattle.std.specs.Prelude.{◌≡◌, ◌<◌, ◌≤◌, ◌+◌, ◌^◌, ◌↔◌, ℕ, List, drop, length, slice_range, IsTrue, IfSome, IfNone};
ghost use Rattle.fg_pcap.specs.Frame.{CarriesIpv4, HoldsDatagram, GivesDatagram, GivesNone, header_length, number_at};

use byteorder::{BigEndian, ByteOrder};

/// The Ethernet type of IPv4 (RFC 894).
const IPV4: [u8; 2] = [0x08, 0x00];

/// The Ethernet type of a tag (IEEE 802.1Q).
const TAG: [u8; 2] = [0x81, 0x00];

/// How many bytes an Ethernet header has.
pub(crate) const ETHERNET_HEADER: usize = 14;

/// The least bytes of an IPv4 header.
pub(crate) const IPV4_HEADER: usize = 20;

/// How many bytes a UDP header has.
pub(crate) const UDP_HEADER: usize = 8;

/// The number of UDP among IPv4's protocols.
const UDP: u8 = 17;

/// The bits of flags and fragment offset that a whole packet has at 0: more fragments, and the offset.
const FRAGMENT: u16 = 0x3fff;

/// The UDP port and the payload of the datagram in a frame, if it gives one.
///
/// The frame is Ethernet's, with at most one tag, and holds a whole IPv4 packet that is no fragment. Checksums aren't tested.
pub(crate) fn datagram_of(frame: &[u8]) -> Option<(u16, &[u8])>
    ensures found { IfSome result (λ found. GivesDatagram frame.now found.0 found.1.now) }
    ensures size { IfSome result (λ found. length found.1.now < 2 ^ 16) }
    ensures none { IfNone result (GivesNone frame.now) }
{
    match packet_of(frame) {
        Some(packet) => datagram_in(packet),
        None => None,
    }
}

/// The bytes of a frame from the IPv4 header on, if its type is IPv4's.
fn packet_of(frame: &[u8]) -> Option<&[u8]>
    ensures found { IfSome result (λ packet. (place : ℕ) × CarriesIpv4 frame.now place
        × (packet.now ≡ drop place frame.now)) }
    ensures none { IfNone result ((place : ℕ) → ¬ CarriesIpv4 frame.now place) }
{
    if has(frame, 12, IPV4) {
        return Some(&frame[ETHERNET_HEADER..]);
    }
    if has(frame, 12, TAG) && has(frame, 16, IPV4) {
        return Some(&frame[18..]);
    }
    None
}

/// Whether these two bytes stand at a place.
fn has(bytes: &[u8], place: usize, pair: [u8; 2]) -> bool
    requires { place ≤ 16 }
    ensures same { IsTrue result ↔ (slice_range bytes.now place (place + 2) ≡ pair) }
    ensures held { IsTrue result → place + 2 ≤ length bytes.now }
{
    bytes.len() >= place + 2 && bytes[place..place + 2] == pair[..]
}

/// The UDP port and the payload of the datagram in an IPv4 packet, if it holds a whole one.
fn datagram_in(packet: &[u8]) -> Option<(u16, &[u8])>
    ensures found { IfSome result (λ found. HoldsDatagram packet.now found.0 found.1.now) }
    ensures size { IfSome result (λ found. length found.1.now < 2 ^ 16) }
    ensures none { IfNone result ((port : ℕ) (payload : List ℕ) → ¬ HoldsDatagram packet.now port payload) }
{
    if packet.len() < IPV4_HEADER || packet[0] >> 4 != 4 || packet[9] != UDP {
        return None;
    }
    if BigEndian::read_u16(&packet[6..8]) & FRAGMENT != 0 {
        return None;
    }
    let header = usize::from(packet[0] & 0x0f) * 4;
    let total = usize::from(BigEndian::read_u16(&packet[2..4]));
    if header < IPV4_HEADER || total > packet.len() || total < header + UDP_HEADER {
        return None;
    }
    let size = usize::from(BigEndian::read_u16(&packet[header + 4..header + 6]));
    if size < UDP_HEADER || header + size > total {
        return None;
    }
    let port = BigEndian::read_u16(&packet[header + 2..header + 4]);
    Some((port, &packet[header + UDP_HEADER..header + size]))
}
