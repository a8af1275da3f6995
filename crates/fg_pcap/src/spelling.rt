//! The bytes of a capture.
ghost use Rattle.std.specs.Prelude.{◌≡◌, ◌<◌, ◌≤◌, ◌↔◌, IsTrue};
ghost use Rattle.fg_pcap.specs.Spelling as spelled;
ghost use Rattle.fg_pcap.specs.Spelling.{seconds_end, most_datagram};

use crate::checksum::ipv4_checksum_of;
use crate::file_header::FILE_HEADER;
use crate::frame::{ETHERNET_HEADER, IPV4_HEADER, UDP_HEADER};
use crate::packet_header::PACKET_HEADER;

/// The first time in microseconds whose seconds don't fit into 32 bits.
const SECONDS_END: u64 = 4_294_967_296_000_000;

/// The largest datagram that a UDP header and an IPv4 header leave room for.
const MOST_DATAGRAM: u16 = 65_507;

/// How many microseconds a second has.
const MICROSECONDS: u64 = 1_000_000;

/// How many bytes a record has before its datagram.
pub(crate) const HEADERS: usize = PACKET_HEADER + ETHERNET_HEADER + IPV4_HEADER + UDP_HEADER;

/// Destination and source of each frame, and the type of IPv4.
const ADDRESSES_AND_TYPE: [u8; ETHERNET_HEADER] = [2, 0, 0, 0, 0, 2, 2, 0, 0, 0, 0, 1, 8, 0];

/// What begins a capture: version 2.4 with the highest byte first, times in microseconds, Ethernet.
pub(crate) const FILE_HEADER_BYTES: [u8; FILE_HEADER] = [
    0xa1, 0xb2, 0xc3, 0xd4, 0, 2, 0, 4, 0, 0, 0, 0, 0, 0, 0, 0, 0, 4, 0, 0, 0, 0, 0, 1,
];

/// Whether a datagram of this time, in microseconds, and this size fits into a capture.
///
/// A capture's seconds have 32 bits, and the total length of IPv4, which counts 28 bytes of headers, has 16: it is false
/// exactly where the time is 4,294,967,296,000,000 or more or the size is above 65,507.
pub fn fit(time: u64, size: u16) -> bool
    ensures { IsTrue result ↔ ((time < seconds_end) × (size ≤ most_datagram)) }
{
    time < SECONDS_END && size <= MOST_DATAGRAM
}

/// What a record has before its datagram, which has so many bytes. The time is in microseconds.
#[tactic(auto, unfolding(crate::specs::Spelling::headers))]
pub(crate) fn headers(time: u64, port: u16, size: u16) -> [u8; HEADERS]
    requires time { time < seconds_end }
    requires size { size ≤ most_datagram }
    ensures { result ≡ spelled.headers time port size }
{
    let udp = UDP_HEADER as u16 + size;
    let ipv4 = IPV4_HEADER as u16 + udp;
    let mut headers = [0; HEADERS];
    headers[..16].copy_from_slice(&record_header(time, ETHERNET_HEADER as u32 + u32::from(ipv4)));
    headers[16..30].copy_from_slice(&ADDRESSES_AND_TYPE);
    headers[30..50].copy_from_slice(&ipv4_header(ipv4));
    headers[50..].copy_from_slice(&udp_header(port, udp));
    headers
}

/// The header of a record, whose frame has so many bytes.
fn record_header(time: u64, size: u32) -> [u8; 16]
    requires { time < seconds_end }
    ensures { result ≡ spelled.record_header time size }
{
    let seconds = (time / MICROSECONDS) as u32;
    let fraction = (time % MICROSECONDS) as u32;
    let [s0, s1, s2, s3] = seconds.to_be_bytes();
    let [f0, f1, f2, f3] = fraction.to_be_bytes();
    let [n0, n1, n2, n3] = size.to_be_bytes();
    [
        s0, s1, s2, s3, f0, f1, f2, f3, n0, n1, n2, n3, n0, n1, n2, n3,
    ]
}

/// An IPv4 header with this total length.
fn ipv4_header(total: u16) -> [u8; 20]
    ensures { result ≡ spelled.ipv4_header total }
{
    let [t0, t1] = total.to_be_bytes();
    let [c0, c1] = ipv4_checksum_of(total).to_be_bytes();
    [
        0x45, 0, t0, t1, 0, 0, 0x40, 0, 64, 17, c0, c1, 10, 0, 0, 1, 10, 0, 0, 2,
    ]
}

/// A UDP header with this port twice and this length, and without a checksum.
fn udp_header(port: u16, total: u16) -> [u8; 8]
    ensures { result ≡ spelled.udp_header port total }
{
    let [p0, p1] = port.to_be_bytes();
    let [t0, t1] = total.to_be_bytes();
    [p0, p1, p0, p1, t0, t1, 0, 0]
}
