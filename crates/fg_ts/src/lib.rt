//! Transport packets (ISO/IEC 13818-1): how many there are, and the fields of one.
#![tactic(auto)]

ghost use Rattle.std.specs.Prelude.{◌≡◌, ℕ, ◌<◌, ◌/◌, ◌↔◌, Ok, IfOk, IsErrOf, IsTrue, MatchOption, length};
ghost use Rattle.fg_ts.specs.Fields.{AnnouncesBreak, HasPayload, adaptation_field_control, counter_of, null_pid, pid_of};
ghost use Rattle.fg_ts.specs.Packets.{ArePackets, FirstFault, IsFirstUnsynced, IsSynced};

/// The length of a transport packet in bytes.
pub const PACKET_LENGTH: usize = 188;

/// The first byte of each transport packet.
pub const SYNC_BYTE: u8 = 0x47;

/// The PID of null packets.
const NULL_PID: u16 = 0x1fff;

/// Why bytes aren't whole transport packets.
#[derive(Clone, Copy, Debug, PartialEq, Eq)]
pub enum TsFault {
    /// Their number, which this is, is no multiple of 188.
    Ragged(u64),
    /// A packet doesn't begin with the sync byte. This is the number of the first, counted from 0.
    NoSync(u64),
}

/// How many transport packets the bytes are.
///
/// The fault is the first that applies, in the order of its variants.
pub fn packet_count(bytes: &[u8]) -> Result<u64, TsFault>
    ensures ok { IfOk result (λ count. ArePackets bytes.now count) }
    ensures counted { (count : ℕ) → ArePackets bytes.now count → result ≡ Ok count }
    ensures faults { (fault : TsFault) → IsErrOf result fault ↔ FirstFault fault bytes.now }
{
    let length = bytes.len();
    if length % PACKET_LENGTH != 0 {
        return Err(TsFault::Ragged(length as u64));
    }
    match first_unsynced(bytes) {
        Some(number) => Err(TsFault::NoSync(number as u64)),
        None => Ok((length / PACKET_LENGTH) as u64),
    }
}

/// The number of the first whole packet that doesn't begin with the sync byte.
fn first_unsynced(bytes: &[u8]) -> Option<usize>
    ensures { MatchOption result
        ((number : ℕ) → number < length bytes.now / PACKET_LENGTH → IsSynced bytes.now number)
        (λ number. IsFirstUnsynced bytes.now number) }
{
    for number in 0..bytes.len() / PACKET_LENGTH {
        if bytes[PACKET_LENGTH * number] != SYNC_BYTE {
            return Some(number);
        }
    }
    None
}

/// The packet's identifier, of 13 bits.
pub fn pid(packet: &[u8; PACKET_LENGTH]) -> u16
    ensures { result ≡ pid_of packet.now }
{
    u16::from_be_bytes([packet[1] & 0x1f, packet[2]])
}

/// The continuity counter, of 4 bits.
pub fn counter(packet: &[u8; PACKET_LENGTH]) -> u8
    ensures { result ≡ counter_of packet.now }
{
    packet[3] & 0x0f
}

/// Whether the packet is a null packet, which carries nothing.
pub fn null_packet(packet: &[u8; PACKET_LENGTH]) -> bool
    ensures { IsTrue result ↔ (pid_of packet.now ≡ null_pid) }
{
    pid(packet) == NULL_PID
}

/// What follows the first four bytes, of 2 bits.
fn field_control(packet: &[u8; PACKET_LENGTH]) -> u8
    ensures { result ≡ adaptation_field_control packet.now }
{
    packet[3] >> 4 & 0x03
}

/// Whether the packet has a payload, by its adaptation_field_control.
pub fn payload_there(packet: &[u8; PACKET_LENGTH]) -> bool
    ensures { IsTrue result ↔ HasPayload packet.now }
{
    field_control(packet) & 0x01 == 1
}

/// Whether the packet announces that its counter breaks off: it has an adaptation field that isn't empty, and the
/// discontinuity_indicator is set there.
pub fn break_there(packet: &[u8; PACKET_LENGTH]) -> bool
    ensures { IsTrue result ↔ AnnouncesBreak packet.now }
{
    field_control(packet) >> 1 == 1 && packet[4] != 0 && packet[5] >> 7 == 1
}
