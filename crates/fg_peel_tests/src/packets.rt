//! Packets by example.

ghost use Rattle.std.specs.Prelude.{◌≤◌};

use fg_ts::{
    PACKET_LENGTH, SYNC_BYTE, TsFault, break_there, counter, null_packet, packet_count,
    payload_there, pid,
};

/// The bytes of three packets.
fn packets() -> [u8; 564] {
    let mut bytes = [0; 564];
    for number in 0..3 {
        bytes[188 * number] = 0x47;
    }
    bytes
}

/// What the bytes from `start` to `end` count.
fn count(bytes: &[u8; 564], start: usize, end: usize) -> Result<u64, TsFault>
    requires order { start ≤ end }
    requires end { end ≤ 564 }
{
    packet_count(&bytes[start..end])
}

#[test]
fn whole_packets_are_counted(rt: HostRuntime) {
    let bytes = packets();
    assert_eq!(rt; count(&bytes, 0, 564), Ok(3));
    assert_eq!(rt; count(&bytes, 0, 188), Ok(1));
    assert_eq!(rt; count(&bytes, 0, 0), Ok(0));
}

#[test]
fn the_first_fault_is_told(rt: HostRuntime) {
    let mut bytes = packets();
    bytes[188] = 0x46;
    bytes[376] = 0x46;
    assert_eq!(rt; count(&bytes, 0, 190), Err(TsFault::Ragged(190)));
    assert_eq!(rt; count(&bytes, 0, 376), Err(TsFault::NoSync(1)));
    assert_eq!(rt; count(&bytes, 0, 564), Err(TsFault::NoSync(1)));
    assert_eq!(rt; count(&bytes, 1, 189), Err(TsFault::NoSync(0)));
}

// Among the flags above the PID, and the fields above the counter, all bits are set.
#[test]
fn a_packet_has_its_fields(rt: HostRuntime) {
    let mut packet = [0; PACKET_LENGTH];
    packet[0] = SYNC_BYTE;
    packet[1] = 0xe1;
    packet[2] = 0x23;
    packet[3] = 0xf9;
    assert_eq!(rt; pid(&packet), 0x0123);
    assert_eq!(rt; counter(&packet), 9);
    assert!(rt; !null_packet(&packet));
    packet[1] = 0xff;
    packet[2] = 0xff;
    assert_eq!(rt; pid(&packet), 0x1fff);
    assert!(rt; null_packet(&packet));
}

/// A packet that has these bytes after its PID.
fn packet_with(fields: [u8; 3]) -> [u8; PACKET_LENGTH] {
    let mut packet = [0; PACKET_LENGTH];
    packet[0] = SYNC_BYTE;
    packet[3] = fields[0];
    packet[4] = fields[1];
    packet[5] = fields[2];
    packet
}

// A payload alone, an adaptation field alone, both, and neither.
#[test]
fn a_payload_is_seen(rt: HostRuntime) {
    assert!(rt; payload_there(&packet_with([0x10, 0, 0])));
    assert!(rt; !payload_there(&packet_with([0xef, 0xff, 0xff])));
    assert!(rt; payload_there(&packet_with([0x30, 1, 0])));
    assert!(rt; !payload_there(&packet_with([0xcf, 0xff, 0xff])));
}

// Bytes that would announce a break don't where they are payload, nor where the adaptation field ends before them.
#[test]
fn a_break_is_announced(rt: HostRuntime) {
    assert!(rt; break_there(&packet_with([0x20, 1, 0x80])));
    assert!(rt; break_there(&packet_with([0x30, 0xb7, 0xff])));
    assert!(rt; !break_there(&packet_with([0xdf, 1, 0x80])));
    assert!(rt; !break_there(&packet_with([0x30, 0, 0x80])));
    assert!(rt; !break_there(&packet_with([0x30, 1, 0x7f])));
}
