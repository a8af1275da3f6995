//! Writing a record.
ghost use Rattle.std.specs.Prelude.{◌≡◌, ◌+◌, ◌<◌, ◌≤◌, ◌^◌, ◌++◌, length, take, drop};
ghost use Rattle.fg_trace.specs.Trace.{header_spelling, spelling};

use crate::header::HEADER;

/// The bytes of a record before its datagram, which has so many bytes. The time is in microseconds.
pub fn record_header(time: u64, port: u16, size: u16) -> [u8; HEADER]
    ensures { result ≡ header_spelling time port size }
{
    let mut header = [0; HEADER];
    let end = put(&mut header, 0, &time.to_be_bytes());
    let end = put(&mut header, end, &port.to_be_bytes());
    put(&mut header, end, &size.to_be_bytes());
    header
}

/// Writes the record of a datagram to the front of `into`, and answers how many bytes that took: 12 and the payload's.
///
/// The time is in microseconds. What `into` holds behind the record stays.
pub fn write_datagram(time: u64, port: u16, payload: &[u8], into: &mut [u8]) -> usize
    requires size { length payload.now < 2 ^ 16 }
    requires room { HEADER + length payload.now ≤ length into.old }
    ensures size { result ≡ HEADER + length payload.now }
    ensures spelled { into.new
        ≡ spelling (record { time = time; port = port; datagram = payload.now })
        ++ drop result into.old }
{
    let end = put(into, 0, &record_header(time, port, payload.len() as u16));
    put(into, end, payload)
}

/// Writes a piece at a place, and answers where it ends.
fn put(into: &mut [u8], at: usize, piece: &[u8]) -> usize
    requires { at + length piece.now ≤ length into.old }
    ensures end { result ≡ at + length piece.now }
    ensures written { into.new ≡ take at into.old ++ (piece.now ++ drop result into.old) }
{
    let end = at + piece.len();
    into[at..end].copy_from_slice(piece);
    end
}
