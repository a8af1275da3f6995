//! The encoder by example.
ghost use Rattle.std.specs.Prelude.{◌≡◌, ◌+◌, ◌*◌, ◌<◌, ◌≤◌, List, ℕ, length};
ghost use Rattle.fg_ts.specs.Packets.{packet_length};
ghost use Rattle.fg_encode.specs.Encoder.{StandsAfter};
ghost use Rattle.fg_shape.specs.Settings.{CanEncode};

mod encodings;
mod streams;

use fg_encode::{Batch, Encoder};
use fg_shape::{Layout, Settings};
use fg_ts::packet_count;
use std::alloc::{AllocError, Global};
use std::process::Abort;
use std::test::Fail;

/// A record that was sent: its time and port, and its datagram's size and some fields.
#[derive(Clone, Copy, Drop)]
struct Sent {
    time: u64,
    port: u16,
    size: usize,
    seq: u16,
    ts: u32,
    /// SNBase and length recovery of a parity datagram.
    base: u16,
    length: u16,
    /// The byte of a parity datagram where `mark` is in the payloads.
    mark: u8,
}

/// Two bytes of a datagram, the highest first; 0 where it is shorter.
fn pair(datagram: &[u8], at: usize) -> u16
    requires { at ≤ 100 }
{
    let high = datagram.get(at).copied().unwrap_or(0);
    let low = datagram.get(at + 1).copied().unwrap_or(0);
    u16::from_be_bytes([high, low])
}

/// What there is to see of a record.
fn seen(time: u64, port: u16, datagram: &[u8]) -> Sent {
    let high = u32::from(pair(datagram, 4));
    let low = u32::from(pair(datagram, 6));
    Sent {
        time,
        port,
        size: datagram.len(),
        seq: pair(datagram, 2),
        ts: high * 65536 + low,
        base: pair(datagram, 12),
        length: pair(datagram, 14),
        mark: datagram.get(28 + MARK).copied().unwrap_or(0),
    }
}

/// Notes the records of a batch.
fn note(all: &mut Vec<Sent>, batch: &Batch) -> Result<(), AllocError> {
    for i in 0..batch.count() {
        let (time, port, datagram) = batch.item(i);
        all.push(seen(time, port, datagram))?;
    }
    Ok(())
}

/// Pushes a payload of 1 to so many packets.
fn push(encoder: &mut Encoder, packets: u8, payload: &[u8], batch: &mut Batch)
    requires stands { (payloads : List (List ℕ)) × StandsAfter encoder.old payloads }
    requires packets { (encoder.old.settings.packets ≡ packets) × (packets ≤ 7) }
    requires taken { encoder.old.taken ≤ 1000000 }
    ensures stands { length payload.now ≡ packet_length * packets
        → (payloads : List (List ℕ)) × StandsAfter encoder.new payloads }
    ensures packets { encoder.new.settings.packets ≡ packets }
    ensures taken { encoder.new.taken ≤ encoder.old.taken + 1 }
{
    match packet_count(payload) {
        Ok(count) => {
            if count >= 1 && count <= u64::from(packets) {
                encoder.push(payload, batch);
            }
        }
        Err(_) => {}
    }
}

/// Where payloads are marked: the last byte of their first packet.
const MARK: usize = 187;

/// Seven packets, with this mark.
fn whole(mark: u8) -> [u8; 1316] {
    let mut bytes = [0; 1316];
    for packet in 0..7 {
        bytes[188 * packet] = 0x47;
    }
    bytes[MARK] = mark;
    bytes
}

/// One packet, with this mark.
fn packet(mark: u8) -> [u8; 188] {
    let mut bytes = [0; 188];
    bytes[0] = 0x47;
    bytes[MARK] = mark;
    bytes
}

/// What is encoded: so many whole payloads, of which one may be marked, and then one packet, if it is asked for.
#[derive(Clone, Copy)]
struct Stream {
    count: u32,
    marked: Option<u32>,
    one: bool,
}

/// So many whole payloads.
fn whole_payloads(count: u32) -> Stream
    requires { count ≤ 1000 }
    ensures { result.count ≤ 1000 }
{
    Stream {
        count,
        marked: None,
        one: false,
    }
}

/// The records of a stream.
fn encode(alloc: Global, settings: Settings, stream: Stream) -> Result<Vec<Sent>, AllocError>
    requires can { CanEncode settings }
    requires count { stream.count ≤ 1000 }
{
    let packets = settings.packets;
    let mut encoder = Encoder::new(alloc, settings)?;
    let mut batch = Batch::new(alloc)?;
    let mut all = Vec::new(alloc);
    for done in 0..stream.count {
        let payload = whole(if stream.marked == Some(done) { 0xff } else { 0 });
        let part = &payload[..188 * usize::from(packets)];
        push(&mut encoder, packets, part, &mut batch);
        note(&mut all, &batch)?;
    }
    if stream.one {
        push(&mut encoder, packets, &packet(0), &mut batch);
        note(&mut all, &batch)?;
    }
    Ok(all)
}

/// Settings with this layout, sequence number and timestamp, seven packets, 10,000,000 bits a second and port 5000.
fn settings(layout: Layout, seq: u16, stamp: u32) -> Settings
    ensures can { CanEncode result }
    ensures packets { result.packets ≡ 7 }
{
    Settings {
        layout,
        packets: 7,
        rate: 10_000_000,
        port: 5000,
        seq,
        ssrc: 0,
        stamp,
    }
}

/// A layout that is written.
fn layout(rt: &impl Abort, l: u8, d: u8, rows: bool, staggered: bool) -> Layout {
    Layout::new(l, d, rows, staggered).expect(rt, "a layout")
}

/// The records on a port.
fn on_port(all: &[Sent], port: u16) -> usize {
    all.iter().filter(|sent| sent.port == port).count()
}

// Three datagrams of 10,528 bits at 10,000,000 bits a second.
#[test]
fn datagrams_have_their_times(rt: HostRuntime) -> Result<(), Fail> {
    let layout = layout(&rt, 4, 4, true, false);
    let all = encode(rt.alloc(), settings(layout, 0, 0), whole_payloads(3))?;
    let times = [(0, 0), (1052, 94), (2105, 189)];
    assert_eq!(rt; all.len(), 3);
    for (sent, (time, ts)) in all.iter().zip(times.iter()) {
        assert_eq!(rt; (sent.time, sent.ts), (*time, *ts));
        assert_eq!(rt; (sent.port, sent.size), (5000, 1328));
    }
    Ok(())
}

// Numbers and timestamps begin anew past their last values.
#[test]
fn numbers_wrap(rt: HostRuntime) -> Result<(), Fail> {
    let layout = layout(&rt, 4, 4, true, false);
    let all = encode(
        rt.alloc(),
        settings(layout, 65534, 0xffff_ffa2),
        whole_payloads(3),
    )?;
    let numbers = [(65534, 0xffff_ffa2), (65535, 0), (0, 95)];
    assert_eq!(rt; all.len(), 3);
    for (sent, (seq, ts)) in all.iter().zip(numbers.iter()) {
        assert_eq!(rt; (sent.seq, sent.ts), (*seq, *ts));
    }
    Ok(())
}

// Four payloads, the last of one packet: the row's lengths sum to 0x0598, and its payload is as long as the longest.
#[test]
fn a_short_last_datagram_in_a_row(rt: HostRuntime) -> Result<(), Fail> {
    let layout = layout(&rt, 4, 4, true, false);
    let short = Stream {
        count: 3,
        marked: None,
        one: true,
    };
    let all = encode(rt.alloc(), settings(layout, 0, 0), short)?;
    assert_eq!(rt; all.len(), 5);
    assert_eq!(rt; (all[3].port, all[3].size, all[3].seq), (5000, 200, 3));
    assert_eq!(rt; (all[4].port, all[4].size, all[4].seq), (5004, 1344, 0));
    assert_eq!(rt; (all[4].base, all[4].length), (0, 0x0598));
    assert_eq!(rt; (all[4].time, all[4].ts), (all[3].time, all[3].ts));
    Ok(())
}

/// The ports of the records of a square of four, in blocks: columns end at slots 12 to 15, rows at 3, 7, 11 and 15.
const SQUARE: [u16; 24] = [
    5000, 5000, 5000, 5000, 5004, 5000, 5000, 5000, 5000, 5004, 5000, 5000, 5000, 5000, 5004, 5000,
    5002, 5000, 5002, 5000, 5002, 5000, 5002, 5004,
];

#[test]
fn a_square_has_24_records(rt: HostRuntime) -> Result<(), Fail> {
    let layout = layout(&rt, 4, 4, true, false);
    let all = encode(rt.alloc(), settings(layout, 0, 0), whole_payloads(16))?;
    assert_eq!(rt; all.len(), 24);
    for (sent, port) in all.iter().zip(SQUARE.iter()) {
        assert_eq!(rt; sent.port, *port);
    }
    assert_eq!(rt; (all[22].seq, all[22].base), (3, 3));
    assert_eq!(rt; (all[23].seq, all[23].base), (3, 12));
    Ok(())
}

// Five columns and five rows, staggered, columns alone: 0 5 10 15 20, then 6 11 16 21 26, 12 .. 32, 18 .. 38, 24 .. 44,
// and 25 .. 45 of the second matrix. Of 50 datagrams 56 records come.
#[test]
fn staggered_columns_over_two_matrices(rt: HostRuntime) -> Result<(), Fail> {
    let layout = layout(&rt, 5, 5, false, true);
    let all = encode(rt.alloc(), settings(layout, 0, 0), whole_payloads(50))?;
    assert_eq!(rt; all.len(), 56);
    assert_eq!(rt; on_port(&all, 5000), 50);
    let columns = [(21, 0), (28, 6), (35, 12), (42, 18), (49, 24), (51, 25)];
    let mut number = 0u16;
    for (at, base) in columns {
        let sent = all.get(at).copied().ok_or("a record")?;
        assert_eq!(rt; (sent.port, sent.size), (5002, 1344));
        assert_eq!(rt; (sent.seq, sent.base), (number, base));
        number = number.wrapping_add(1);
    }
    Ok(())
}

// One packet: version 2, type 33, ten zeros, and the packet.
#[test]
fn one_packet_alone(rt: HostRuntime) -> Result<(), Fail> {
    let layout = layout(&rt, 4, 4, true, false);
    let mut encoder = Encoder::new(rt.alloc(), settings(layout, 0, 0))?;
    let mut batch = Batch::new(rt.alloc())?;
    assert_eq!(rt; batch.count(), 0);
    push(&mut encoder, 7, &packet(0x99), &mut batch);
    let mut wanted = [0; 200];
    wanted[0] = 0x80;
    wanted[1] = 0x21;
    wanted[12] = 0x47;
    wanted[199] = 0x99;
    if batch.count() == 1 {
        let (time, port, datagram) = batch.item(0);
        assert_eq!(rt; (time, port), (0, 5000));
        assert!(rt; datagram == wanted.as_slice());
    } else {
        assert!(rt; false);
    }
    Ok(())
}

/// The time and the timestamp of a media datagram of a stream with so many packets a datagram, at this rate.
fn moment(
    alloc: Global,
    layout: Layout,
    packets: u8,
    rate: u64,
    slot: u32,
) -> Result<Option<(u64, u32)>, AllocError> {
    let settings = Settings {
        layout,
        packets: packets.clamp(1, 7),
        rate: rate.clamp(1, 10_000_000_000),
        port: 5000,
        seq: 0,
        ssrc: 0,
        stamp: 0,
    };
    let mut last = None;
    for sent in encode(alloc, settings, whole_payloads(slot.min(999) + 1))?.iter() {
        if sent.port == 5000 {
            last = Some((sent.time, sent.ts));
        }
    }
    Ok(last)
}

// One bit a second: a packet has 1,504 bits, and seven have 10,528, of which after 52,640 the timestamp has wrapped. And
// 10,000 bits a microsecond: 111,111 are a 90,000th of a second.
#[test]
fn the_slowest_rate_and_the_fastest(rt: HostRuntime) -> Result<(), Fail> {
    let layout = layout(&rt, 4, 4, true, false);
    for (packets, rate, slot, wanted) in [
        (1, 1, 2, (3_008_000_000, 270_720_000)),
        (7, 1, 5, (52_640_000_000, 442_632_704)),
        (1, 10_000_000_000, 7, (1, 0)),
        (7, 10_000_000_000, 19, (20, 1)),
    ] {
        let sent = moment(rt.alloc(), layout, packets, rate, slot)?;
        assert_eq!(rt; sent, Some(wanted));
    }
    Ok(())
}

/// The parity datagrams on a port: after which slot each was sent, and its first slot. The stream's first number is 0.
fn equations(alloc: Global, all: &[Sent], port: u16) -> Result<Vec<(u16, u16)>, AllocError> {
    let mut found = Vec::new(alloc);
    let mut slot = 0;
    for sent in all {
        if sent.port == 5000 {
            slot = sent.seq;
        }
        if sent.port == port {
            found.push((slot, sent.base))?;
        }
    }
    Ok(found)
}

// The columns end in the last of five rows of twenty.
#[test]
fn twenty_columns_of_five_rows(rt: HostRuntime) -> Result<(), Fail> {
    let layout = layout(&rt, 20, 5, true, false);
    let all = encode(rt.alloc(), settings(layout, 0, 0), whole_payloads(100))?;
    let columns = equations(rt.alloc(), &all, 5002)?;
    assert_eq!(rt; columns.len(), 20);
    assert_eq!(rt; columns.first().copied(), Some((80, 0)));
    assert_eq!(rt; columns.last().copied(), Some((99, 19)));
    let rows = equations(rt.alloc(), &all, 5004)?;
    let wanted = [(19, 0), (39, 20), (59, 40), (79, 60), (99, 80)];
    assert!(rt; rows.as_slice() == wanted.as_slice());
    Ok(())
}

// Of eleven datagrams in columns of four, the last three are in no column that is sent.
#[test]
fn one_column_without_rows(rt: HostRuntime) -> Result<(), Fail> {
    let layout = layout(&rt, 1, 4, false, false);
    let all = encode(rt.alloc(), settings(layout, 0, 0), whole_payloads(11))?;
    let columns = equations(rt.alloc(), &all, 5002)?;
    assert!(rt; columns.as_slice() == [(3, 0), (7, 4)].as_slice());
    assert_eq!(rt; all.len(), 13);
    Ok(())
}

// A square of four lacks its last datagram: neither the fourth column is sent, nor the fourth row.
#[test]
fn what_lacks_its_last_slot_is_not_sent(rt: HostRuntime) -> Result<(), Fail> {
    let layout = layout(&rt, 4, 4, true, false);
    let all = encode(rt.alloc(), settings(layout, 0, 0), whole_payloads(15))?;
    let columns = equations(rt.alloc(), &all, 5002)?;
    assert!(rt; columns.as_slice() == [(12, 0), (13, 1), (14, 2)].as_slice());
    let rows = equations(rt.alloc(), &all, 5004)?;
    assert!(rt; rows.as_slice() == [(3, 0), (7, 4), (11, 8)].as_slice());
    Ok(())
}

/// The ports and first slots of the parity datagrams, of five staggered columns and five rows over fifty datagrams, in
/// which the mark of this slot is.
fn marked(rt: &impl Abort, alloc: Global, slot: u32) -> Result<Vec<(u16, u16)>, AllocError> {
    let layout = layout(rt, 5, 5, true, true);
    let stream = Stream {
        count: 50,
        marked: Some(slot),
        one: false,
    };
    let mut found = Vec::new(alloc);
    for sent in encode(alloc, settings(layout, 0, 0), stream)?.iter() {
        if sent.port != 5000 && sent.mark != 0 {
            found.push((sent.port, sent.base))?;
        }
    }
    Ok(found)
}

// Column 1 begins at slot 6: slot 1 is in its row alone, and 6 in row and column.
#[test]
fn slots_before_a_staggered_column(rt: HostRuntime) -> Result<(), Fail> {
    let before = marked(&rt, rt.alloc(), 1)?;
    assert!(rt; before.as_slice() == [(5004, 0)].as_slice());
    let first = marked(&rt, rt.alloc(), 6)?;
    assert!(rt; first.as_slice() == [(5004, 5), (5002, 6)].as_slice());
    Ok(())
}
