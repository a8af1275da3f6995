//! Streams with each kind of fault and with none.
ghost use Rattle.std.specs.Prelude.{◌≤◌, ◌^◌};

use fg_encode::stream::StreamFault;
use fg_io::{Fault, MemSink, MemSource, SafeSource, Source};
use fg_monitor::*;
use fg_ts::TsFault;
use std::alloc::{AllocError, Global};
use std::process::Abort;
use std::test::Fail;

/// How a packet begins: the sync byte, the PID (2 bytes), control and counter (4 bits each), and of an adaptation field the
/// length and the flags. Control 1 is a payload, 2 an adaptation field, 3 both.
type Head = [u8; 6];

const MOST: u64 = 1 << 40;

/// A stream of packets that begin so.
fn stream(alloc: Global, heads: &[Head]) -> Result<Vec<u8>, AllocError> {
    let mut bytes = Vec::new(alloc);
    for head in heads {
        bytes.extend_from_slice(head)?;
        bytes.extend_from_slice(&[0xff; 182])?;
    }
    Ok(bytes)
}

/// Monitors a stream of these bytes, in pieces of any size, and compares its ending and its text with these.
fn is_told(
    rt: &impl Abort,
    alloc: Global,
    bytes: &[u8],
    max: u64,
    ending: Option<StreamFault>,
    text: &str,
) -> Result<(), AllocError>
    requires least { 8 ≤ max }
    requires limit { max ≤ 2 ^ 40 }
{
    for piece in [1, 189, 4000] {
        let mut input = SafeSource::new(alloc, bytes, piece)?;
        let mut out = MemSink::new(alloc, 65_536, &[])?;
        let answer = monitor_stream(alloc, max, &mut input, &mut out);
        assert_eq!(rt; answer, Ok(ending));
        assert_eq!(rt; out.bytes(), text.as_bytes());
    }
    Ok(())
}

/// Monitors a stream of packets that begin so, which is whole.
fn is_told_whole(
    rt: &impl Abort,
    alloc: Global,
    heads: &[Head],
    text: &str,
) -> Result<(), AllocError> {
    is_told(rt, alloc, &stream(alloc, heads)?, MOST, None, text)
}

// Of 112 packets the datagrams 5, 6, 9 and 10 are lost, of seven packets each.
#[test]
fn four_datagrams_are_lost(rt: HostRuntime) -> Result<(), Fail> {
    let mut heads = Vec::new(rt.alloc());
    for number in 0..112u8 {
        if (number / 7 + 1) / 2 != 3 && (number / 7 + 1) / 2 != 5 {
            heads.push([0x47, 1, 0, 0x10 + number % 16, 0, 0])?;
        }
    }
    is_told_whole(
        &rt,
        rt.alloc(),
        &heads,
        "packet 35 pid 256 counter 1 after 2
packet 49 pid 256 counter 13 after 14
packets 84 faults 2
",
    )?;
    Ok(())
}

/// How packets of PID 256 begin: what follows the PID, as numbers of three bytes.
fn heads_of(alloc: Global, rests: &[u32]) -> Result<Vec<Head>, AllocError> {
    let mut heads = Vec::new(alloc);
    for rest in rests {
        let [_, control, length, flags] = rest.to_be_bytes();
        heads.push([0x47, 1, 0, control, length, flags])?;
    }
    Ok(heads)
}

/// Streams of such packets, and what is told of them.
const ON_ONE_PID: [(&[u32], &str); 3] = [
    // A packet is repeated once, after a break too, and a packet that announces a break is no repeat.
    (
        &[
            0x13_0000, 0x13_0000, 0x13_0000, 0x14_0000, 0x1f_0000, 0x1f_0000, 0x10_0000, 0x30_0180,
            0x10_0000, 0x10_0000,
        ],
        "packet 2 pid 256 counter 3 after 3
packet 4 pid 256 counter 15 after 4
packet 9 pid 256 counter 0 after 0
packets 10 faults 3
",
    ),
    // Two packets without payload, and those after them; and a packet with payload that doesn't rise after one without.
    (
        &[
            0x15_0000, 0x25_b700, 0x16_0000, 0x27_b700, 0x17_0000, 0x07_0000,
        ],
        "packet 3 pid 256 counter 7 after 6
packet 4 pid 256 counter 7 after 7
packets 6 faults 2
",
    ),
    // Announced breaks: with an adaptation field that says so, without one, with an empty one, and with one that says nothing.
    (
        &[
            0x10_0000, 0x38_0180, 0x19_0000, 0x24_b7ff, 0x15_0000, 0x18_0180, 0x3b_0080, 0x3e_017f,
        ],
        "packet 5 pid 256 counter 8 after 5
packet 6 pid 256 counter 11 after 8
packet 7 pid 256 counter 14 after 11
packets 8 faults 3
",
    ),
];

#[test]
fn breaks_on_one_pid(rt: HostRuntime) -> Result<(), Fail> {
    for (rests, text) in ON_ONE_PID {
        is_told_whole(&rt, rt.alloc(), &heads_of(rt.alloc(), rests)?, text)?;
    }
    Ok(())
}

// Each PID counts for itself, from any counter on, the first and the last too. Null packets don't count. The flags above a PID
// are no part of it.
#[test]
fn a_break_on_one_pid_among_others(rt: HostRuntime) -> Result<(), Fail> {
    is_told_whole(
        &rt,
        rt.alloc(),
        &[
            [0x47, 0x00, 0x00, 0x11, 0, 0],
            [0x47, 0x1f, 0xfe, 0x1f, 0, 0],
            [0x47, 0x1f, 0xff, 0x10, 0, 0],
            [0x47, 0x00, 0x01, 0x19, 0, 0],
            [0x47, 0x40, 0x00, 0x12, 0, 0],
            [0x47, 0x1f, 0xff, 0x17, 0, 0],
            [0x47, 0xff, 0xfe, 0xf1, 0, 0],
            [0x47, 0x00, 0x01, 0x1a, 0, 0],
            [0x47, 0xff, 0xff, 0x10, 0, 0],
        ],
        "packet 6 pid 8190 counter 1 after 15
packets 9 faults 1
",
    )?;
    Ok(())
}

/// Why a stream ended early.
fn not_transport(fault: TsFault) -> Option<StreamFault> {
    Some(StreamFault::NotTransport(fault))
}

/// Three packets, of which the second breaks, and then a packet without its sync byte and a part of one.
fn broken(alloc: Global) -> Result<Vec<u8>, AllocError> {
    let mut bytes = stream(
        alloc,
        &[
            [0x47, 1, 0, 0x10, 0, 0],
            [0x47, 1, 0, 0x12, 0, 0],
            [0x47, 1, 0, 0x13, 0, 0],
            [0x48, 1, 0, 0x14, 0, 0],
        ],
    )?;
    bytes.extend_from_slice(&[0x48, 1])?;
    Ok(bytes)
}

const TOLD: &str = "packet 1 pid 256 counter 2 after 0\n";

// How many bytes of it there are, the limit, and how the stream ends then. After an early end there is no last line.
#[test]
fn streams_end(rt: HostRuntime) -> Result<(), Fail> {
    let bytes = broken(rt.alloc())?;
    is_told(&rt, rt.alloc(), &[], 8, None, "packets 0 faults 0\n")?;
    for (length, max, ending, text) in [
        (754, MOST, not_transport(TsFault::NoSync(3)), TOLD),
        (754, 752, not_transport(TsFault::NoSync(3)), TOLD),
        (754, 751, Some(StreamFault::TooLong(564)), TOLD),
        (566, 566, not_transport(TsFault::Ragged(566)), TOLD),
        (566, 565, Some(StreamFault::TooLong(564)), TOLD),
        (2, 8, not_transport(TsFault::Ragged(2)), ""),
        (754, 187, Some(StreamFault::TooLong(0)), ""),
    ] {
        let front = bytes.get(..length).unwrap_or(&[]);
        is_told(&rt, rt.alloc(), front, max, ending, text)?;
    }
    Ok(())
}

/// Checks that a source is monitored up to this fault, where a sink that fails at these calls has nothing.
fn is_stopped<S: Source>(
    rt: &impl Abort,
    alloc: Global,
    input: &mut S,
    fails: &[u64],
    fault: Fault,
) -> Result<(), AllocError> {
    let mut out = MemSink::new(alloc, 65_536, fails)?;
    let answer = monitor_stream(alloc, MOST, input, &mut out);
    assert_eq!(rt; answer, Err(fault));
    assert!(rt; out.bytes().is_empty());
    Ok(())
}

// The second packet isn't whole when the read fails, or its line is held when the write of all fails.
#[test]
fn reads_and_writes_fail(rt: HostRuntime) -> Result<(), Fail> {
    let bytes = broken(rt.alloc())?;
    let mut input = MemSource::new(rt.alloc(), &bytes, 100, &[3])?;
    is_stopped(&rt, rt.alloc(), &mut input, &[], Fault::Read)?;
    let mut input = SafeSource::new(rt.alloc(), &bytes, 100)?;
    is_stopped(&rt, rt.alloc(), &mut input, &[0], Fault::Write)?;
    Ok(())
}

// A monitor is fed by hand.
#[test]
fn a_monitor_tells(rt: HostRuntime) -> Result<(), Fail> {
    let mut packet = [0xff; 188];
    packet[0] = 0x47;
    packet[1] = 0x1f;
    packet[2] = 0xfe;
    packet[3] = 0x1a;
    let mut monitor = Monitor::new(rt.alloc())?;
    assert_eq!(rt; monitor.feed(&packet), None);
    packet[3] = 0x1c;
    let told = Break {
        packet: 1,
        pid: 8190,
        counter: 12,
        before: 10,
    };
    assert_eq!(rt; monitor.feed(&packet), Some(told));
    Ok(())
}
