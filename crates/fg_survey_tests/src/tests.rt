//! A trace with each kind of line, in both forms, and traces that end early.
ghost use Rattle.std.specs.Prelude.{◌≤◌, length};

use fg_io::{MemSink, MemSource};
use fg_survey::survey;
use fg_trace::{Finish, record_header};
use std::alloc::{AllocError, Global};
use std::process::Abort;
use std::test::Fail;

/// A media datagram of one packet, of the sender 7, with this sequence number, timestamp and PID.
fn media(seq: u16, ts: u16, pid: u8) -> [u8; 200] {
    let mut bytes = [0; 200];
    bytes[0] = 0x80;
    bytes[1] = 33;
    let [high, low] = seq.to_be_bytes();
    bytes[2] = high;
    bytes[3] = low;
    let [high, low] = ts.to_be_bytes();
    bytes[6] = high;
    bytes[7] = low;
    bytes[11] = 7;
    bytes[12] = 0x47;
    bytes[14] = pid;
    bytes
}

/// A parity datagram of five datagrams, each fourth.
fn parity() -> [u8; 29] {
    let mut bytes = [0; 29];
    bytes[0] = 0x80;
    bytes[16] = 0x80;
    bytes[25] = 4;
    bytes[26] = 5;
    bytes
}

/// Adds a record with this datagram to a trace.
fn add(trace: &mut Vec<u8>, time: u64, port: u16, datagram: &[u8]) -> Result<(), AllocError>
    requires { length datagram.now ≤ 65535 }
{
    trace.extend_from_slice(&record_header(time, port, datagram.len() as u16))?;
    trace.extend_from_slice(datagram)
}

/// Numbers that wrap, one behind another, one twice and three lost; a parity datagram, and something other.
fn trace(alloc: Global) -> Result<Vec<u8>, AllocError> {
    let mut trace = Vec::from_slice(alloc, b"FECTRAC1")?;
    add(&mut trace, 1000, 5000, &media(65_534, 90, 1))?;
    add(&mut trace, 2000, 5000, &media(65_535, 180, 1))?;
    add(&mut trace, 3000, 5000, &media(1, 270, 2))?;
    add(&mut trace, 2500, 5000, &media(0, 225, 2))?;
    add(&mut trace, 4000, 5000, &media(0, 360, 3))?;
    add(&mut trace, 9000, 5002, &parity())?;
    add(&mut trace, 10_000, 5000, &media(5, 900, 1))?;
    add(&mut trace, 11_000, 6000, b"x")?;
    Ok(trace)
}

/// The answer and the text for a trace of at most `max` bytes.
fn surveyed(
    alloc: Global,
    trace: &[u8],
    max: u64,
    json: bool,
) -> Result<(Finish, MemSink), AllocError>
    requires least { 8 ≤ max }
    requires limit { max ≤ 1099511627776 }
{
    let mut input = MemSource::new(alloc, trace, 100, &[])?;
    let mut out = MemSink::new(alloc, 65_536, &[])?;
    let finish = survey(alloc, max, json, &mut input, &mut out);
    Ok((finish, out))
}

const MOST: u64 = 1_099_511_627_776;

const LINES: &str = "trace records 8 bytes 1230 span 10000 backward 1
port 5000 records 6 bytes 1200 first 0 last 9000 media 6 parity 0 other 0
port 5002 records 1 bytes 29 first 8000 last 8000 media 0 parity 1 other 0
port 6000 records 1 bytes 1 first 10000 last 10000 media 0 parity 0 other 1
stream 5000 ssrc 7 first 65534 expected 8 received 5 lost 3 duplicate 1 late 0 reordered 1 deepest 1 jumps 0 pids 3
bursts 5000 ssrc 7 runs 1 1 0 2 0 4 1 8 0 16 0 32 0 more 0
burst 5000 ssrc 7 slot 4 length 3 at 2000
jitter 5000 ssrc 7 last 0 most 0 silence 6000 at 3000
matrix 5000 columns 4 rows 5 same 1 other 0 lag 1
words flow=5000 window=20 depth=23
tail ended
";

#[test]
fn each_line(rt: HostRuntime) -> Result<(), Fail> {
    let trace = trace(rt.alloc())?;
    let (finish, out) = surveyed(rt.alloc(), &trace, MOST, false)?;
    assert_eq!(rt; finish, Finish::Done);
    assert_eq!(rt; out.bytes(), LINES.as_bytes());
    Ok(())
}

const CUT: &str = "{\"kind\":\"trace\",\"records\":1,\"bytes\":200,\"span\":0,\"backward\":0}
{\"kind\":\"port\",\"port\":5000,\"records\":1,\"bytes\":200,\"first\":0,\"last\":0,\"media\":1,\"parity\":0,\"other\":0}
{\"kind\":\"stream\",\"port\":5000,\"ssrc\":7,\"first\":65534,\"expected\":1,\"received\":1,\"lost\":0,\"duplicate\":0,\"late\":0,\"reordered\":0,\"deepest\":0,\"jumps\":0,\"pids\":1}
{\"kind\":\"bursts\",\"port\":5000,\"ssrc\":7,\"runs\":0,\"1\":0,\"2\":0,\"4\":0,\"8\":0,\"16\":0,\"32\":0,\"more\":0}
{\"kind\":\"jitter\",\"port\":5000,\"ssrc\":7,\"last\":0,\"most\":0,\"silence\":0,\"at\":0}
{\"kind\":\"tail\",\"end\":\"cut\",\"byte\":220}
";

#[test]
fn objects_of_a_cut_trace(rt: HostRuntime) -> Result<(), Fail> {
    let trace = trace(rt.alloc())?;
    let (finish, out) = surveyed(rt.alloc(), trace.get(..400).unwrap_or(&[]), MOST, true)?;
    assert_eq!(rt; finish, Finish::Cut(220));
    assert_eq!(rt; out.bytes(), CUT.as_bytes());
    Ok(())
}

#[test]
fn no_trace(rt: HostRuntime) -> Result<(), Fail> {
    let (finish, out) = surveyed(rt.alloc(), b"FECTRAC2", 8, false)?;
    assert_eq!(rt; finish, Finish::NotTrace(7));
    assert!(rt; out.bytes().is_empty());
    Ok(())
}
