//! The worked block of 16 media datagrams, as it is sent with all of its parity, and what is told where some are lost.
ghost use Rattle.std.specs.Prelude.{◌≤◌, length};

use fg_flows::{Plan, Table};
use fg_io::{MemSink, MemSource, SafeSource, Source};
use fg_prove::*;
use fg_trace::{Finish, record_header};
use std::alloc::{AllocError, Global};
use std::process::Abort;
use std::test::Fail;

/// A media datagram of seven packets with this sequence number.
fn media(seq: u8) -> [u8; 1328] {
    let mut bytes = [0; 1328];
    bytes[0] = 0x80;
    bytes[1] = 0x21;
    bytes[3] = seq;
    for packet in 0..7 {
        bytes[12 + 188 * packet] = 0x47;
    }
    bytes
}

/// A parity datagram of four such datagrams, from a base on and so far from one to the next (SMPTE ST 2022-1). They are alike, so
/// all that it recovers is 0; where the first byte of its payload isn't, it isn't their parity.
fn parity(base: u8, offset: u8, first: u8) -> [u8; 1344] {
    let mut bytes = [0; 1344];
    bytes[0] = 0x80;
    bytes[13] = base;
    bytes[16] = 0x80;
    bytes[25] = offset;
    bytes[26] = 4;
    bytes[28] = first;
    bytes
}

/// Adds a record with this datagram to a trace.
fn add(trace: &mut Vec<u8>, port: u16, datagram: &[u8]) -> Result<(), AllocError>
    requires { length datagram.now ≤ 65535 }
{
    trace.extend_from_slice(&record_header(0, port, datagram.len() as u16))?;
    trace.extend_from_slice(datagram)
}

/// The block, in four rows and four columns, but for the media datagrams that are lost. A column's parity comes after the media
/// datagram at which it ends, and then a row's, whose payload begins with this byte.
fn block(alloc: Global, lost: &[u8], first: u8) -> Result<Vec<u8>, AllocError> {
    let mut trace = Vec::from_slice(alloc, b"FECTRAC1")?;
    for seq in 0..16u8 {
        if !lost.contains(&seq) {
            add(&mut trace, 5000, &media(seq))?;
        }
        if seq >= 12 {
            add(&mut trace, 5002, &parity(seq - 12, 4, 0))?;
        }
        if seq % 4 == 3 {
            add(&mut trace, 5004, &parity(seq - 3, 1, first))?;
        }
    }
    Ok(trace)
}

/// The answer for a source, whose flow is played in windows of so many positions, and what a sink of so much room and these
/// failing writes has.
fn proved<S: Source>(
    rt: &impl Abort,
    alloc: Global,
    input: &mut S,
    window: u32,
    room: usize,
    fails: &[u64],
) -> Result<(Finish, MemSink), AllocError>
    requires least { 1 ≤ window }
    requires limit { window ≤ 100 }
{
    let plan = Plan {
        table: Table::new(alloc, &[5000]).expect(rt, "a table"),
        window,
        depth: 100,
        hold: 0,
        workers: 0,
        max: 65_536,
    };
    let mut out = MemSink::new(alloc, room, fails)?;
    let finish = prove_flow(alloc, &plan, input, &mut out);
    Ok((finish, out))
}

/// Proves the gaps of the block, and compares the text with this one.
fn is_told(
    rt: &impl Abort,
    alloc: Global,
    lost: &[u8],
    first: u8,
    window: u32,
    text: &str,
) -> Result<(), AllocError>
    requires least { 1 ≤ window }
    requires limit { window ≤ 100 }
{
    let mut input = SafeSource::new(alloc, &block(alloc, lost, first)?, 1000)?;
    let (finish, out) = proved(rt, alloc, &mut input, window, 4096, &[])?;
    assert_eq!(rt; finish, Finish::Done);
    assert_eq!(rt; out.bytes(), text.as_bytes());
    Ok(())
}

/// What is known of a block of which four datagrams that two rows and two columns have in common are lost: none follows.
const FOUR: &str = "known 0 5
known 7 2
known 11 5
line 0 1 4
line 4 1 4
line 8 1 4
line 0 4 4
line 1 4 4
line 2 4 4
line 3 4 4
line 12 1 4
open 5 2
open 9 2
end
";

#[test]
fn four_are_lost(rt: HostRuntime) -> Result<(), Fail> {
    let text = format!(in rt.alloc(); "case 5000 0 16\n{FOUR}")?;
    is_told(&rt, rt.alloc(), &[5, 6, 9, 10], 0, 100, &text)?;
    Ok(())
}

/// In windows of eight the second play has what the first one left: what it kept, and the parity that speaks of no lost datagram.
const SECOND_PLAY: &str = "case 5000 8 8
known 0 5
known 7 2
known 11 5
line 8 1 4
line 0 4 4
line 3 4 4
line 12 1 4
open 9 2
end
";

#[test]
fn four_are_lost_in_two_windows(rt: HostRuntime) -> Result<(), Fail> {
    let text = format!(in rt.alloc(); "case 5000 0 8\n{FOUR}{SECOND_PLAY}")?;
    is_told(&rt, rt.alloc(), &[5, 6, 9, 10], 0, 8, &text)?;
    Ok(())
}

// Nothing is lost; or what is lost follows; or four are lost for good, but the rows don't come out.
#[test]
fn nothing_is_told(rt: HostRuntime) -> Result<(), Fail> {
    for (lost, first) in [([16; 4], 0), ([5, 6, 9, 15], 0), ([5, 6, 9, 10], 1)] {
        is_told(&rt, rt.alloc(), &lost, first, 100, "")?;
    }
    Ok(())
}

#[test]
fn a_read_fails(rt: HostRuntime) -> Result<(), Fail> {
    let trace = block(rt.alloc(), &[5, 6, 9, 10], 0)?;
    let mut input = MemSource::new(rt.alloc(), &trace, 1000, &[9])?;
    let (finish, out) = proved(&rt, rt.alloc(), &mut input, 100, 4096, &[])?;
    assert_eq!(rt; finish, Finish::ReadFault);
    assert!(rt; out.bytes().is_empty());
    Ok(())
}

// The sink has room for the first line.
#[test]
fn a_write_fails(rt: HostRuntime) -> Result<(), Fail> {
    let trace = block(rt.alloc(), &[5, 6, 9, 10], 0)?;
    let mut input = SafeSource::new(rt.alloc(), &trace, 1000)?;
    let (finish, out) = proved(&rt, rt.alloc(), &mut input, 100, 15, &[9])?;
    assert_eq!(rt; finish, Finish::WriteFault);
    assert_eq!(rt; out.bytes(), b"case 5000 0 16\n".as_slice());
    Ok(())
}
