//! Sources, sinks and outlets by example.

mod input_buffer;
mod noted_files;
mod output_buffer;
mod safe;
mod standard;

use fg_io::*;
use noted_files::{NotedFiles, Opened};
use std::alloc::{AllocError, Global};
use std::ops::Range;
use std::os::unix::fs::symlink;
use std::test::Fail;
use std::{fs, io};

fn needs_send<T: Send>(_value: &T) {}

fn is_send<T: Send>() {}

// Main hands these to threads.
#[test]
fn crosses_threads(rt: HostRuntime) {
    needs_send(&StdinSource::new(rt.stdin(), &rt));
    needs_send(&StdoutSink::new(rt.stdout(), &rt));
    needs_send(&StderrSink::new(rt.stderr(), &rt));
    needs_send(&FolderOutlet::new(rt));
    is_send::<MemSource>();
    is_send::<MemSink>();
    is_send::<MemOutlet>();
}

/// What a read of at most four bytes answers, and what it leaves where there were hyphens.
type Given = (Result<usize, Failed>, &'static [u8]);

/// Whether the reads of a source answer so.
fn gives<S: Source>(source: &mut S, wanted: &[Given]) -> bool {
    for (answer, left) in wanted {
        let mut into = [b'-'; 4];
        if source.read(&mut into) != *answer || into.as_slice() != *left {
            return false;
        }
    }
    true
}

static PIECES: [Given; 4] = [
    (Ok(3), b"abc-"),
    (Err(Failed), b"----"),
    (Ok(2), b"de--"),
    (Ok(0), b"----"),
];

#[test]
fn source_gives_pieces(rt: HostRuntime) -> Result<(), Fail> {
    let mut source = MemSource::new(rt.alloc(), b"abcde", 3, &[1])?;
    assert!(rt; gives(&mut source, &PIECES));
    Ok(())
}

#[test]
fn source_is_borrowed(rt: HostRuntime) -> Result<(), Fail> {
    let mut source = MemSource::new(rt.alloc(), b"abcde", 3, &[1])?;
    assert!(rt; gives(&mut &mut source, &PIECES));
    Ok(())
}

/// What a write of a piece answers.
type Taken = (&'static [u8], Result<usize, Failed>);

/// Whether the writes to a sink answer so.
fn takes<K: Sink>(sink: &mut K, wanted: &[Taken]) -> bool {
    for (piece, answer) in wanted {
        if sink.write(piece) != *answer {
            return false;
        }
    }
    true
}

static WRITES: [Taken; 4] = [
    (b"abc", Ok(3)),
    (b"def", Err(Failed)),
    (b"def", Ok(2)),
    (b"f", Ok(0)),
];

#[test]
fn sink_takes_what_fits(rt: HostRuntime) -> Result<(), Fail> {
    let mut sink = MemSink::new(rt.alloc(), 5, &[1])?;
    assert!(rt; takes(&mut sink, &WRITES) && sink.bytes() == b"abcde".as_slice());
    Ok(())
}

/// Whether a sink has these bytes.
fn has(sink: &MemSink, bytes: &[u8]) -> bool {
    sink.bytes() == bytes
}

/// Pieces that are written in one call, what that answers, and what the sink has then.
type Written = (&'static [&'static [u8]], Result<(), Fault>, &'static [u8]);

/// Whether the pieces are written so.
fn writes(sink: &mut MemSink, wanted: &[Written]) -> bool {
    for (pieces, answer, bytes) in wanted {
        if write_pieces(sink, pieces) != *answer || !has(sink, bytes) {
            return false;
        }
    }
    true
}

/// Whether a piece is written so.
fn writes_all(sink: &mut MemSink, piece: &[u8], answer: Result<(), Fault>, bytes: &[u8]) -> bool {
    write_all(sink, piece) == answer && sink.bytes() == bytes
}

#[test]
fn writes_all_or_a_front(rt: HostRuntime) -> Result<(), Fail> {
    let mut sink = MemSink::new(rt.alloc(), 5, &[])?;
    assert!(rt; writes_all(&mut sink, b"abc", Ok(()), b"abc"));
    assert!(rt; writes_all(&mut sink, b"def", Err(Fault::Write), b"abcde"));
    Ok(())
}

static AFTER_A_FAULT: [Written; 2] = [
    (&[b"ab", b"", b"c", b"de", b"f"], Err(Fault::Write), b"abc"),
    (&[b"de", b"f"], Ok(()), b"abcdef"),
];

// A body that tries again after a fault would write all.
#[test]
fn a_failed_write_ends_the_piece(rt: HostRuntime) -> Result<(), Fail> {
    let mut sink = MemSink::new(rt.alloc(), 9, &[0, 3])?;
    assert!(rt; writes_all(&mut sink, b"abc", Err(Fault::Write), b""));
    assert!(rt; writes(&mut sink, &AFTER_A_FAULT));
    Ok(())
}

/// What a put of a piece to a port answers, and what the lane of port 5000 has then.
type Put = (u16, &'static [u8], Result<(), Failed>, &'static [u8]);

static PUTS: [Put; 5] = [
    (5000, b"", Ok(()), b""),
    (5000, b"abc", Ok(()), b"abc"),
    (5000, b"d", Err(Failed), b"abc"),
    (5002, b"", Err(Failed), b"abc"),
    (5000, b"", Ok(()), b"abc"),
];

/// Whether the puts answer so.
fn keeps(outlet: &mut MemOutlet, wanted: &[Put]) -> bool {
    for (port, piece, answer, lane) in wanted {
        if outlet.put(*port, piece) != *answer || outlet.lane(5000) != Some(*lane) {
            return false;
        }
    }
    true
}

/// Whether a put that is full ends so, and no other lane is made.
fn is_full(outlet: &mut MemOutlet) -> bool {
    put(outlet, 5000, b"de") == Err(Fault::Write)
        && outlet.lane(5000) == Some(b"abcd".as_slice())
        && outlet.lane(5001).is_none()
}

#[test]
fn outlet_keeps_lanes(rt: HostRuntime) -> Result<(), Fail> {
    let mut outlet = MemOutlet::new(rt.alloc(), &[5000, 5001], 4, &[2])?;
    assert!(rt; outlet.lane(5000).is_none() && keeps(&mut outlet, &PUTS) && is_full(&mut outlet));
    Ok(())
}

// The tests run without input.
#[test]
fn standard_input_ends(rt: HostRuntime) {
    let mut source = StdinSource::new(rt.stdin(), &rt);
    assert!(rt; source.read(&mut [0; 4]) == Ok(0));
}

#[test]
fn standard_output_takes_all(rt: HostRuntime) {
    assert!(rt; write_all(&mut StdoutSink::new(rt.stdout(), &rt), b"out\n") == Ok(()));
}

#[test]
fn standard_error_takes_all(rt: HostRuntime) {
    assert!(rt; write_all(&mut StderrSink::new(rt.stderr(), &rt), b"err\n") == Ok(()));
}

/// Whether a file holds these bytes.
fn holds(rt: &HostRuntime, name: &str, bytes: &[u8]) -> io::Result<bool> {
    Ok(fs::read(rt, name)?.as_slice() == bytes)
}

/// Whether pieces are put to two lanes.
fn are_put(rt: &HostRuntime) -> bool {
    let mut outlet = FolderOutlet::new(rt);
    outlet.put(65535, b"abc").is_ok()
        && outlet.put(65534, b"x").is_ok()
        && outlet.put(65535, b"de").is_ok()
}

/// Puts to two lanes, in whose files an earlier run left something. Whether all was taken, and the files hold that.
fn two_lanes(rt: &HostRuntime) -> io::Result<bool> {
    fs::write(rt, "65535.ts", "old")?;
    fs::write(rt, "65534.ts", "older")?;
    Ok(are_put(rt) && holds(rt, "65535.ts", b"abcde")? && holds(rt, "65534.ts", b"x")?)
}

#[test]
fn folder_keeps_lanes(rt: HostRuntime) -> Result<(), Fail> {
    let kept = two_lanes(&rt);
    let _ = fs::remove_file(&rt, "65535.ts");
    let _ = fs::remove_file(&rt, "65534.ts");
    assert!(rt; kept?);
    Ok(())
}

/// Puts the piece to each of the lanes. Whether all was taken.
fn put_to_each<O: Outlet>(outlet: &mut O, ports: Range<u16>, piece: &[u8]) -> bool {
    let mut taken = true;
    for port in ports {
        taken = outlet.put(port, piece).is_ok() && taken;
    }
    taken
}

/// The name of a lane's file.
fn lane_name(alloc: Global, port: u16) -> Result<String, AllocError> {
    format!(in alloc; "{port}.ts")
}

/// Removes the file of a name. Whether it held these bytes.
fn take_file(rt: &HostRuntime, name: &str, bytes: &[u8]) -> io::Result<bool> {
    let held = holds(rt, name, bytes);
    fs::remove_file(rt, name)?;
    held
}

/// Removes the file of a lane. Whether it held these bytes.
fn take(rt: &HostRuntime, port: u16, bytes: &[u8]) -> io::Result<bool> {
    let name = lane_name(rt.alloc(), port)?;
    take_file(rt, name.as_str(), bytes)
}

/// Removes the files of the lanes. Whether each held these bytes.
fn take_each(rt: &HostRuntime, ports: Range<u16>, bytes: &[u8]) -> io::Result<bool> {
    let mut same = true;
    for port in ports {
        same = take(rt, port, bytes)? && same;
    }
    Ok(same)
}

/// Puts twice to each of the lanes. Whether all was taken.
fn puts_twice(rt: &HostRuntime, ports: Range<u16>) -> bool {
    let mut outlet = FolderOutlet::new(rt);
    let first = put_to_each(&mut outlet, ports.start..ports.end, b"ab");
    put_to_each(&mut outlet, ports, b"c") && first
}

/// Whether all is taken, and each file holds both pieces.
fn keeps_both(rt: &HostRuntime, ports: Range<u16>) -> io::Result<bool> {
    let taken = puts_twice(rt, ports.start..ports.end);
    Ok(take_each(rt, ports, b"abc")? && taken)
}

#[test]
fn folder_keeps_more_lanes_than_files(rt: HostRuntime) -> Result<(), Fail> {
    assert!(rt; keeps_both(&rt, 4970..5040)?);
    Ok(())
}

/// Puts to each of the lanes. Whether each put opened the lane's file so, and no other.
fn open_one_each<O: Outlet>(
    outlet: &mut O,
    files: &NotedFiles,
    ports: Range<u16>,
    how: Opened,
) -> bool {
    let mut as_wanted = true;
    for port in ports {
        files.expect(port, how);
        as_wanted = outlet.put(port, b"a").is_ok() && files.is_met() && as_wanted;
    }
    as_wanted
}

/// Puts to each of the lanes, closes them, and puts twice again. Each file is made at the first put, opened at its end at the
/// one after, and open at the last.
fn open_twice(files: &NotedFiles, ports: Range<u16>) -> bool {
    let mut outlet = FolderOutlet::new(files);
    open_one_each(&mut outlet, files, ports.start..ports.end, Opened::New)
        && outlet.close().is_ok()
        && open_one_each(&mut outlet, files, ports.start..ports.end, Opened::AtItsEnd)
        && open_one_each(&mut outlet, files, ports, Opened::Not)
}

// All ports are gone through, 65 at a time. So whichever lane's file is opened, and whichever other is opened or made empty
// then, that is noted.
#[test]
fn folder_opens_the_file_of_its_lane_alone(rt: HostRuntime) -> Result<(), Fail> {
    let files = NotedFiles::new(rt);
    for round in 0..1009 {
        let first = (65 * round).min(65_470);
        assert!(rt; open_twice(&files, first..first + 65));
    }
    Ok(())
}

/// Looks at lanes of which the last can't be made, and puts to the first. Whether the look failed, and the put didn't.
fn looks_first(rt: &HostRuntime) -> bool {
    let mut outlet = FolderOutlet::new(rt);
    outlet.prepare(&[64998, 64999]).is_err() && outlet.put(64998, b"").is_ok()
}

/// Whether it is so where a folder has the last lane's name, and an old file of the first lane is made empty by the put.
fn looks_at_all(rt: &HostRuntime) -> io::Result<bool> {
    fs::create_dir(rt, "64999.ts")?;
    fs::write(rt, "64998.ts", "old")?;
    let looked = looks_first(rt);
    fs::remove_dir(rt, "64999.ts")?;
    Ok(take(rt, 64998, b"")? && looked)
}

#[test]
fn folder_looks_at_all_lanes(rt: HostRuntime) -> Result<(), Fail> {
    assert!(rt; looks_at_all(&rt)?);
    Ok(())
}

/// Removes a folder or a file.
fn remove(rt: &HostRuntime, name: &str) -> io::Result<()> {
    match fs::remove_dir(rt, name) {
        Ok(()) => Ok(()),
        Err(_) => fs::remove_file(rt, name),
    }
}

/// Puts to a lane while something else has its file's name, and puts this piece when a file of these bytes has it. Whether the
/// second put alone was taken.
fn second_is_taken(rt: &HostRuntime, port: u16, name: &str, bytes: &str, piece: &[u8]) -> bool {
    let mut outlet = FolderOutlet::new(rt);
    outlet.put(port, b"abc").is_err()
        && remove(rt, name).is_ok()
        && fs::write(rt, name, bytes).is_ok()
        && outlet.put(port, piece).is_ok()
}

/// Whether it was, and what the file holds then.
fn lane_after_a_fault(
    rt: &HostRuntime,
    port: u16,
    bytes: &str,
    piece: &[u8],
    wanted: &[u8],
) -> io::Result<bool> {
    let name = lane_name(rt.alloc(), port)?;
    let taken = second_is_taken(rt, port, name.as_str(), bytes, piece);
    Ok(take_file(rt, name.as_str(), wanted)? && taken)
}

// A folder has the name of the lane's file.
#[test]
fn folder_makes_a_lane_after_a_fault(rt: HostRuntime) -> Result<(), Fail> {
    fs::create_dir(&rt, "65533.ts")?;
    assert!(rt; lane_after_a_fault(&rt, 65533, "old", b"de", b"de")?);
    Ok(())
}

// The lane's file is full.
#[test]
fn folder_opens_a_file_that_failed_at_its_end(rt: HostRuntime) -> Result<(), Fail> {
    symlink(&rt, "/dev/full", "65532.ts")?;
    assert!(rt; lane_after_a_fault(&rt, 65532, "ab", b"c", b"abc")?);
    Ok(())
}
