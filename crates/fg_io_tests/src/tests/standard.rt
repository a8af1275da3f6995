use super::{Given, Taken, gives, takes};
use fg_io::{Failed, ReaderSource, WriterSink};
use std::io::{self, ErrorKind, Read, Write};

// Is interrupted, would have to wait, has a byte, fails, and is at its end.
#[derive(Drop)]
struct Flaky(u8);

impl Flaky {
    fn turn(&mut self) -> io::Result<usize> {
        self.0 = self.0.saturating_add(1);
        match self.0 {
            1 => Err(io::Error::from(ErrorKind::Interrupted)),
            2 => Err(io::Error::from(ErrorKind::WouldBlock)),
            3 => Ok(1),
            4 => Err(io::Error::from(ErrorKind::BrokenPipe)),
            _ => Ok(0),
        }
    }
}

impl Read for Flaky {
    fn read(&mut self, into: &mut [u8]) -> io::Result<usize> {
        Ok(self.turn()?.min(into.len()))
    }
}

impl Write for Flaky {
    fn write(&mut self, piece: &[u8]) -> io::Result<usize> {
        Ok(self.turn()?.min(piece.len()))
    }

    fn flush(&mut self) -> io::Result<()> {
        Ok(())
    }
}

static GIVEN: [Given; 3] = [(Ok(1), b"----"), (Err(Failed), b"----"), (Ok(0), b"----")];

#[test]
fn reads_again_after_what_passes(rt: HostRuntime) {
    let mut source = ReaderSource::new(Flaky(0), &rt);
    assert!(rt; gives(&mut source, &GIVEN));
}

static TAKEN: [Taken; 4] = [
    (b"ab", Ok(1)),
    (b"b", Err(Failed)),
    (b"b", Err(Failed)),
    (b"", Ok(0)),
];

#[test]
fn writes_again_after_what_passes(rt: HostRuntime) {
    let mut sink = WriterSink::new(Flaky(0), &rt);
    assert!(rt; takes(&mut sink, &TAKEN));
}
