use super::{Given, gives};
use fg_io::*;
use std::test::Fail;

static PIECES: [Given; 3] = [(Ok(3), b"abc-"), (Ok(2), b"de--"), (Ok(0), b"----")];

#[test]
fn safe_source_gives_pieces(rt: HostRuntime) -> Result<(), Fail> {
    let mut source = SafeSource::new(rt.alloc(), b"abcde", 3)?;
    assert!(rt; gives(&mut source, &PIECES));
    Ok(())
}

#[test]
fn safe_sinks_take_all(rt: HostRuntime) {
    assert!(rt; write_all(&mut SafeSink::new(), b"abc") == Ok(()));
    assert!(rt; SafeSink::new().write(b"abc") == Ok(3));
    assert!(rt; SafeOutlet::new().put(5000, b"abc") == Ok(()));
}
