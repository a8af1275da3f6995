//! Parity datagrams by example.

ghost use Rattle.std.specs.Prelude.{◌≡◌, ◌≤◌, ℕ, slice_index};

use crate::{FecFault, PARITY_LIMIT, Parity, read, write};
use fg_shape::{Shape, shape_ok};
use fg_words::Word;

/// The FEC header of a row of five datagrams from number 0x0102 on, with payloads of 1,316 bytes and
/// the timestamps 1000, 2000, 3000, 4000 and 5000.
const ROW: [u8; 16] = [
    1, 2, 5, 0x24, 0xa1, 0, 0, 0, 0, 0, 0x13, 0xa8, 0x40, 1, 5, 0,
];

/// The FEC header of a column of the first four of such datagrams, five apart.
const COLUMN: [u8; 16] = [1, 2, 0, 0, 0x80, 0, 0, 0, 0, 0, 0, 0x20, 0, 5, 4, 0];

/// A parity datagram whose RTP header begins with these two bytes, with this FEC header and 1,317
/// bytes after it.
fn datagram(first: u8, second: u8, header: &[u8; 16]) -> [u8; 1345] {
    let mut bytes = [0; 1345];
    bytes[0] = first;
    bytes[1] = second;
    bytes[2..12].copy_from_slice(&[0x5a; 10]);
    bytes[12..28].copy_from_slice(header);
    bytes[28] = 0x47;
    bytes[1343] = 0x99;
    bytes
}

/// What the first `length` bytes are read as.
fn read_front(bytes: &[u8; 1345], length: usize) -> Result<Parity, FecFault>
    requires { length ≤ 1345 }
{
    read(&bytes[..length])
}

/// The fault of the first `length` bytes, or none.
fn fault(bytes: &[u8; 1345], length: usize) -> Option<FecFault>
    requires { length ≤ 1345 }
{
    read_front(bytes, length).err()
}

/// The fault of a parity datagram with this shape, or none.
fn fault_of_shape(offset: u8, na: u8) -> Option<FecFault> {
    let mut header = ROW;
    header[13] = offset;
    header[14] = na;
    fault(&datagram(0x80, 0x60, &header), 1344)
}

#[test]
fn a_row_has_its_fields(rt: HostRuntime) {
    match read_front(&datagram(0x80, 0x60, &ROW), 1344) {
        Ok(parity) => {
            let mut wanted = Word::zero();
            wanted.pt = 33;
            wanted.ts = 5032;
            wanted.len = 1316;
            wanted.bytes[0] = 0x47;
            wanted.bytes[1315] = 0x99;
            assert_eq!(rt; parity.base, 0x0102);
            assert!(rt; parity.shape == Shape { offset: 1, na: 5 });
            assert!(rt; parity.row);
            assert!(rt; parity.word.same(&wanted));
        }
        Err(_) => assert!(rt; false),
    }
}

#[test]
fn a_column_has_its_fields(rt: HostRuntime) {
    match read_front(&datagram(0x80, 0x60, &COLUMN), 29) {
        Ok(parity) => {
            let mut wanted = Word::zero();
            wanted.ts = 32;
            wanted.bytes[0] = 0x47;
            assert_eq!(rt; parity.base, 0x0102);
            assert!(rt; parity.shape == Shape { offset: 5, na: 4 });
            assert!(rt; !parity.row);
            assert!(rt; parity.word.same(&wanted));
        }
        Err(_) => assert!(rt; false),
    }
}

#[test]
fn the_rest_of_the_headers_is_ignored(rt: HostRuntime) {
    let mut header = ROW;
    header[5..8].copy_from_slice(&[0xff; 3]);
    header[15] = 0xff;
    let plain = read_front(&datagram(0x80, 0x60, &ROW), 1344);
    let lenient = read_front(&datagram(0xbf, 0xff, &header), 1344);
    match (plain, lenient) {
        (Ok(plain), Ok(lenient)) => {
            assert_eq!(rt; plain.base, lenient.base);
            assert!(rt; plain.shape == lenient.shape);
            assert!(rt; plain.row && lenient.row);
            assert!(rt; plain.word.same(&lenient.word));
        }
        _ => assert!(rt; false),
    }
}

#[test]
fn the_first_broken_rule_is_named(rt: HostRuntime) {
    let mut header = [0xff; 16];
    assert_eq!(rt;
        fault(&datagram(0x40, 0, &header), 27),
        Some(FecFault::Short)
    );
    assert_eq!(rt;
        fault(&datagram(0x40, 0, &header), 28),
        Some(FecFault::Version)
    );
    header[4] = 0x7f;
    assert_eq!(rt;
        fault(&datagram(0x80, 0, &header), 28),
        Some(FecFault::NoExtension)
    );
    header[4] = 0xff;
    assert_eq!(rt;
        fault(&datagram(0x80, 0, &header), 28),
        Some(FecFault::OtherFec)
    );
    header[12] = 0x40;
    assert_eq!(rt;
        fault(&datagram(0x80, 0, &header), 28),
        Some(FecFault::Shape)
    );
    assert_eq!(rt; fault(&datagram(0x80, 0, &ROW), 28), Some(FecFault::Size));
    assert_eq!(rt; fault(&datagram(0x80, 0, &ROW), 1345), Some(FecFault::Size));
    assert!(rt; fault(&datagram(0x80, 0, &ROW), 1344).is_none());
}

#[test]
fn shapes_have_limits(rt: HostRuntime) {
    assert_eq!(rt; fault_of_shape(0, 4), Some(FecFault::Shape));
    assert_eq!(rt; fault_of_shape(4, 0), Some(FecFault::Shape));
    assert_eq!(rt; fault_of_shape(20, 6), Some(FecFault::Shape));
    assert!(rt; fault_of_shape(20, 5).is_none());
    assert!(rt; fault_of_shape(1, 20).is_none());
}

/// The sum of the words of so many of those datagrams, whose payloads are alike but for the last byte.
fn sum(count: u32) -> Word
    requires { count ≤ 5 }
{
    let mut sum = Word::zero();
    for number in 1..count + 1 {
        let mut word = Word::zero();
        word.pt = 33;
        word.ts = 1000 * number;
        word.len = 1316;
        word.bytes[0] = 0x47;
        word.bytes[1315] = number as u8;
        sum.xor_in(&word);
    }
    sum
}

/// The parity with these fields.
fn parity(shape: Shape, row: bool, word: Word) -> Parity {
    Parity {
        base: 0x0102,
        shape,
        row,
        word,
    }
}

/// A word has no byte behind its last one.
fn ends(bytes: &[u8; 1316])
    ensures { (i : ℕ) → 1316 ≤ i → slice_index bytes.now i ≡ 0 }
{
    let _last = bytes[1315];
}

/// How many bytes were written with a whole payload, or none where the parity isn't one that is written.
fn written(parity: &Parity, into: &mut [u8; PARITY_LIMIT]) -> Option<usize> {
    let pt = parity.word.pt;
    if !shape_ok(parity.shape) || pt > 127 {
        return None;
    }
    ends(&parity.word.bytes);
    Some(write(0x0a0b, 0x0c0d_0e0f, parity, 1316, into))
}

/// The bytes that are written with it, where the payload has zeros between these two bytes.
fn expected(header: &[u8; 16], first: u8, last: u8) -> [u8; PARITY_LIMIT] {
    let mut bytes = [0; PARITY_LIMIT];
    bytes[..12].copy_from_slice(&[0x80, 0x60, 0x0a, 0x0b, 0x0c, 0x0d, 0x0e, 0x0f, 0, 0, 0, 0]);
    bytes[12..28].copy_from_slice(header);
    bytes[28] = first;
    bytes[1343] = last;
    bytes
}

#[test]
fn a_row_is_written(rt: HostRuntime) {
    let mut into = [0x55; PARITY_LIMIT];
    let row = parity(Shape { offset: 1, na: 5 }, true, sum(5));
    assert_eq!(rt; written(&row, &mut into), Some(1344));
    assert!(rt; into == expected(&ROW, 0x47, 1));
}

#[test]
fn a_column_is_written(rt: HostRuntime) {
    let mut into = [0x55; PARITY_LIMIT];
    let column = parity(Shape { offset: 5, na: 4 }, false, sum(4));
    assert_eq!(rt; written(&column, &mut into), Some(1344));
    assert!(rt; into == expected(&COLUMN, 0, 4));
}

#[test]
fn what_is_written_is_read_back(rt: HostRuntime) {
    let mut into = [0x55; PARITY_LIMIT];
    let row = parity(Shape { offset: 1, na: 5 }, true, sum(5));
    assert!(rt; written(&row, &mut into).is_some());
    match read(&into) {
        Ok(read) => {
            assert_eq!(rt; read.base, 0x0102);
            assert!(rt; read.shape == row.shape && read.row);
            assert!(rt; read.word.same(&row.word));
        }
        Err(_) => assert!(rt; false),
    }
}
