//! Headers and datagrams by example.

ghost use Rattle.std.specs.Prelude.{◌≤◌};

use crate::{MEDIA_LIMIT, MediaFault, RtpFault, media_word, payload, read, write_media};
use fg_words::Word;

/// The bytes of seven packets after a header that begins with these two bytes, with sequence number
/// 0x0102, timestamp 0x03040506 and source 0x0708090a.
fn datagram(first: u8, second: u8) -> [u8; 1328] {
    let mut bytes = [0; 1328];
    bytes[0] = first;
    bytes[1] = second;
    for at in 2..12 {
        bytes[at] = (at - 1) as u8;
    }
    for packet in 0..7 {
        bytes[12 + 188 * packet] = 0x47;
    }
    bytes
}

/// What the first `length` bytes of a datagram are read as.
fn read_front(bytes: &[u8; 1328], length: usize) -> Result<(u16, u32, Word), MediaFault>
    requires { length ≤ 1328 }
{
    media_word(&bytes[..length])
}

/// The fault of the first `length` bytes of a datagram, or none.
fn fault(bytes: &[u8; 1328], length: usize) -> Option<MediaFault>
    requires { length ≤ 1328 }
{
    read_front(bytes, length).err()
}

#[test]
fn a_header_has_its_fields(rt: HostRuntime) {
    let bytes = datagram(0xb3, 0xe0);
    match read(&bytes) {
        Ok(rtp) => {
            assert!(rt; rtp.padding && rtp.extension && rtp.marker);
            assert_eq!(rt; rtp.sources, 3);
            assert_eq!(rt; rtp.pt, 96);
            assert_eq!(rt; rtp.seq, 0x0102);
            assert_eq!(rt; rtp.ts, 0x0304_0506);
            assert_eq!(rt; rtp.ssrc, 0x0708_090a);
        }
        Err(_) => assert!(rt; false),
    }
    assert!(rt; matches!(read(&bytes[..11]), Err(RtpFault::Short)));
    assert!(rt; matches!(read(&datagram(0x40, 0x21)), Err(RtpFault::Version)));
}

#[test]
fn a_media_datagram_has_its_word(rt: HostRuntime) {
    let bytes = datagram(0x80, 0xa1);
    match read_front(&bytes, 388) {
        Ok((seq, ssrc, word)) => {
            let mut wanted = Word::zero();
            wanted.pt = 33;
            wanted.ts = 0x0304_0506;
            wanted.len = 376;
            wanted.bytes[0] = 0x47;
            wanted.bytes[188] = 0x47;
            assert_eq!(rt; seq, 0x0102);
            assert_eq!(rt; ssrc, 0x0708_090a);
            assert!(rt; word.same(&wanted));
            assert_eq!(rt; payload(&bytes).len(), 1316);
            assert!(rt; payload(&bytes[..11]).is_empty());
        }
        Err(_) => assert!(rt; false),
    }
    assert!(rt; fault(&datagram(0x80, 0x21), 1328).is_none());
}

#[test]
fn the_first_broken_rule_is_named(rt: HostRuntime) {
    assert_eq!(rt; fault(&datagram(0x90, 0x21), 11), Some(MediaFault::Short));
    assert_eq!(rt; fault(&datagram(0x50, 0x22), 12), Some(MediaFault::Version));
    assert_eq!(rt; fault(&datagram(0x90, 0x22), 12), Some(MediaFault::Flags));
    assert_eq!(rt; fault(&datagram(0x90, 0x21), 1328), Some(MediaFault::Flags));
    assert_eq!(rt; fault(&datagram(0xa0, 0x21), 1328), Some(MediaFault::Flags));
    assert_eq!(rt; fault(&datagram(0x81, 0x21), 1328), Some(MediaFault::Flags));
    assert_eq!(rt;
        fault(&datagram(0x80, 0x22), 12),
        Some(MediaFault::PayloadType)
    );
    assert_eq!(rt; fault(&datagram(0x80, 0x21), 12), Some(MediaFault::Size));
    assert_eq!(rt; fault(&datagram(0x80, 0x21), 1327), Some(MediaFault::Size));
    let mut bytes = datagram(0x80, 0x21);
    bytes[200] = 0x46;
    assert_eq!(rt; fault(&bytes, 387), Some(MediaFault::Size));
    assert_eq!(rt; fault(&bytes, 388), Some(MediaFault::NoSync));
    assert!(rt; fault(&bytes, 200).is_none());
}

#[test]
fn eight_packets_are_too_many(rt: HostRuntime) {
    let mut bytes = [0; 1516];
    bytes[0] = 0x80;
    bytes[1] = 0x21;
    for packet in 0..8 {
        bytes[12 + 188 * packet] = 0x47;
    }
    assert!(rt; matches!(media_word(&bytes), Err(MediaFault::Size)));
}

/// A media word of one packet, whose second byte is this.
fn one_packet(second: u8, ts: u32) -> Word {
    let mut word = Word::zero();
    word.pt = 33;
    word.ts = ts;
    word.len = 188;
    word.bytes[0] = 0x47;
    word.bytes[1] = second;
    word
}

/// How many bytes were written, or none where the word is no media word.
fn written(seq: u16, ssrc: u32, word: &Word, into: &mut [u8; MEDIA_LIMIT]) -> Option<usize> {
    if word.is_media() {
        Some(write_media(seq, ssrc, word, into))
    } else {
        None
    }
}

// One packet with all numbers 0: 80 21, ten zeros, and the packet. What stands behind stays.
#[test]
fn a_media_datagram_is_written(rt: HostRuntime) {
    let mut into = [0x55; MEDIA_LIMIT];
    assert_eq!(rt; written(0, 0, &one_packet(0x99, 0), &mut into), Some(200));
    let mut wanted = [0x55; MEDIA_LIMIT];
    wanted[..200].copy_from_slice(&[0; 200]);
    wanted[0] = 0x80;
    wanted[1] = 0x21;
    wanted[12] = 0x47;
    wanted[13] = 0x99;
    assert!(rt; into == wanted);
}

#[test]
fn what_is_written_is_read_back(rt: HostRuntime) {
    let word = one_packet(0x12, 0xfffe_fdfc);
    let mut into = [0xff; MEDIA_LIMIT];
    assert_eq!(rt; written(0xfedc, 0x8070_6050, &word, &mut into), Some(200));
    match read_front(&into, 200) {
        Ok((seq, ssrc, read)) => {
            assert_eq!(rt; seq, 0xfedc);
            assert_eq!(rt; ssrc, 0x8070_6050);
            assert!(rt; read.same(&word));
        }
        Err(_) => assert!(rt; false),
    }
}
