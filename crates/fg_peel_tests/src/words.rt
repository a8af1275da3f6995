//! Words by example.

ghost use Rattle.std.specs.Prelude.{◌≤◌};

use fg_words::{PAYLOAD_LIMIT, Shared, Word};
use std::alloc::{AllocError, Global};

/// A media word of these packets, whose other bytes differ from place to place.
fn media(packets: u16) -> Word
    requires { packets ≤ 7 }
{
    let mut word = Word::zero();
    word.pt = 33;
    word.ts = 0x1234_5678;
    let length = 188 * packets;
    word.len = length;
    for at in 0..usize::from(length) {
        word.bytes[at] = if at % 188 == 0 {
            0x47
        } else {
            (at % 251) as u8
        };
    }
    word
}

/// XORs a byte at a time.
fn plain_xor(bytes: &mut [u8; PAYLOAD_LIMIT], other: &[u8; PAYLOAD_LIMIT]) {
    for at in 0..PAYLOAD_LIMIT {
        bytes[at] ^= other[at];
    }
}

#[test]
fn media_words_have_whole_packets_and_a_zero_tail(rt: HostRuntime) {
    assert!(rt; !media(0).is_media());
    assert!(rt; media(1).is_media());
    assert!(rt; media(7).is_media());
    let mut word = media(2);
    word.bytes[188] = 0x46;
    assert!(rt; !word.is_media());
    let mut word = media(2);
    word.bytes[376] = 1;
    assert!(rt; !word.is_media());
    let mut word = media(2);
    word.len = 375;
    assert!(rt; !word.is_media());
    let mut word = media(2);
    word.pt = 34;
    assert!(rt; !word.is_media());
}

#[test]
fn xor_agrees_with_a_plain_loop(rt: HostRuntime) {
    let mut sum = media(7);
    let mut plain = sum.bytes;
    let other = media(3);
    sum.xor_in(&other);
    plain_xor(&mut plain, &other.bytes);
    assert!(rt; sum.bytes == plain);
    assert_eq!(rt; sum.len, 1316 ^ 564);
    sum.xor_in(&other);
    assert!(rt; sum.same(&media(7)));
}

#[test]
fn packets_are_added_as_their_word(rt: HostRuntime) {
    let other = media(3);
    let mut sum = media(7);
    sum.xor_in(&other);
    sum.xor_transport(other.ts, &other.bytes[..564]);
    assert!(rt; sum.same(&media(7)));
}

#[test]
fn packets_are_added_to_two_words_as_to_each(rt: HostRuntime) {
    let whole = media(7);
    let short = media(2);
    let mut one = media(5);
    let mut other = media(6);
    Word::xor_transport_into_two(&mut one, &mut other, whole.ts, &whole.bytes);
    Word::xor_transport_into_two(&mut one, &mut other, short.ts, &short.bytes[..376]);
    one.xor_in_two(&whole, &short);
    other.xor_in_two(&whole, &short);
    assert!(rt; one.same(&media(5)));
    assert!(rt; other.same(&media(6)));
}

#[test]
fn several_words_at_once_are_one_after_another(rt: HostRuntime) {
    let mut sum = media(7);
    sum.xor_in_two(&media(3), &media(4));
    sum.xor_in_four(&media(1), &media(2), &media(5), &media(6));
    let mut single = media(7);
    for packets in 1..7u16 {
        single.xor_in(&media(packets));
    }
    assert!(rt; sum.same(&single));
}

#[test]
fn zero_words_are_zero_in_every_byte(rt: HostRuntime) {
    assert!(rt; Word::zero().is_zero());
    for at in [0, 31, 32, 1311, 1312, 1315] {
        let mut word = Word::zero();
        word.bytes[at] = 0x80;
        assert!(rt; !word.is_zero(), "at {at}");
        assert!(rt; !word.same(&Word::zero()), "at {at}");
    }
    assert!(rt; !media(1).is_zero());
}

/// Takes what several threads may hold.
fn hold<T: Send + Sync + Drop>(_value: T) {}

#[test]
fn a_share_has_the_word_given(rt: HostRuntime) {
    let shared = media(5).share(rt.alloc());
    match shared {
        Ok(shared) => {
            assert!(rt; shared.word().same(&media(5)));
            let lent = shared.lend();
            hold::<Shared>(shared);
            match lent {
                Ok(lent) => assert!(rt; lent.word().same(&media(5))),
                Err(_) => assert!(rt; false),
            }
        }
        Err(_) => assert!(rt; false),
    }
}

/// Whether a share of the first word, with or without a second owner, is refilled to the other.
fn is_refilled(alloc: Global, held: bool) -> Result<bool, AllocError> {
    let share = media(7).share(alloc)?;
    let lent = share.lend()?;
    let word = media(2);
    let rest = &word.bytes[..376];
    if held {
        let next = Shared::refill(alloc, Some(share), 33, word.ts, 376, rest)?;
        Ok(next.word().same(&word) && lent.word().same(&media(7)))
    } else {
        drop(lent);
        let next = Shared::refill(alloc, Some(share), 33, word.ts, 376, rest)?;
        Ok(next.word().same(&word))
    }
}

#[test]
fn a_share_that_is_used_again_touches_no_other(rt: HostRuntime) {
    for held in [false, true] {
        match is_refilled(rt.alloc(), held) {
            Ok(is_right) => assert!(rt; is_right),
            Err(_) => assert!(rt; false),
        }
    }
}
