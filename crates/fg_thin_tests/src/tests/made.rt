ghost use Rattle.std.specs.Prelude.{◌≤◌};

use fg_io::Source;
use fg_shape::{Drops, Layout};
use fg_thin::{Made, drawn, sample_settings};
use rand_core::utils::NextWord;
use rand_pcg::Lcg64Xsh32;
use std::alloc::{AllocError, Global};
use std::process::Abort;
use std::test::Fail;

// The words that PCG's C code gives first, for the seed 42 and the stream 54 of its demonstration.
#[test]
fn first_draws(rt: HostRuntime) {
    let mut generator = Lcg64Xsh32::new(42, 54);
    for word in [
        0xa15c_02b7,
        0x7b47_f409,
        0xba1d_3330,
        0x83d2_f293,
        0xbfa4_784b,
        0xcbed_606e,
    ] {
        assert_eq!(rt; generator.next_word(), word);
    }
}

/// Reads through the bound.
fn read<S: Source>(rt: &impl Abort, source: &mut S, into: &mut [u8]) -> usize {
    source.read(into).expect(rt, "a read")
}

/// Whether these bytes stand at this place.
fn stand_at(bytes: &[u8], place: usize, wanted: &[u8]) -> bool {
    place <= bytes.len() && bytes[place..].starts_with(wanted)
}

#[test]
fn made_in_pieces(rt: HostRuntime) {
    let mut made = Made::new(7, 3);
    let mut front = [0; 100];
    let mut back = [0; 4000];
    let mut more = [0; 4];
    assert_eq!(rt; read(&rt, &mut made, &mut front), 100);
    assert_eq!(rt; read(&rt, &mut made, &mut back), 3848);
    assert_eq!(rt; read(&rt, &mut made, &mut more), 0);
    assert!(rt; stand_at(&back, 0, &[21, 171, 124, 57, 93, 162, 37, 118]));
}

// Bytes of the seed 7, and the sum of all, which a program in Python gave.
#[test]
fn made_bytes(rt: HostRuntime) {
    let mut made = Made::new(7, 3);
    let mut bytes = [0; 4000];
    assert_eq!(rt; read(&rt, &mut made, &mut bytes), 3948);
    for (place, wanted) in [
        (0, [71, 1, 0, 16, 195, 185, 84, 164]),
        (8, [188, 127, 50, 108, 253, 196, 139, 25]),
        (188, [71, 1, 0, 17, 242, 191, 205, 157]),
        (3196, [71, 1, 0, 17, 188, 175, 124, 158]),
        (3940, [173, 39, 131, 49, 69, 220, 125, 53]),
    ] {
        assert!(rt; stand_at(&bytes, place, &wanted), "at {place}");
    }
    let sum = bytes
        .iter()
        .fold(0_u32, |sum, byte| sum.wrapping_add(u32::from(*byte)));
    assert_eq!(rt; sum, 500_166);
}

/// Whether these are the numbers.
fn are(drops: &Drops, numbers: &[u64]) -> bool {
    for i in 0..drops.count() {
        if i >= numbers.len() || drops.item(i) != numbers[i] {
            return false;
        }
    }
    drops.count() == numbers.len()
}

/// Whether a sample has so many records and loses these.
fn loses(
    alloc: Global,
    seed: u64,
    datagrams: u32,
    loss: u32,
    records: u64,
    numbers: &[u64],
) -> Result<bool, AllocError>
    requires datagrams { (1 ≤ datagrams) × (datagrams ≤ 20000) }
    requires loss { loss ≤ 20 }
{
    let (count, losses) = drawn(alloc, seed, datagrams, loss)?;
    Ok(count == records && are(&losses.drops, numbers))
}

// What a program in Python drew for the seed 1.
#[test]
fn drawn_losses(rt: HostRuntime) -> Result<(), Fail> {
    let lost = [2, 4, 23, 29, 53, 60, 66, 205];
    assert!(rt; loses(rt.alloc(), 1, 200, 3, 240, &lost)?);
    assert!(rt; loses(rt.alloc(), 1, 100, 3, 120, &lost[..7])?);
    assert!(rt; loses(rt.alloc(), 1, 200, 0, 240, &[])?);
    Ok(())
}

// The last matrix of 95 datagrams has five columns and nine rows.
#[test]
fn counted_records(rt: HostRuntime) -> Result<(), Fail> {
    for (datagrams, records) in [(1, 1), (10, 11), (95, 109), (100, 120), (20_000, 24_000)] {
        let (count, _losses) = drawn(rt.alloc(), 1, datagrams, 0)?;
        assert_eq!(rt; count, records);
    }
    Ok(())
}

#[test]
fn settings_of_a_sample(rt: HostRuntime) {
    let settings = sample_settings();
    assert!(rt; Layout::new(10, 10, true, false) == Ok(settings.layout));
    assert_eq!(rt; settings.port, 5_000);
}
