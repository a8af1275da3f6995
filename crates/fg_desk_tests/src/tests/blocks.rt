//! A block of four rows and four columns, in the order in which an encoder sends it.

use super::script::Step::{Epoch, Flush, Flushed, Live, Media, Parity};
use super::script::{Step, follows, goes_on};
use fg_desk::Desk;
use fg_desk::Outcome::{Inconsistent, Repaired};
use fg_desk::Reply::Admitted;
use std::alloc::Global;
use std::process::Abort;
use std::test::Fail;

/// A word of which a payload bit is flipped.
const FLIPPED: u32 = 1 << 20;

#[test]
fn block_that_two_passes_repair(rt: HostRuntime) -> Result<(), Fail> {
    // Lost: 5, 6, 10, 11, and the last column.
    let script = [
        Step::Run(0, 4, 0),
        Parity(0, 1, 4, 0, Admitted),
        Step::Run(4, 4, 0b0110),
        Parity(4, 1, 4, 4, Admitted),
        Step::Run(8, 4, 0b1100),
        Parity(8, 1, 4, 8, Admitted),
        Media(12, 12, Admitted),
        Parity(0, 4, 4, 0, Admitted),
        Media(13, 13, Admitted),
        Parity(1, 4, 4, 1, Admitted),
        Media(14, 14, Admitted),
        Parity(2, 4, 4, 2, Admitted),
        Media(15, 15, Admitted),
        Parity(12, 1, 4, 12, Admitted),
        Live(7),
        Flush(Repaired, 16, 0, 0x0c60, 0),
        Flushed,
        Epoch(0),
    ];
    follows(&rt, rt.alloc(), 100, 400, &script)
}

/// Rows and columns of a block whose media datagrams stand at the front. The second row has this
/// word.
fn whole_block(lost: u128, second_row: u32) -> [Step; 9] {
    [
        Step::Run(0, 16, lost),
        Parity(0, 1, 4, 0, Admitted),
        Parity(4, 1, 4, second_row, Admitted),
        Parity(8, 1, 4, 8, Admitted),
        Parity(0, 4, 4, 0, Admitted),
        Parity(1, 4, 4, 1, Admitted),
        Parity(2, 4, 4, 2, Admitted),
        Parity(3, 4, 4, 3, Admitted),
        Parity(12, 1, 4, 12, Admitted),
    ]
}

/// A desk flushes a whole block.
fn flushes(
    rt: &impl Abort,
    alloc: Global,
    lost: u128,
    second_row: u32,
    want: &[Step],
) -> Result<(), Fail> {
    let mut desk = Desk::new(alloc, 100, 400, 0)?;
    takes_and_flushes(rt, alloc, &mut desk, &whole_block(lost, second_row), want)
}

fn takes_and_flushes(
    rt: &impl Abort,
    alloc: Global,
    desk: &mut Desk,
    block: &[Step],
    want: &[Step],
) -> Result<(), Fail> {
    goes_on(rt, alloc, desk, block)?;
    goes_on(rt, alloc, desk, want)
}

#[test]
fn four_lost_in_a_square(rt: HostRuntime) -> Result<(), Fail> {
    let want = [Flush(Repaired, 16, 0x0660, 0, 0), Flushed, Epoch(0)];
    flushes(&rt, rt.alloc(), 0x0660, 4, &want)
}

#[test]
fn flipped_bit_of_a_row(rt: HostRuntime) -> Result<(), Fail> {
    let want = [Flush(Inconsistent, 16, 0, 0, 0), Flushed, Epoch(1), Live(0)];
    flushes(&rt, rt.alloc(), 0, 4 + FLIPPED, &want)
}

#[test]
fn two_words_for_one_position(rt: HostRuntime) -> Result<(), Fail> {
    let want = [
        Flush(Inconsistent, 16, 0x0020, 0, 0),
        Flushed,
        Epoch(1),
        Live(0),
    ];
    flushes(&rt, rt.alloc(), 0x0020, 4 + FLIPPED, &want)
}
