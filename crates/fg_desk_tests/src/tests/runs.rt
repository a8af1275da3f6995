//! A flow's run, and the count of its replies.

ghost use Rattle.std.specs.Prelude.{IsTrue, ◌≤◌};
ghost use Rattle.std.specs.List.{All};
ghost use Rattle.fg_plain.specs.Datagrams.{IsGiven};

use super::script::{sum_of, word_of};
use fg_desk::{Outcome, Reply};
use fg_plain::{Datagram, FlowRun, ShownPlay, run_flow};
use fg_shape::{Kind, Shape};
use std::alloc::Global;
use std::process::Abort;
use std::test::Fail;

fn media(seq: u16, ssrc: u32) -> Datagram {
    media_at(0, seq, ssrc)
}

pub(super) fn media_at(time: u64, seq: u16, ssrc: u32) -> Datagram {
    Datagram::Media {
        time,
        seq,
        ssrc,
        word: word_of(u32::from(seq)),
    }
}

/// A row of two.
fn row(base: u16) -> Datagram {
    row_at(0, base)
}

pub(super) fn row_at(time: u64, base: u16) -> Datagram {
    let shape = Shape { offset: 1, na: 2 };
    Datagram::Parity {
        time,
        stream: Kind::Row,
        base,
        shape,
        word: sum_of(u32::from(base), shape),
    }
}

fn are_given(datagrams: &[Datagram]) -> bool
    ensures { IsTrue result → All IsGiven datagrams.now }
{
    for datagram in datagrams {
        if !datagram.is_given() {
            return false;
        }
    }
    true
}

/// The run of datagrams as readers give them, in windows of four.
pub(super) fn run_of(
    rt: &impl Abort,
    alloc: Global,
    depth: u32,
    hold: u64,
    datagrams: &[Datagram],
) -> Result<FlowRun, Fail>
    requires { (4 ≤ depth) × (depth ≤ 1000) }
{
    assert!(rt; are_given(datagrams) && datagrams.len() < 100);
    Ok(run_flow(alloc, 4, depth, hold, datagrams)?)
}

/// A play that shows so many positions, of which these are missing.
fn shows(play: &ShownPlay, first: u64, count: usize, missing: u32) -> bool {
    if play.first != first || play.shown.len() != count || play.outcome != Outcome::Repaired {
        return false;
    }
    let mut rest = missing;
    for shown in play.shown.iter() {
        if shown.repaired || shown.word.is_none() != (rest % 2 == 1) {
            return false;
        }
        rest /= 2;
    }
    true
}

/// How many datagrams of each kind came, of the replies that the test wants.
fn counts(run: &FlowRun, datagrams: &[Datagram]) -> [u64; 4] {
    [
        run.count(datagrams, Kind::Media, Some(Reply::Admitted)),
        run.count(datagrams, Kind::Media, Some(Reply::Late)),
        run.count(datagrams, Kind::Row, None),
        run.count(datagrams, Kind::Column, None),
    ]
}

#[test]
fn late_datagram(rt: HostRuntime) -> Result<(), Fail> {
    // 4 plays 0 to 3, with a gap at 2. So 2 is late.
    let datagrams = [
        media(0, 0),
        media(1, 0),
        media(3, 0),
        Datagram::Refused {
            time: 0,
            stream: Kind::Row,
        },
        media(4, 0),
        media(2, 0),
    ];
    let run = run_of(&rt, rt.alloc(), 4, 0, &datagrams)?;
    shows_all_but_a_late_one(&rt, &run, &datagrams)
}

fn shows_all_but_a_late_one(
    rt: &impl Abort,
    run: &FlowRun,
    datagrams: &[Datagram],
) -> Result<(), Fail> {
    assert_eq!(rt; run.plays.len(), 2);
    assert!(rt; shows(&run.plays[0], 0, 4, 0b0100));
    assert!(rt; shows(&run.plays[1], 4, 1, 0));
    assert!(rt; counts(run, datagrams) == [4, 1, 1, 0]);
    Ok(())
}

/// How many words a run shows.
fn shown_words(run: &FlowRun) -> u64 {
    let mut count: u64 = 0;
    for play in run.plays.iter() {
        for shown in play.shown.iter() {
            count = count.saturating_add(u64::from(shown.word.is_some()));
        }
    }
    count
}

/// Datagrams are run. Wanted is how many runs of a sender they begin, how many words are shown, how many media
/// datagrams are foreign, and how many rows lie before the start.
fn restarts(
    rt: &impl Abort,
    alloc: Global,
    datagrams: &[Datagram],
    want: [u64; 4],
) -> Result<(), Fail> {
    let run = run_of(rt, alloc, 8, 0, datagrams)?;
    let foreign = run.count(datagrams, Kind::Media, Some(Reply::Foreign));
    let before = run.count(datagrams, Kind::Row, Some(Reply::BeforeStart));
    assert!(rt; [run.runs, shown_words(&run), foreign, before] == want);
    Ok(())
}

#[test]
fn senders_restart(rt: HostRuntime) -> Result<(), Fail> {
    let one_restart = [
        media(10, 1),
        media(11, 1),
        media(500, 2),
        row(499),
        media(501, 2),
        media(12, 1),
        media(502, 2),
    ];
    restarts(&rt, rt.alloc(), &one_restart, [2, 5, 1, 1])?;
    let sender_again = [media(10, 1), media(20, 2), media(30, 3), media(40, 1)];
    restarts(&rt, rt.alloc(), &sender_again, [4, 4, 0, 0])?;
    let foreign_then_again = [
        media(10, 1),
        media(20, 2),
        media(11, 1),
        media(21, 2),
        media(30, 3),
        media(40, 1),
    ];
    restarts(&rt, rt.alloc(), &foreign_then_again, [4, 5, 1, 0])
}
