//! A board whose admitter and passes are threads, beside a desk alone.

ghost use Rattle.std.specs.Prelude.{◌≡◌, ◌+◌, ◌<◌, ◌≤◌};

use super::admit::Window;
use super::bare::same_play;
use super::scene::{Hand, Way, bring, further_hand, hand_of, open, pass_of, put_back, take};
use super::script::{sum_of, word_of};
use super::{admit, bare};
use fg_board::{Admitter, Board, Pass};
use fg_desk::{Desk, Played, Reply, Tray};
use fg_shape::Shape;
use fg_words::Word;
use std::alloc::{AllocError, Global};
use std::rt::Clock;
use std::sync::Wait;
use std::sync::atomic::AtomicBool;
use std::sync::atomic::Ordering::SeqCst;
use std::test::Fail;
use std::thread::{self, Threads, join};
use std::time::Duration;

/// How many matrices of five columns and five rows the flow has.
const MATRICES: u16 = 40;

/// For how many milliseconds the admitter waits at most until some pass has taken a job.
const PATIENCE: u32 = 20_000;

/// How many windows a flow can have.
const WINDOWS: u32 = 200;

/// A datagram of the flow.
#[derive(Clone, Copy)]
enum Datagram {
    Media(u16, Word),
    Parity(u16, Shape, Word),
}

/// What was answered, and what was shown.
#[derive(Drop)]
struct Log {
    replies: Vec<Option<Reply>>,
    plays: Vec<(Played, Tray)>,
}

impl Log {
    fn new(alloc: Global) -> Log {
        Log {
            replies: Vec::new(alloc),
            plays: Vec::new(alloc),
        }
    }

    /// Adds a play. Whether there is one.
    fn adds(&mut self, done: Option<(Played, Tray)>) -> Result<bool, AllocError> {
        let Some(done) = done else {
            return Ok(false);
        };
        self.plays.push(done)?;
        Ok(true)
    }

    fn same(&self, other: &Log) -> bool {
        if self.replies != other.replies || self.plays.len() != other.plays.len() {
            return false;
        }
        for (one, two) in self.plays.iter().zip(other.plays.iter()) {
            if !same_play(one, two) {
                return false;
            }
        }
        true
    }
}

/// Each fourth matrix loses two rows of two columns, so no equation gives any of them. The others lose each seventh
/// datagram, and each 31st.
fn is_lost(number: u16) -> bool {
    if number / 25 % 4 == 3 {
        matches!(number % 25, 6 | 7 | 11 | 12)
    } else {
        number % 7 == 3 || number % 31 == 11
    }
}

fn media_of(number: u16) -> Datagram {
    Datagram::Media(number, word_of(u32::from(number)))
}

fn parity_of(base: u16, offset: u8) -> Datagram {
    let shape = Shape { offset, na: 5 };
    Datagram::Parity(base, shape, sum_of(u32::from(base), shape))
}

/// The flow: the media datagrams that are not lost, each row with its parity, and after each matrix the parities of its
/// columns. One column of a matrix has none.
fn flow(alloc: Global) -> Result<Vec<Datagram>, AllocError> {
    let mut all = Vec::new(alloc);
    push_flow(&mut all)?;
    Ok(all)
}

fn push_flow(all: &mut Vec<Datagram>) -> Result<(), AllocError> {
    for number in 0..MATRICES.saturating_mul(25) {
        push_number(all, number)?;
    }
    Ok(())
}

/// Adds the media datagram of a number, and the parity that follows it.
fn push_number(all: &mut Vec<Datagram>, number: u16) -> Result<(), AllocError> {
    if !is_lost(number) {
        all.push(media_of(number))?;
    }
    if number % 5 == 4 {
        all.push(parity_of(number.wrapping_sub(4), 1))?;
    }
    if number % 25 >= 21 {
        all.push(parity_of(number.wrapping_sub(20), 5))?;
    }
    Ok(())
}

// Plays such windows until there is none.
fn board_plays(
    wait: &impl Wait,
    alloc: Global,
    board: &Board,
    admitter: &mut Admitter,
    window: Window,
    log: &mut Log,
) -> Result<(), AllocError>
    requires turn { admitter.old.seat.turn ≡ board.now.name }
    requires window { admitter.old.playout.window ≤ 100 }
    ensures turn { admitter.new.seat.turn ≡ admitter.old.seat.turn }
    ensures window { admitter.new.playout.window ≡ admitter.old.playout.window }
{
    for _ in 0..WINDOWS {
        if !log.adds(admit::play(wait, alloc, board, admitter, window)?)? {
            break;
        }
    }
    Ok(())
}

fn board_takes(
    wait: &impl Wait,
    alloc: Global,
    board: &Board,
    admitter: &mut Admitter,
    datagram: &Datagram,
    log: &mut Log,
) -> Result<(), AllocError>
    requires turn { admitter.old.seat.turn ≡ board.now.name }
    requires window { admitter.old.playout.window ≤ 100 }
    ensures turn { admitter.new.seat.turn ≡ admitter.old.seat.turn }
    ensures window { admitter.new.playout.window ≡ admitter.old.playout.window }
{
    let reply = match *datagram {
        Datagram::Media(seq, word) => {
            board_plays(wait, alloc, board, admitter, Window::Due(seq, 0), log)?;
            admit::media(wait, alloc, board, admitter, seq, 0, word.share(alloc)?)?
        }
        Datagram::Parity(base, shape, word) => {
            let share = word.share(alloc)?;
            admit::parity(wait, board, admitter, base, shape, share).map(|(reply, _)| reply)
        }
    };
    log.replies.push(reply)?;
    Ok(())
}

// Sleeps for a millisecond.
fn pause(clock: &impl Clock) {
    thread::sleep(clock, Duration::from_millis(1));
}

// Waits until some pass has taken a job, but not for ever.
fn wait_for_a_take(clock: &impl Clock, taken: &AtomicBool) {
    for _ in 0..PATIENCE {
        if taken.load(SeqCst) {
            break;
        }
        pause(clock);
    }
}

// The whole flow comes to a board's admitter. Before the flush, when equations are open, it waits for a take.
fn board_is_fed<R: Wait + Clock>(
    wait: &R,
    alloc: Global,
    board: &Board,
    admitter: &mut Admitter,
    flow: &[Datagram],
    taken: &AtomicBool,
    log: &mut Log,
) -> Result<(), AllocError>
    requires turn { admitter.old.seat.turn ≡ board.now.name }
    requires window { admitter.old.playout.window ≤ 100 }
    ensures turn { admitter.new.seat.turn ≡ admitter.old.seat.turn }
{
    for datagram in flow {
        board_takes(wait, alloc, board, admitter, datagram, log)?;
    }
    wait_for_a_take(wait, taken);
    board_plays(wait, alloc, board, admitter, Window::Rest, log)
}

fn desk_plays(
    desk: &mut Desk,
    alloc: Global,
    window: Window,
    log: &mut Log,
) -> Result<(), AllocError> {
    for _ in 0..WINDOWS {
        if !log.adds(bare::play(desk, alloc, window)?)? {
            break;
        }
    }
    Ok(())
}

fn desk_takes(
    desk: &mut Desk,
    alloc: Global,
    datagram: &Datagram,
    log: &mut Log,
) -> Result<(), AllocError> {
    let reply = match *datagram {
        Datagram::Media(seq, word) => {
            desk_plays(desk, alloc, Window::Due(seq, 0), log)?;
            bare::media(desk, seq, 0, word.share(alloc)?)
        }
        Datagram::Parity(base, shape, word) => bare::parity(desk, base, shape, word.share(alloc)?),
    };
    log.replies.push(reply)?;
    Ok(())
}

fn desk_takes_all(
    desk: &mut Desk,
    alloc: Global,
    flow: &[Datagram],
    log: &mut Log,
) -> Result<(), AllocError> {
    for datagram in flow {
        desk_takes(desk, alloc, datagram, log)?;
    }
    desk_plays(desk, alloc, Window::Rest, log)
}

/// The whole flow comes to a desk alone.
fn desk_is_fed(alloc: Global, flow: &[Datagram], log: &mut Log) -> Result<(), AllocError> {
    let mut desk = Desk::new(alloc, 10, 40, 0)?;
    desk_takes_all(&mut desk, alloc, flow, log)
}

// The admitter's thread. It tells the passes when it is done.
fn admitter_works<R: Wait + Clock>(
    wait: &R,
    alloc: Global,
    board: &Board,
    mut admitter: Admitter,
    flow: &[Datagram],
    done: &AtomicBool,
    taken: &AtomicBool,
) -> (Admitter, Result<Log, AllocError>)
    requires turn { admitter.seat.turn ≡ board.now.name }
    requires window { admitter.playout.window ≤ 100 }
    ensures { result.0.seat.turn ≡ board.now.name }
{
    let mut log = Log::new(alloc);
    let fed = board_is_fed(wait, alloc, board, &mut admitter, flow, taken, &mut log);
    done.store(true, SeqCst);
    (admitter, fed.map(|()| log))
}

// A job, where one is open, is done and brought. Where memory is short, it is done by nobody. Whether one was taken.
fn work_once(wait: &impl Wait, alloc: Global, board: &Board, hand: &mut Hand) -> bool
    requires { hand.old.turn ≡ board.now.name }
    ensures { hand.new.turn ≡ board.now.name }
{
    match take(wait, board, hand) {
        Ok(Some(_)) => {
            let _ = bring(wait, alloc, board, hand, Way::Ending);
            true
        }
        Ok(None) | Err(AllocError) => false,
    }
}

// What a pass does until the admitter is done.
fn hand_works<R: Wait + Clock>(
    wait: &R,
    alloc: Global,
    board: &Board,
    hand: &mut Hand,
    done: &AtomicBool,
    taken: &AtomicBool,
)
    requires { hand.old.turn ≡ board.now.name }
    ensures { hand.new.turn ≡ board.now.name }
{
    for _ in 0..u32::MAX {
        if done.load(SeqCst) {
            break;
        }
        if work_once(wait, alloc, board, hand) {
            taken.store(true, SeqCst);
        } else {
            pause(wait);
        }
    }
}

// A pass's thread.
fn pass_works<R: Wait + Clock>(
    wait: &R,
    alloc: Global,
    board: &Board,
    pass: Pass,
    done: &AtomicBool,
    taken: &AtomicBool,
) -> Pass
    requires { pass.turn ≡ board.now.name }
    ensures { result.turn ≡ board.now.name }
{
    let mut hand = hand_of(pass);
    hand_works(wait, alloc, board, &mut hand, done, taken);
    pass_of(hand)
}

fn both_passes<R: Threads + Wait + Clock + Sync>(
    rt: &R,
    alloc: Global,
    board: &Board,
    one: Pass,
    two: Pass,
    done: &AtomicBool,
    taken: &AtomicBool,
) -> (Pass, Pass)
    requires { (one.turn ≡ board.now.name) × (two.turn ≡ board.now.name) }
    ensures { (result.0.turn ≡ board.now.name) × (result.1.turn ≡ board.now.name) }
{
    join(
        rt,
        move ||
            requires { one.turn ≡ board.now.name }
            ensures { result.turn ≡ board.entry.now.name }
        { pass_works(rt, alloc, board, one, done, taken) },
        move ||
            requires { two.turn ≡ board.now.name }
            ensures { result.turn ≡ board.entry.now.name }
        { pass_works(rt, alloc, board, two, done, taken) },
    )
}

// The admitter and two passes of a new board are threads. What the admitter was answered.
fn works<R: Threads + Wait + Clock + Sync>(
    rt: &R,
    alloc: Global,
    board: Board,
    mut admitter: Admitter,
    flow: &[Datagram],
    taken: &AtomicBool,
) -> Result<Log, AllocError>
    requires turn { admitter.seat.turn ≡ board.name }
    requires window { admitter.playout.window ≤ 100 }
    requires room { (admitter.seat.made ≡ 0) × (board.seats ≡ 4) }
{
    let one = pass_of(further_hand(&board, &mut admitter));
    let two = pass_of(further_hand(&board, &mut admitter));
    let done = AtomicBool::new(false);
    let (shared, done) = (&board, &done);
    let ((mut admitter, log), (one, two)) = join(
        rt,
        move ||
            requires { (admitter.seat.turn ≡ shared.now.name) × (admitter.playout.window ≤ 100) }
            ensures { result.0.seat.turn ≡ shared.entry.now.name }
        { admitter_works(rt, alloc, shared, admitter, flow, done, taken) },
        move ||
            requires { (one.turn ≡ shared.now.name) × (two.turn ≡ shared.now.name) }
            ensures { (result.0.turn ≡ shared.entry.now.name) × (result.1.turn ≡ shared.entry.now.name) }
        { both_passes(rt, alloc, shared, one, two, done, taken) },
    );
    put_back(&board, &mut admitter, hand_of(one));
    put_back(&board, &mut admitter, hand_of(two));
    if admitter.made() == 0 {
        board.close(admitter);
    }
    log
}

fn worked<R: Threads + Wait + Clock + Sync>(
    rt: &R,
    alloc: Global,
    flow: &[Datagram],
    taken: &AtomicBool,
) -> Result<Log, AllocError> {
    let (board, admitter) = open(alloc, 10, 40, 0)?;
    works(rt, alloc, board, admitter, flow, taken)
}

/// How many positions were shown with a word that was repaired, and how many without a word.
fn shown(log: &Log) -> (u32, u32) {
    let (mut repaired, mut missing) = (0u32, 0u32);
    for (played, tray) in log.plays.iter() {
        for i in 0..played.count.min(100) {
            if tray.repaired(i) {
                repaired = repaired.saturating_add(1);
            } else if tray.word(i).is_none() {
                missing = missing.saturating_add(1);
            }
        }
    }
    (repaired, missing)
}

/// Whether the admitter of a board with passes is answered as a desk alone was, and some pass took a job.
fn works_alike<R: Threads + Wait + Clock + Sync>(
    rt: &R,
    alloc: Global,
    flow: &[Datagram],
    alone: &Log,
) -> Result<bool, AllocError> {
    let taken = AtomicBool::new(false);
    let shared = worked(rt, alloc, flow, &taken)?;
    Ok(taken.load(SeqCst) && shared.replies.len() == flow.len() && shared.same(alone))
}

/// Whether a desk and a board come to the same. Ten matrices lose four words for good, and the others 128 words in all.
fn come_to_the_same<R: Threads + Wait + Clock + Sync>(
    rt: &R,
    alloc: Global,
    flow: &[Datagram],
) -> Result<bool, AllocError> {
    let mut alone = Log::new(alloc);
    desk_is_fed(alloc, flow, &mut alone)?;
    Ok(shown(&alone) == (128, 40) && works_alike(rt, alloc, flow, &alone)?)
}

#[test]
fn admitter_and_passes_as_threads(rt: HostRuntime) -> Result<(), Fail> {
    let flow = flow(rt.alloc())?;
    assert!(rt; come_to_the_same(&rt, rt.alloc(), &flow)?);
    Ok(())
}
