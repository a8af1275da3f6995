//! A flow's run: a list of its datagrams taken over a desk, which is flushed at the end.

ghost use Rattle.std.specs.Prelude.{◌≡◌, ◌↔◌, ◌<◌, ◌≤◌, ◌^◌, ◌++◌, List, [], map, length, Option, Some, IsTrue, IfOk};
ghost use Rattle.std.specs.List.{All};
ghost use Rattle.fg_playout.specs.State.{State, opening};
ghost use Rattle.fg_playout.specs.Admission.{IsDue, IsFresh, counted};
ghost use Rattle.fg_playout.specs.Play.{Play, HasMore};
ghost use Rattle.fg_playout.specs.Room.{HasRoom};
ghost use Rattle.fg_playout.specs.Laws.{IsRead};
ghost use Rattle.fg_playout.specs.Run.{TakesThen, ArePlaysHeld, ArePlaysBefore, IsFlush, IsRun, time_of, came_by, is_counted, count_of};
ghost use Rattle.fg_plain.specs.Datagrams.{arrival_of, play_of, IsGiven, AreTaken};
ghost use Rattle.fg_desk.specs.Arrivals.{HeldWithin, ThenWithin, BeforeWithin, FlushesWithin};

use fg_desk::{Desk, Played, Tray};
use fg_playout::laws::{flushes_end, runs_join, runs_stay_within};
use fg_playout::{Outcome, Reply};
use fg_shape::{Kind, Shape, shape_ok};
use fg_words::Word;
use std::alloc::{AllocError, Global};

/// A datagram as its reader gives it.
#[derive(Clone, Copy)]
pub enum Datagram {
    /// A media datagram.
    Media {
        /// When it came, in microseconds.
        time: u64,
        /// Its sequence number.
        seq: u16,
        /// The SSRC of its sender.
        ssrc: u32,
        /// Its word.
        word: Word,
    },
    /// A parity datagram.
    Parity {
        /// When it came, in microseconds.
        time: u64,
        /// The stream that it came by.
        stream: Kind,
        /// The sequence number of its base.
        base: u16,
        /// Its shape.
        shape: Shape,
        /// Its parity word.
        word: Word,
    },
    /// A datagram that its reader refused.
    Refused {
        /// When it came, in microseconds.
        time: u64,
        /// The stream that it came by.
        stream: Kind,
    },
}

impl Datagram {
    /// Whether it is as readers give it: a media word, or a shape that is read.
    pub fn is_given(&self) -> bool
        ensures { IsTrue result ↔ IsGiven self.now }
    {
        match self {
            Datagram::Media { word, .. } => word.is_media(),
            Datagram::Parity { shape, .. } => shape_ok(*shape),
            Datagram::Refused { .. } => true,
        }
    }

    /// When it came, in microseconds.
    pub fn time(&self) -> u64
        ensures { result ≡ time_of (arrival_of self.now) }
    {
        match self {
            Datagram::Media { time, .. } => *time,
            Datagram::Parity { time, .. } => *time,
            Datagram::Refused { time, .. } => *time,
        }
    }

    /// The stream that it came by.
    pub fn came_by(&self) -> Kind
        ensures { result ≡ came_by (arrival_of self.now) }
    {
        match self {
            Datagram::Media { .. } => Kind::Media,
            Datagram::Parity { stream, .. } => *stream,
            Datagram::Refused { stream, .. } => *stream,
        }
    }
}

/// What a play shows at one position.
#[derive(Clone, Copy)]
pub struct ShownWord {
    /// The word. None where the position is missing.
    pub word: Option<Word>,
    /// Whether the word was not received, but recovered.
    pub repaired: bool,
}

/// A play and what it shows.
#[derive(Drop)]
pub struct ShownPlay {
    /// Its first position.
    pub first: u64,
    /// What each position from there on shows.
    pub shown: Vec<ShownWord>,
    /// What its words are.
    pub outcome: Outcome,
}

/// What a flow's run gives.
#[derive(Drop)]
pub struct FlowRun {
    /// The plays, in their order.
    pub plays: Vec<ShownPlay>,
    /// The reply to each datagram. None where its reader refused it.
    pub replies: Vec<Option<Reply>>,
    /// How many runs of a sender were begun.
    pub runs: u64,
}

impl FlowRun {
    /// How many of the datagrams that were run came by this stream and got this reply; with no reply,
    /// how many their reader refused.
    pub fn count(&self, datagrams: &[Datagram], stream: Kind, reply: Option<Reply>) -> u64
        ensures { result
            ≡ count_of stream reply (map arrival_of datagrams.now) self.now.replies.items }
    {
        let mut count = 0;
        for i in 0..datagrams.len().min(self.replies.len()) {
            let answer = self.replies[i];
            count += u64::from(is_counted(&datagrams[i], answer, stream, reply));
        }
        count
    }
}

/// Whether a datagram that was answered so came by this stream and got this reply.
fn is_counted(
    datagram: &Datagram,
    answer: Option<Reply>,
    stream: Kind,
    reply: Option<Reply>,
) -> bool
    ensures { result ≡ is_counted stream reply (arrival_of datagram.now) answer }
{
    datagram.came_by() == stream && answer == reply
}

/// The run of a flow's datagrams over a desk.
///
/// This is a plain account of what a flow does. It copies each word that is shown.
pub fn run_flow(
    alloc: Global,
    window: u32,
    depth: u32,
    hold: u64,
    datagrams: &[Datagram],
) -> Result<FlowRun, AllocError>
    requires window { (1 ≤ window) × (window ≤ 100) }
    requires depth { (window ≤ depth) × (depth ≤ 1000) }
    requires given { All IsGiven datagrams.now }
    requires limit { length datagrams.now < 2 ^ 44 }
    ensures { IfOk result (λ run.
        (is : IsRun (record { window = window; depth = depth; hold = hold }) (map arrival_of datagrams.now) (map play_of run.plays.items)
        run.replies.items) × (run.runs ≡ is.filled.runs)) }
{
    let mut run = FlowRun {
        plays: Vec::new(alloc),
        replies: Vec::new(alloc),
        runs: 0,
    };
    run_anew(alloc, window, depth, hold, datagrams, &mut run)?;
    Ok(run)
}

/// Runs the datagrams over a new desk, and adds what that gives to a run without any.
fn run_anew(
    alloc: Global,
    window: u32,
    depth: u32,
    hold: u64,
    datagrams: &[Datagram],
    run: &mut FlowRun,
) -> Result<(), AllocError>
    requires window { (1 ≤ window) × (window ≤ 100) }
    requires depth { (window ≤ depth) × (depth ≤ 1000) }
    requires given { All IsGiven datagrams.now }
    requires limit { length datagrams.now < 2 ^ 44 }
    requires empty { (run.old.plays.items ≡ []) × (run.old.replies.items ≡ []) }
    ensures { IfOk result (λ _.
        (is : IsRun (record { window = window; depth = depth; hold = hold }) (map arrival_of datagrams.now)
        (map play_of run.new.plays.items) run.new.replies.items) × (run.new.runs ≡ is.filled.runs)) }
{
    let mut desk = Desk::new(alloc, window, depth, hold)?;
    run_over(alloc, &mut desk, datagrams, run)
}

/// Runs the datagrams over a desk to which none came yet, and adds what that gives to a run without any.
fn run_over(
    alloc: Global,
    desk: &mut Desk,
    datagrams: &[Datagram],
    run: &mut FlowRun,
) -> Result<(), AllocError>
    requires opened { desk.old.state ≡ opening desk.old.state.playout }
    requires depth { desk.old.state.playout.depth ≤ 1000 }
    requires given { All IsGiven datagrams.now }
    requires limit { length datagrams.now < 2 ^ 44 }
    requires empty { (run.old.plays.items ≡ []) × (run.old.replies.items ≡ []) }
    ensures { IfOk result (λ _.
        (is : IsRun desk.old.state.playout (map arrival_of datagrams.now) (map play_of run.new.plays.items)
        run.new.replies.items) × (run.new.runs ≡ is.filled.runs)) }
{
    runs_stay_within();
    let mut tray = Tray::new(alloc, desk.window())?;
    take_all(alloc, desk, &mut tray, datagrams, run)?;
    run.runs = desk.runs();
    flush(alloc, desk, &mut tray, &mut run.plays)?;
    Ok(())
}

/// Takes the datagrams in their order.
fn take_all(
    alloc: Global,
    desk: &mut Desk,
    tray: &mut Tray,
    datagrams: &[Datagram],
    run: &mut FlowRun,
) -> Result<(), AllocError>
    requires opened { desk.old.state ≡ opening desk.old.state.playout }
    requires window { (1 ≤ desk.old.state.playout.window) × (desk.old.state.playout.window ≤ 100) }
    requires depth { (desk.old.state.playout.window ≤ desk.old.state.playout.depth)
        × (desk.old.state.playout.depth ≤ 1000) }
    requires tray { desk.old.state.playout.window ≤ tray.old.window }
    requires given { All IsGiven datagrams.now }
    requires limit { length datagrams.now < 2 ^ 44 }
    requires empty { (run.old.plays.items ≡ []) × (run.old.replies.items ≡ []) }
    ensures takes { IfOk result (λ _. AreTaken desk.old.state.playout datagrams.now desk.new.state
        run.new.plays.items run.new.replies.items) }
    ensures tray { tray.new.window ≡ tray.old.window }
{
    runs_join();
    runs_stay_within();
    for datagram in datagrams {
        play_held(alloc, desk, tray, &mut run.plays, datagram.time())?;
        let reply = take(alloc, desk, tray, &mut run.plays, datagram)?;
        run.replies.push(reply)?;
    }
    Ok(())
}

/// Plays what has waited for too long by a time.
fn play_held(
    alloc: Global,
    desk: &mut Desk,
    tray: &mut Tray,
    plays: &mut Vec<ShownPlay>,
    time: u64,
) -> Result<(), AllocError>
    requires within { HeldWithin desk.old.state time }
    requires tray { desk.old.state.playout.window ≤ tray.old.window }
    ensures plays { IfOk result (λ _. (held : List Play)
        × (map play_of plays.new.items ≡ map play_of plays.old.items ++ held)
        × ArePlaysHeld desk.old.state time held desk.new.state) }
    ensures playout { IfOk result (λ _. desk.new.state.playout ≡ desk.old.state.playout) }
    ensures tray { tray.new.window ≡ tray.old.window }
{
    runs_join();
    if desk.hold() == 0 {
        return Ok(());
    }
    while let Some(played) = desk.held_step(time, tray) {
        plays.push(copied(alloc, played, tray)?)?;
    }
    Ok(())
}

/// Takes one datagram where no word has waited for too long: plays what is played before it, and admits it or says why not.
fn take(
    alloc: Global,
    desk: &mut Desk,
    tray: &mut Tray,
    plays: &mut Vec<ShownPlay>,
    datagram: &Datagram,
) -> Result<Option<Reply>, AllocError>
    requires within { ThenWithin desk.old.state (arrival_of datagram.now) }
    requires tray { desk.old.state.playout.window ≤ tray.old.window }
    requires given { IsGiven datagram.now }
    ensures takes { IfOk result (λ reply. (before : List Play)
        × (map play_of plays.new.items ≡ map play_of plays.old.items ++ before)
        × TakesThen desk.old.state (arrival_of datagram.now) before reply desk.new.state) }
    ensures read { IfOk result (λ _. IsRead (arrival_of datagram.now)) }
    ensures playout { IfOk result (λ _. desk.new.state.playout ≡ desk.old.state.playout) }
    ensures tray { tray.new.window ≡ tray.old.window }
{
    match *datagram {
        Datagram::Media {
            seq,
            ssrc,
            word,
            ..
        } => {
            let share = word.share(alloc)?;
            play_before(alloc, desk, tray, plays, seq, ssrc)?;
            Ok(Some(desk.admit_media(seq, ssrc, share)))
        }
        Datagram::Parity {
            base,
            shape,
            word,
            ..
        } => {
            let share = word.share(alloc)?;
            Ok(Some(desk.admit_parity(base, shape, share)))
        }
        Datagram::Refused { .. } => Ok(None),
    }
}

/// Plays what is played before a media datagram: all that is left where its SSRC is fresh, and else while a
/// play is due.
fn play_before(
    alloc: Global,
    desk: &mut Desk,
    tray: &mut Tray,
    plays: &mut Vec<ShownPlay>,
    seq: u16,
    ssrc: u32,
) -> Result<(), AllocError>
    requires within { BeforeWithin desk.old.state seq ssrc }
    requires tray { desk.old.state.playout.window ≤ tray.old.window }
    ensures plays { IfOk result (λ _. (before : List Play)
        × (map play_of plays.new.items ≡ map play_of plays.old.items ++ before)
        × ArePlaysBefore desk.old.state seq ssrc before desk.new.state) }
    ensures ready { IfOk result (λ _. (¬ IsDue desk.new.state seq ssrc)
        × (IsFresh desk.new.state ssrc → ¬ HasMore desk.new.state)) }
    ensures room { IfOk result (λ _. HasRoom desk.new.state) }
    ensures playout { IfOk result (λ _. desk.new.state.playout ≡ desk.old.state.playout) }
    ensures tray { tray.new.window ≡ tray.old.window }
{
    runs_join();
    flushes_end();
    if desk.fresh(ssrc) {
        flush(alloc, desk, tray, plays)?;
        return Ok(());
    }
    while desk.due(seq, ssrc) {
        let played = desk.play(tray);
        plays.push(copied(alloc, played, tray)?)?;
    }
    Ok(())
}

/// Plays all that is left. The step that finds nothing left is a call, too.
fn flush(
    alloc: Global,
    desk: &mut Desk,
    tray: &mut Tray,
    plays: &mut Vec<ShownPlay>,
) -> Result<(), AllocError>
    requires within { FlushesWithin desk.old.state }
    requires tray { desk.old.state.playout.window ≤ tray.old.window }
    ensures plays { IfOk result (λ _. (flushed : List Play) × (empty : State)
        × (map play_of plays.new.items ≡ map play_of plays.old.items ++ flushed)
        × IsFlush desk.old.state flushed empty × (desk.new.state ≡ counted empty)) }
    ensures playout { IfOk result (λ _. desk.new.state.playout ≡ desk.old.state.playout) }
    ensures tray { tray.new.window ≡ tray.old.window }
{
    flushes_end();
    while let Some(played) = desk.flush_step(tray) {
        plays.push(copied(alloc, played, tray)?)?;
    }
    Ok(())
}

/// A copy of a play whose words the tray has.
fn copied(alloc: Global, played: Played, tray: &Tray) -> Result<ShownPlay, AllocError>
    requires { played.count ≡ length tray.now.shown }
    ensures { IfOk result (λ play. play_of play
        ≡ record { first = played.first; shown = tray.now.shown; outcome = played.verdict }) }
{
    let mut shown = Vec::new(alloc);
    for i in 0..played.count {
        shown.push(ShownWord {
            word: tray.word(i).copied(),
            repaired: tray.repaired(i),
        })?;
    }
    Ok(ShownPlay {
        first: played.first,
        shown,
        outcome: played.verdict,
    })
}
