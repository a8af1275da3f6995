//! How three stages run beside each other.
ghost use Rattle.std.specs.Prelude.{◌≡◌, ◌⊎◌, [], List, All, IsTrue, IfOk, OnOk, OnErr};
ghost use Rattle.std.specs.Thread.{IsSync};
ghost use Rattle.rtrb.specs.Ring.{sent, received, IsPair, SameProducer, SameConsumer};
ghost use Rattle.fg_pipe.specs.Pipe.{IsFront, HavePiped};

use crate::ends::{Ends, Incoming, Outgoing, ends_of};
use crate::link::Passes;
use crate::loops::{give_all, make_all, store_all};
use crate::signals::Signals;
use crate::stage::{Giver, Maker, Storer};
use crate::steps::{give_one, make_one, store_one};
use std::alloc::{AllocError, Global};
use std::sync::Wait;
use std::thread::{Threads, available_parallelism, join_mut};

/// Runs the three beside each other, each in a thread of its own: the maker in this one. Then all is done that they left.
///
/// Threads are made once. On one processor none is: all is done in this thread, in turns. So it is where a thread can't be made,
/// once the maker finds, within a second, that not all have begun: then nothing was done.
///
/// # Errors
///
/// There was no memory, before anything was done.
pub fn run_three<
    W: Threads + Wait + Sync,
    T: Passes + Send + Drop,
    U: Passes + Send + Drop,
    X: Send,
    Y: Send,
    F: Giver<T, X> + Send,
    M: Maker<T, U>,
    S: Storer<U, Y> + Send,
>(
    rt: &W,
    alloc: Global,
    items: Vec<T>,
    more: Vec<U>,
    giver: &mut F,
    from: &mut X,
    maker: &mut M,
    storer: &mut S,
    to: &mut Y,
) -> Result<(), AllocError>
    requires items { All T.blank items.items }
    requires more { All U.blank more.items }
    requires gave { F.gave giver.old from.old [] giver.old from.old }
    requires turned { M.turned maker.old [] [] maker.old }
    requires stored { S.stored storer.old to.old [] storer.old to.old }

    // Whatever the threads do.
    ensures piped { OnOk result (HavePiped
        (λ given. F.gave giver.old from.old given giver.new from.new)
        (λ took made. M.turned maker.old took made maker.new)
        (λ stored. S.stored storer.old to.old stored storer.new to.new)
        (F.over giver.new) (M.stopped maker.new) (S.broken storer.new)) }
    ensures refused { OnErr result ((giver.new ≡ giver.old) × (from.new ≡ from.old) × (maker.new ≡ maker.old)
        × (storer.new ≡ storer.old) × (to.new ≡ to.old)) }
{
    let mut ends: Ends<T, U> = ends_of(alloc, items, more)?;
    run_beside(
        rt,
        giver,
        from,
        &mut ends.giving,
        maker,
        &mut ends.taking,
        &mut ends.making,
        storer,
        to,
        &mut ends.storing,
    );
    finish(rt, &mut ends, giver, from, maker, storer, to);
    Ok(())
}

/// Whether threads can run at once, as far as the system tells.
fn has_processors(rt: &impl Threads) -> bool {
    match available_parallelism(rt) {
        Ok(processors) => processors.get() > 1,
        Err(_) => true,
    }
}

/// Runs the three beside each other, where there is more than one processor.
fn run_beside<
    W: Threads + Wait + Sync,
    T: Passes + Send + Drop,
    U: Passes + Send + Drop,
    X: Send,
    Y: Send,
    F: Giver<T, X> + Send,
    M: Maker<T, U>,
    S: Storer<U, Y> + Send,
>(
    rt: &W,
    giver: &mut F,
    from: &mut X,
    giving: &mut Outgoing<T>,
    maker: &mut M,
    taking: &mut Incoming<T>,
    making: &mut Outgoing<U>,
    storer: &mut S,
    to: &mut Y,
    storing: &mut Incoming<U>,
)
    requires gave { (first : F) × (source : X) × F.gave first source (sent giving.old.full) giver.old from.old }
    requires turned { (first : M) × M.turned first (received taking.old.full) (sent making.old.full) maker.old }
    requires stored { (first : S) × (place : Y) × S.stored first place (received storing.old.full) storer.old to.old }
    ensures giving { SameProducer giving.old.full giving.new.full }
    ensures taking { SameConsumer taking.old.full taking.new.full }
    ensures making { SameProducer making.old.full making.new.full }
    ensures storing { SameConsumer storing.old.full storing.new.full }
    ensures gave { (first : F) (source : X) → F.gave first source (sent giving.old.full) giver.old from.old
        → F.gave first source (sent giving.new.full) giver.new from.new }
    ensures turned { (first : M) → M.turned first (received taking.old.full) (sent making.old.full) maker.old
        → M.turned first (received taking.new.full) (sent making.new.full) maker.new }
    ensures stored { (first : S) (place : Y) → S.stored first place (received storing.old.full) storer.old to.old
        → S.stored first place (received storing.new.full) storer.new to.new }
{
    if !has_processors(rt) {
        return;
    }
    let signals = Signals::new();
    let signals = &signals;
    join_mut(
        rt,
        &mut ||
            requires { (first : F) × (source : X) × F.gave first source (sent giving.now.full) giver.now from.now }
            ensures full { SameProducer giving.entry.now.full giving.exit.now.full }
            ensures gave { (first : F) (source : X)
                → F.gave first source (sent giving.entry.now.full) giver.entry.now from.entry.now
                → F.gave first source (sent giving.exit.now.full) giver.exit.now from.exit.now }
        { give_all(rt, giver, from, giving, signals) },
        &mut ||
            requires turned { (first : M) × M.turned first (received taking.now.full) (sent making.now.full) maker.now }
            requires stored { (first : S) × (place : Y) × S.stored first place (received storing.now.full) storer.now to.now }
            requires shared { IsSync W.row }
            ensures taking { SameConsumer taking.entry.now.full taking.exit.now.full }
            ensures making { SameProducer making.entry.now.full making.exit.now.full }
            ensures storing { SameConsumer storing.entry.now.full storing.exit.now.full }
            ensures turned { (first : M)
                → M.turned first (received taking.entry.now.full) (sent making.entry.now.full) maker.entry.now
                → M.turned first (received taking.exit.now.full) (sent making.exit.now.full) maker.exit.now }
            ensures stored { (first : S) (place : Y)
                → S.stored first place (received storing.entry.now.full) storer.entry.now to.entry.now
                → S.stored first place (received storing.exit.now.full) storer.exit.now to.exit.now }
        { make_and_store(rt, maker, taking, making, storer, to, storing, signals) },
    );
}

/// Makes in this thread, and stores in another.
fn make_and_store<
    W: Threads + Wait + Sync,
    T: Passes + Drop,
    U: Passes + Send + Drop,
    Y: Send,
    M: Maker<T, U>,
    S: Storer<U, Y> + Send,
>(
    rt: &W,
    maker: &mut M,
    taking: &mut Incoming<T>,
    making: &mut Outgoing<U>,
    storer: &mut S,
    to: &mut Y,
    storing: &mut Incoming<U>,
    signals: &Signals,
)
    requires turned { (first : M) × M.turned first (received taking.old.full) (sent making.old.full) maker.old }
    requires stored { (first : S) × (place : Y) × S.stored first place (received storing.old.full) storer.old to.old }
    ensures taking { SameConsumer taking.old.full taking.new.full }
    ensures making { SameProducer making.old.full making.new.full }
    ensures storing { SameConsumer storing.old.full storing.new.full }
    ensures turned { (first : M) → M.turned first (received taking.old.full) (sent making.old.full) maker.old
        → M.turned first (received taking.new.full) (sent making.new.full) maker.new }
    ensures stored { (first : S) (place : Y) → S.stored first place (received storing.old.full) storer.old to.old
        → S.stored first place (received storing.new.full) storer.new to.new }
{
    join_mut(
        rt,
        &mut ||
            requires { (first : S) × (place : Y) × S.stored first place (received storing.now.full) storer.now to.now }
            ensures storing { SameConsumer storing.entry.now.full storing.exit.now.full }
            ensures stored { (first : S) (place : Y)
                → S.stored first place (received storing.entry.now.full) storer.entry.now to.entry.now
                → S.stored first place (received storing.exit.now.full) storer.exit.now to.exit.now }
        { store_all(rt, storer, to, storing, signals) },
        &mut ||
            requires { (first : M) × M.turned first (received taking.now.full) (sent making.now.full) maker.now }
            ensures taking { SameConsumer taking.entry.now.full taking.exit.now.full }
            ensures making { SameProducer making.entry.now.full making.exit.now.full }
            ensures turned { (first : M)
                → M.turned first (received taking.entry.now.full) (sent making.entry.now.full) maker.entry.now
                → M.turned first (received taking.exit.now.full) (sent making.exit.now.full) maker.exit.now }
        { make_all(rt, maker, taking, making, signals) },
    );
}

/// Does in this thread all that is left, which is nothing where each stage had its thread.
#[tactic(auto, using(crate::proofs::Piped::have_piped))]
fn finish<
    W: Wait,
    T: Passes + Drop,
    U: Passes + Drop,
    X,
    Y,
    F: Giver<T, X>,
    M: Maker<T, U>,
    S: Storer<U, Y>,
>(
    wait: &W,
    ends: &mut Ends<T, U>,
    giver: &mut F,
    from: &mut X,
    maker: &mut M,
    storer: &mut S,
    to: &mut Y,
)
    requires gave { (first : F) × (source : X) × F.gave first source (sent ends.old.giving.full) giver.old from.old }
    requires turned { (first : M)
        × M.turned first (received ends.old.taking.full) (sent ends.old.making.full) maker.old }
    requires stored { (first : S) × (place : Y)
        × S.stored first place (received ends.old.storing.full) storer.old to.old }
    requires given { IsPair ends.old.giving.full ends.old.taking.full }
    requires made { IsPair ends.old.making.full ends.old.storing.full }
    ensures piped { (first : F) (source : X) (second : M) (third : S) (place : Y)
        → F.gave first source (sent ends.old.giving.full) giver.old from.old
        → M.turned second (received ends.old.taking.full) (sent ends.old.making.full) maker.old
        → S.stored third place (received ends.old.storing.full) storer.old to.old
        → HavePiped (λ given. F.gave first source given giver.new from.new) (λ took made. M.turned second took made maker.new)
        (λ stored. S.stored third place stored storer.new to.new)
        (F.over giver.new) (M.stopped maker.new) (S.broken storer.new) }
{
    for _ in wait.forever() {
        if is_done(ends, giver, maker, storer) {
            return;
        }
        let _given = give_one(giver, from, &mut ends.giving);
        let _made = make_one(maker, &mut ends.taking, &mut ends.making);
        let _stored = store_one(storer, to, &mut ends.storing);
    }
    unreachable!()
}

/// Whether nothing is left to be done.
fn is_done<
    T: Passes + Drop,
    U: Passes + Drop,
    X,
    Y,
    F: Giver<T, X>,
    M: Maker<T, U>,
    S: Storer<U, Y>,
>(ends: &mut Ends<T, U>, giver: &F, maker: &M, storer: &S) -> bool
    requires given { IsPair ends.old.giving.full ends.old.taking.full }
    requires made { IsPair ends.old.making.full ends.old.storing.full }
    ensures given { IsPair ends.new.giving.full ends.new.taking.full }
    ensures made { IsPair ends.new.making.full ends.new.storing.full }
    ensures sent { (sent ends.new.giving.full ≡ sent ends.old.giving.full)
        × (sent ends.new.making.full ≡ sent ends.old.making.full) }
    ensures received { (received ends.new.taking.full ≡ received ends.old.taking.full)
        × (received ends.new.storing.full ≡ received ends.old.storing.full) }
    ensures given_front { IsFront (received ends.new.taking.full) (sent ends.new.giving.full) }
    ensures made_front { IsFront (received ends.new.storing.full) (sent ends.new.making.full) }
    ensures done { IsTrue result → S.broken storer.now ⊎ ((received ends.new.storing.full ≡ sent ends.new.making.full)
        × (M.stopped maker.now ⊎ ((received ends.new.taking.full ≡ sent ends.new.giving.full) × F.over giver.now))) }
{
    let unmade = ends.taking.full.slots_beside(&mut ends.giving.full);
    let unstored = ends.storing.full.slots_beside(&mut ends.making.full);
    if storer.is_broken() {
        return true;
    }
    unstored == 0 && (maker.is_stopped() || (unmade == 0 && giver.is_over()))
}
