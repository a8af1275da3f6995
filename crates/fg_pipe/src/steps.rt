//! One step of each stage, which waits for no other stage.
ghost use Rattle.std.specs.Prelude.{◌≡◌, List, IsTrue};
ghost use Rattle.rtrb.specs.Ring.{sent, received, SameProducer, SameConsumer};

use crate::ends::{Incoming, Outgoing};
use crate::link::Passes;
use crate::stage::{Giver, Maker, Storer};

/// What a step came to.
#[derive(Clone, Copy, PartialEq, Eq)]
pub(crate) enum Step {
    /// It was made.
    Went,
    /// There is nothing to take.
    Dry,
    /// There is nothing empty, or no room.
    Waits,
    /// The stage has ended.
    Over,
}

/// Fills an empty one, and gives it.
pub(crate) fn give_one<T: Passes + Drop, X, F: Giver<T, X>>(
    giver: &mut F,
    from: &mut X,
    ends: &mut Outgoing<T>,
) -> Step
    requires { (first : F) × (source : X) × F.gave first source (sent ends.old.full) giver.old from.old }
    ensures full { SameProducer ends.old.full ends.new.full }
    ensures gave { (first : F) (source : X) → F.gave first source (sent ends.old.full) giver.old from.old
        → F.gave first source (sent ends.new.full) giver.new from.new }
    ensures over { result ≡ Step.Over → F.over giver.new }
{
    if giver.is_over() {
        return Step::Over;
    }
    if ends.full.is_full() {
        return Step::Waits;
    }
    let Ok(mut item) = ends.blanks.pop() else {
        return Step::Waits;
    };
    giver.give(from, &mut item);
    ends.full.push_reserved(item);
    Step::Went
}

/// Takes one, gives it back empty, and gives on what it makes of it.
pub(crate) fn make_one<T: Passes + Drop, U: Passes + Drop, M: Maker<T, U>>(
    maker: &mut M,
    taking: &mut Incoming<T>,
    making: &mut Outgoing<U>,
) -> Step
    requires { (first : M) × M.turned first (received taking.old.full) (sent making.old.full) maker.old }
    ensures taking { SameConsumer taking.old.full taking.new.full }
    ensures making { SameProducer making.old.full making.new.full }
    ensures turned { (first : M) → M.turned first (received taking.old.full) (sent making.old.full) maker.old
        → M.turned first (received taking.new.full) (sent making.new.full) maker.new }
    ensures over { result ≡ Step.Over → M.stopped maker.new }
{
    if maker.is_stopped() {
        return Step::Over;
    }
    if taking.full.is_empty() {
        return Step::Dry;
    }
    if making.full.is_full() || taking.spent.is_full() {
        return Step::Waits;
    }
    let Ok(mut made) = making.blanks.pop() else {
        return Step::Waits;
    };
    let mut item = taking.full.pop_known();
    let goes_on = maker.turn(&mut item, &mut made);
    taking.spent.push_reserved(item);
    if !goes_on {
        return Step::Over;
    }
    making.full.push_reserved(made);
    Step::Went
}

/// Takes one, stores it, and gives it back empty.
pub(crate) fn store_one<U: Passes + Drop, Y, S: Storer<U, Y>>(
    storer: &mut S,
    to: &mut Y,
    ends: &mut Incoming<U>,
) -> Step
    requires { (first : S) × (place : Y) × S.stored first place (received ends.old.full) storer.old to.old }
    ensures full { SameConsumer ends.old.full ends.new.full }
    ensures stored { (first : S) (place : Y) → S.stored first place (received ends.old.full) storer.old to.old
        → S.stored first place (received ends.new.full) storer.new to.new }
    ensures over { result ≡ Step.Over → S.broken storer.new }
{
    if storer.is_broken() {
        return Step::Over;
    }
    if ends.full.is_empty() {
        return Step::Dry;
    }
    if ends.spent.is_full() {
        return Step::Waits;
    }
    let mut item = ends.full.pop_known();
    if !storer.store(to, &mut item) {
        return Step::Over;
    }
    ends.spent.push_reserved(item);
    Step::Went
}
