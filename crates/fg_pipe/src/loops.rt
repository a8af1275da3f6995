//! The loop of each stage in a thread of its own.
ghost use Rattle.std.specs.Prelude.{List};
ghost use Rattle.rtrb.specs.Ring.{sent, received, SameProducer, SameConsumer};

use crate::ends::{Incoming, Outgoing};
use crate::link::Passes;
use crate::signals::Signals;
use crate::stage::{Giver, Maker, Storer};
use crate::steps::{Step, give_one, make_one, store_one};
use std::sync::Wait;

/// Gives until there is no more, or all are to stop.
pub(crate) fn give_all<W: Wait, T: Passes + Drop, X, F: Giver<T, X>>(
    wait: &W,
    giver: &mut F,
    from: &mut X,
    ends: &mut Outgoing<T>,
    signals: &Signals,
)
    requires { (first : F) × (source : X) × F.gave first source (sent ends.old.full) giver.old from.old }
    ensures full { SameProducer ends.old.full ends.new.full }
    ensures gave { (first : F) (source : X) → F.gave first source (sent ends.old.full) giver.old from.old
        → F.gave first source (sent ends.new.full) giver.new from.new }
{
    if !signals.begin(wait) {
        return;
    }
    for _ in wait.forever() {
        if signals.is_stopped() {
            break;
        }
        let heard = signals.giver.heard();
        match give_one(giver, from, ends) {
            Step::Went => signals.maker.ring(),
            Step::Over => break,
            Step::Dry | Step::Waits => signals.giver.rest(wait, heard),
        }
    }
    signals.end_giving();
}

/// Makes something of all that is given, until it stops.
pub(crate) fn make_all<W: Wait, T: Passes + Drop, U: Passes + Drop, M: Maker<T, U>>(
    wait: &W,
    maker: &mut M,
    taking: &mut Incoming<T>,
    making: &mut Outgoing<U>,
    signals: &Signals,
)
    requires { (first : M) × M.turned first (received taking.old.full) (sent making.old.full) maker.old }
    ensures taking { SameConsumer taking.old.full taking.new.full }
    ensures making { SameProducer making.old.full making.new.full }
    ensures turned { (first : M) → M.turned first (received taking.old.full) (sent making.old.full) maker.old
        → M.turned first (received taking.new.full) (sent making.new.full) maker.new }
{
    if !signals.lead(wait) {
        return;
    }
    for _ in wait.forever() {
        if signals.is_stopped() {
            break;
        }
        let heard = signals.maker.heard();
        // What was given before this was told is there.
        let last = signals.is_given();
        match make_one(maker, taking, making) {
            Step::Went => {
                signals.giver.ring();
                signals.storer.ring();
            }
            Step::Over => {
                signals.stop();
                break;
            }
            Step::Dry if last => break,
            Step::Dry | Step::Waits => signals.maker.rest(wait, heard),
        }
    }
    signals.end_making();
}

/// Stores all that is made, until it breaks off.
pub(crate) fn store_all<W: Wait, U: Passes + Drop, Y, S: Storer<U, Y>>(
    wait: &W,
    storer: &mut S,
    to: &mut Y,
    ends: &mut Incoming<U>,
    signals: &Signals,
)
    requires { (first : S) × (place : Y) × S.stored first place (received ends.old.full) storer.old to.old }
    ensures full { SameConsumer ends.old.full ends.new.full }
    ensures stored { (first : S) (place : Y) → S.stored first place (received ends.old.full) storer.old to.old
        → S.stored first place (received ends.new.full) storer.new to.new }
{
    if !signals.begin(wait) {
        return;
    }
    for _ in wait.forever() {
        let heard = signals.storer.heard();
        let last = signals.is_made();
        match store_one(storer, to, ends) {
            Step::Went => signals.maker.ring(),
            Step::Over => {
                signals.stop();
                break;
            }
            Step::Dry if last => break,
            Step::Dry | Step::Waits => signals.storer.rest(wait, heard),
        }
    }
}
