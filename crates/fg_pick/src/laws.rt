//! Laws of what is picked, each the contract of a function that only calls laws of the crates below.
ghost use Rattle.fg_pick.specs.Laws.{FitsIsDecided, OnePicked, PickedExist, PickedJoin};

use fg_rtp::laws::{media_datagrams_are_decided, media_datagrams_read_one_way};

/// A record fits, or it doesn't.
pub fn fitting_is_decided()
    ensures { FitsIsDecided }
{
    media_datagrams_are_decided();
    media_datagrams_read_one_way();
}

/// Of records one list is picked, and of two lists, one after the other, what is picked of each.
pub fn one_picked()
    ensures one { OnePicked }
    ensures join { PickedJoin }
{}

/// Of any records some are picked, if only none.
pub fn picked_exist()
    ensures { PickedExist }
{
    fitting_is_decided();
}
