//! The ends of the rings that each stage holds. What goes on between two stages comes back by a ring of its own.
ghost use Rattle.std.specs.Prelude.{◌≡◌, [], List, All, IfOk};
ghost use Rattle.rtrb.specs.Ring.{sent, received, IsPair, SameProducer};

use crate::link::{Back, Full, Passes};
use rtrb::{Consumer, Producer, RingBuffer};
use std::alloc::{AllocError, Global};

/// The ends of a stage that gives things on.
#[derive(Drop)]
pub(crate) struct Outgoing<T: Passes + Drop> {
    /// By this they go on.
    pub full: Producer<T, Global, Full<T>>,
    /// By this they come back empty.
    pub blanks: Consumer<T, Global, Back<T>>,
}

/// The ends of a stage that takes them.
#[derive(Drop)]
pub(crate) struct Incoming<T: Passes + Drop> {
    /// By this they come.
    pub full: Consumer<T, Global, Full<T>>,
    /// By this they go back empty.
    pub spent: Producer<T, Global, Back<T>>,
}

/// The ends of all stages: from the first to the second, and from the second to the third.
#[derive(Drop)]
pub(crate) struct Ends<T: Passes + Drop, U: Passes + Drop> {
    pub giving: Outgoing<T>,
    pub taking: Incoming<T>,
    pub making: Outgoing<U>,
    pub storing: Incoming<U>,
}

/// The ends of new rings, of which those that come back have all the empty ones.
pub(crate) fn ends_of<T: Passes + Drop, U: Passes + Drop>(
    alloc: Global,
    items: Vec<T>,
    more: Vec<U>,
) -> Result<Ends<T, U>, AllocError>
    requires items { All T.blank items.items }
    requires more { All U.blank more.items }
    ensures given { IfOk result (λ ends. IsPair ends.giving.full ends.taking.full) }
    ensures made { IfOk result (λ ends. IsPair ends.making.full ends.storing.full) }
    ensures none_given { IfOk result (λ ends. (sent ends.giving.full ≡ []) × (received ends.taking.full ≡ [])) }
    ensures none_made { IfOk result (λ ends. (sent ends.making.full ≡ []) × (received ends.storing.full ≡ [])) }
{
    let (giving, taking) = pair_of(alloc, items)?;
    let (making, storing) = pair_of(alloc, more)?;
    Ok(Ends {
        giving,
        taking,
        making,
        storing,
    })
}

/// The ends of two new rings, by one of which things go on, and by the other come back. The other has all the empty ones.
fn pair_of<T: Passes + Drop>(
    alloc: Global,
    items: Vec<T>,
) -> Result<(Outgoing<T>, Incoming<T>), AllocError>
    requires { All T.blank items.items }
    ensures pair { IfOk result (λ ends. IsPair ends.0.full ends.1.full) }
    ensures none { IfOk result (λ ends. (sent ends.0.full ≡ []) × (received ends.1.full ≡ [])) }
{
    let (to, from) = RingBuffer::with_protocol(alloc, items.len())?;
    let (mut spent, blanks) = RingBuffer::with_protocol(alloc, items.len())?;
    give_back(items, &mut spent);
    Ok((
        Outgoing { full: to, blanks },
        Incoming { full: from, spent },
    ))
}

/// Gives these back, which are empty. One for which there is no room is let go.
#[tactic(auto, using(crate::proofs::Piped::all_rest))]
fn give_back<T: Passes + Drop>(items: Vec<T>, to: &mut Producer<T, Global, Back<T>>)
    requires { All T.blank items.items }
    ensures { SameProducer to.old to.new }
{
    for item in items {
        let _kept = to.push(item);
    }
}
