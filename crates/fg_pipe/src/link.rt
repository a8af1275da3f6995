//! What goes from one stage to the next.
ghost use Rattle.std.specs.Prelude.{List};

use rtrb::Protocol;
use std::marker::PhantomData;

/// A thing that goes from one stage to the next, and comes back empty. Both stages know this of it.
pub trait Passes {
    /// After these, this may go on.
    ghost allows: { List Self → Self → Type 0 };

    /// This is empty, as it was before it was filled.
    ghost blank: { Self → Type 0 };
}

/// Of those that go on.
pub struct Full<T> {
    of: PhantomData<T>,
}

impl<T: Passes> Protocol<T> for Full<T> {
    ghost allows = { λ before x. T.allows before x };
}

/// Of those that come back.
pub struct Back<T> {
    of: PhantomData<T>,
}

impl<T: Passes> Protocol<T> for Back<T> {
    ghost allows = { λ _ x. T.blank x };
}
