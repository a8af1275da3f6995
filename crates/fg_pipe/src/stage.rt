//! What a stage does with one thing. No thread is seen here.
ghost use Rattle.std.specs.Prelude.{◌≡◌, ◌↔◌, ◌++◌, [], ◌∷◌, List, IsTrue};
ghost use Rattle.std.specs.Bool.{OnFalse, OnTrue};

use crate::link::Passes;

/// The first stage: it takes from an `X`, and gives what it fills.
pub trait Giver<T: Passes, X> {
    /// From the first state on, and the first of the source, it has given these, and has come to the second.
    ghost gave: { Self → X → List T → Self → X → Type 0 };

    /// It has no more.
    ghost over: { Self → Type 0 };

    /// Whether it has no more.
    fn is_over(&self) -> bool
        ensures { IsTrue result ↔ over self.now };

    /// Fills an empty one. It may wait for its source.
    fn give(&mut self, from: &mut X, into: &mut T)
        requires blank { T.blank into.old }
        requires going { ¬ over self.old }
        requires underway { (first : Self) × (source : X) × (items : List T) × gave first source items self.old from.old }
        ensures { (first : Self) (source : X) (items : List T) → gave first source items self.old from.old
            → gave first source (items ++ into.new ∷ []) self.new from.new × T.allows items into.new };
}

/// The second: of each thing that it takes it makes one, until it stops.
pub trait Maker<T: Passes, U: Passes> {
    /// From the first state on it has taken these, has made those of them, and has come to the second. It has made none of the
    /// one at which it stopped.
    ghost turned: { Self → List T → List U → Self → Type 0 };

    /// It makes no more.
    ghost stopped: { Self → Type 0 };

    /// Whether it makes no more.
    fn is_stopped(&self) -> bool
        ensures { IsTrue result ↔ stopped self.now };

    /// Takes one, leaves it empty, and makes one of it. False where it stops instead.
    fn turn(&mut self, item: &mut T, into: &mut U) -> bool
        requires blank { U.blank into.old }
        requires going { ¬ stopped self.old }
        requires underway { (first : Self) × (took : List T) × (made : List U)
            × turned first took made self.old × T.allows took item.old }
        ensures makes { OnTrue result ((first : Self) (took : List T) (made : List U)
            → turned first took made self.old → T.allows took item.old
            → turned first (took ++ item.old ∷ []) (made ++ into.new ∷ []) self.new × U.allows made into.new) }
        ensures stops { OnFalse result ((first : Self) (took : List T) (made : List U)
            → turned first took made self.old → T.allows took item.old
            → turned first (took ++ item.old ∷ []) made self.new) }
        ensures stopped { OnFalse result (stopped self.new) }
        ensures spent { T.blank item.new };
}

/// The third: it stores what it is given to a `Y`, until it breaks off.
pub trait Storer<U: Passes, Y> {
    /// From the first state on, and the first of the place, it was given these, and has come to the second.
    ghost stored: { Self → Y → List U → Self → Y → Type 0 };

    /// It has broken off, at the last that it was given.
    ghost broken: { Self → Type 0 };

    /// Whether it has broken off.
    fn is_broken(&self) -> bool
        ensures { IsTrue result ↔ broken self.now };

    /// Stores one, and leaves it empty. False where it breaks off.
    fn store(&mut self, to: &mut Y, item: &mut U) -> bool
        requires going { ¬ broken self.old }
        requires underway { (first : Self) × (place : Y) × (items : List U)
            × stored first place items self.old to.old × U.allows items item.old }
        ensures stores { (first : Self) (place : Y) (items : List U)
            → stored first place items self.old to.old → U.allows items item.old
            → stored first place (items ++ item.old ∷ []) self.new to.new }
        ensures spent { OnTrue result (U.blank item.new) }
        ensures breaks { OnFalse result (broken self.new) };
}
