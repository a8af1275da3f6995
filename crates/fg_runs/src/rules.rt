//! The slots of equations, each by its base and its shape.
ghost use Rattle.std.specs.Prelude.{◌≡◌, ◌<◌, ◌++◌, [], ◌∷◌, Some, length, slice_get, OnOk, OnErr};

use fg_shape::Shape;
use std::alloc::{AllocError, Global};
use std::marker::Model;

/// Which positions equations speak of, in the order of adding: the base of each, and its shape (SMPTE ST 2022-1). Contracts
/// see the list of these pairs. Nothing is known of them.
#[derive(Drop)]
pub struct Rules {
    rules: Vec<(u64, Shape)>,
}

impl Model for Rules {
    ghost use Rattle.std.specs.Prelude.{ℕ, List};
    ghost use Rattle.fg_shape.specs.declared.Shape.{Shape};

    ghost Value = { List (ℕ × Shape) };

    ghost view = { λ a. a.rules.items };
}

impl Rules {
    /// None. It takes no memory.
    pub fn new(alloc: Global) -> Rules
        ensures { result ≡ [] }
    {
        Rules {
            rules: Vec::new(alloc),
        }
    }

    /// Adds one at the end, as it is given.
    ///
    /// # Errors
    ///
    /// Where there is no memory. Then nothing has changed.
    pub fn add(&mut self, base: u64, shape: Shape) -> Result<(), AllocError>
        ensures ok { OnOk result (self.new ≡ self.old ++ (base, shape) ∷ []) }
        ensures err { OnErr result (self.new ≡ self.old) }
    {
        self.rules.push((base, shape))?;
        Ok(())
    }

    /// How many there are.
    pub fn count(&self) -> usize
        ensures { result ≡ length self.now }
    {
        self.rules.len()
    }

    /// The one that was added as number `i`, counted from 0.
    pub fn item(&self, i: usize) -> (u64, Shape)
        requires { i < length self.now }
        ensures { slice_get self.now i ≡ Some result }
    {
        self.rules[i]
    }
}
