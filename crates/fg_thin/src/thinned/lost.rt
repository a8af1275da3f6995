//! Which records are left out.
ghost use Rattle.std.specs.Prelude.{◌≡◌, ◌==◌, ◌%◌, ◌&&◌, ℕ, IfOk, nat_lt};
ghost use Rattle.std.specs.List.{list_any};
ghost use Rattle.std.specs.List.Sorted.{IsNonDecreasing};
ghost use Rattle.fg_thin.specs.Thinned.{is_lost};

use fg_shape::{Drops, Losses};
use std::alloc::{AllocError, Global};
use std::marker::Model;

/// Losses that are looked up: their drops are in order.
#[derive(Drop)]
pub(crate) struct Lost {
    drops: Vec<u64>,
    every: u64,
}

impl Model for Lost {
    ghost use Rattle.std.specs.List.Sorted.{IsNonDecreasing};
    ghost use Rattle.fg_shape.specs.declared.encoding.Losses.{Losses};

    ghost Value = { Losses };

    ghost view = { λ a. record { drops = a.drops.items; every = a.every } };

    ghost invariant = { λ a. IsNonDecreasing a.drops.items };
}

impl Lost {
    /// The same losses, to be looked up. All its memory is taken here.
    pub(crate) fn new(alloc: Global, losses: &Losses) -> Result<Lost, AllocError>
        ensures { IfOk result (λ lost. (number : ℕ) → is_lost lost number ≡ is_lost losses.now number) }
    {
        let mut drops = copied(alloc, &losses.drops)?;
        drops.sort_unstable();
        Ok(Lost {
            drops,
            every: losses.every,
        })
    }

    /// Whether the record of this number is left out.
    pub(crate) fn has(&self, number: u64) -> bool
        ensures { result ≡ is_lost self.now number }
    {
        contains(&self.drops, number) || is_multiple(self.every, number)
    }
}

/// Whether the number is among these, which are in order.
fn contains(drops: &[u64], number: u64) -> bool
    requires { IsNonDecreasing drops.now }
    ensures { result ≡ list_any (λ drop. drop == number) drops.now }
{
    match drops.binary_search(&number) {
        Ok(_) => true,
        Err(_) => false,
    }
}

/// Whether the number is a positive multiple, where there are multiples.
fn is_multiple(every: u64, number: u64) -> bool
    ensures { result ≡ (nat_lt 0 every && (nat_lt 0 number && number % every == 0)) }
{
    every > 0 && number > 0 && number % every == 0
}

/// The numbers, as they were added.
fn copied(alloc: Global, drops: &Drops) -> Result<Vec<u64>, AllocError>
    ensures { IfOk result (λ numbers. numbers.items ≡ drops.now) }
{
    let mut numbers = Vec::with_capacity(alloc, drops.count())?;
    for i in 0..drops.count() {
        numbers.push(drops.item(i))?;
    }
    Ok(numbers)
}
