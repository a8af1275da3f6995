//! Files that stay open between two puts.
ghost use Rattle.std.specs.Prelude.{◌≡◌, ◌<◌, ◌++◌, [], ◌∷◌, ℕ, HoldsAt, IfSome, IfNone, length};
ghost use Rattle.fg_io.specs.OpenFiles.{HasNone, NoneComes, TakesOut};

use std::alloc::Global;
use std::marker::Model;

/// Open files, one for a port, in the order in which they were last used.
#[derive(Drop)]
pub(crate) struct OpenFiles<T> {
    files: Vec<(u16, T)>,
}

impl<T> Model for OpenFiles<T> {
    ghost use Rattle.std.specs.Prelude.{ℕ, List};
    ghost use Rattle.fg_io.specs.OpenFiles.{AreApart};

    ghost Value = { List (ℕ × T) };

    ghost view = { λ a. a.files.items };

    ghost invariant = { λ a. AreApart a.files.items };
}

impl<T: Drop> OpenFiles<T> {
    /// No file, and no memory is taken.
    pub(crate) fn new(alloc: Global) -> OpenFiles<T>
        ensures { result ≡ [] }
    {
        OpenFiles {
            files: Vec::new(alloc),
        }
    }

    /// Takes the port's file out, if it is among them.
    pub(crate) fn take(&mut self, port: u16) -> Option<T>
        ensures taken { IfSome result (λ file. TakesOut self.old port file self.new) }
        ensures unchanged { IfNone result (self.new ≡ self.old) }
        ensures gone { HasNone self.new port }
    {
        let place = place_of(&self.files, port)?;
        Some(self.files.remove(place).1)
    }

    /// Takes the file out that was used before all others, if there is one.
    pub(crate) fn take_oldest(&mut self) -> Option<T>
        ensures taken { IfSome result (λ file. (port : ℕ) × (self.old ≡ (port, file) ∷ self.new)) }
        ensures none { IfNone result ((self.old ≡ []) × (self.new ≡ self.old)) }
        ensures fewer { NoneComes self.old self.new }
    {
        if self.files.is_empty() {
            return None;
        }
        Some(self.files.remove(0).1)
    }

    /// Adds the port's file, as the one that was used last. Where there is no memory to keep it, it is answered.
    pub(crate) fn add(&mut self, port: u16, file: T) -> Option<T>
        requires other { HasNone self.old port }
        ensures kept { IfNone result (self.new ≡ self.old ++ (port, file) ∷ []) }
        ensures refused { IfSome result (λ back. (back ≡ file) × (self.new ≡ self.old)) }
    {
        match self.files.push((port, file)) {
            Ok(()) => None,
            Err(refused) => Some(refused.value.1),
        }
    }
}

/// The place of the port's file.
fn place_of<T>(files: &[(u16, T)], port: u16) -> Option<usize>
    ensures found { IfSome result (λ place. place < length files.now) }
    ensures port { IfSome result (HoldsAt (λ held. held.0 ≡ port) files.now) }
    ensures none { IfNone result (HasNone files.now port) }
{
    files.iter().position(|held| held.0 == port)
}
