//! The third stage: what the batches show is put to the lanes.
use crate::emptying::empty_shelves;
use crate::passing::{Row, Tabled};
use fg_io::Outlet;
use fg_pipe::Storer;

/// Puts rows of shelves to the lanes, flow after flow, until a put fails.
#[derive(Drop)]
pub(crate) struct RowPutter {
    /// Whether a put failed.
    pub(crate) broken: bool,
}

impl<O: Outlet, P: Tabled> Storer<Row<P>, O> for RowPutter {
    ghost use Rattle.std.specs.Prelude.{◌≡◌, true};
    ghost use Rattle.fg_batches.specs.Stages.{PutsRows};

    ghost stored = { λ _ place rows new to. PutsRows P.table (O.lanes place) (O.lanes to)
        (O.faults place, O.faults to) rows new.broken };

    ghost broken = { λ putter. putter.broken ≡ true };

    fn is_broken(&self) -> bool {
        self.broken
    }

    fn store(&mut self, to: &mut O, item: &mut Row<P>) -> bool {
        match empty_shelves(&mut item.shelves, to) {
            Ok(()) => true,
            Err(_) => {
                self.broken = true;
                false
            }
        }
    }
}
