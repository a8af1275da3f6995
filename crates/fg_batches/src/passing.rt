//! What goes from stage to stage: the batches that were read, and what they show.
ghost use Rattle.std.specs.Prelude.{List, ℕ};

use fg_engine::Shelved;
use fg_flows::Sheaf;
use fg_pipe::Passes;
use std::marker::{Brand, Model, PhantomData};

/// The ports of a repair's flows, which a caller picks by passing std's `Brand`.
pub(crate) trait Tabled: Send {
    ghost table: { List ℕ };
}

impl Tabled for Brand {
    ghost use Rattle.std.specs.Prelude.{[]};

    ghost table = { [] };
}

/// The records of a batch, of the flows with these ports. Contracts see it as its sheaf.
#[derive(Drop)]
pub(crate) struct Batch<P: Tabled> {
    pub(crate) sheaf: Sheaf,
    pub(crate) of: PhantomData<P>,
}

impl<P: Tabled> Model for Batch<P> {
    ghost use Rattle.fg_flows.specs.Sheaf.{SheafState};

    ghost Value = { SheafState };

    ghost view = { λ a. a.sheaf };
}

impl<P: Tabled> Passes for Batch<P> {
    ghost use Rattle.std.specs.Prelude.{◌≡◌, length};
    ghost use Rattle.fg_flows.specs.Sheaf.{no_items};
    ghost use Rattle.fg_batches.specs.Stages.{MayFollow};

    ghost allows = { λ before sheaf. MayFollow (length P.table) before sheaf };

    ghost blank = { λ sheaf. sheaf ≡ no_items (length P.table) };
}

/// What a batch shows: a shelf for the lane of each of these flows. Contracts see it as its shelves.
#[derive(Drop)]
pub(crate) struct Row<P: Tabled> {
    pub(crate) shelves: Vec<Shelved>,
    pub(crate) of: PhantomData<P>,
}

impl<P: Tabled> Model for Row<P> {
    ghost use Rattle.std.specs.Prelude.{List};
    ghost use Rattle.fg_engine.specs.declared.shelved.Shelved.{Shelved};

    ghost Value = { List Shelved };

    ghost view = { λ a. a.shelves.items };
}

impl<P: Tabled> Passes for Row<P> {
    ghost use Rattle.std.specs.Prelude.{◌≡◌, map};
    ghost use Rattle.fg_batches.specs.Batches.{WaitFor, nothing_waits};

    ghost allows = { λ _ row. WaitFor P.table row };

    ghost blank = { λ row. row ≡ map nothing_waits P.table };
}
