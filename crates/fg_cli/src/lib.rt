//! The words of the command line.
#![tactic(auto)]

ghost use Rattle.std.specs.Prelude.{IfErr, IfOk, map, string_bytes};
ghost use Rattle.fg_cli.specs.Orders.{IsFault, IsReading, OrderFits};

use fg_flows::{FlowFault, Plan, Selection, Table, TableFault};
use fg_shape::{LayoutFault, Losses, Settings};
use std::alloc::{AllocError, Global};
use thiserror::Error;

mod grammar;
mod help;
pub mod laws;
mod making;
mod settings;

pub use grammar::Command;
pub use help::{Question, help_text, version_text};

/// What the words order.
#[derive(Drop)]
pub enum Order {
    /// Repair the flows of a trace.
    Repair(Plan),
    /// Encode a stream of at most so many bytes.
    Encode {
        settings: Settings,
        max: u64,
    },
    /// Encode a stream of at most so many bytes, leave records out, and repair what is left.
    Drill {
        settings: Settings,
        plan: Plan,
        losses: Losses,
        max: u64,
    },
    /// Say what each record of a trace of at most so many bytes is.
    Inspect {
        table: Table,
        max: u64,
    },
    /// Make a stream of so many datagrams, leave out so many percent of its records, and repair it.
    Sample {
        seed: u64,
        datagrams: u32,
        loss: u32,
        plan: Plan,
    },
    /// Write the trace of the UDP datagrams in a capture of at most so many bytes.
    FromCapture {
        max: u64,
    },
    /// Write a capture of the records of a trace of at most so many bytes.
    ToCapture {
        max: u64,
    },
    /// Say where the continuity of a stream of at most so many bytes breaks.
    Monitor {
        max: u64,
    },
    /// Write the cases of the gaps that the plan's one flow shows.
    Prove(Plan),
    /// Judge the cases in a text of at most so many bytes.
    Check {
        max: u64,
    },
    /// Choose the least matrix for a burst of so many datagrams and so many percent of parity at most, with parity of rows or
    /// without.
    ChooseMatrix {
        burst: u8,
        most: u8,
        rows: bool,
    },
    /// Tell what a trace of at most so many bytes holds, as lines of JSON or of words.
    Survey {
        max: u64,
        json: bool,
    },
    /// Write the trace of the records that are picked of a trace of at most so many bytes.
    Pick {
        selection: Selection,
        max: u64,
    },
}

/// A name that must be there.
#[derive(Clone, Copy, Debug, PartialEq, Eq)]
pub enum Name {
    Flow,
    Columns,
    Rows,
    Seed,
    Burst,
    Most,
}

/// The first rule that the words break. Words are counted from 0, the command.
#[derive(Clone, Copy, Debug, PartialEq, Eq, Error)]
pub enum WordFault {
    /// There is no word.
    #[error("no command")]
    NoCommand,
    /// The word is no command, or no setting that the command has, or its value isn't one that the
    /// name takes, or its name has stood as often as it may.
    #[error("bad word {0}")]
    BadWord(usize),
    /// The name must be there and isn't.
    #[error("missing {0:?}")]
    Missing(Name),
    /// The depth, which this word sets, is below the window.
    #[error("depth below window at word {0}")]
    Depth(usize),
    /// The layout is refused.
    #[error("layout: {0}")]
    Layout(LayoutFault),
    /// The table of flows is refused.
    #[error("flows: {0}")]
    Flows(FlowFault),
}

/// Why there is no order.
#[derive(Clone, Copy, Debug, PartialEq, Eq, Error)]
pub enum ReadWords {
    /// There was no memory.
    #[error("out of memory")]
    Memory,
    /// The words break a rule.
    #[error("{0}")]
    Words(WordFault),
}

impl From<TableFault> for ReadWords {
    ghost use Rattle.std.specs.Prelude.{◌≡◌};
    ghost use Rattle.fg_cli.specs.Reading.{table_fault};

    ghost from_gives = { λ fault answer. answer ≡ table_fault fault };

    fn from(fault: TableFault) -> ReadWords {
        match fault {
            TableFault::Memory => ReadWords::Memory,
            TableFault::Flow(fault) => ReadWords::Words(WordFault::Flows(fault)),
        }
    }
}

impl From<LayoutFault> for ReadWords {
    ghost use Rattle.std.specs.Prelude.{◌≡◌};
    ghost use Rattle.fg_cli.specs.declared.ReadWords.TheVariants.{Words};
    ghost use Rattle.fg_cli.specs.declared.WordFault.TheVariants.{Layout};

    ghost from_gives = { λ fault answer. answer ≡ Words (Layout fault) };

    fn from(fault: LayoutFault) -> ReadWords {
        ReadWords::Words(WordFault::Layout(fault))
    }
}

impl From<AllocError> for ReadWords {
    ghost use Rattle.std.specs.Prelude.{◌≡◌};
    ghost use Rattle.fg_cli.specs.declared.ReadWords.TheVariants.{Memory};

    ghost from_gives = { λ _ fault. fault ≡ Memory };

    fn from(_fault: AllocError) -> ReadWords {
        ReadWords::Memory
    }
}

/// Reads the words after the program's name: a command, and settings `name=value` in any order.
///
/// # Errors
///
/// The first rule that the words break, or want of memory.
pub fn read_words(alloc: Global, words: &[String]) -> Result<Order, ReadWords>
    ensures reading { IfOk result (IsReading (map string_bytes words.now)) }
    ensures fits { IfOk result OrderFits }
    ensures faults { IfErr result (IsFault (map string_bytes words.now)) }
{
    let Some(first) = words.first() else {
        return Err(ReadWords::Words(WordFault::NoCommand));
    };
    let Some(command) = Command::named(first.as_str()) else {
        return Err(ReadWords::Words(WordFault::BadWord(0)));
    };
    let settings = settings::read_settings(alloc, command, words)?;
    making::order_of(alloc, command, &settings)
}
