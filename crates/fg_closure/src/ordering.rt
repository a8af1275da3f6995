//! The slots of equations, in the order of admission.
ghost use Rattle.std.specs.Prelude.{◌≡◌, map, filter_map, IfOk};
ghost use Rattle.fg_closure.specs.Flags.{rule_at};

use crate::search::LineSlots;
use fg_runs::Rules;
use std::alloc::{AllocError, Global};

/// The lines of a table, by their places.
pub(crate) fn lines_by_place(
    alloc: Global,
    table: &[Option<LineSlots>],
) -> Result<Vec<LineSlots>, AllocError>
    ensures { IfOk result (λ lines. lines.items ≡ filter_map (λ line. line) table.now) }
{
    let mut lines = Vec::new(alloc);
    for place in table {
        if let Some(line) = place {
            lines.push(*line)?;
        }
    }
    Ok(lines)
}

/// The base and shape of each line.
pub(crate) fn rules_from(alloc: Global, lines: &[LineSlots]) -> Result<Rules, AllocError>
    ensures { IfOk result (λ rules. rules ≡ map rule_at lines.now) }
{
    let mut rules = Rules::new(alloc);
    for line in lines {
        rules.add(line.base, line.shape)?;
    }
    Ok(rules)
}
