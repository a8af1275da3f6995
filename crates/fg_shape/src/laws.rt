//! Laws of slots and layouts, each the contract of a function that does nothing.
ghost use Rattle.fg_shape.specs.Laws.{CountsItsSlots, LayoutsAreRead, LayoutsHaveNoFault, NumbersItsSlots, OneColumnEnds, OneLayoutFault, OneRowEnds, SlotsDiffer};

/// A shape has as many slots as it counts.
pub fn a_shape_counts_its_slots()
    ensures { CountsItsSlots }
{}

/// The slot of each number is the base and that many offsets.
pub fn each_slot_has_its_number()
    ensures { NumbersItsSlots }
{}

/// Different slots of a shape are different positions.
pub fn slots_differ()
    ensures { SlotsDiffer }
{}

/// The columns and rows of a layout have shapes that are read.
pub fn layouts_are_read()
    ensures { LayoutsAreRead }
{}

/// At most one column ends at a slot, and at most one row, in both layouts.
pub fn one_column_and_one_row_end()
    ensures column { OneColumnEnds }
    ensures row { OneRowEnds }
{}

/// A layout that is written has no fault, and another has one first.
pub fn one_layout_fault()
    ensures none { LayoutsHaveNoFault }
    ensures one { OneLayoutFault }
{}
