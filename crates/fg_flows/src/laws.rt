//! Laws of the flows, each the contract of a function that does nothing.
ghost use Rattle.fg_flows.specs.Laws.{OneFlowFault, OneFlowHasAPort, TablesHaveNoFault};

/// A port belongs to at most one flow of a table.
pub fn one_flow_has_a_port()
    ensures { OneFlowHasAPort }
{}

/// A list of flows is one that a table may have, or it breaks one rule first, and never both.
pub fn one_flow_fault()
    ensures none { TablesHaveNoFault }
    ensures one { OneFlowFault }
{}
