//! Laws of the definitions that the contracts cite. Each function does nothing: its contract is the law. A caller that
//! needs a law calls it.
ghost use Rattle.fg_report.specs.Laws.{GapsStayApart, TouchingIsOne, GapsHold, TextNamesItsCounts};

/// Runs that rise and are maximal are so after one more.
pub fn gaps_stay_apart()
    ensures { GapsStayApart }
{}

/// Two runs that touch are added as one.
pub fn touching_is_one()
    ensures { TouchingIsOne }
{}

/// After one more run its positions are in a gap, and those that were, and no other.
pub fn gaps_hold()
    ensures { GapsHold }
{}

/// Two reports with one text tell the same of all flows, of other records and of the end.
pub fn text_names_its_counts()
    ensures { TextNamesItsCounts }
{}
