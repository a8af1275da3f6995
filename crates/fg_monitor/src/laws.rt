//! Laws of a stream's faults and of their text.
ghost use Rattle.fg_monitor.specs.Laws.{LaterChangesNothing, OneText, OneToTell};

/// Of a packet there is one thing to tell, and packets that come later change nothing of it.
pub fn one_to_tell()
    ensures one { OneToTell }
    ensures later { LaterChangesNothing }
{}

/// A stream has one text.
pub fn one_text()
    ensures { OneText }
{}
