//! Reads that give few bytes.
use super::*;

/// How a repair ends of three datagrams whose third is cut, and what it leaves.
struct Left {
    status: u8,
    line: &'static str,
    out: &'static str,
    /// How many payloads the lane has.
    count: u16,
}

/// Two datagrams that are repaired, and one that is cut. The third record begins at byte 2,688.
const CUT: Left = Left {
    status: 4,
    line: "cut at byte 2688\n",
    out: "flow 5000 shown 2 repaired 0 missing 0 windows 1 inconsistent 0
media 5000 admitted 2 duplicate 0 conflict 0 late 0 bad 0
column 5000 admitted 0 duplicate 0 conflict 0 late 0 notstarted 0 beforestart 0 ahead 0 crowded 0 bad 0
row 5000 admitted 0 duplicate 0 conflict 0 late 0 notstarted 0 beforestart 0 ahead 0 crowded 0 bad 0
other 0
cut at byte 2688
",
    count: 2,
};

/// A read that fails behind 1,500 bytes, which were given one by one.
const FAILED: Left = Left {
    status: 2,
    line: "read fault\n",
    out: "",
    count: 0,
};

/// How many bytes a read gives at most, which reads fail, and what that leaves.
static PIECES: [(usize, &[u64], Left); 4] = [
    (1, &[], CUT),
    (7, &[], CUT),
    (4000, &[], CUT),
    (1, &[1500], FAILED),
];

impl Left {
    /// Whether a run left this.
    fn is_left(&self, ran: &Ran) -> bool {
        ran.ended.status == self.status
            && ran.outside.err.bytes() == self.line.as_bytes()
            && ran.outside.out.bytes() == self.out.as_bytes()
            && ran.outside.has_lane(5000, 10, Some(self.count))
    }
}

#[test]
fn reads_that_give_few_bytes(rt: HostRuntime) -> Result<(), Fail> {
    let bytes = in_turn(rt.alloc(), &[5000], 10, 3)?;
    let cut = bytes.get(..4000).unwrap_or(b"");
    for (piece, reads, left) in &PIECES {
        let setting = Setting {
            piece: *piece,
            reads,
            ..PLAIN
        };
        let ran = run_line(&rt, rt.alloc(), &setting, "repair flow=5000", cut)?;
        assert!(rt; left.is_left(&ran));
    }
    Ok(())
}
