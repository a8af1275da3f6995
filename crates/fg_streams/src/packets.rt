//! The PIDs of a stream.
ghost use Rattle.std.specs.Prelude.{◌≡◌, ◌<◌, ◌≤◌, ◌*◌, ◌/◌, ◌||◌, ℕ, IfOk, List, [], false, count_by, drop, get_or, length};
ghost use Rattle.std.specs.List.{range_with_len};
ghost use Rattle.fg_ts.specs.Fields.{pid_of};
ghost use Rattle.fg_streams.specs.Packets.{carries, pid_limit};
ghost use Rattle.fg_streams.specs.Steps.{AreMarks};

use fg_ts::PACKET_LENGTH;
use std::alloc::{AllocError, Global};

/// How many PIDs there are.
const PIDS: usize = 8192;

/// A mark for each PID, none set.
pub(crate) fn no_marks(alloc: Global) -> Result<Vec<bool>, AllocError>
    ensures { IfOk result (λ marks. AreMarks marks.items (λ _. false)) }
{
    vec![in alloc; false; PIDS]
}

/// The PID of a packet.
fn pid(packet: &[u8]) -> usize
    requires { 3 ≤ length packet.now }
    ensures value { result ≡ pid_of packet.now }
    ensures bounded { result < 8192 }
{
    usize::from(packet[1] & 0x1f) * 256 + usize::from(packet[2])
}

/// Sets the marks of the PIDs of a payload's packets.
pub(crate) fn mark(payload: &[u8], marks: &mut [bool])
    requires { length marks.old ≡ 8192 }
    ensures all { length marks.new ≡ 8192 }
    ensures each { (p : ℕ) → p < 8192
        → get_or marks.new p false ≡ (carries payload.now p (length payload.now / 188) || get_or marks.old p false) }
{
    for number in 0..payload.len() / PACKET_LENGTH {
        let pid = pid(&payload[PACKET_LENGTH * number..]);
        marks[pid] = true;
    }
}

/// How many marks are set.
pub(crate) fn count_marks(marks: &[bool]) -> u64
    requires { length marks.now ≤ 8192 }
    ensures { result ≡ count_by (λ mark. mark) marks.now }
{
    marks.iter().filter(|mark| **mark).count() as u64
}
