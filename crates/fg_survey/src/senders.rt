//! The senders of a trace.
ghost use Rattle.std.specs.Prelude.{◌≡◌, ◌<◌, ℕ, List, IfSome, IsTrue, Option, None, get_or, length, false};
ghost use Rattle.fg_survey.specs.Senders.{listed, same_sender};
ghost use Rattle.fg_survey.specs.Steps.{IsFoundAt};

/// A sender on a port.
#[derive(Clone, Copy)]
pub struct Sender {
    /// The UDP port.
    pub port: u16,
    /// The synchronization source.
    pub ssrc: u32,
}

impl Sender {
    /// Whether the two are the same.
    pub(crate) fn same(&self, other: &Sender) -> bool
        ensures { result ≡ same_sender self.now other.now }
    {
        self.port == other.port && self.ssrc == other.ssrc
    }
}

/// Whether a sender stands at this place.
fn is_at(senders: &[Sender], sender: Sender, place: usize) -> bool
    ensures { IsTrue result → IsFoundAt senders.now sender place }
{
    place < senders.len() && sender.same(&senders[place])
}

/// The place of a sender. Most often it is near, where the one before was found, or the next one: flows come in turns.
pub(crate) fn find_near(senders: &[Sender], sender: Sender, near: usize) -> Option<usize>
    ensures found { IfSome result (λ place. IsFoundAt senders.now sender place) }
    ensures none { result ≡ None → listed senders.now sender ≡ false }
{
    if is_at(senders, sender, near) {
        return Some(near);
    }
    let next = near.saturating_add(1);
    if is_at(senders, sender, next) {
        return Some(next);
    }
    find(senders, sender)
}

/// The place of a sender.
fn find(senders: &[Sender], sender: Sender) -> Option<usize>
    ensures found { IfSome result (λ place. IsFoundAt senders.now sender place) }
    ensures none { result ≡ None → listed senders.now sender ≡ false }
{
    for i in 0..senders.len() {
        if sender.same(&senders[i]) {
            return Some(i);
        }
    }
    None
}
