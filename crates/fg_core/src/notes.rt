//! Which live equations are handed out, and which were vouched for.

ghost use Rattle.std.specs.Prelude.{◌≡◌, ◌<◌, length, replicate, slice_index_or, slice_set, IfOk};
ghost use Rattle.fg_peel.specs.Live.{live_limit};
ghost use Rattle.fg_core.specs.Flow.{no_note};

use fg_buffer::LIVE_LIMIT;
use std::alloc::{AllocError, Global};
use std::marker::Model;

/// What is noted at a place. It is of the live equation there where that has this serial number and no solved
/// word was withdrawn since, and else it is void. So nothing has to be cleared where equations leave or words
/// are withdrawn.
#[derive(Clone, Copy)]
pub(crate) struct Note {
    pub(crate) serial: u64,
    pub(crate) epoch: u64,
    pub(crate) vouched: bool,
    pub(crate) handed_out: bool,
}

/// The notes by place.
#[derive(Drop)]
pub(crate) struct Notes {
    notes: Vec<Note>,
}

impl Model for Notes {
    ghost use Rattle.std.specs.Prelude.{◌≡◌, List, length};
    ghost use Rattle.fg_peel.specs.Live.{live_limit};
    ghost use Rattle.fg_core.specs.declared.notes.Note.{Note};

    ghost Value = { List Note };

    ghost view = { λ a. a.notes.items };

    ghost invariant = { λ a. length a.notes.items ≡ live_limit };
}

impl Notes {
    /// Nothing is noted. All memory is taken here.
    pub(crate) fn new(alloc: Global) -> Result<Notes, AllocError>
        ensures { IfOk result (λ notes. notes ≡ replicate live_limit no_note) }
    {
        let none = Note {
            serial: 0,
            epoch: 0,
            vouched: false,
            handed_out: false,
        };
        Ok(Notes {
            notes: vec![in alloc; none; LIVE_LIMIT]?,
        })
    }

    /// What is noted at a place.
    pub(crate) fn at(&self, place: u32) -> Note
        requires { place < live_limit }
        ensures note { result ≡ slice_index_or self.now place no_note }
    {
        self.notes[place as usize]
    }

    /// Notes it at a place.
    pub(crate) fn put(&mut self, place: u32, note: Note)
        requires { place < live_limit }
        ensures put { self.new ≡ slice_set self.old place note }
        ensures count { length self.old ≡ live_limit }
    {
        self.notes[place as usize] = note;
    }
}
