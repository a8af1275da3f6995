//! An outlet in memory.
ghost use Rattle.std.specs.Prelude.{◌≡◌, ◌==◌, ◌↔◌, ◌⊎◌, ◌<◌, ◌≤◌, length, take, map, position, OnOk, OnErr, IfOk, IsErr, IsNone, IsSome, IsTrue, Some};
ghost use Rattle.std.specs.Option.{option_copied};
ghost use Rattle.fg_io.specs.Calls.{first_calls, after_call, after_fault, NextFails};
ghost use Rattle.fg_io.specs.Faults.{CountsFault};
ghost use Rattle.fg_io.specs.MemOutlet.{empty_keeper, keeper_of, keeper_lanes, room_left};
ghost use Rattle.fg_io.specs.Outlet.{LaneGains, LaneGainsPart, Puts, PutsPart};

use crate::Failed;
use crate::calls::Calls;
use crate::lane_keeper::LaneKeeper;
use crate::outlet::Outlet;
use std::alloc::{AllocError, Global};
use std::marker::Model;

/// Keeps the lanes of the listed ports, each until it is full, and fails at chosen calls.
#[derive(Drop)]
pub struct MemOutlet {
    keepers: Vec<LaneKeeper>,
    calls: Calls,
}

impl Model for MemOutlet {
    ghost use Rattle.fg_io.specs.MemOutlet.{OutletState};

    ghost Value = { OutletState };

    ghost view = { λ a. record { keepers = a.keepers.items; calls = a.calls } };
}

impl MemOutlet {
    /// An outlet for these ports, each of whose lanes takes `room` bytes in all. All memory is taken here.
    ///
    /// It fails at exactly the calls whose numbers, from 0, are in `fails`, which take nothing and make no lane, at a
    /// port that isn't listed, and where the piece doesn't fit, after taking what fits. The number of a call stands
    /// still at its last value. A port that is listed twice has one lane.
    pub fn new(
        alloc: Global,
        ports: &[u16],
        room: usize,
        fails: &[u64],
    ) -> Result<MemOutlet, AllocError>
        ensures { IfOk result (λ outlet. outlet
            ≡ record { keepers = map (empty_keeper room) ports.now; calls = first_calls fails.now }) }
    {
        let mut keepers = Vec::with_capacity(alloc, ports.len())?;
        for port in ports {
            keepers.push(LaneKeeper::new(alloc, *port, room)?)?;
        }
        Ok(MemOutlet {
            keepers,
            calls: Calls::new(alloc, fails)?,
        })
    }

    /// The lane of the port, and `None` exactly where it has none.
    pub fn lane(&self, port: u16) -> Option<&[u8]>
        ensures { option_copied result ≡ keeper_lanes self.now.keepers port }
    {
        let at = place_of(&self.keepers, port)?;
        self.keepers[at].lane()
    }
}

/// The place of the port's keeper.
fn place_of(keepers: &[LaneKeeper], port: u16) -> Option<usize>
    ensures { result ≡ position (λ keeper. keeper.port == port) keepers.now }
{
    keepers.iter().position(|keeper| keeper.is_for(port))
}

/// Appends what fits of the piece to the port's lane, and answers whether that is all of it.
fn append_to(keepers: &mut [LaneKeeper], port: u16, piece: &[u8]) -> bool
    ensures whole { IsTrue result
        ↔ (IsSome (keeper_of keepers.old port) × (length piece.now ≤ room_left keepers.old port)) }
    ensures listed { IsSome (keeper_of keepers.old port) → LaneGains (keeper_lanes keepers.old) port
        (take (room_left keepers.old port) piece.now) (keeper_lanes keepers.new) }
    ensures part { LaneGainsPart (keeper_lanes keepers.old) port piece.now (keeper_lanes keepers.new) }
    ensures unlisted { IsNone (keeper_of keepers.old port) → keepers.new ≡ keepers.old }
    ensures ports { map (λ keeper. keeper.port) keepers.new ≡ map (λ keeper. keeper.port) keepers.old }
    ensures rooms { map (λ keeper. keeper.room) keepers.new ≡ map (λ keeper. keeper.room) keepers.old }
{
    let Some(at) = place_of(keepers, port) else {
        return false;
    };
    keepers[at].append(piece) == piece.len()
}

impl Outlet for MemOutlet {
    ghost lanes = { λ outlet. Some (keeper_lanes outlet.keepers) };

    ghost faults = { λ outlet. outlet.calls.faults };

    fn put(&mut self, port: u16, piece: &[u8]) -> Result<(), Failed>
        // What each outlet ensures.
        ensures puts { OnOk result (Puts (Some (keeper_lanes self.old.keepers)) port piece.now
            (Some (keeper_lanes self.new.keepers))) }
        ensures failed { OnErr result (PutsPart (Some (keeper_lanes self.old.keepers)) port piece.now
            (Some (keeper_lanes self.new.keepers))) }
        ensures no_fault { OnOk result (self.new.calls.faults ≡ self.old.calls.faults) }
        ensures counted { OnErr result (CountsFault self.old.calls.faults self.new.calls.faults) }
        ensures never_falls { self.old.calls.faults ≤ self.new.calls.faults }

        // Exactly which calls fail, and what each call takes.
        ensures fails { IsErr result ↔ (NextFails self.old.calls
            ⊎ IsNone (keeper_of self.old.keepers port)
            ⊎ (room_left self.old.keepers port < length piece.now)) }
        ensures takes { ¬ NextFails self.old.calls → IsSome (keeper_of self.old.keepers port)
            → LaneGains (keeper_lanes self.old.keepers) port
            (take (room_left self.old.keepers port) piece.now) (keeper_lanes self.new.keepers) }
        ensures takes_none { NextFails self.old.calls ⊎ IsNone (keeper_of self.old.keepers port)
            → self.new.keepers ≡ self.old.keepers }
        ensures ports { map (λ keeper. keeper.port) self.new.keepers
            ≡ map (λ keeper. keeper.port) self.old.keepers }
        ensures rooms { map (λ keeper. keeper.room) self.new.keepers
            ≡ map (λ keeper. keeper.room) self.old.keepers }
        ensures ok_calls { OnOk result (self.new.calls ≡ after_call self.old.calls) }
        ensures err_calls { OnErr result (self.new.calls ≡ after_fault self.old.calls) }
    {
        if self.calls.next_fails() {
            self.calls.count_fault();
            return Err(Failed);
        }
        if !append_to(&mut self.keepers, port, piece) {
            self.calls.count_fault();
            return Err(Failed);
        }
        Ok(())
    }
}
