//! The records of a batch, by flow.
ghost use Rattle.std.specs.Prelude.{◌≡◌, ◌↔◌, ◌<◌, ◌≤◌, Some, IfOk, IsTrue, length, slice_get};
ghost use Rattle.std.specs.Bool.{OnFalse, OnTrue};
ghost use Rattle.fg_flows.specs.Sheaf.{HasRoom, item_count, items_of, no_items, with_item};
ghost use Rattle.fg_flows.specs.Entries.{AreEmpty, HaveRoom};

use fg_shape::Kind;
use std::alloc::{AllocError, Global};
use std::marker::Model;

/// The most records that a sheaf holds.
const MOST_RECORDS: usize = 256;

/// The most bytes that their payloads have in all.
const MOST_BYTES: usize = 1_048_576;

/// A record, whose payload lies among those of all flows. An entry has 16 bytes.
#[derive(Clone, Copy)]
struct Entry {
    time: u64,
    // Where the payload begins, and how many bytes it has.
    start: u32,
    len: u16,
    kind: Kind,
}

/// The records of a batch, by flow: at most 256 of all flows, with at most 1,048,576 bytes of payloads.
///
/// It is made for a number of flows, and contracts see it as one list of records for each. All its memory is taken when it
/// is made, 1 MB and 4 kB a flow, and kept when it is cleared. A payload is copied once, when it is added.
#[derive(Drop)]
pub struct Sheaf {
    // The payloads of all records, one after another.
    bytes: Vec<u8>,
    // The records of each flow. There is room for all records in each, since all may be of one flow.
    flows: Vec<Vec<Entry>>,
    // How many records there are of all flows.
    count: usize,
}

impl Model for Sheaf {
    ghost use Rattle.fg_flows.specs.Sheaf.{SheafState};
    ghost use Rattle.fg_flows.specs.Entries.{said_by, AreHeld};

    ghost Value = { SheafState };

    ghost view = { λ a. said_by a.bytes.items a.flows.items };

    ghost invariant = { λ a. AreHeld a.bytes a.flows.items a.count };
}

impl Sheaf {
    /// No record of any of so many flows. All memory is taken here.
    ///
    /// # Errors
    ///
    /// There was no memory.
    pub fn new(alloc: Global, flows: usize) -> Result<Sheaf, AllocError>
        requires some { 1 ≤ flows }
        requires limit { flows ≤ 64 }
        ensures { IfOk result (λ sheaf. sheaf ≡ no_items flows) }
    {
        Ok(Sheaf {
            bytes: Vec::with_capacity(alloc, MOST_BYTES)?,
            flows: empty_flows(alloc, flows)?,
            count: 0,
        })
    }

    /// Adds a record of a flow, after the others of that flow, where there is room for it, and answers whether there is. The
    /// time is in microseconds. No memory is taken.
    #[inline]
    pub fn add(&mut self, flow: usize, kind: Kind, time: u64, payload: &[u8]) -> bool
        requires flow { flow < length self.old.items }
        requires size { length payload.now ≤ 65535 }
        ensures room { IsTrue result ↔ HasRoom self.old payload.now }
        ensures added { OnTrue result (self.new ≡ with_item self.old flow
            (record { kind = kind; time = time; payload = payload.now })) }
        ensures unchanged { OnFalse result (self.new ≡ self.old) }
    {
        if !self.has_room(payload) {
            return false;
        }
        self.keep(flow, kind, time, payload);
        true
    }

    /// For how many flows it was made.
    #[inline]
    pub fn flows(&self) -> usize
        ensures { result ≡ length self.now.items }
    {
        self.flows.len()
    }

    /// Whether there is no record of any flow.
    #[inline]
    pub fn is_empty(&self) -> bool
        ensures { IsTrue result ↔ (item_count self.now ≡ 0) }
    {
        self.count == 0
    }

    /// How many records of a flow there are.
    #[inline]
    pub fn count(&self, flow: usize) -> usize
        requires { flow < length self.now.items }
        ensures { result ≡ length (items_of self.now flow) }
    {
        self.flows[flow].len()
    }

    /// The kind, the time and the payload of a flow's record, by its number from 0 in the order in which the flow's were
    /// added. The payload is lent where it lies.
    #[inline]
    pub fn item(&self, flow: usize, k: usize) -> (Kind, u64, &[u8])
        requires { k < length (items_of self.now flow) }
        ensures { slice_get (items_of self.now flow) k
            ≡ Some (record { kind = result.0; time = result.1; payload = result.2.now }) }
    {
        let entry = self.flows[flow][k];
        let start = entry.start as usize;
        let end = start + usize::from(entry.len);
        (entry.kind, entry.time, &self.bytes[start..end])
    }

    /// Lets all records go. The memory stays.
    pub fn clear(&mut self)
        ensures { self.new ≡ no_items (length self.old.items) }
    {
        clear_flows(&mut self.flows);
        self.bytes.clear();
        self.count = 0;
    }

    /// Whether there is room for one more record, with this payload.
    #[inline]
    fn has_room(&self, payload: &[u8]) -> bool
        ensures { IsTrue result ↔ HasRoom self.now payload.now }
    {
        self.count < MOST_RECORDS && payload.len() <= MOST_BYTES - self.bytes.len()
    }

    /// Adds a record of a flow, after the others of that flow, where there is room for it.
    #[inline]
    fn keep(&mut self, flow: usize, kind: Kind, time: u64, payload: &[u8])
        requires flow { flow < length self.old.items }
        requires size { length payload.now ≤ 65535 }
        requires room { HasRoom self.old payload.now }
        ensures { self.new ≡ with_item self.old flow
            (record { kind = kind; time = time; payload = payload.now }) }
    {
        let entry = Entry {
            time,
            start: self.bytes.len() as u32,
            len: payload.len() as u16,
            kind,
        };
        // There is memory for both.
        let _copied = self.bytes.extend_from_slice(payload);
        let _kept = self.flows[flow].push(entry);
        self.count += 1;
    }
}

/// No record of any of so many flows, and in each room for all that a sheaf holds.
fn empty_flows(alloc: Global, count: usize) -> Result<Vec<Vec<Entry>>, AllocError>
    ensures count { IfOk result (λ flows. length flows.items ≡ count) }
    ensures empty { IfOk result (λ flows. AreEmpty flows.items) }
    ensures room { IfOk result (λ flows. HaveRoom flows.items) }
{
    let mut flows = Vec::with_capacity(alloc, count)?;
    for _ in 0..count {
        flows.push(Vec::with_capacity(alloc, MOST_RECORDS)?)?;
    }
    Ok(flows)
}

/// Lets the records of each flow go.
fn clear_flows(flows: &mut [Vec<Entry>])
    requires { HaveRoom flows.old }
    ensures empty { AreEmpty flows.new }
    ensures room { HaveRoom flows.new }
{
    for flow in flows.iter_mut() {
        flow.clear();
    }
}
