//! A desk in another style: it keeps each word that ever came, scans all equations until none gives
//! a word, and sums each of them at each play. Its words are timestamps alone.

use fg_desk::{Outcome, Reply};
use std::alloc::{AllocError, Global};

/// Positions are below this.
const POSITIONS: usize = 16_384;

/// So many positions before the mark, and so many more than the depth in all, can have a slot of a live equation or a word that
/// wasn't shown.
const BEHIND: usize = 100;

const NEAR: usize = 300;

/// What a parity datagram says.
#[derive(Clone, Copy)]
pub(super) struct Sum {
    pub base: usize,
    pub offset: usize,
    pub count: usize,
    pub parity: u32,
}

#[derive(Drop)]
pub(super) struct Plain {
    pub window: usize,
    pub depth: usize,
    /// How long a word may wait. 0 where it may wait for ever.
    pub hold: u64,
    /// The greatest time that was told.
    pub clock: u64,
    /// The SSRC of the current run, and of the run before.
    pub current: Option<u32>,
    pub previous: Option<u32>,
    /// The position of the run's first datagram, and its sequence number.
    pub origin: usize,
    pub first: u16,
    pub runs: u64,
    pub mark: usize,
    pub epoch: u64,
    /// Each word that was received, and each that was shown.
    pub media: Vec<Option<u32>>,
    /// The clock when each of them came.
    pub came: Vec<u64>,
    pub shown: Vec<Option<u32>>,
    pub live: Vec<Sum>,
}

/// An equation's unknown slots: how many, and one of them. `rest` is what its known words leave of
/// its parity.
#[derive(Clone, Copy)]
struct Tally {
    unknown: u32,
    slot: usize,
    rest: u32,
}

pub(super) fn at(words: &[Option<u32>], position: usize) -> Option<u32> {
    match words.get(position) {
        Some(word) => *word,
        None => None,
    }
}

fn put(words: &mut [Option<u32>], position: usize, word: Option<u32>) {
    if let Some(entry) = words.get_mut(position) {
        *entry = word;
    }
}

fn slot(sum: Sum, j: usize) -> usize {
    sum.base.wrapping_add(j.wrapping_mul(sum.offset))
}

fn last(sum: Sum) -> usize {
    slot(sum, sum.count.wrapping_sub(1))
}

/// The words of `near` begin at the position `first`.
fn tally_of(sum: Sum, first: usize, near: &[Option<u32>]) -> Tally {
    let mut tally = Tally {
        unknown: 0,
        slot: 0,
        rest: sum.parity,
    };
    for j in 0..sum.count {
        let slot = slot(sum, j).wrapping_sub(first);
        match at(near, slot) {
            Some(word) => tally.rest ^= word,
            None => {
                tally.unknown = tally.unknown.saturating_add(1);
                tally.slot = slot;
            }
        }
    }
    tally
}

/// Takes the words that single equations give. Whether there was one.
fn scan(live: &[Sum], first: usize, near: &mut [Option<u32>]) -> bool {
    let mut found = false;
    for sum in live {
        let tally = tally_of(*sum, first, near);
        if tally.unknown == 1 {
            put(near, tally.slot, Some(tally.rest));
            found = true;
        }
    }
    found
}

/// Whether each equation comes out whose words are all there.
fn comes_out(live: &[Sum], first: usize, near: &[Option<u32>]) -> bool {
    for sum in live {
        let tally = tally_of(*sum, first, near);
        if tally.unknown == 0 && tally.rest != 0 {
            return false;
        }
    }
    true
}

/// Whether an equation has a slot below the mark at which no word was shown.
fn is_lost(sum: Sum, mark: usize, shown: &[Option<u32>]) -> bool {
    for j in 0..sum.count {
        if slot(sum, j) < mark && at(shown, slot(sum, j)).is_none() {
            return true;
        }
    }
    false
}

impl Plain {
    pub(super) fn new(
        alloc: Global,
        window: usize,
        depth: usize,
        hold: u64,
    ) -> Result<Plain, AllocError> {
        let mut media = Vec::new(alloc);
        let mut came = Vec::new(alloc);
        let mut shown = Vec::new(alloc);
        for _ in 0..POSITIONS {
            media.push(None)?;
            came.push(0)?;
            shown.push(None)?;
        }
        Ok(Plain {
            window,
            depth,
            hold,
            clock: 0,
            current: None,
            previous: None,
            origin: 0,
            first: 0,
            runs: 0,
            mark: 0,
            epoch: 0,
            media,
            came,
            shown,
            live: Vec::new(alloc),
        })
    }

    pub(super) fn known(&self, position: usize) -> Option<u32> {
        if position < self.mark {
            at(&self.shown, position)
        } else {
            at(&self.media, position)
        }
    }

    /// The first position near the mark.
    fn near(&self) -> usize {
        self.mark.saturating_sub(BEHIND)
    }

    /// Each word near the mark that is known or follows.
    pub(super) fn closure(&self, alloc: Global) -> Result<Vec<Option<u32>>, AllocError> {
        let first = self.near();
        let mut near = Vec::new(alloc);
        for i in 0..self.depth.saturating_add(NEAR) {
            near.push(self.known(first.wrapping_add(i)))?;
        }
        for _ in 0..POSITIONS {
            if !scan(&self.live, first, &mut near) {
                break;
            }
        }
        Ok(near)
    }

    /// How many positions a flush step plays, where these words near the mark are known or follow.
    pub(super) fn rest(&self, near: &[Option<u32>]) -> usize {
        let mark = self.mark.wrapping_sub(self.near());
        let mut end = mark;
        for (i, word) in near.iter().enumerate() {
            if i >= mark && word.is_some() {
                end = i.saturating_add(1);
            }
        }
        end.saturating_sub(mark).min(self.window)
    }

    /// A time is told. How many positions a held step plays then.
    pub(super) fn held(&mut self, time: u64) -> usize {
        self.clock = self.clock.max(time);
        if self.hold == 0 {
            return 0;
        }
        let mut end = self.mark;
        for i in 0..self.depth.saturating_add(NEAR) {
            let position = self.mark.wrapping_add(i);
            if at(&self.media, position).is_some() && self.waited(position) >= self.hold {
                end = position.saturating_add(1);
            }
        }
        end.saturating_sub(self.mark).min(self.window)
    }

    /// How long a word waited.
    fn waited(&self, position: usize) -> u64 {
        match self.came.get(position) {
            Some(came) => self.clock.saturating_sub(*came),
            None => 0,
        }
    }

    fn receive(&mut self, position: usize, word: u32) {
        put(&mut self.media, position, Some(word));
        if let Some(came) = self.came.get_mut(position) {
            *came = self.clock;
        }
    }

    /// A sender's first datagram has the mark, whatever its sequence number.
    fn begin_run(&mut self, seq: u16, ssrc: u32) {
        self.previous = self.current;
        self.current = Some(ssrc);
        self.origin = self.mark;
        self.first = seq;
        self.runs = self.runs.saturating_add(1);
        self.live.clear();
    }

    /// `position` is that of a datagram of the current run.
    pub(super) fn admit_media(
        &mut self,
        seq: u16,
        ssrc: u32,
        position: Option<usize>,
        word: u32,
    ) -> Reply {
        if self.previous == Some(ssrc) {
            return Reply::Foreign;
        }
        if self.current != Some(ssrc) {
            self.begin_run(seq, ssrc);
            self.receive(self.mark, word);
            return Reply::Admitted;
        }
        let Some(position) = position else {
            return Reply::Late;
        };
        if position < self.mark {
            return Reply::Late;
        }
        match at(&self.media, position) {
            Some(other) if other == word => Reply::Duplicate,
            Some(_) => Reply::Conflict,
            None => {
                self.receive(position, word);
                Reply::Admitted
            }
        }
    }

    pub(super) fn admit_parity(&mut self, sum: Sum) -> Result<Reply, AllocError> {
        if sum.base < self.origin {
            return Ok(Reply::BeforeStart);
        }
        if last(sum) < self.mark || is_lost(sum, self.mark, &self.shown) {
            return Ok(Reply::Late);
        }
        if last(sum) >= self.mark.saturating_add(self.depth).saturating_add(100) {
            return Ok(Reply::Ahead);
        }
        for other in &self.live {
            if other.base == sum.base && other.offset == sum.offset && other.count == sum.count {
                let same = other.parity == sum.parity;
                return Ok(if same {
                    Reply::Duplicate
                } else {
                    Reply::Conflict
                });
            }
        }
        self.live.push(sum)?;
        Ok(Reply::Admitted)
    }

    /// Plays so many positions, where these words near the mark are known or follow.
    pub(super) fn play(
        &mut self,
        alloc: Global,
        near: &[Option<u32>],
        count: usize,
    ) -> Result<Outcome, AllocError> {
        let first = self.near();
        let solved = comes_out(&self.live, first, near);
        for i in 0..count {
            let position = self.mark.wrapping_add(i);
            let word = if solved {
                at(near, position.wrapping_sub(first))
            } else {
                at(&self.media, position)
            };
            put(&mut self.shown, position, word);
        }
        self.mark = self.mark.saturating_add(count);
        let mut live = Vec::new(alloc);
        for sum in &self.live {
            if solved && last(*sum) >= self.mark && !is_lost(*sum, self.mark, &self.shown) {
                live.push(*sum)?;
            }
        }
        self.live = live;
        if solved {
            return Ok(Outcome::Repaired);
        }
        self.epoch = self.epoch.saturating_add(1);
        Ok(Outcome::Inconsistent)
    }
}
