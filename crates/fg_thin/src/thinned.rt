//! A thinned encoding of a stream, as a source of the bytes of its trace.
ghost use Rattle.std.specs.Prelude.{◌≡◌, ◌<◌, ◌≤◌, ◌^◌, ℕ, List, Option, take, true, false, length, IfOk, IfSome, OnOk, OnErr, None};
ghost use Rattle.std.specs.Option.{option_map};
ghost use Rattle.std.specs.Io.KnownBytes.{IsAtEnd};
ghost use Rattle.fg_io.specs.Faults.{CountsFault};
ghost use Rattle.fg_io.specs.Source.{Gives};
ghost use Rattle.fg_shape.specs.Settings.{CanEncode};
ghost use Rattle.fg_encode.specs.Reading.{IsStreamReadFor};
ghost use Rattle.fg_encode.specs.Stream.{LeavesNothing};
ghost use Rattle.fg_thin.specs.ThinnedSource.{EndsFor, GoesOn, ThinnedFixed, ending_told, fixed_of, thinned_trace, trace_left};

mod history;
mod lost;
mod outgoing;
mod sender;
mod taking;

use crate::laws::payloads::{first_payloads_are_taken_first, payloads_are_the_cut};
use fg_encode::laws::a_payload_more_adds_its_records;
pub use fg_encode::stream::StreamFault;
use fg_encode::stream::read_as_far_as_needed;
use fg_io::{Failed, Source};
use fg_shape::{Losses, Settings};
use std::alloc::{AllocError, Global};
use std::marker::Model;
use taking::{Taking, fill};

/// Reads a stream from another source, and gives the trace of its thinned encoding: of the records that it is sent as, those that
/// aren't lost. It holds no whole stream, and takes memory only where it is made.
#[derive(Drop)]
pub struct Thinned<S: Source> {
    inner: S,
    taking: Taking,
}

impl<S: Source> Model for Thinned<S> {
    ghost use Rattle.fg_thin.specs.ThinnedSource.{ThinnedState, whole_stream};

    ghost Value = { ThinnedState S };

    ghost use Rattle.fg_thin.specs.Sending.{given_of, IsReadOut, IsUnderWay};

    ghost view = { λ a. record {
      inner = a.inner;
      settings = a.taking.sender.encoder.settings;
      losses = a.taking.sender.losses;
      max = a.taking.reader.max;
      stream = whole_stream a.taking.history.payloads a.taking.reader.held (S.left a.inner);
      given = given_of a.taking.sender a.taking.history.payloads;
      told = a.taking.told;
      fault = a.taking.fault;
    } };

    ghost invariant = { λ a.
        IsUnderWay a.taking.reader a.taking.sender a.taking.history.payloads a.taking.told a.taking.fault (S.left a.inner)
        × IsReadOut a.taking.told a.taking.fault (S.left a.inner) };
}

/// A source of what is sent of a stream, of which only the stream is missing. It has all the memory that it needs.
///
/// Contracts see the settings, which records are lost, and the most bytes that the stream may have.
#[derive(Drop)]
pub struct Thinning {
    losses: Losses,
    taking: Taking,
}

impl Model for Thinning {
    ghost use Rattle.fg_thin.specs.ThinnedSource.{ThinningState};

    ghost Value = { ThinningState };

    ghost use Rattle.fg_thin.specs.Taking.{IsBegun};

    ghost view = { λ a. record {
      settings = a.taking.sender.encoder.settings;
      losses = a.losses;
      max = a.taking.reader.max;
    } };

    ghost invariant = { λ a. IsBegun a.taking a.losses };
}

impl Thinning {
    /// What is sent of a stream that may have at most `max` bytes, 8 to 2^40. All its memory is taken here.
    ///
    /// The settings are what an encoder takes: 1 to 7 packets a datagram, 1 to 10,000,000,000 bits a second, and a port of at most
    /// 65,531.
    pub fn new(
        alloc: Global,
        settings: Settings,
        losses: Losses,
        max: u64,
    ) -> Result<Thinning, AllocError>
        requires can { CanEncode settings }
        requires max { (8 ≤ max) × (max ≤ 2 ^ 40) }
        ensures { IfOk result (λ thinning.
            thinning ≡ record { settings = settings; losses = losses; max = max }) }
    {
        let taking = taking::begin(alloc, settings, &losses, max)?;
        Ok(Thinning { losses, taking })
    }

    /// The source of what is sent of this stream.
    pub fn of<S: Source + Drop>(self, inner: S) -> Thinned<S>
        ensures left { trace_left result
            ≡ option_map (λ bytes. thinned_trace self.settings self.losses self.max bytes) (S.left inner) }
        ensures inner { result.inner ≡ inner }
        ensures stream { result.stream ≡ S.left inner }
        ensures settings { result.settings ≡ self.settings }
        ensures max { result.max ≡ self.max }
        ensures untold { result.told ≡ false }
    {
        let Thinning { losses: _, taking } = self;
        Thinned { inner, taking }
    }
}

impl<S: Source + Drop> Thinned<S> {
    /// A source of what is sent of a stream that may have at most `max` bytes, 8 to 2^40. All its memory is taken here.
    ///
    /// The settings are what an encoder takes, as `Thinning::new` says.
    pub fn new(
        alloc: Global,
        settings: Settings,
        losses: Losses,
        max: u64,
        inner: S,
    ) -> Result<Thinned<S>, AllocError>
        requires can { CanEncode settings }
        requires max { (8 ≤ max) × (max ≤ 2 ^ 40) }
        ensures left { IfOk result (λ source. trace_left source
            ≡ option_map (λ bytes. thinned_trace settings losses max bytes) (S.left inner)) }
        ensures inner { IfOk result (λ source. source.inner ≡ inner) }
        ensures stream { IfOk result (λ source. source.stream ≡ S.left inner) }
        ensures settings { IfOk result (λ source. source.settings ≡ settings) }
        ensures max { IfOk result (λ source. source.max ≡ max) }
        ensures untold { IfOk result (λ source. source.told ≡ false) }
    {
        let thinning = Thinning::new(alloc, settings, losses, max)?;
        Ok(thinning.of(inner))
    }
}

impl<S: Source> Thinned<S> {
    /// Why the stream ended early: none where it ended with its last payload, or where no read has told its end yet.
    pub fn fault(&self) -> Option<StreamFault>
        ensures early { self.now.told ≡ false → result ≡ None }
        ensures ending { self.now.told ≡ true → IfSome self.now.stream (λ bytes.
            EndsFor result self.now.settings.packets self.now.max bytes) }
        ensures at_end { self.now.told ≡ true → LeavesNothing result → IsAtEnd (S.left self.now.inner) }
        ensures untold { self.now.stream ≡ None → S.left self.now.inner ≡ None }
        ensures same { result ≡ self.now.fault }
    {
        payloads_are_the_cut();
        self.taking.fault
    }

    /// The source of the stream. It was read as far as the ending needs that was told, and never more than a byte past the limit.
    pub fn into_inner(self) -> S
        ensures inner { result ≡ self.inner }
        ensures reads { IfSome self.stream (λ bytes.
            IsStreamReadFor self.max (ending_told self.told self.fault) bytes (S.left result)) }
    {
        read_as_far_as_needed();
        let Thinned { inner, .. } = self;
        inner
    }
}

impl<S: Source> Source for Thinned<S> {
    ghost left = { λ source. trace_left source };

    ghost faults = { λ source. S.faults source.inner };

    ghost Fixed = { ThinnedFixed S.Fixed };

    ghost fixed = { λ source. fixed_of S.fixed source };

    fn read(&mut self, into: &mut [u8]) -> Result<usize, Failed>
        // What each source ensures.
        ensures bound { IfOk result (λ count. count ≤ length into.new) }
        ensures gives { IfOk result (λ count. Gives (trace_left self.old) (take count into.new)
            (trace_left self.new)) }
        ensures end { IfOk result (λ count. count ≡ 0 → 0 < length into.new
            → IsAtEnd (trace_left self.new)) }
        ensures failed { OnErr result (trace_left self.new ≡ trace_left self.old) }
        ensures no_fault { OnOk result (S.faults self.new.inner ≡ S.faults self.old.inner) }
        ensures counted { OnErr result (CountsFault (S.faults self.old.inner) (S.faults self.new.inner)) }
        ensures never_falls { S.faults self.old.inner ≤ S.faults self.new.inner }
        ensures fixed { fixed_of S.fixed self.new ≡ fixed_of S.fixed self.old }

        // It goes on with the same stream, and the end is told where a read for a nonempty piece answers 0.
        ensures same { GoesOn self.old self.new }
        ensures tells { IfOk result (λ count. 0 < length into.new
            → (count ≡ 0 → self.new.told ≡ true) × (self.new.told ≡ true → count ≡ 0)) }
        ensures quiet { IfOk result (λ count. length into.new ≡ 0 → self.new.told ≡ self.old.told) }
        ensures untold { OnErr result (self.new.told ≡ false) }
    {
        a_payload_more_adds_its_records();
        payloads_are_the_cut();
        first_payloads_are_taken_first();
        if into.is_empty() {
            return Ok(0);
        }
        match fill(&mut self.taking, &mut self.inner) {
            Ok(()) => Ok(self.taking.sender.give(into)),
            Err(_) => Err(Failed),
        }
    }
}
