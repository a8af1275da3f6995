//! Taking payloads from a stream, until there is something to give.
ghost use Rattle.std.specs.Prelude.{◌≡◌, ◌+◌, ◌*◌, ◌<◌, ◌≤◌, ◌⊎◌, ◌^◌, ℕ, Option, List, [], ◌∷◌, true, false, length, IfOk, IfErr, OnOk, OnErr};
ghost use Rattle.fg_io.specs.Faults.{Counts};
ghost use Rattle.fg_shape.specs.Settings.{CanEncode};
ghost use Rattle.fg_thin.specs.Thinned.{is_lost};
ghost use Rattle.fg_thin.specs.Sending.{IsReadOut};
ghost use Rattle.fg_thin.specs.Taking.{IsWay, KeepsWay, way_given, way_stream};

use super::history::History;
use super::sender::Sender;
use fg_encode::laws::a_payload_more_adds_its_records;
use fg_encode::stream::{StreamFault, StreamReader, StreamStep};
use fg_io::{Fault, Source};
use fg_shape::{Losses, Settings};
use std::alloc::{AllocError, Global};

/// The parts that a stream goes through, and whether its end was told.
#[derive(Drop)]
pub(crate) struct Taking {
    pub(crate) reader: StreamReader,
    pub(crate) sender: Sender,
    pub(crate) history: History,
    pub(crate) told: bool,
    pub(crate) fault: Option<StreamFault>,
}

/// The parts before the first read. All their memory is taken here.
pub(crate) fn begin(
    alloc: Global,
    settings: Settings,
    losses: &Losses,
    max: u64,
) -> Result<Taking, AllocError>
    requires can { CanEncode settings }
    requires max { (8 ≤ max) × (max ≤ 2 ^ 40) }
    ensures way { IfOk result (λ taking. (rest : Option (List ℕ)) → IsWay taking rest) }
    ensures settings { IfOk result (λ taking. taking.sender.encoder.settings ≡ settings) }
    ensures losses { IfOk result (λ taking. (number : ℕ)
        → is_lost taking.sender.losses number ≡ is_lost losses.now number) }
    ensures max { IfOk result (λ taking. taking.reader.max ≡ max) }
    ensures stream { IfOk result (λ taking. (rest : Option (List ℕ)) → way_stream taking rest ≡ rest) }
    ensures given { IfOk result (λ taking. way_given taking ≡ 0) }
    ensures untold { IfOk result (λ taking. taking.told ≡ false) }
{
    Ok(Taking {
        reader: StreamReader::new(alloc, settings.packets, max)?,
        sender: Sender::new(alloc, settings, losses)?,
        history: History::new(),
        told: false,
        fault: None,
    })
}

/// Takes payloads until there is something to give, or the stream's end is told.
pub(crate) fn fill<S: Source>(taking: &mut Taking, from: &mut S) -> Result<(), Fault>
    requires way { IsWay taking.old (S.left from.old) }
    requires read_out { IsReadOut taking.old.told taking.old.fault (S.left from.old) }
    ensures keeps { KeepsWay taking.old (S.left from.old) taking.new (S.left from.new) }
    ensures filled { OnOk result ((taking.new.told ≡ true) ⊎ (0 < length taking.new.sender.held)) }
    ensures stays { taking.old.told ≡ true → taking.new.told ≡ true }
    ensures failed { OnErr result (taking.new.told ≡ false) }
    ensures fault { IfErr result (λ fault. fault ≡ Fault.Read) }
    ensures faults { Counts result ((S.faults from.old, S.faults from.new) ∷ []) [] }
    ensures fixed { S.fixed from.new ≡ S.fixed from.old }
{
    while !taking.told && taking.sender.is_empty() {
        advance(taking, from)?;
    }
    Ok(())
}

/// Takes the next payload, or tells the stream's end.
fn advance<S: Source>(taking: &mut Taking, from: &mut S) -> Result<(), Fault>
    requires way { IsWay taking.old (S.left from.old) }
    requires open { taking.old.told ≡ false }
    requires empty { taking.old.sender.held ≡ [] }
    ensures keeps { KeepsWay taking.old (S.left from.old) taking.new (S.left from.new) }
    ensures rises { taking.old.reader.place ≤ taking.new.reader.place }
    ensures progress { OnOk result ((taking.new.told ≡ true) ⊎ (taking.old.reader.place < taking.new.reader.place)) }
    ensures failed { OnErr result (taking.new.told ≡ false) }
    ensures fault { IfErr result (λ fault. fault ≡ Fault.Read) }
    ensures faults { Counts result ((S.faults from.old, S.faults from.new) ∷ []) [] }
    ensures fixed { S.fixed from.new ≡ S.fixed from.old }
{
    a_payload_more_adds_its_records();
    match taking.reader.next(from)? {
        StreamStep::Payload => {
            taking.sender.send(taking.reader.payload());
            taking.history = taking.history.then(&taking.reader);
        }
        StreamStep::End(ending) => {
            taking.told = true;
            taking.fault = ending;
        }
    }
    Ok(())
}
