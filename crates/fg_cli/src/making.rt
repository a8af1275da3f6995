//! The order that a command and its settings make.
ghost use Rattle.std.specs.Prelude.{◌≡◌, ◌∷◌, [], ◌^◌, ◌<◌, ◌≤◌, All, IfErr, IfOk, length, nat_eq};
ghost use Rattle.fg_shape.specs.Kind.{IsFlowPort};
ghost use Rattle.fg_shape.specs.Limits.{FirstLayoutFault};
ghost use Rattle.fg_shape.specs.Settings.{SettingsFit};
ghost use Rattle.fg_flows.specs.Flows.{IsTable, IsTableFault};
ghost use Rattle.fg_flows.specs.Plan.{PlanFits};
ghost use Rattle.fg_flows.specs.Selection.{SelectionFits};
ghost use Rattle.fg_cli.specs.declared.grammar.Command.TheVariants as command;
ghost use Rattle.fg_cli.specs.declared.grammar.Key.TheVariants as key;
ghost use Rattle.fg_cli.specs.declared.ReadWords.TheVariants as answer;
ghost use Rattle.fg_cli.specs.Grammar.{most_of, row};
ghost use Rattle.fg_cli.specs.Lines.{AtMost, IsKnown, number_of, values_of};
ghost use Rattle.fg_cli.specs.Orders.{AreLosses, AreSettings, AreWhole, DepthIsBelow, IsOrder, IsPlan, IsSelection, MaxFits, OrderFits};
ghost use Rattle.fg_shape.specs.Losses.{LossesFit};
ghost use Rattle.fg_cli.specs.Reading.{AreBounded, CanBeOrdered, InRanges, IsLineFault, IsShallow, Orders, greatest_of};

use crate::grammar::{Command, Key};
use crate::settings::{Setting, first, is_of, missing, number, place};
use crate::{Order, ReadWords, WordFault};
use fg_flows::{Plan, Ports, Selection, Sources, Table, TableFault};
use fg_shape::{Drops, Layout, LayoutFault, Losses, Settings};
use std::alloc::{AllocError, Global};

/// The UDP port of a sample's flow.
const SAMPLE_PORT: u16 = 5000;

/// The most bytes of a trace that a drill or a sample makes and repairs.
const INNER_MAX: u64 = 4_398_046_511_104;

/// The order of the command with these settings, or the first rule that they break.
pub fn order_of(alloc: Global, command: Command, settings: &[Setting]) -> Result<Order, ReadWords>
    requires known { All (IsKnown command) settings.now }
    requires limited { (key : Key) → AtMost (most_of command key) (length (values_of key settings.now)) }
    ensures whole { IfOk result (λ _. AreWhole command settings.now) }
    ensures order { IfOk result (IsOrder command settings.now) }
    ensures fits { IfOk result OrderFits }
    ensures faults { IfErr result (IsLineFault command settings.now) }
{
    if let Some(name) = missing(command, settings) {
        return Err(ReadWords::Words(WordFault::Missing(name)));
    }
    if let Some(word) = shallow_depth(settings) {
        return Err(ReadWords::Words(WordFault::Depth(word)));
    }
    whole_order(alloc, command, settings)
}

/// The number of the word that sets a depth below the window, where the command is word 0.
fn shallow_depth(settings: &[Setting]) -> Option<usize>
    requires { AreBounded settings.now }
    ensures { IsShallow settings.now result }
{
    if number(settings, Key::Depth) >= number(settings, Key::Window) {
        return None;
    }
    let Some(place) = place(settings, Key::Depth) else {
        return None;
    };
    Some(place + 1)
}

/// The order of settings of which none is missing and the depth isn't below the window.
fn whole_order(alloc: Global, command: Command, settings: &[Setting]) -> Result<Order, ReadWords>
    requires { CanBeOrdered command settings.now }
    ensures { Orders command settings.now result }
{
    let max = max_of(settings);
    match command {
        Command::Repair => repair(alloc, settings),
        Command::Encode => encode(settings),
        Command::Drill => drill(alloc, settings),
        Command::Inspect => inspect(alloc, settings),
        Command::Sample => sample(alloc, settings),
        Command::FromCapture => Ok(Order::FromCapture { max }),
        Command::ToCapture => Ok(Order::ToCapture { max }),
        Command::Monitor => Ok(Order::Monitor { max }),
        Command::Prove => prove(alloc, settings),
        Command::Check => Ok(Order::Check { max }),
        Command::ChooseMatrix => choose_matrix(settings),
        Command::Survey => survey(settings),
        Command::Pick => pick(alloc, settings),
    }
}

/// What `repair` orders.
fn repair(alloc: Global, settings: &[Setting]) -> Result<Order, ReadWords>
    requires { CanBeOrdered command.Repair settings.now }
    ensures { Orders command.Repair settings.now result }
{
    Ok(Order::Repair(named_plan(alloc, settings)?))
}

/// What `encode` orders.
fn encode(settings: &[Setting]) -> Result<Order, ReadWords>
    requires { CanBeOrdered command.Encode settings.now }
    ensures { Orders command.Encode settings.now result }
{
    let max = max_of(settings);
    let settings = encoding(settings)?;
    Ok(Order::Encode { settings, max })
}

/// What `drill` orders.
fn drill(alloc: Global, settings: &[Setting]) -> Result<Order, ReadWords>
    requires { CanBeOrdered command.Drill settings.now }
    ensures { Orders command.Drill settings.now result }
{
    let encoding = encoding(settings)?;
    let table = one_flow(alloc, encoding.port)?;
    let plan = plan(table, settings, INNER_MAX);
    let losses = losses(alloc, settings)?;
    let max = max_of(settings);
    Ok(Order::Drill {
        settings: encoding,
        plan,
        losses,
        max,
    })
}

/// What `inspect` orders.
fn inspect(alloc: Global, settings: &[Setting]) -> Result<Order, ReadWords>
    requires { CanBeOrdered command.Inspect settings.now }
    ensures { Orders command.Inspect settings.now result }
{
    let table = flows(alloc, settings)?;
    let max = max_of(settings);
    Ok(Order::Inspect { table, max })
}

/// What `sample` orders.
fn sample(alloc: Global, settings: &[Setting]) -> Result<Order, ReadWords>
    requires { CanBeOrdered command.Sample settings.now }
    ensures { Orders command.Sample settings.now result }
{
    let table = one_flow(alloc, SAMPLE_PORT)?;
    let plan = plan(table, settings, INNER_MAX);
    let seed = number(settings, Key::Seed);
    let datagrams = number(settings, Key::Datagrams) as u32;
    let loss = number(settings, Key::Loss) as u32;
    Ok(Order::Sample {
        seed,
        datagrams,
        loss,
        plan,
    })
}

/// What `prove` orders.
fn prove(alloc: Global, settings: &[Setting]) -> Result<Order, ReadWords>
    requires { CanBeOrdered command.Prove settings.now }
    ensures { Orders command.Prove settings.now result }
{
    Ok(Order::Prove(named_plan(alloc, settings)?))
}

/// What `plan` orders.
fn choose_matrix(settings: &[Setting]) -> Result<Order, ReadWords>
    requires { CanBeOrdered command.ChooseMatrix settings.now }
    ensures { Orders command.ChooseMatrix settings.now result }
{
    let burst = number(settings, Key::Burst) as u8;
    let most = number(settings, Key::Most) as u8;
    let rows = number(settings, Key::Fec) == 1;
    Ok(Order::ChooseMatrix { burst, most, rows })
}

/// What `survey` orders.
fn survey(settings: &[Setting]) -> Result<Order, ReadWords>
    requires { CanBeOrdered command.Survey settings.now }
    ensures { Orders command.Survey settings.now result }
{
    let max = max_of(settings);
    let json = number(settings, Key::Format) == 1;
    Ok(Order::Survey { max, json })
}

/// What `pick` orders.
fn pick(alloc: Global, settings: &[Setting]) -> Result<Order, ReadWords>
    requires { CanBeOrdered command.Pick settings.now }
    ensures { Orders command.Pick settings.now result }
{
    let selection = selection(alloc, settings)?;
    let max = max_of(settings);
    Ok(Order::Pick { selection, max })
}

/// The most bytes that the command takes.
fn max_of(settings: &[Setting]) -> u64
    requires bounded { AreBounded settings.now }
    requires ranges { InRanges settings.now }
    ensures value { result ≡ number_of key.Max settings.now }
    ensures fits { MaxFits result }
{
    number(settings, Key::Max)
}

/// The plan of a repair of the flows that are named.
fn named_plan(alloc: Global, settings: &[Setting]) -> Result<Plan, TableFault>
    requires bounded { AreBounded settings.now }
    requires ranges { InRanges settings.now }
    requires deep { ¬ DepthIsBelow settings.now }
    ensures plan { IfOk result
        (IsPlan settings.now (values_of key.Flow settings.now) (number_of key.Max settings.now)) }
    ensures fits { IfOk result PlanFits }
    ensures max { IfOk result (λ plan. MaxFits plan.max) }
    ensures faults { IfErr result (IsTableFault (values_of key.Flow settings.now)) }
{
    let table = flows(alloc, settings)?;
    Ok(plan(table, settings, max_of(settings)))
}

/// The plan of a repair of these flows.
fn plan(table: Table, settings: &[Setting], max: u64) -> Plan
    requires bounded { AreBounded settings.now }
    requires ranges { InRanges settings.now }
    requires deep { ¬ DepthIsBelow settings.now }
    requires table { IsTable table }
    requires least { 8 ≤ max }
    requires greatest { max ≤ 2 ^ 42 }
    ensures plan { IsPlan settings.now table max result }
    ensures fits { PlanFits result }
{
    let window = number(settings, Key::Window) as u32;
    let depth = number(settings, Key::Depth) as u32;
    let hold = number(settings, Key::Hold);
    let workers = number(settings, Key::Workers) as u32;
    Plan {
        table,
        window,
        depth,
        hold,
        workers,
        max,
    }
}

/// The settings of an encoding.
fn encoding(settings: &[Setting]) -> Result<Settings, LayoutFault>
    requires bounded { AreBounded settings.now }
    requires ranges { InRanges settings.now }
    ensures settings { IfOk result (AreSettings settings.now) }
    ensures fits { IfOk result SettingsFit }
    ensures faults { IfErr result
        (FirstLayoutFault (number_of key.Columns settings.now) (number_of key.Rows settings.now)
        (nat_eq (number_of key.Fec settings.now) 1)) }
{
    let layout = layout(settings)?;
    let packets = number(settings, Key::Packets) as u8;
    let rate = number(settings, Key::Rate);
    let port = number(settings, Key::Port) as u16;
    let seq = number(settings, Key::Seq) as u16;
    let ssrc = number(settings, Key::Ssrc) as u32;
    let stamp = number(settings, Key::Stamp) as u32;
    Ok(Settings {
        layout,
        packets,
        rate,
        port,
        seq,
        ssrc,
        stamp,
    })
}

/// The layout of an encoding.
fn layout(settings: &[Setting]) -> Result<Layout, LayoutFault>
    requires { AreBounded settings.now }
    ensures columns { IfOk result (λ layout. layout.l ≡ number_of key.Columns settings.now) }
    ensures rows { IfOk result (λ layout. layout.d ≡ number_of key.Rows settings.now) }
    ensures both { IfOk result (λ layout. layout.rows ≡ nat_eq (number_of key.Fec settings.now) 1) }
    ensures staggered { IfOk result
        (λ layout. layout.staggered ≡ nat_eq (number_of key.Layout settings.now) 1) }
    ensures faults { IfErr result
        (FirstLayoutFault (number_of key.Columns settings.now) (number_of key.Rows settings.now)
        (nat_eq (number_of key.Fec settings.now) 1)) }
{
    let columns = number(settings, Key::Columns) as u8;
    let rows = number(settings, Key::Rows) as u8;
    let both = number(settings, Key::Fec) == 1;
    let staggered = number(settings, Key::Layout) == 1;
    Layout::new(columns, rows, both, staggered)
}

/// The table of the flows that are named.
fn flows(alloc: Global, settings: &[Setting]) -> Result<Table, TableFault>
    requires { AreBounded settings.now }
    ensures flows { IfOk result (λ table. table ≡ values_of key.Flow settings.now) }
    ensures table { IfOk result IsTable }
    ensures faults { IfErr result (IsTableFault (values_of key.Flow settings.now)) }
{
    let ports = ports(alloc, settings, Key::Flow)?;
    Table::new(alloc, ports.as_slice())
}

/// The ports that the name is given, in order.
fn ports(alloc: Global, settings: &[Setting], key: Key) -> Result<Ports, AllocError>
    requires bounded { AreBounded settings.now }
    requires range { greatest_of (row key).range < 2 ^ 16 }
    ensures { IfOk result (λ ports. ports ≡ values_of key settings.now) }
{
    let mut ports = Ports::new(alloc);
    for setting in settings {
        if is_of(setting, key) {
            ports.add(setting.value as u16)?;
        }
    }
    Ok(ports)
}

/// The synchronization sources that the name is given, in order.
fn sources(alloc: Global, settings: &[Setting], key: Key) -> Result<Sources, AllocError>
    requires bounded { AreBounded settings.now }
    requires range { greatest_of (row key).range < 2 ^ 32 }
    ensures { IfOk result (λ sources. sources ≡ values_of key settings.now) }
{
    let mut sources = Sources::new(alloc);
    for setting in settings {
        if is_of(setting, key) {
            sources.add(setting.value as u32)?;
        }
    }
    Ok(sources)
}

/// What is picked.
fn selection(alloc: Global, settings: &[Setting]) -> Result<Selection, AllocError>
    requires bounded { AreBounded settings.now }
    requires ranges { InRanges settings.now }
    requires few { (key : Key) → AtMost (most_of command.Pick key) (length (values_of key settings.now)) }
    ensures selection { IfOk result (IsSelection settings.now) }
    ensures fits { IfOk result SelectionFits }
{
    let flows = ports(alloc, settings, Key::PickedFlow)?;
    let named = ports(alloc, settings, Key::PickedPort)?;
    let left = sources(alloc, settings, Key::PickedSource)?;
    let without = sources(alloc, settings, Key::Without)?;
    Ok(Selection {
        flows,
        ports: named,
        sources: left,
        without,
        from: number(settings, Key::From),
        until: first(settings, Key::Until),
    })
}

/// The table of one flow.
fn one_flow(alloc: Global, port: u16) -> Result<Table, ReadWords>
    requires { IsFlowPort port }
    ensures flows { IfOk result (λ table. table ≡ port ∷ []) }
    ensures table { IfOk result IsTable }
    ensures memory { IfErr result (λ fault. fault ≡ answer.Memory) }
{
    match Table::new(alloc, &[port]) {
        Ok(table) => Ok(table),
        Err(TableFault::Memory) => Err(ReadWords::Memory),
        Err(TableFault::Flow(_)) => unreachable!(),
    }
}

/// The records that are left out.
fn losses(alloc: Global, settings: &[Setting]) -> Result<Losses, AllocError>
    requires bounded { AreBounded settings.now }
    requires ranges { InRanges settings.now }
    requires drops { length (values_of key.Drop settings.now) ≤ 1000 }
    ensures losses { IfOk result (AreLosses settings.now) }
    ensures fits { IfOk result LossesFit }
{
    let drops = drops(alloc, settings)?;
    let every = number(settings, Key::Every);
    Ok(Losses { drops, every })
}

/// The numbers of records that are left out, in order.
fn drops(alloc: Global, settings: &[Setting]) -> Result<Drops, AllocError>
    ensures { IfOk result (λ drops. drops ≡ values_of key.Drop settings.now) }
{
    let mut drops = Drops::new(alloc);
    for setting in settings {
        if is_of(setting, Key::Drop) {
            drops.add(setting.value)?;
        }
    }
    Ok(drops)
}
