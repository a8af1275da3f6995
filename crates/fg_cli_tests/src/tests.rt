//! The words of the command line by example.

ghost use Rattle.std.specs.Prelude.{◌≤◌};

use WordFault::{BadWord, Depth, Flows, Layout, Missing};
use fg_cli::{
    Command, Name, Order, Question, ReadWords, WordFault, help_text, read_words, version_text,
};
use fg_flows::{FlowFault, Plan};
use fg_shape::LayoutFault;
use std::alloc::{AllocError, Global};
use std::process::Abort;
use std::test::Fail;

/// The words between the blanks of the line.
fn words_of(alloc: Global, line: &str) -> Result<Vec<String>, AllocError> {
    let mut words = Vec::new(alloc);
    for word in line.split(' ') {
        words.push(String::from_str(alloc, word)?)?;
    }
    Ok(words)
}

/// What the line orders.
fn order(alloc: Global, line: &str) -> Result<Order, ReadWords> {
    read_words(alloc, &words_of(alloc, line)?)
}

/// The first rule that the words break; `None` where they order something.
fn fault_of(alloc: Global, words: &[String]) -> Result<Option<WordFault>, AllocError> {
    match read_words(alloc, words) {
        Ok(_) => Ok(None),
        Err(ReadWords::Words(fault)) => Ok(Some(fault)),
        Err(ReadWords::Memory) => Err(AllocError),
    }
}

/// Checks that the words have this fault first, which the line has.
fn refuse_words(
    rt: &impl Abort,
    alloc: Global,
    words: &[String],
    line: &str,
    fault: Option<WordFault>,
) -> Result<(), AllocError> {
    assert!(rt; fault_of(alloc, words)? == fault, "{line}");
    Ok(())
}

/// Checks that the line has this fault first.
fn refuse(rt: &impl Abort, alloc: Global, line: &str, fault: WordFault) -> Result<(), AllocError> {
    let words = words_of(alloc, line)?;
    refuse_words(rt, alloc, &words, line, Some(fault))
}

/// Checks that a word may not stand behind the command.
fn refuse_word(
    rt: &impl Abort,
    alloc: Global,
    command: &str,
    word: &str,
) -> Result<(), AllocError> {
    let line = format!(in alloc; "{command} {word}")?;
    refuse(rt, alloc, &line, BadWord(1))
}

/// Checks that none of the line's words may stand after the first of them, which is a command.
fn refuse_each(rt: &impl Abort, alloc: Global, line: &str) -> Result<(), AllocError> {
    let (command, words) = line.split_once(' ').unwrap_or((line, ""));
    for word in words.split(' ') {
        refuse_word(rt, alloc, command, word)?;
    }
    Ok(())
}

/// Lines, and the fault that each has first.
static FAULTS: [(&'static str, WordFault); 34] = [
    (
        "encode columns=3 rows=4 fec=both",
        Layout(LayoutFault::RowsNeedFour),
    ),
    ("encode columns=20 rows=6", Layout(LayoutFault::Product)),
    ("drill columns=4 rows=4 drop=0", BadWord(3)),
    ("repair flow=5000 flow=5002", Flows(FlowFault::Clash(1))),
    ("repair", Missing(Name::Flow)),
    ("", BadWord(0)),
    // Forms of commands.
    ("repair  flow=5000", BadWord(1)),
    ("Repair flow=5000", BadWord(0)),
    ("flow=5000", BadWord(0)),
    ("repair= flow=5000", BadWord(0)),
    // Names that stand twice.
    ("repair window=5 window=5", BadWord(2)),
    ("drill hold=5 hold=6", BadWord(2)),
    ("encode fec=both rows=4 fec=both", BadWord(3)),
    ("sample seed=1 seed=2", BadWord(2)),
    ("prove flow=5000 flow=6000", BadWord(2)),
    ("pick until=5 until=6", BadWord(2)),
    // Names that are missing.
    ("inspect max=9", Missing(Name::Flow)),
    ("encode", Missing(Name::Columns)),
    ("encode rows=4", Missing(Name::Columns)),
    ("encode columns=4", Missing(Name::Rows)),
    ("drill rows=4", Missing(Name::Columns)),
    ("sample loss=1", Missing(Name::Seed)),
    ("prove", Missing(Name::Flow)),
    ("plan most=20", Missing(Name::Burst)),
    ("plan burst=5", Missing(Name::Most)),
    // A depth below the window.
    ("repair flow=5000 depth=99", Depth(2)),
    ("repair depth=9 flow=5000 window=10", Depth(1)),
    // The first rule wins, and not the first word.
    ("repair flow=1 flow=1 depth=1 window", BadWord(4)),
    ("repair depth=1", Missing(Name::Flow)),
    ("repair flow=1 flow=1 depth=1", Depth(3)),
    ("drill columns=0 rows=4 depth=1", Depth(3)),
    ("encode rows=99 columns=0", Layout(LayoutFault::Columns)),
    ("drill rows=3 columns=4", Layout(LayoutFault::Rows)),
    ("inspect flow=9 flow=7 flow=9", Flows(FlowFault::Clash(1))),
];

#[test]
fn first_faults(rt: HostRuntime) -> Result<(), Fail> {
    for (line, fault) in &FAULTS {
        refuse(&rt, rt.alloc(), line, *fault)?;
    }
    refuse_words(&rt, rt.alloc(), &[], "", Some(WordFault::NoCommand))?;
    Ok(())
}

/// Lines that order something: the least and the greatest numbers, and names that may stand twice.
static ORDERS: [&'static str; 23] = [
    "repair flow=1 window=1 depth=1 hold=1 workers=0 max=8",
    "repair flow=65531 window=100 depth=1000 hold=3600000000 workers=16 max=1099511627776",
    "encode columns=1 rows=4 fec=column layout=block packets=1 rate=1 port=1 seq=0 ssrc=0 stamp=0 max=8",
    "encode columns=20 rows=5 fec=both layout=staggered packets=7 rate=10000000000 port=65531 max=1099511627776",
    "encode columns=5 rows=20 seq=65535 ssrc=4294967295 stamp=4294967295",
    "drill columns=4 rows=4 hold=1 drop=1 drop=9999999999999 every=2",
    "drill columns=4 rows=4 every=9999999999999 window=1 depth=1 hold=3600000000 workers=16",
    "sample seed=0 datagrams=1 loss=0 workers=0",
    "sample seed=9999999999999 datagrams=20000 loss=20 workers=16",
    "fromcap max=8",
    "tocap max=1099511627776",
    "monitor",
    "prove flow=5000 window=1 depth=1 hold=1 max=8",
    "check max=1099511627776",
    "plan burst=1 most=100 fec=column",
    "plan most=1 burst=20 fec=both",
    "survey max=8 format=json",
    "pick",
    "pick flow=1 flow=65531 flow=1 port=0 port=65535 ssrc=0 without=4294967295 from=0 until=0 max=8",
    "pick from=18446744073709551615 until=18446744073709551615",
    "inspect flow=5000 flow=6000",
    "drill columns=4 rows=4 drop=5 drop=5",
    "repair flow=5000 depth=10 window=10",
];

#[test]
fn least_and_greatest(rt: HostRuntime) {
    for line in &ORDERS {
        assert!(rt; order(rt.alloc(), line).is_ok(), "{line}");
    }
}

/// Lines of which no word may stand behind the first, which is a command.
static REFUSED: [&'static str; 20] = [
    // Numbers below and above the range, and kinds that there aren't.
    "repair flow=0 flow=65532 window=0 window=101 depth=0 depth=1001 hold=0 hold=3600000001 workers=17 max=7 max=1099511627777",
    "encode columns=256 rows=256 fec=rows layout=blocks packets=0 packets=8 rate=0 rate=10000000001 port=0 port=65532",
    "encode seq=65536 ssrc=4294967296 stamp=4294967296 max=7",
    "drill hold=0 hold=3600000001 drop=0 drop=10000000000000 every=0 every=1 every=10000000000000",
    "sample seed=10000000000000 datagrams=0 datagrams=20001 loss=21 workers=17",
    "monitor max=7 max=1099511627777",
    "plan burst=0 burst=21 most=0 most=101",
    "pick flow=0 flow=65532 port=65536 ssrc=4294967296 without=4294967296 from=18446744073709551616",
    // Forms of a word, and names of other commands.
    "repair flow=05000 workers=00 flow=+5000 workers=-0 flow= flow=5000\t flow=5e3 flow=0x10",
    "repair flow=99999999999999999999999999 flow =5000 flow==5000 flow=5000= Flow=5000 seed=1 port=5000",
    "encode flow=5000 window=5 hold=5 fec=Both layout=",
    "inspect window=5 hold=5",
    "sample depth=5 hold=5",
    "fromcap flow=5000",
    "tocap port=5000",
    "prove workers=4",
    "check flow=5000",
    "plan max=8",
    "survey flow=5000 format=xml format=",
    "pick format=json seq=5 until=-1 window=5",
];

#[test]
fn words_that_may_not_stand(rt: HostRuntime) -> Result<(), Fail> {
    for line in &REFUSED {
        refuse_each(&rt, rt.alloc(), line)?;
    }
    Ok(())
}

/// Adds so many words of the form `name=n`, where n begins at 5000 and rises by the step.
fn push_many(
    alloc: Global,
    words: &mut Vec<String>,
    name: &str,
    count: u32,
    step: u32,
) -> Result<(), AllocError>
    requires count { count ≤ 1001 }
    requires step { step ≤ 6 }
{
    for i in 0..count {
        let number = 5000 + step * i;
        words.push(format!(in alloc; "{name}={number}")?)?;
    }
    Ok(())
}

/// A line, a name, how many words of the name stand behind it, by how much their values rise, and the first fault.
type Many = (&'static str, &'static str, u32, u32, Option<WordFault>);

static MANY: [Many; 5] = [
    ("repair", "flow", 64, 6, None),
    ("repair", "flow", 65, 6, Some(Flows(FlowFault::TooMany))),
    ("drill columns=4 rows=4", "drop", 1000, 3, None),
    (
        "drill columns=4 rows=4",
        "drop",
        1001,
        3,
        Some(BadWord(1003)),
    ),
    ("pick port=7", "ssrc", 17, 0, Some(BadWord(18))),
];

fn refuse_many(
    rt: &impl Abort,
    alloc: Global,
    words: &mut Vec<String>,
    many: &Many,
) -> Result<(), AllocError> {
    let (_, name, count, step, fault) = *many;
    push_many(alloc, words, name, count.min(1001), step.min(6))?;
    refuse_words(rt, alloc, words, name, fault)
}

fn check_many(rt: &impl Abort, alloc: Global, many: &Many) -> Result<(), AllocError> {
    let mut words = words_of(alloc, many.0)?;
    refuse_many(rt, alloc, &mut words, many)
}

// The most that may stand there, and one more.
#[test]
fn counts_of_a_name(rt: HostRuntime) -> Result<(), Fail> {
    for many in &MANY {
        check_many(&rt, rt.alloc(), many)?;
    }
    Ok(())
}

fn is_picked(order: &Order) -> bool {
    match order {
        Order::Pick { selection, max } => {
            selection.flows.as_slice() == [5000, 1].as_slice()
                && selection.ports.as_slice() == [8].as_slice()
                && selection.sources.as_slice() == [7].as_slice()
                && selection.without.as_slice() == [9].as_slice()
                && selection.from == 0
                && selection.until.is_none()
                && *max == 1_099_511_627_776
        }
        _ => false,
    }
}

#[test]
fn what_is_picked(rt: HostRuntime) -> Result<(), Fail> {
    let order = order(rt.alloc(), "pick ssrc=7 port=8 flow=5000 without=9 flow=1")?;
    assert!(rt; is_picked(&order));
    Ok(())
}

/// Whether a plan repairs the flow of this port, with the defaults and this limit.
fn is_plain(plan: &Plan, port: u16, max: u64) -> bool {
    plan.table.find(port).is_some()
        && (plan.window, plan.depth, plan.hold, plan.workers) == (100, 400, 0, 4)
        && plan.max == max
}

fn is_repair(order: &Order) -> bool {
    match order {
        Order::Repair(plan) => is_plain(plan, 7000, 1_099_511_627_776),
        _ => false,
    }
}

#[test]
fn defaults_of_repair(rt: HostRuntime) -> Result<(), Fail> {
    let order = order(rt.alloc(), "repair flow=7000")?;
    assert!(rt; is_repair(&order));
    Ok(())
}

fn is_encoding(order: &Order) -> bool {
    match order {
        Order::Encode { settings, max } => {
            let layout = settings.layout;
            (layout.l, layout.d, layout.rows, layout.staggered) == (5, 6, true, false)
                && (settings.packets, settings.rate, settings.port) == (7, 10_000_000, 5000)
                && (settings.seq, settings.ssrc, settings.stamp) == (0, 0, 0)
                && *max == 1_099_511_627_776
        }
        _ => false,
    }
}

#[test]
fn defaults_of_encode(rt: HostRuntime) -> Result<(), Fail> {
    let order = order(rt.alloc(), "encode columns=5 rows=6")?;
    assert!(rt; is_encoding(&order));
    Ok(())
}

fn is_drill(order: &Order) -> bool {
    match order {
        Order::Drill {
            settings,
            plan,
            losses,
            max,
        } => {
            !settings.layout.rows
                && settings.layout.staggered
                && is_plain(plan, 9004, 4_398_046_511_104)
                && (losses.drops.count(), losses.every) == (1, 0)
                && *max == 1_099_511_627_776
        }
        _ => false,
    }
}

#[test]
fn defaults_of_drill(rt: HostRuntime) -> Result<(), Fail> {
    let line = "drill columns=5 rows=5 layout=staggered fec=column port=9000 drop=4";
    let order = order(rt.alloc(), line)?;
    assert!(rt; is_drill(&order));
    Ok(())
}

fn is_sample(order: &Order) -> bool {
    match order {
        Order::Sample {
            seed,
            datagrams,
            loss,
            plan,
        } => {
            (*seed, *datagrams, *loss) == (3, 1000, 3) && is_plain(plan, 5000, 4_398_046_511_104)
        }
        _ => false,
    }
}

#[test]
fn defaults_of_sample(rt: HostRuntime) -> Result<(), Fail> {
    let order = order(rt.alloc(), "sample seed=3")?;
    assert!(rt; is_sample(&order));
    Ok(())
}

/// Whether the text has this piece somewhere.
fn has(text: &[u8], piece: &str) -> bool {
    str::from_utf8(text).is_ok_and(|text| text.contains(piece))
}

/// Parts of the help, as they are to look.
static HELP_PARTS: [&str; 5] = [
    "
fgate repair: writes each flow of a trace, repaired, to PORT.ts
  flow=1..65531           media port P, with P+2 and P+4, up to 64 times; needed
  window=1..100           positions that are played at once; default 100
  depth=1..1000           a datagram so far ahead plays them; default 400
  hold=1..3600000000      microseconds that a datagram may wait; default none
  workers=0..16           further threads that recover words; default 4
  max=8..1099511627776    most bytes of the input; default 1099511627776

fgate encode: encodes a transport stream with parity
",
    "
  columns=1..20           columns of a matrix, with fec=both at least 4; needed
  rows=4..20              rows of a matrix, of at most 100 datagrams; needed
  fec=column|both         parity of columns, or of rows too; default both
  layout=block|staggered  where the columns begin; default block
",
    "
  drop=1..9999999999999   a record left out, up to 1000 times; default none
  every=2..9999999999999  its multiples are left out; default none

",
    "
fgate pick: writes the trace of some of a trace's records
  flow=1..65531           ports P, P+2 and P+4, up to 64 times; default none
  port=0..65535           a further port, up to 64 times; default none
  ssrc=0..4294967295      only this source's media, up to 16 times; default none
  without=0..4294967295   not this source's media, up to 16 times; default none
  from=0..18446744073709551615 first time, in microseconds; default 0
  until=0..18446744073709551615 first time left out, microseconds; default none
  max=8..1099511627776    most bytes of the input; default 1099511627776
",
    "
  words: layout 4         fec=both, and fewer than 4 columns
",
];

/// The help of a command, as it is to look.
const INSPECT_HELP: &str = "fgate inspect: writes a line for each record of a trace
  flow=1..65531           media port P, with P+2 and P+4, up to 64 times; needed
  max=8..1099511627776    most bytes of the input; default 1099511627776
";

#[test]
fn help_looks_so(rt: HostRuntime) -> Result<(), Fail> {
    let text = help_text(rt.alloc())?;
    for part in &HELP_PARTS {
        assert!(rt; has(&text, part), "{part}");
    }
    Ok(())
}

#[test]
fn help_fits_80_columns(rt: HostRuntime) -> Result<(), Fail> {
    let text = help_text(rt.alloc())?;
    for line in text.split(|byte| *byte == b'\n') {
        assert!(rt; line.len() <= 80);
    }
    assert!(rt; text.ends_with(b"\n") && version_text() == "fgate 0.1.0\n");
    Ok(())
}

static QUESTIONS: [(&'static str, Option<Question>); 11] = [
    ("--help", Some(Question::Help)),
    ("--version", Some(Question::Version)),
    ("repair --help", Some(Question::HelpOn(Command::Repair))),
    ("sample --help", Some(Question::HelpOn(Command::Sample))),
    ("repair --version", None),
    ("repair flow=5000 --help", None),
    ("repairs --help", None),
    ("--help repair", None),
    ("--help --help", None),
    ("--version --help", None),
    ("help", None),
];

fn asks(alloc: Global, line: &str, question: Option<Question>) -> Result<bool, AllocError> {
    let words = words_of(alloc, line)?;
    Ok(Question::asked(&words) == question)
}

fn answers(alloc: Global, question: Question, text: &str) -> Result<bool, AllocError> {
    Ok(question.answer(alloc)?.as_slice() == text.as_bytes())
}

#[test]
fn questions(rt: HostRuntime) -> Result<(), Fail> {
    for (line, question) in &QUESTIONS {
        assert!(rt; asks(rt.alloc(), line, *question)?, "{line}");
    }
    assert!(rt; Question::asked(&[]).is_none());
    assert!(rt; answers(rt.alloc(), Question::Version, "fgate 0.1.0\n")?);
    assert!(rt; answers(rt.alloc(), Question::HelpOn(Command::Inspect), INSPECT_HELP)?);
    Ok(())
}
