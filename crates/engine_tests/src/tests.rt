ghost use Rattle.frames.specs.Views.{Sound};

use crate::cards::every;
use battery::{Outcome, Stop, Value};
use card::worked_card;
use cells::{Cell, Text, Values};
use engine::{NotBegun, advance, begin, idle};
use expect::check_eq;
use frames::{Run, Stage};
use program::Program;
use std::test::Fail;
use stores::{Pair, Plain, Store};

#[derive(Clone, Copy, PartialEq, Debug)]
enum Ending {
    Going,
    Ended(Outcome),
    Stuck(u16),
}

// How a run stands, with the units spent and the cells held.
#[derive(Clone, Copy, PartialEq, Debug)]
struct Stands {
    ending: Ending,
    units: u32,
    cells: u16,
}

fn standing<S: Store>(run: &Run<S>) -> Stands {
    let ending = match run.stage {
        Stage::Going(_) => Ending::Going,
        Stage::Ended(outcome) => Ending::Ended(outcome),
        Stage::Stuck(record) => Ending::Stuck(record),
    };
    Stands {
        ending,
        units: run.units,
        cells: run.store.len(),
    }
}

// So many turns of so many units.
fn turns<S: Store>(program: &Program, run: &mut Run<S>, count: u32, units: u16)
    requires { Sound program.now run.old }
    ensures { Sound program.now run.new }
{
    for _ in 0..count {
        advance(program, run, units);
    }
}

// A function with its arguments, the text that the store holds before, and how the run ends.
#[derive(Drop)]
struct Call {
    function: u16,
    args: Values,
    text: Option<Text>,
    ends: Stands,
}

// The store with the call's text as its only cell.
fn prepared<S: Store>(mut store: S, call: &Call) -> S {
    store.empty();
    if let Some(text) = call.text {
        let _ = store.put(Cell::Text(text));
    }
    store
}

// A run over a store in turns of so many units, held against what is expected.
fn runs<S: Store + Drop>(
    program: &Program,
    store: S,
    call: &Call,
    count: u32,
    units: u16,
) -> Result<(), Fail> {
    let mut run = idle(prepared(store, call));
    if let Err(why) = begin(program, &mut run, call.function, &call.args) {
        return Err(Fail::new(format_args!("{why:?}")));
    }
    turns(program, &mut run, count, units);
    check_eq(standing(&run), call.ends)
}

// Over a plain store and a pair, at once and one unit at a time.
fn holds(program: &Program, call: &Call) -> Result<(), Fail> {
    let mut slots = [Cell::default(); 9];
    runs(program, Plain::new(&mut slots), call, 16, 65535)?;
    runs(program, Plain::new(&mut slots), call, 1_000_001, 1)?;
    let (mut low, mut high) = ([Cell::default(); 1], [Cell::default(); 8]);
    let pair = Pair::new(Plain::new(&mut low), Plain::new(&mut high));
    runs(program, pair, call, 16, 65535)?;
    let pair = Pair::new(Plain::new(&mut low), Plain::new(&mut high));
    runs(program, pair, call, 1_000_001, 1)
}

fn values(number: Option<i32>, place: Option<u16>) -> Values {
    let mut values = Values::new();
    if let Some(number) = number {
        values.push(Value::Number(number));
    }
    if let Some(place) = place {
        values.push(Value::Place(place));
    }
    values
}

// A call of a function of a number.
fn on_number(function: u16, number: i32, ends: Stands) -> Call {
    Call {
        function,
        args: values(Some(number), None),
        text: None,
        ends,
    }
}

// A call of a function of nothing.
fn on_nothing(function: u16, ends: Stands) -> Call {
    Call {
        function,
        args: Values::new(),
        text: None,
        ends,
    }
}

// A call of a function of a text, and perhaps of a number before it.
fn on_text(function: u16, number: Option<i32>, text: &[u8], ends: Stands) -> Call {
    Call {
        function,
        args: values(number, Some(0)),
        text: Text::of(text),
        ends,
    }
}

fn ended(outcome: Outcome, units: u32, cells: u16) -> Stands {
    Stands {
        ending: Ending::Ended(outcome),
        units,
        cells,
    }
}

fn gave(value: Value, units: u32, cells: u16) -> Stands {
    ended(Ok(value), units, cells)
}

fn stopped(stop: Stop, units: u32, cells: u16) -> Stands {
    ended(Err(stop), units, cells)
}

fn going(units: u32, cells: u16) -> Stands {
    Stands {
        ending: Ending::Going,
        units,
        cells,
    }
}

fn program(image: &[u8]) -> Result<Program, Fail> {
    Program::of(image).ok_or_else(|| Fail::new("no card"))
}

// Card K on 30000 and on 50000.
#[test]
fn worked_card_runs() -> Result<(), Fail> {
    let k = program(&worked_card())?;
    holds(
        &k,
        &on_text(0, Some(30000), b"Spit", gave(Value::Place(1), 6, 2)),
    )?;
    holds(
        &k,
        &on_text(0, Some(50000), b"Spit", gave(Value::Place(1), 5, 2)),
    )
}

// Every kind of record, and every ending but a full store.
#[test]
fn every_ending(rt: HostRuntime) -> Result<(), Fail> {
    let card = program(&every(rt.alloc())?)?;
    holds(
        &card,
        &on_text(0, Some(49999), b"", gave(Value::Place(1), 6, 2)),
    )?;
    holds(&card, &on_nothing(1, stopped(Stop::ZeroDivisor(22), 3, 0)))?;
    holds(&card, &on_nothing(2, stopped(Stop::OutOfRange(28), 3, 0)))?;
    holds(
        &card,
        &on_text(3, None, b"Muckle Flugg", gave(Value::Place(1), 3, 2)),
    )?;
    holds(
        &card,
        &on_text(3, None, b"Muckle Flugga", stopped(Stop::TooLong(35), 3, 1)),
    )?;
    let exit = stopped(Stop::Exit(41, Value::Place(0)), 2, 1);
    holds(&card, &on_nothing(4, exit))?;
    holds(&card, &on_nothing(5, stopped(Stop::TooDeep(47), 257, 0)))
}

// Calls in calls, and an overrun in the midst of them; a value made, taken apart and compared.
#[test]
fn long_runs(rt: HostRuntime) -> Result<(), Fail> {
    let card = program(&every(rt.alloc())?)?;
    holds(&card, &on_number(6, 3, gave(Value::Number(8), 131, 0)))?;
    holds(
        &card,
        &on_number(6, 16, stopped(Stop::Overrun(53), 1_000_000, 0)),
    )?;
    holds(&card, &on_number(7, 5, gave(Value::Number(1), 21, 5)))?;
    holds(&card, &on_number(7, -5, gave(Value::Number(-1), 21, 5)))
}

// A store of one cell is full before the value is made.
#[test]
fn full_store() -> Result<(), Fail> {
    let k = program(&worked_card())?;
    let mut slots = [Cell::default(); 1];
    let call = on_text(0, Some(30000), b"Spit", stopped(Stop::FullStore(13), 6, 1));
    runs(&k, Plain::new(&mut slots), &call, 1, 6)?;
    runs(&k, Plain::new(&mut slots), &call, 6, 1)
}

// A turn's last unit is no overrun, and no unit moves nothing.
#[test]
fn pauses() -> Result<(), Fail> {
    let k = program(&worked_card())?;
    let mut slots = [Cell::default(); 9];
    let call = on_text(0, Some(30000), b"Spit", going(4, 1));
    runs(&k, Plain::new(&mut slots), &call, 1, 4)?;
    let call = on_text(0, Some(30000), b"Spit", going(0, 1));
    runs(&k, Plain::new(&mut slots), &call, 3, 0)
}

// No such function, and another count of arguments: nothing begins.
#[test]
fn not_begun(rt: HostRuntime) -> Result<(), Fail> {
    let k = program(&worked_card())?;
    let mut slots = [Cell::default(); 1];
    let mut run = idle(Plain::new(&mut slots));
    let begun = begin(&k, &mut run, 1, &values(Some(1), Some(0)));
    assert_eq!(rt; begun, Err(NotBegun::NoFunction));
    let begun = begin(&k, &mut run, 0, &values(Some(1), None));
    assert_eq!(rt; begun, Err(NotBegun::OtherCount));
    Ok(())
}
