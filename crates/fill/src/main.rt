#![tactic(auto)]

// Fills a pair of pairs past its most and prints what each put and get answered.
ghost use Rattle.std.specs.Prelude.{◌≡◌};
ghost use Rattle.stores.specs.Plain.{written};

use battery::Value;
use cells::{Cell, EnumValue, Text, Values};
use std::{fmt, io, str};
use stores::{Pair, Plain, Store};

// What a call on a store answered, if anything.
#[derive(Clone, Copy)]
struct Answer<T>(Option<T>);

impl<T: fmt::Display> fmt::Display for Answer<T> {
    fn fmt<W: fmt::Write>(&self, f: &mut fmt::Formatter<W>) -> fmt::Result {
        match &self.0 {
            Some(answer) => write!(f, "{answer}"),
            None => write!(f, "refused"),
        }
    }
}

// A cell in words.
#[derive(Clone, Copy)]
struct InWords(Cell);

impl fmt::Display for InWords {
    fn fmt<W: fmt::Write>(&self, f: &mut fmt::Formatter<W>) -> fmt::Result {
        match self.0 {
            Cell::Text(text) => match str::from_utf8(text.as_slice()) {
                Ok(name) => write!(f, "text {name}"),
                Err(_) => write!(f, "bytes"),
            },
            Cell::Enum(EnumValue { of, case, fields }) => {
                write!(f, "enum {of} case {case}")?;
                for field in fields.as_slice() {
                    let field = Field(*field);
                    write!(f, " {field}")?;
                }
                Ok(())
            }
        }
    }
}

// A value in a word.
#[derive(Clone, Copy)]
struct Field(Value);

impl fmt::Display for Field {
    fn fmt<W: fmt::Write>(&self, f: &mut fmt::Formatter<W>) -> fmt::Result {
        match self.0 {
            Value::Unit => write!(f, "unit"),
            Value::Number(number) => write!(f, "{number}"),
            Value::Boolean(boolean) => write!(f, "{boolean}"),
            Value::Place(place) => write!(f, "@{place}"),
        }
    }
}

fn text(bytes: &[u8]) -> Cell {
    Text::of(bytes).map(Cell::Text).unwrap_or_default()
}

// An enum value of case 1 on the cell at a place.
fn on(place: u16) -> Cell {
    let mut fields = Values::new();
    fields.push(Value::Place(place));
    Cell::Enum(EnumValue {
        of: 0,
        case: 1,
        fields,
    })
}

// The cell that is put in turn i: a text, or an enum value on the text before.
fn given(i: u16) -> Cell {
    match i {
        0 => text(b"Spit"),
        2 => text(b"Skaw"),
        4 => text(b"Noss"),
        6 => text(b"Muckle Flugga"),
        _ => on(i.saturating_sub(1)),
    }
}

// Puts a cell over a run of which nothing is taken; the lender finds the others as they were.
fn put_first(slots: &mut [Cell], cell: Cell)
    ensures { slots.new ≡ written 0 slots.old cell }
{
    let mut store = Plain::new(slots);
    let _ = store.put(cell);
}

fn put<S: Store>(rt: &impl Print, store: &mut S, cell: Cell) -> io::Result<()> {
    let answer = Answer(store.put(cell));
    let held = store.len();
    println!(rt; "put {answer}, then held {held}")
}

fn get<S: Store>(rt: &impl Print, store: &S, place: u16) -> io::Result<()> {
    let answer = Answer(store.get(place).map(InWords));
    println!(rt; "get {place}: {answer}")
}

fn fill<S: Store>(rt: &impl Print, store: &mut S) -> io::Result<()> {
    let most = store.most();
    println!(rt; "most {most}")?;
    for i in 0..8u16 {
        put(rt, store, given(i))?;
    }
    for place in 0..8u16 {
        get(rt, store, place)?;
    }
    get(rt, store, 65535)
}

fn main(rt: HostRuntime) -> io::Result<()> {
    let (mut a, mut b, mut c) = (
        [Cell::default(); 2],
        [Cell::default(); 0],
        [Cell::default(); 1],
    );
    let (mut d, mut e) = ([Cell::default(); 1], [Cell::default(); 2]);
    let inner = Pair::new(Plain::new(&mut a), Plain::new(&mut b));
    let first = Pair::new(inner, Plain::new(&mut c));
    let second = Pair::new(Plain::new(&mut d), Plain::new(&mut e));
    let mut store = Pair::new(first, second);
    fill(&rt, &mut store)?;
    store.empty();
    get(&rt, &store, 0)?;
    put(&rt, &mut store, on(7))?;
    get(&rt, &store, 0)?;
    let mut lent = [on(1), on(2)];
    put_first(&mut lent, text(b"Noss"));
    for cell in lent {
        let left = InWords(cell);
        println!(rt; "left {left}")?;
    }
    Ok(())
}
