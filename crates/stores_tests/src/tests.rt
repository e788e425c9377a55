use battery::Value;
use cells::{Cell, EnumValue, Text, Values};
use expect::{check, check_eq};
use std::test::Fail;
use stores::{Pair, Plain, Store};

fn text(bytes: &[u8]) -> Result<Cell, Fail> {
    let text = Text::of(bytes).ok_or_else(|| Fail::new("over 24 bytes"))?;
    Ok(Cell::Text(text))
}

fn enum_value(of: u16, case: u8, field: Value) -> Cell {
    let mut fields = Values::new();
    fields.push(field);
    Cell::Enum(EnumValue { of, case, fields })
}

// Puts the cell until the store refuses it; answers how often it was taken, each time at the next
// place.
fn filled<S: Store>(store: &mut S, cell: Cell) -> Result<u16, Fail> {
    for place in 0..65535u16 {
        match store.put(cell) {
            Some(at) => check_eq(at, place)?,
            None => return Ok(place),
        }
    }
    check_eq(store.put(cell), None)?;
    Ok(65535)
}

fn holds<S: Store>(store: &S, place: u16, cell: Cell) -> bool {
    store.get(place) == Some(cell)
}

#[test]
fn texts_of_24_bytes(rt: HostRuntime) -> Result<(), Fail> {
    let whole = [7; 25];
    assert!(rt; Text::of(&whole[0..24]).is_some());
    assert!(rt; Text::of(&whole).is_none());
    assert!(rt; text(b"")? == text(b"")?);
    assert!(rt; text(b"a")? != text(b"a\0")?);
    Ok(())
}

#[test]
fn equal_enum_values(rt: HostRuntime) -> Result<(), Fail> {
    let a = enum_value(1, 2, Value::Number(3));
    assert!(rt; a == enum_value(1, 2, Value::Number(3)));
    assert!(rt; a != enum_value(0, 2, Value::Number(3)));
    assert!(rt; a != enum_value(1, 3, Value::Number(3)));
    assert!(rt; a != enum_value(1, 2, Value::Place(3)));
    assert!(rt; a != text(b"")?);
    Ok(())
}

#[test]
fn four_fields(rt: HostRuntime) -> Result<(), Fail> {
    let mut fields = Values::new();
    for i in 0..5i32 {
        fields.push(Value::Number(i));
    }
    assert_eq!(rt; fields.as_slice().len(), 4);
    let Some(last) = fields.as_slice().last() else {
        return Err(Fail::new("no field"));
    };
    assert!(rt; *last == Value::Number(3));
    Ok(())
}

// A store of this most takes so many cells and no more, each at the next place; emptied, as many
// again.
fn filled_twice<S: Store>(store: &mut S, most: u16) -> Result<(), Fail> {
    check_eq(store.most(), most)?;
    check_eq(filled(store, text(b"a")?)?, most)?;
    check_eq(store.len(), most)?;
    check(store.get(most).is_none())?;
    store.empty();
    check_eq(store.len(), 0)?;
    check(store.get(0).is_none())?;
    check_eq(filled(store, text(b"b")?)?, most)
}

// Three cells, of which each is found again where it was put.
fn kept_apart<S: Store>(store: &mut S) -> Result<(), Fail> {
    check(store.get(0).is_none())?;
    check_eq(store.put(text(b"x")?), Some(0))?;
    check_eq(store.put(text(b"y")?), Some(1))?;
    check_eq(store.put(text(b"z")?), Some(2))?;
    check_eq(store.put(text(b"w")?), None)?;
    check(holds(store, 0, text(b"x")?))?;
    check(holds(store, 1, text(b"y")?))?;
    check(holds(store, 2, text(b"z")?))
}

#[test]
fn no_cell() -> Result<(), Fail> {
    let mut slots = [text(b"")?; 0];
    filled_twice(&mut Plain::new(&mut slots), 0)
}

#[test]
fn most_of_a_long_run(rt: HostRuntime) -> Result<(), Fail> {
    let mut run = vec![in rt.alloc(); text(b"")?; 65540]?;
    filled_twice(&mut Plain::new(run.as_mut_slice()), 65535)
}

#[test]
fn most_of_a_long_pair(rt: HostRuntime) -> Result<(), Fail> {
    let mut low = vec![in rt.alloc(); text(b"")?; 40000]?;
    let mut high = vec![in rt.alloc(); text(b"")?; 40000]?;
    let first = Plain::new(low.as_mut_slice());
    filled_twice(
        &mut Pair::new(first, Plain::new(high.as_mut_slice())),
        65535,
    )
}

// A pair empties what it is made of, and fills three levels in order.
#[test]
fn three_levels(rt: HostRuntime) -> Result<(), Fail> {
    let (mut a, mut b) = ([text(b"")?; 1], [text(b"")?; 1]);
    let (mut c, mut d) = ([text(b"")?; 1], [text(b"")?; 0]);
    let mut lowest = Plain::new(&mut a);
    assert_eq!(rt; lowest.put(text(b"old")?), Some(0));
    let inner = Pair::new(lowest, Plain::new(&mut b));
    let upper = Pair::new(inner, Plain::new(&mut c));
    kept_apart(&mut Pair::new(Plain::new(&mut d), upper))
}
