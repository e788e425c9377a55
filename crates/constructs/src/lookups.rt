ghost use Rattle.std.specs.Prelude.{◌≡◌, List, Some};
ghost use Rattle.battery.specs.Tree.{◌▸◌};
ghost use Rattle.battery.specs.Cell.{append};
ghost use Rattle.battery.specs.declared.value.Value.{Value as Val};
ghost use Rattle.machine.specs.Machine.{putting, of_cell, of_text, of_enum};
ghost use Rattle.scope.specs.declared.Entry.{Entry};
ghost use Rattle.program.specs.declared.program.Program.{Program};
ghost use Rattle.std.specs.Option.{option_map};
ghost use Rattle.cells.specs.Meaning.{meaning, text_of};
ghost use Rattle.frames.specs.Views.{move, Kept};
ghost use Rattle.constructs.specs.Celled.{enum_of};

use battery::{Stop, Value};
use cells::{Cell, EnumValue, Text};
use frames::Move;
use stores::Store;

// Puts a cell for the record `at`: its place, or the end of the run where the store is full.
pub(crate) fn placed<S: Store>(store: &mut S, at: u16, cell: Cell) -> Move
    ensures most { S.Store.limit store.new ≡ S.Store.limit store.old }
    ensures does { (k : Program) (es : List (Entry Val)) → move k es (S.Store.cells store.new) (Some result) ≡ Some (putting at (append (S.Store.limit store.old) (S.Store.cells store.old) (meaning cell))) }
    ensures kept { Kept (S.Store.cells store.old) (S.Store.cells store.new) (Some result) }
{
    match store.put(cell) {
        Some(i) => Move::Gives(Value::Place(i)),
        None => Move::Stops(Stop::FullStore(at)),
    }
}

// The cell that a value is the place of.
fn cell_at<S: Store>(store: &S, v: Value) -> Option<Cell>
    ensures { option_map meaning result ≡ of_cell (S.Store.cells store.now) v }
{
    match v {
        Value::Place(i) => store.get(i),
        _ => None,
    }
}

// The text at a value.
pub(crate) fn text_at<S: Store>(store: &S, v: Value) -> Option<Text>
    ensures { option_map text_of result ≡ (of_cell (S.Store.cells store.now) v ▸ of_text) }
{
    match cell_at(store, v)? {
        Cell::Text(text) => Some(text),
        Cell::Enum(_) => None,
    }
}

// The enum value at a value.
pub(crate) fn enum_at<S: Store>(store: &S, v: Value) -> Option<EnumValue>
    ensures { option_map enum_of result ≡ (of_cell (S.Store.cells store.now) v ▸ of_enum) }
{
    match cell_at(store, v)? {
        Cell::Enum(value) => Some(value),
        Cell::Text(_) => None,
    }
}
