ghost use Rattle.std.specs.Prelude.{◌≡◌, Decides};
ghost use Rattle.cells.specs.Meaning.{meaning, blank};
ghost use Rattle.cells.specs.Same.{same_cell};
ghost use Rattle.cells.specs.Means.{same_cell_laws};

use battery::Value;
use few::Short;

// The bytes of a text.
pub type Text = Short<u8, 24>;

// The fields of an enum value, or the arguments of a function, in order.
pub type Values = Short<Value, 4>;

// A value of an enum: its case and fields.
#[derive(Clone, Copy, Default)]
pub struct EnumValue {
    pub of: u16,
    pub case: u8,
    pub fields: Values,
}

#[derive(Clone, Copy)]
pub enum Cell {
    Text(Text),
    Enum(EnumValue),
}

// An enum value of no fields: what a run of cells is filled with before any is put.
impl Default for Cell {
    ghost is_default = { λ cell. meaning cell ≡ blank };

    fn default() -> Cell {
        Cell::Enum(EnumValue::default())
    }
}

// Cells are equal when they mean the same, whatever lies in the bytes and fields that are not used.
impl PartialEq for Cell {
    ghost eq = { same_cell };

    ghost laws = { same_cell_laws };

    fn eq(&self, other: &Cell) -> bool
        ensures value { result ≡ same_cell self.now other.now }
        ensures means { Decides result (meaning self.now ≡ meaning other.now) }
    {
        match (self, other) {
            (Cell::Text(a), Cell::Text(b)) => *a == *b,
            (Cell::Enum(a), Cell::Enum(b)) => {
                a.of == b.of && a.case == b.case && a.fields == b.fields
            }
            _ => false,
        }
    }
}
