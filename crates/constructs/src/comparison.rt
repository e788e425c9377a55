ghost use Rattle.std.specs.Prelude.{◌≡◌};
ghost use Rattle.machine.specs.Machine.{compare as compared, compare_cells};
ghost use Rattle.cells.specs.Meaning.{meaning};
ghost use Rattle.cells.specs.declared.cell.Cell.TheVariants.{Enum};
ghost use Rattle.frames.specs.Views.{verdict, VerdictOk};

use battery::Value;
use cells::{Cell, EnumValue};
use frames::{Pair, Pairs, Verdict};
use stores::Store;

// What comparing two enum values leads to; nothing for values of two enums.
fn enums_compared(at: u16, a: EnumValue, b: EnumValue) -> Option<Verdict>
    ensures says { verdict result ≡ compare_cells (meaning (Enum a)) (meaning (Enum b)) }
    ensures fits { VerdictOk at result }
{
    if a.of != b.of {
        return None;
    }
    if a.case != b.case {
        return Some(Verdict::Is(false));
    }
    Some(Verdict::Fields(Pairs {
        at,
        next: 0,
        ones: a.fields,
        others: b.fields,
    }))
}

// What comparing two cells leads to; nothing where they are unlike.
fn cells_compared(at: u16, one: Cell, other: Cell) -> Option<Verdict>
    ensures says { verdict result ≡ compare_cells (meaning one) (meaning other) }
    ensures fits { VerdictOk at result }
{
    match (one, other) {
        (Cell::Text(a), Cell::Text(b)) => Some(Verdict::Is(a == b)),
        (Cell::Enum(a), Cell::Enum(b)) => enums_compared(at, a, b),
        _ => None,
    }
}

// What comparing a pair leads to; nothing where they are unlike.
pub fn compare<S: Store>(store: &S, pair: Pair) -> Option<Verdict>
    ensures says { verdict result ≡ compared (S.Store.cells store.now) pair.one pair.other }
    ensures fits { VerdictOk pair.at result }
{
    match (pair.one, pair.other) {
        (Value::Unit, Value::Unit) => Some(Verdict::Is(true)),
        (Value::Number(m), Value::Number(n)) => Some(Verdict::Is(m == n)),
        (Value::Boolean(a), Value::Boolean(b)) => Some(Verdict::Is(a == b)),
        (Value::Place(i), Value::Place(j)) => {
            cells_compared(pair.at, store.get(i)?, store.get(j)?)
        }
        _ => None,
    }
}
