ghost use Rattle.std.specs.Prelude.{◌≡◌};
ghost use Rattle.machine.specs.Machine.{one, two, of_num, of_bool};
ghost use Rattle.cells.specs.Meaning.{values_of};
ghost use Rattle.constructs.specs.Values.{two_numbers};

use battery::Value;
use cells::Values;

// The only value.
pub(crate) fn only(values: &Values) -> Option<Value>
    ensures { result ≡ one (values_of values.now) }
{
    match values.as_slice() {
        [v] => Some(*v),
        _ => None,
    }
}

// The two values.
pub(crate) fn both(values: &Values) -> Option<(Value, Value)>
    ensures { result ≡ two (values_of values.now) }
{
    match values.as_slice() {
        [one, other] => Some((*one, *other)),
        _ => None,
    }
}

pub(crate) fn number(v: Value) -> Option<i32>
    ensures { result ≡ of_num v }
{
    match v {
        Value::Number(k) => Some(k),
        _ => None,
    }
}

pub(crate) fn boolean(v: Value) -> Option<bool>
    ensures { result ≡ of_bool v }
{
    match v {
        Value::Boolean(b) => Some(b),
        _ => None,
    }
}

// The two values, which are numbers.
pub(crate) fn both_numbers(values: &Values) -> Option<(i32, i32)>
    ensures { result ≡ two_numbers (values_of values.now) }
{
    let (one, other) = both(values)?;
    Some((number(one)?, number(other)?))
}
