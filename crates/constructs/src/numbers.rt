ghost use Rattle.std.specs.Prelude.{◌≡◌, List, if◌then◌else◌, Some};
ghost use Rattle.battery.specs.declared.value.Value.{Value};
ghost use Rattle.battery.specs.declared.value.Value.TheVariants.{Number as number_v};
ghost use Rattle.battery.specs.declared.outcome.Stop.TheVariants.{OutOfRange as «out_of_range»};
ghost use Rattle.battery.specs.Tree.{in_range};
ghost use Rattle.battery.specs.Cell.{Cell};
ghost use Rattle.battery.specs.Rules.{result_of};
ghost use Rattle.machine.specs.Machine.{calculated as worked};
ghost use Rattle.scope.specs.declared.Entry.{Entry};
ghost use Rattle.program.specs.declared.program.Program.{Program};
ghost use Rattle.frames.specs.declared.data.Move.TheVariants.{Gives, Stops};
ghost use Rattle.frames.specs.Views.{move};

use battery::{Arith, Stop, Value};
use frames::Move;

// The exact result, which 64 bits hold; nothing for a zero divisor.
fn exact(op: Arith, m: i32, n: i32) -> Option<i64>
    ensures { result ≡ result_of op m n }
{
    let (m, n) = (i64::from(m), i64::from(n));
    match op {
        Arith::Add => Some(m + n),
        Arith::Mul => Some(m * n),
        Arith::Div => m.checked_div(n),
        Arith::Mod => m.checked_rem(n),
    }
}

// A number of 32 bits is a value, and any other ends the run.
fn ranged(at: u16, k: i64) -> Move
    ensures { result ≡ (if in_range k then Gives (number_v k) else Stops («out_of_range» at)) }
{
    match i32::try_from(k) {
        Ok(number) => Move::Gives(Value::Number(number)),
        Err(_) => Move::Stops(Stop::OutOfRange(at)),
    }
}

// What an operator makes of two numbers.
pub(crate) fn calculated(at: u16, op: Arith, m: i32, n: i32) -> Move
    ensures { (k : Program) (es : List (Entry Value)) (cs : List Cell) → move k es cs (Some result) ≡ Some (worked at cs (result_of op m n)) }
{
    match exact(op, m, n) {
        Some(k) => ranged(at, k),
        None => Move::Stops(Stop::ZeroDivisor(at)),
    }
}
