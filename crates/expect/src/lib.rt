#![tactic(auto)]

// How a helper of tests fails the test that calls it.
ghost use Rattle.std.specs.Prelude.{◌↔◌, IsOk, IsTrue};

use std::fmt::Debug;
use std::test::Fail;

pub fn check(holds: bool) -> Result<(), Fail>
    ensures { IsOk result ↔ IsTrue holds }
{
    if holds {
        Ok(())
    } else {
        Err(Fail::new("does not hold"))
    }
}

pub fn check_eq<T: PartialEq + Debug + Drop>(one: T, other: T) -> Result<(), Fail>
    ensures { IsOk result ↔ IsTrue (T.eq one other) }
{
    if one == other {
        return Ok(());
    }
    Err(Fail::new(format_args!("{one:?} is not {other:?}")))
}
