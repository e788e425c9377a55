#![tactic(auto)]

mod outcome;
mod theorems;
mod value;

pub use outcome::{Outcome, Stop};
pub use theorems::{as_published, rules_hold, worked_cases};
pub use value::Value;

// The types of BATTERY values: two are equal when their kinds and enum numbers are.
#[derive(Clone, Copy, PartialEq, Default)]
pub enum Ty {
    #[default]
    Unit,
    Number,
    Boolean,
    Text,
    Enum(u16),
}

// The operators that take two numbers and give a number.
#[derive(Clone, Copy)]
pub enum Arith {
    Add,
    Mul,
    Div,
    Mod,
}
