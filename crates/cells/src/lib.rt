#![tactic(auto)]

mod cell;

pub use cell::{Cell, EnumValue, Text, Values};
