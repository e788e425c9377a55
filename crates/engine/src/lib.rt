#![tactic(auto)]

mod beginning;
mod run;

pub use beginning::{NotBegun, begin, idle};
pub use run::advance;
