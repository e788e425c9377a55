#![tactic(auto)]

mod descent;

pub use descent::{Misplaced, placed};
