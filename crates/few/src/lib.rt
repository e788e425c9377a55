#![tactic(auto)]

mod items;

pub use items::{Few, Short};
