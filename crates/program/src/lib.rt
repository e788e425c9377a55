#![tactic(auto)]

// The tables of a card that a run uses.
mod function;
mod program;

pub use function::Function;
pub use program::Program;
