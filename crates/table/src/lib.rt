#![tactic(auto)]

mod kind;
mod limits;
mod name;
mod pass;
mod token;

pub use kind::{Kind, UnknownKind};
pub use limits::Limits;
pub use name::token_of;
pub use pass::tokens_of;
pub use token::{Arm, Head, Leaf, Many, Pair, Token};
