#![tactic(auto)]

mod ends;
mod found;
mod layout;
mod order;
mod places;
mod tokens;

pub use layout::Layout;
pub use order::numbered;
pub use places::{Places, place_at};
pub use tokens::Tokens;
