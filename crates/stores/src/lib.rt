#![tactic(auto)]

mod pair;
mod plain;
mod store;

pub use pair::Pair;
pub use plain::Plain;
pub use store::Store;
