#![tactic(auto)]

mod header;
mod reader;
mod record;

pub use header::{Header, ImageFault};
pub use reader::Reader;
pub use record::Record;
