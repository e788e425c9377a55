#![tactic(auto)]

mod arms;
mod by_kind;
mod declared;
mod fault;
mod shape;
mod standing;

pub use arms::arms_fit;
pub use by_kind::leaf_rule;
pub use declared::{Signature, Types, fields, function_types, rule};
pub use fault::{Broken, TypeFault};
pub use shape::{Shape, enum_of, shape_of};
pub use standing::{arm_at, closes_at, head_at, type_at};
