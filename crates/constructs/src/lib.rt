#![tactic(auto)]

// What the rule of each construct does, once its first parts have their values.
mod binding;
mod call;
mod comparison;
mod dispatch;
mod leaf;
mod lookups;
mod make;
mod matching;
mod numbers;
mod plain;
mod text;
mod values;
mod whole;

pub use comparison::compare;
pub use dispatch::rule;
