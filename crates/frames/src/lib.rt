#![tactic(auto)]

mod data;
mod frame;
mod stack;

pub use data::{
    Entries, Frame, Given, Job, Judgement, Move, Pair, Pairs, Part, Run, Stack, Stage, Verdict,
    Wait,
};
