ghost use Rattle.std.specs.Prelude.{◌≤◌};

use battery::{Outcome, Stop, Value};
use cells::Values;
use scope::Entry;

// An expression to be evaluated: its place, and the part of the entries that is its scope.
#[derive(Clone, Copy)]
pub struct Job {
    pub at: u16,
    pub base: u16,
    pub height: u16,
}

// Two values that the EQ of a record compares.
#[derive(Clone, Copy)]
pub struct Pair {
    pub at: u16,
    pub one: Value,
    pub other: Value,
}

// What a judgement is of: an expression, or two values that are compared.
#[derive(Clone, Copy)]
pub enum Judgement {
    Of(Job),
    Same(Pair),
}

// An open judgement that waits for its first parts: the next part's place, the values so far, and
// how many are left. In this order no gap lies before the values: with one, a frame was written in
// pieces and read again in whole words, which the processor waits for.
#[derive(Clone, Copy)]
pub struct Wait {
    pub job: Job,
    pub next: u16,
    pub values: Values,
    pub left: u8,
}

// An open comparison of fields, pair by pair as far as both have one: the next pair's index.
#[derive(Clone, Copy)]
pub struct Pairs {
    pub ones: Values,
    pub others: Values,
    pub at: u16,
    pub next: u8,
}

// What comparing two values leads to: an answer, or their fields.
#[derive(Clone, Copy)]
pub enum Verdict {
    Is(bool),
    Fields(Pairs),
}

// What came of giving a value to the open frames: the newest goes on, none is left, or one has no
// rule for it. Three cases, so no `Result` of a `bool`.
#[derive(Clone, Copy)]
pub enum Given {
    Goes,
    Done,
    Halts(u16),
}

// An open judgement: it passes on the value of its last part, waits for its first parts, or
// compares fields.
#[derive(Clone, Copy)]
pub enum Frame {
    Passes,
    Waits(Wait),
    Compares(Pairs),
}

// The first `count` are open, the newest last: it is changed in place, which `Few` does not offer.
#[derive(Drop)]
pub struct Stack {
    pub frames: [Frame; 256],
    pub count: usize,
    ghost few: { count ≤ 256 },
}

// The newest frame's next part; where none is left, the frame of this record is whole, or all the
// fields that it compares are equal.
#[derive(Clone, Copy)]
pub enum Part {
    Next(Judgement),
    Whole(u16),
    Equal,
}

// What a rule does once the first parts have their values.
#[derive(Clone, Copy)]
pub enum Move {
    Gives(Value),
    Stops(Stop),
    Goes(Judgement),
}

// Where a run stands: about to open a judgement, ended, or stuck at a record.
#[derive(Clone, Copy)]
pub enum Stage {
    Going(Judgement),
    Ended(Outcome),
    Stuck(u16),
}

// The names of all frames that are open: each frame sees a window of them.
pub type Entries = [Entry<Value>; 1028];

#[derive(Drop)]
pub struct Run<S> {
    pub stack: Stack,
    pub entries: Entries,
    pub stage: Stage,
    pub units: u32,
    pub store: S,
}
