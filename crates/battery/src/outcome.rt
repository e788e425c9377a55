use crate::Value;

// Why a run ends without a value, and the record that the ending names. An exit has its text.
#[derive(Clone, Copy, PartialEq, Debug)]
pub enum Stop {
    Exit(u16, Value),
    ZeroDivisor(u16),
    OutOfRange(u16),
    TooLong(u16),
    FullStore(u16),
    TooDeep(u16),
    Overrun(u16),
}

// How a run ends.
pub type Outcome = Result<Value, Stop>;
