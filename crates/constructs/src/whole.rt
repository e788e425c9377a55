use frames::Wait;
use program::Program;

// A frame whose first parts all have their values, and the program that it is of.
#[derive(Clone, Copy)]
pub(crate) struct Whole<'a> {
    pub(crate) program: &'a Program,
    pub(crate) wait: &'a Wait,
}
