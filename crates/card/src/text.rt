ghost use Rattle.std.specs.Prelude.{Some};
ghost use Rattle.card.specs.Lines.{or_dash, counts_of, reason_of, line_of};
ghost use Rattle.card.specs.Told.{number_of, record_of, group_of, told};

use crate::fault::{Counts, Fault};
use std::fmt;

// A number that may be missing.
#[derive(Clone, Copy)]
struct OrDash(Option<usize>);

impl fmt::Display for OrDash {
    ghost output = { λ x. Some (or_dash x.0) };

    fn fmt<W: fmt::Write>(&self, f: &mut fmt::Formatter<W>) -> fmt::Result {
        match self.0 {
            Some(n) => write!(f, "{n}"),
            None => write!(f, "-"),
        }
    }
}

impl fmt::Display for Counts {
    ghost output = { λ x. Some (counts_of x.enums x.functions) };

    fn fmt<W: fmt::Write>(&self, f: &mut fmt::Formatter<W>) -> fmt::Result {
        let enums = self.enums;
        let functions = self.functions;
        write!(f, "{enums} {functions}")
    }
}

impl fmt::Display for Fault {
    ghost output = { λ x. Some (reason_of (number_of x) (record_of x) (group_of x)) };

    fn fmt<W: fmt::Write>(&self, f: &mut fmt::Formatter<W>) -> fmt::Result {
        let number = self.number();
        let record = OrDash(self.record());
        let group = OrDash(self.group());
        write!(f, "{number} {record} {group}")
    }
}

// What the check answers, as one line of text.
#[derive(Clone, Copy)]
pub struct Line(pub Result<Counts, Fault>);

impl fmt::Display for Line {
    ghost output = { λ x. Some (line_of (told x.0)) };

    fn fmt<W: fmt::Write>(&self, f: &mut fmt::Formatter<W>) -> fmt::Result {
        match self.0 {
            Ok(counts) => write!(f, "ok {counts}"),
            Err(fault) => write!(f, "no {fault}"),
        }
    }
}
