ghost use Rattle.std.specs.Prelude.{◌≡◌, ◌<◌, length};
ghost use Rattle.frames.specs.Stacks.{More, Roomy, WithIt, taken, vals};
ghost use Rattle.frames.specs.Views.{judged_for, next_job, next_pair, next_part, past_pair, past_job, past_part};

use crate::data::{Frame, Given, Job, Judgement, Pair, Pairs, Part, Wait};
use battery::Value;
use program::Program;

impl Judgement {
    // The record that it is opened for.
    pub fn at(self) -> u16
        ensures { result ≡ judged_for self }
    {
        match self {
            Judgement::Of(job) => job.at,
            Judgement::Same(pair) => pair.at,
        }
    }
}

impl Wait {
    // One more value.
    fn give(&mut self, v: Value)
        requires { length (vals self.old) < 4 }
        ensures { More self.old v self.new }
    {
        self.values.push(v);
    }

    // The next part, behind which it goes.
    fn step(&mut self, program: &Program) -> Option<Job>
        ensures told { result ≡ next_job self.old }
        ensures now { self.new ≡ past_job program.now self.old }
    {
        if self.left == 0 {
            return None;
        }
        let job = Job {
            at: self.next,
            ..self.job
        };
        self.next = program.end(self.next);
        self.left -= 1;
        Some(job)
    }
}

impl Pairs {
    // The next pair, behind which it goes.
    fn step(&mut self) -> Option<Pair>
        ensures told { result ≡ next_pair self.old }
        ensures now { self.new ≡ past_pair self.old }
    {
        let next = self.next as usize;
        let one = *self.ones.as_slice().get(next)?;
        let other = *self.others.as_slice().get(next)?;
        self.next += 1;
        Some(Pair {
            at: self.at,
            one,
            other,
        })
    }
}

impl Frame {
    // Takes a value, and goes on; passes it on; or has no rule for it.
    pub(crate) fn take(&mut self, v: Value) -> Given
        requires { Roomy self.old }
        ensures told { result ≡ taken self.old v }
        ensures now { WithIt self.old v self.new }
    {
        match self {
            Frame::Passes => Given::Done,
            Frame::Waits(wait) => {
                wait.give(v);
                Given::Goes
            }
            Frame::Compares(pairs) => match v {
                Value::Boolean(true) => Given::Goes,
                Value::Boolean(false) => Given::Done,
                Value::Unit | Value::Number(_) | Value::Place(_) => Given::Halts(pairs.at),
            },
        }
    }

    // The next part, behind which it goes; nothing where it only passes a value on.
    pub(crate) fn part(&mut self, program: &Program) -> Option<Part>
        ensures told { result ≡ next_part self.old }
        ensures now { self.new ≡ past_part program.now self.old }
    {
        match self {
            Frame::Passes => None,
            Frame::Waits(wait) => match wait.step(program) {
                Some(job) => Some(Part::Next(Judgement::Of(job))),
                None => Some(Part::Whole(wait.job.at)),
            },
            Frame::Compares(pairs) => match pairs.step() {
                Some(pair) => Some(Part::Next(Judgement::Same(pair))),
                None => Some(Part::Equal),
            },
        }
    }
}
