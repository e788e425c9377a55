ghost use Rattle.std.specs.Prelude.{◌≡◌, ℕ, List, Some};
ghost use Rattle.battery.specs.Cell.{Cell};
ghost use Rattle.table.specs.declared.token.Head.TheVariants.{Pair as PAIR, If as IF};
ghost use Rattle.table.specs.declared.token.Pair.TheVariants.{Calc as CALC, Eq as EQ, Lt as LT, Seq as SEQ, Val as VAL};
ghost use Rattle.frames.specs.Views.{Still, Did};
ghost use Rattle.constructs.specs.Rules.{RuleOf};

use crate::binding::bind_above;
use crate::numbers::calculated;
use crate::values::{boolean, both, both_numbers, only};
use crate::whole::Whole;
use battery::{Arith, Value};
use frames::{Entries, Job, Judgement, Move, Pair};

impl Whole<'_> {
    // CALC: a number of two numbers.
    pub(crate) fn calc(&self, op: Arith) -> Option<Move>
        requires { RuleOf self.now.program.now self.now.wait.now (PAIR (CALC op)) }
        ensures { Still self.now.program.now self.now.wait.now result }
    {
        let (m, n) = both_numbers(&self.wait.values)?;
        Some(calculated(self.wait.job.at, op, m, n))
    }

    // LT: whether the first of two numbers is less.
    pub(crate) fn less(&self) -> Option<Move>
        requires { RuleOf self.now.program.now self.now.wait.now (PAIR LT) }
        ensures { Still self.now.program.now self.now.wait.now result }
    {
        let (m, n) = both_numbers(&self.wait.values)?;
        Some(Move::Gives(Value::Boolean(m < n)))
    }

    // EQ: on to the comparison of the two values.
    pub(crate) fn equal(&self) -> Option<Move>
        requires { RuleOf self.now.program.now self.now.wait.now (PAIR EQ) }
        ensures { Still self.now.program.now self.now.wait.now result }
    {
        let (one, other) = both(&self.wait.values)?;
        Some(Move::Goes(Judgement::Same(Pair {
            at: self.wait.job.at,
            one,
            other,
        })))
    }

    // SEQ: on to the second part, whatever the first came to.
    pub(crate) fn sequence(&self) -> Option<Move>
        requires { RuleOf self.now.program.now self.now.wait.now (PAIR SEQ) }
        ensures { Still self.now.program.now self.now.wait.now result }
    {
        only(&self.wait.values)?;
        Some(Move::Goes(Judgement::Of(Job {
            at: self.program.end(self.wait.job.at + 1),
            ..self.wait.job
        })))
    }

    // IF: on to the second part, or to the third, which stands behind it.
    pub(crate) fn branch(&self) -> Option<Move>
        requires { RuleOf self.now.program.now self.now.wait.now IF }
        ensures { Still self.now.program.now self.now.wait.now result }
    {
        let yes = boolean(only(&self.wait.values)?)?;
        let first = self.program.end(self.wait.job.at + 1);
        let at = if yes { first } else { self.program.end(first) };
        Some(Move::Goes(Judgement::Of(Job {
            at,
            ..self.wait.job
        })))
    }

    // VAL: on to the second part, with the name bound to what the first came to.
    pub(crate) fn val(&self, entries: &mut Entries, name: u16) -> Option<Move>
        requires { RuleOf self.now.program.now self.now.wait.now (PAIR (VAL name)) }
        ensures { (most : ℕ) (cs : List Cell) → Did self.now.program.now most self.now.wait.now entries.old entries.new cs cs result }
    {
        let v = only(&self.wait.values)?;
        bind_above(
            entries,
            self.wait.job.base,
            self.wait.job.height,
            name,
            &[v],
        );
        Some(Move::Goes(Judgement::Of(Job {
            at: self.program.end(self.wait.job.at + 1),
            base: self.wait.job.base,
            height: self.wait.job.height + 1,
        })))
    }
}
