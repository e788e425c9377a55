ghost use Rattle.std.specs.Prelude.{◌≡◌, ℕ, List, Some};
ghost use Rattle.table.specs.declared.token.Head.TheVariants.{Many as MANY};
ghost use Rattle.table.specs.declared.token.Many.TheVariants.{Call as CALL};
ghost use Rattle.battery.specs.Cell.{Cell};
ghost use Rattle.frames.specs.Views.{Did};
ghost use Rattle.constructs.specs.Rules.{RuleOf};

use crate::binding::bind_above;
use crate::whole::Whole;
use frames::{Entries, Job, Judgement, Move};

impl Whole<'_> {
    // CALL: on to the function's body. The callee's scope holds its arguments alone.
    pub(crate) fn call(&self, entries: &mut Entries, f: u16) -> Option<Move>
        requires { (n : ℕ) × RuleOf self.now.program.now self.now.wait.now (MANY n (CALL f)) }
        ensures { (most : ℕ) (cs : List Cell) → Did self.now.program.now most self.now.wait.now entries.old entries.new cs cs result }
    {
        let called = self.program.function(f)?;
        let values = self.wait.values.as_slice();
        if values.len() != called.parameters as usize {
            return None;
        }
        let base = self.wait.job.height;
        bind_above(entries, base, base, 0, values);
        Some(Move::Goes(Judgement::Of(Job {
            at: called.body,
            base,
            height: base + values.len() as u16,
        })))
    }
}
