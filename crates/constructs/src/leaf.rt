ghost use Rattle.std.specs.Prelude.{◌≡◌, ℕ, List, Some};
ghost use Rattle.battery.specs.Cell.{Cell};
ghost use Rattle.table.specs.declared.token.Head.TheVariants.{Leaf as LEAF};
ghost use Rattle.table.specs.declared.token.Leaf.TheVariants.{Local as LOCAL};
ghost use Rattle.frames.specs.Views.{Did};
ghost use Rattle.constructs.specs.Rules.{RuleOf};

use crate::whole::Whole;
use frames::{Entries, Move};
use scope::newest;

impl Whole<'_> {
    // What the name of a LOCAL is bound to.
    pub(crate) fn local(&self, entries: &Entries, name: u16) -> Option<Move>
        requires { RuleOf self.now.program.now self.now.wait.now (LEAF (LOCAL name)) }
        ensures { (most : ℕ) (cs : List Cell) → Did self.now.program.now most self.now.wait.now entries.now entries.now cs cs result }
    {
        let scope = &entries[self.wait.job.base as usize..self.wait.job.height as usize];
        let v = newest(scope, u32::from(name))?;
        Some(Move::Gives(v))
    }
}
