ghost use Rattle.std.specs.Prelude.{◌≡◌, ℕ, Some};
ghost use Rattle.table.specs.declared.token.Head.TheVariants.{Match as MATCH};
ghost use Rattle.battery.specs.Rules.{arm_of};
ghost use Rattle.program.specs.Stands.{arms_at, ArmsStand};
ghost use Rattle.program.specs.Views.{tokens_in, text_in};
ghost use Rattle.frames.specs.Views.{Did};
ghost use Rattle.constructs.specs.Rules.{RuleOf};
ghost use Rattle.constructs.specs.Armed.{OfArm};

use crate::binding::bind_above;
use crate::lookups::enum_at;
use crate::values::only;
use crate::whole::Whole;
use frames::{Entries, Job, Judgement, Move};
use program::Program;
use stores::Store;
use table::Arm;

// The arm of a case, among those that stand from a place on, and where its part begins.
fn arm_for(program: &Program, from: u16, case: u8) -> Option<(Arm, u16)>
    requires { ArmsStand (text_in program.now) (tokens_in program.now) from }
    ensures { OfArm (text_in program.now) (tokens_in program.now) (arm_of (arms_at (text_in program.now) (tokens_in program.now) from) case) result }
{
    let mut place = from;
    while let Some(arm) = program.arm(place) {
        let part = place + 1;
        if case == arm.case {
            return Some((arm, part));
        }
        place = program.end(part);
    }
    None
}

impl Whole<'_> {
    // MATCH: the arm of the value's case, with its fields bound.
    pub(crate) fn matching<S: Store>(&self, entries: &mut Entries, store: &S) -> Option<Move>
        requires { RuleOf self.now.program.now self.now.wait.now MATCH }
        ensures { (most : ℕ) → Did self.now.program.now most self.now.wait.now entries.old entries.new (S.Store.cells store.now) (S.Store.cells store.now) result }
    {
        let v = only(&self.wait.values)?;
        let value = enum_at(store, v)?;
        let from = self.program.end(self.wait.job.at + 1);
        let (arm, part) = arm_for(self.program, from, value.case)?;
        let fields = value.fields.as_slice();
        if fields.len() != arm.names as usize {
            return None;
        }
        bind_above(
            entries,
            self.wait.job.base,
            self.wait.job.height,
            arm.first,
            fields,
        );
        Some(Move::Goes(Judgement::Of(Job {
            at: part,
            base: self.wait.job.base,
            height: self.wait.job.height + fields.len() as u16,
        })))
    }
}
