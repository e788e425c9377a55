ghost use Rattle.std.specs.Prelude.{◌≡◌, ℕ, List, Some};
ghost use Rattle.table.specs.declared.token.Head.TheVariants.{Exit as EXIT, Many as MANY};
ghost use Rattle.table.specs.declared.token.Many.TheVariants.{Make as MAKE};
ghost use Rattle.battery.specs.declared.value.Value.{Value as Val};
ghost use Rattle.scope.specs.declared.Entry.{Entry};
ghost use Rattle.frames.specs.Views.{Did};
ghost use Rattle.constructs.specs.Rules.{RuleOf};

use crate::lookups::{placed, text_at};
use crate::values::only;
use crate::whole::Whole;
use battery::Stop;
use cells::{Cell, EnumValue};
use frames::Move;
use stores::Store;

impl Whole<'_> {
    // MAKE. The program says where it stands: no code needs it.
    pub(crate) fn make<S: Store>(&self, store: &mut S, of: u16, case: u8) -> Move
        requires { (n : ℕ) × RuleOf self.now.program.now self.now.wait.now (MANY n (MAKE of case)) }
        ensures most { S.Store.limit store.new ≡ S.Store.limit store.old }
        ensures does { (es : List (Entry Val)) → Did self.now.program.now (S.Store.limit store.old) self.now.wait.now es es (S.Store.cells store.old) (S.Store.cells store.new) (Some result) }
    {
        let fields = self.wait.values;
        placed(
            store,
            self.wait.job.at,
            Cell::Enum(EnumValue { of, case, fields }),
        )
    }

    // EXIT: the value has to be a text's.
    pub(crate) fn exit<S: Store>(&self, store: &S) -> Option<Move>
        requires { RuleOf self.now.program.now self.now.wait.now EXIT }
        ensures { (most : ℕ) (es : List (Entry Val)) → Did self.now.program.now most self.now.wait.now es es (S.Store.cells store.now) (S.Store.cells store.now) result }
    {
        let v = only(&self.wait.values)?;
        text_at(store, v)?;
        Some(Move::Stops(Stop::Exit(self.wait.job.at, v)))
    }
}
