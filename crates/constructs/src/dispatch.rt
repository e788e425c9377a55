ghost use Rattle.std.specs.Prelude.{◌≡◌, Some};
ghost use Rattle.table.specs.declared.token.Head.TheVariants.{Leaf as LEAF, Pair as PAIR};
ghost use Rattle.frames.specs.Views.{Did, Ready};
ghost use Rattle.constructs.specs.Rules.{RuleOf};

use crate::whole::Whole;
use battery::Value;
use frames::{Entries, Move, Wait};
use program::Program;
use stores::Store;
use table::{Head, Leaf, Many, Pair};

impl Whole<'_> {
    fn leaf_rule<S: Store>(&self, entries: &Entries, store: &mut S, leaf: Leaf) -> Option<Move>
        requires { RuleOf self.now.program.now self.now.wait.now (LEAF leaf) }
        ensures most { S.Store.limit store.new ≡ S.Store.limit store.old }
        ensures does { Did self.now.program.now (S.Store.limit store.old) self.now.wait.now entries.now entries.now (S.Store.cells store.old) (S.Store.cells store.new) result }
    {
        match leaf {
            Leaf::Unit => Some(Move::Gives(Value::Unit)),
            Leaf::Number(n) => Some(Move::Gives(Value::Number(n))),
            Leaf::Boolean(b) => Some(Move::Gives(Value::Boolean(b))),
            Leaf::Text { place, length } => self.string(place, length, store),
            Leaf::Local(name) => self.local(entries, name),
        }
    }

    fn pair_rule<S: Store>(&self, entries: &mut Entries, store: &mut S, pair: Pair) -> Option<Move>
        requires { RuleOf self.now.program.now self.now.wait.now (PAIR pair) }
        ensures most { S.Store.limit store.new ≡ S.Store.limit store.old }
        ensures does { Did self.now.program.now (S.Store.limit store.old) self.now.wait.now entries.old entries.new (S.Store.cells store.old) (S.Store.cells store.new) result }
    {
        match pair {
            Pair::Calc(op) => self.calc(op),
            Pair::Concat => self.concat(store),
            Pair::Eq => self.equal(),
            Pair::Lt => self.less(),
            Pair::Seq => self.sequence(),
            Pair::Val(name) => self.val(entries, name),
        }
    }
}

// What the rule of a frame's expression does, once its first parts have their values.
pub fn rule<S: Store>(
    program: &Program,
    entries: &mut Entries,
    wait: &Wait,
    store: &mut S,
) -> Option<Move>
    requires { Ready program.now wait.now }
    ensures most { S.Store.limit store.new ≡ S.Store.limit store.old }
    ensures does { Did program.now (S.Store.limit store.old) wait.now entries.old entries.new (S.Store.cells store.old) (S.Store.cells store.new) result }
{
    let whole = Whole { program, wait };
    match program.head(wait.job.at)? {
        Head::Leaf(leaf) => whole.leaf_rule(entries, store, leaf),
        Head::Pair(pair) => whole.pair_rule(entries, store, pair),
        Head::If => whole.branch(),
        Head::Match => whole.matching(entries, store),
        Head::Exit => whole.exit(store),
        Head::Many(_, Many::Call(f)) => whole.call(entries, f),
        Head::Many(_, Many::Make { of, case }) => Some(whole.make(store, of, case)),
    }
}
