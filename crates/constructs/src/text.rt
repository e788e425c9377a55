ghost use Rattle.std.specs.Prelude.{◌≡◌, List, ◌++◌, length, if◌then◌else◌, Some, None, nat_le};
ghost use Rattle.table.specs.declared.token.Head.TheVariants.{Leaf as LEAF, Pair as PAIR};
ghost use Rattle.table.specs.declared.token.Leaf.TheVariants.{Text as STR};
ghost use Rattle.table.specs.declared.token.Pair.TheVariants.{Concat as CONCAT};
ghost use Rattle.battery.specs.declared.value.Value.{Value as Val};
ghost use Rattle.scope.specs.declared.Entry.{Entry};
ghost use Rattle.std.specs.Option.{option_map};
ghost use Rattle.cells.specs.Meaning.{text_of};
ghost use Rattle.frames.specs.Views.{Did};
ghost use Rattle.constructs.specs.Rules.{RuleOf};

use crate::lookups::{placed, text_at};
use crate::values::both;
use crate::whole::Whole;
use battery::Stop;
use cells::{Cell, Text};
use frames::Move;
use stores::Store;

// One text behind the other; nothing where that is more than 24 bytes.
fn joined(a: &Text, b: &Text) -> Option<Text>
    ensures { option_map text_of result ≡ (if nat_le (length (text_of a.now ++ text_of b.now)) 24 then Some (text_of a.now ++ text_of b.now) else None) }
{
    if a.len() + b.len() > 24 {
        return None;
    }
    let mut text = *a;
    for byte in b.as_slice() {
        text.push(*byte);
    }
    Some(text)
}

impl Whole<'_> {
    // CONCAT: the length is tested before anything is put.
    pub(crate) fn concat<S: Store>(&self, store: &mut S) -> Option<Move>
        requires { RuleOf self.now.program.now self.now.wait.now (PAIR CONCAT) }
        ensures most { S.Store.limit store.new ≡ S.Store.limit store.old }
        ensures does { (es : List (Entry Val)) → Did self.now.program.now (S.Store.limit store.old) self.now.wait.now es es (S.Store.cells store.old) (S.Store.cells store.new) result }
    {
        let (a, b) = both(&self.wait.values)?;
        let one = text_at(store, a)?;
        let other = text_at(store, b)?;
        let Some(text) = joined(&one, &other) else {
            return Some(Move::Stops(Stop::TooLong(self.wait.job.at)));
        };
        Some(placed(store, self.wait.job.at, Cell::Text(text)))
    }

    // STR: what the program's text bytes hold for the record, which is never too long.
    pub(crate) fn string<S: Store>(&self, place: u16, bytes: u8, store: &mut S) -> Option<Move>
        requires { RuleOf self.now.program.now self.now.wait.now (LEAF (STR place bytes)) }
        ensures most { S.Store.limit store.new ≡ S.Store.limit store.old }
        ensures does { (es : List (Entry Val)) → Did self.now.program.now (S.Store.limit store.old) self.now.wait.now es es (S.Store.cells store.old) (S.Store.cells store.new) result }
    {
        let text = self.program.text(place, bytes)?;
        Some(placed(store, self.wait.job.at, Cell::Text(text)))
    }
}
