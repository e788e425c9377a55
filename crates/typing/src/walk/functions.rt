ghost use Rattle.std.specs.Prelude.{◌≡◌, OnOk};
ghost use Rattle.typing.specs.Functions.{FunctionAt};
ghost use Rattle.typing.specs.Walks.{tokens_at};

use super::Walk;
use battery::Ty;
use numbering::Layout;
use rules::{Broken, TypeFault, function_types};
use scope::{Entry, bind_all};

impl<'c, 't> Walk<'c, 't> {
    pub(crate) fn over(card: &'c Layout<'t>) -> Walk<'c, 't>
        ensures { result.card.now ≡ card.now }
    {
        Walk {
            card,
            place: 0,
            entries: [Entry::default(); 2048],
            bound: 0,
        }
    }

    // A body sees its own parameters alone, and has the type that its DEF declares.
    pub(crate) fn function(&mut self, number: u16) -> Result<(), TypeFault>
        ensures on { OnOk result (tokens_at self.new ≡ tokens_at self.old) }
        ensures is { FunctionAt (tokens_at self.old) number result }
    {
        let Some(place) = self.card.function(number) else {
            return Ok(());
        };
        let Some(signature) = function_types(self.card, number) else {
            return Ok(());
        };
        let n = signature.parameters.len();
        let _ = bind_all(&mut self.entries, 0, 0, signature.parameters.as_slice());
        self.place = place + 2 + n;
        self.bound = n;
        if self.expression()? == signature.result {
            Ok(())
        } else {
            Err(Broken::Mistyped.at(place))
        }
    }
}
