ghost use Rattle.std.specs.Prelude.{◌≡◌, length};
ghost use Rattle.numbering.specs.Ends.{Ends};
ghost use Rattle.few.specs.Listed.{listed};
ghost use Rattle.numbering.specs.Places.{functions_in};
ghost use Rattle.numbering.specs.Views.{tokens_in};

use super::Layout;
use crate::Tokens;
use crate::ends::ends;
use crate::found::Found;
use crate::places::Places;
use table::Token;

impl<'a> Layout<'a> {
    pub fn of(tokens: Tokens<'a>) -> Layout<'a>
        ensures { tokens_in result ≡ tokens.entry.list.now }
    {
        let Found {
            firsts,
            cases,
            functions,
        } = Found::of(tokens);
        Layout {
            tokens,
            firsts,
            cases,
            functions,
            ends: ends(tokens),
        }
    }

    pub fn tokens(&self) -> &'a [Token]
        ensures { result.now ≡ tokens_in self.now }
    {
        self.tokens.list
    }

    // What outlives the tokens: where functions stand, and where expressions end.
    pub fn into_tables(self) -> (Places, [u16; 512])
        ensures functions { listed result.0 ≡ functions_in 0 (tokens_in self.entry) }
        ensures ends { Ends (tokens_in self.entry) result.1 }
        ensures whole { length result.1 ≡ 512 }
    {
        (self.functions, self.ends)
    }
}
