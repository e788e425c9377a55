mod answers;
mod build;

ghost use Rattle.std.specs.Prelude.{◌≡◌, length};
ghost use Rattle.few.specs.Listed.{listed};
ghost use Rattle.numbering.specs.Places.{firsts_in, cases_in, functions_in};
ghost use Rattle.numbering.specs.Ends.{Ends};

use crate::Tokens;
use crate::places::Places;

// Where a card's enums, cases and functions stand, and where its expressions end.
#[derive(Drop)]
pub struct Layout<'a> {
    tokens: Tokens<'a>,
    firsts: Places,
    cases: Places,
    functions: Places,
    ends: [u16; 512],
    ghost opened: { listed firsts ≡ firsts_in 0 tokens.list.now },
    ghost cased: { listed cases ≡ cases_in 0 tokens.list.now },
    ghost defined: { listed functions ≡ functions_in 0 tokens.list.now },
    ghost whole: { length ends ≡ 512 },
    ghost ended: { Ends tokens.list.now ends },
}
