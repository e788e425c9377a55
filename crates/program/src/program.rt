mod build;
mod reads;

ghost use Rattle.std.specs.Prelude.{◌≡◌, length, Some};
ghost use Rattle.battery.specs.Tree.{Card};
ghost use Rattle.few.specs.Listed.{listed};
ghost use Rattle.grammar.specs.Grammar.{card_of};
ghost use Rattle.numbering.specs.Limits.{AllLimited};
ghost use Rattle.numbering.specs.Places.{functions_in};
ghost use Rattle.numbering.specs.Ends.{Ends};

use few::Few;
use numbering::Places;
use table::Token;

// A card as a run has it: its tokens, the place behind what stands at each, its text bytes, and
// where its functions stand.
#[derive(Drop)]
pub struct Program {
    tokens: Few<Token, 512>,
    ends: [u16; 512],
    text: Few<u8, 2048>,
    functions: Places,
    ghost whole: { length ends ≡ 512 },
    ghost ended: { Ends (listed tokens) ends },
    ghost limited: { ∥ AllLimited (listed tokens) ∥₁ },
    ghost defined: { listed functions ≡ functions_in 0 (listed tokens) },
    ghost spelt: { ∥ ((C : Card) × (card_of (listed text) (listed tokens) ≡ Some C)) ∥₁ },
}
