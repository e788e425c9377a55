ghost use Rattle.std.specs.Prelude.{◌≡◌, length, take, drop, if◌then◌else◌, Some, None, nat_le, slice_index};
ghost use Rattle.battery.specs.Tree.{Card, at};
ghost use Rattle.grammar.specs.Grammar.{card_of};
ghost use Rattle.table.specs.Sorts.{head_of, arm_in};
ghost use Rattle.std.specs.Option.{option_map};
ghost use Rattle.cells.specs.Meaning.{text_of};
ghost use Rattle.program.specs.Views.{tokens_in, text_in, ends_in};
ghost use Rattle.program.specs.Called.{OfFunction};

use super::Program;
use crate::Function;
use cells::Text;
use numbering::place_at;
use table::{Arm, Head, Token};

impl Program {
    fn token(&self, place: usize) -> Option<Token>
        ensures { result ≡ at (tokens_in self.now) place }
    {
        self.tokens.as_slice().get(place).copied()
    }

    pub fn head(&self, place: u16) -> Option<Head>
        ensures { result ≡ head_of (at (tokens_in self.now) place) }
    {
        self.token(place as usize)?.head()
    }

    pub fn arm(&self, place: u16) -> Option<Arm>
        ensures { result ≡ arm_in (at (tokens_in self.now) place) }
    {
        self.token(place as usize)?.arm()
    }

    // The place after what stands at a place.
    pub fn end(&self, place: u16) -> u16
        ensures { result ≡ slice_index (ends_in self.now) place }
    {
        self.ends.get(place as usize).copied().unwrap_or(0)
    }

    // A function's body stands behind its DEF, the types of its parameters and that of its result.
    pub fn function(&self, f: u16) -> Option<Function>
        ensures { (C : Card) → card_of (text_in self.now) (tokens_in self.now) ≡ Some C → OfFunction (text_in self.now) (tokens_in self.now) (at C.fns f) result }
    {
        let place = place_at(&self.functions, f as usize)?;
        let parameters = self.token(place)?.parameters()?;
        Some(Function {
            body: (place + 2 + parameters as usize) as u16,
            parameters,
        })
    }

    // The bytes from a place on that are there; nothing where they are more than a text has.
    pub fn text(&self, place: u16, bytes: u8) -> Option<Text>
        ensures { option_map text_of result ≡ (if nat_le (length (take bytes (drop place (text_in self.now)))) 24 then Some (take bytes (drop place (text_in self.now))) else None) }
    {
        let text = self.text.as_slice();
        let from = (place as usize).min(text.len());
        let to = (from + bytes as usize).min(text.len());
        Text::of(&text[from..to])
    }
}
