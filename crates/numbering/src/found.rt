ghost use Rattle.std.specs.Prelude.{◌≡◌, ◌<◌, [], ◌∷◌, ◌++◌, length};
ghost use Rattle.few.specs.Listed.{listed};
ghost use Rattle.numbering.specs.Places.{firsts_in, cases_in, functions_in};

use crate::Tokens;
use crate::places::Places;
use table::Token;

// Where enums, cases and functions stand, as far as the tokens were read.
#[derive(Drop)]
pub struct Found {
    pub firsts: Places,
    pub cases: Places,
    pub functions: Places,
}

impl Found {
    fn new() -> Found
        ensures { (listed result.firsts ≡ []) × (listed result.cases ≡ []) × (listed result.functions ≡ []) }
    {
        Found {
            firsts: Places::new(),
            cases: Places::new(),
            functions: Places::new(),
        }
    }

    // An enum's first case is the next that comes.
    fn note(&mut self, place: u16, token: Token)
        requires firsts { length (listed self.old.firsts) < 512 }
        requires cases { length (listed self.old.cases) < 512 }
        requires functions { length (listed self.old.functions) < 512 }
        ensures firsts { listed self.new.firsts ≡ listed self.old.firsts ++ firsts_in (length (listed self.old.cases)) (token ∷ []) }
        ensures cases { listed self.new.cases ≡ listed self.old.cases ++ cases_in place (token ∷ []) }
        ensures functions { listed self.new.functions ≡ listed self.old.functions ++ functions_in place (token ∷ []) }
    {
        match token {
            Token::Enum(_) => self.firsts.push(self.cases.len() as u16),
            Token::Case { .. } => self.cases.push(place),
            Token::Def { .. } => self.functions.push(place),
            Token::Close | Token::Ty(_) | Token::Arm { .. } | Token::Expr(_) => {}
        }
    }

    pub(crate) fn of(tokens: Tokens<'_>) -> Found
        ensures firsts { listed result.firsts ≡ firsts_in 0 tokens.entry.list.now }
        ensures cases { listed result.cases ≡ cases_in 0 tokens.entry.list.now }
        ensures functions { listed result.functions ≡ functions_in 0 tokens.entry.list.now }
    {
        let mut found = Found::new();
        for (i, token) in tokens.list.iter().enumerate() {
            found.note(i as u16, *token);
        }
        found
    }
}
