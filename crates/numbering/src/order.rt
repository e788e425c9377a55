ghost use Rattle.std.specs.Prelude.{◌≡◌, ◌<◌, Some, None, MatchResult};
ghost use Rattle.battery.specs.Tree.{at};
ghost use Rattle.numbering.specs.Numbering.{is_there, case_of, type_there, leaf_there, many_there, head_there, none_seen, seen, numbered as numbered_on, misnumbered};
ghost use Rattle.numbering.specs.Views.{tokens_in, OnCard};
ghost use Rattle.numbering.specs.Counts.{counted};

use crate::Layout;
use battery::Ty;
use table::{Head, Leaf, Many, Token};

// How many enums and functions went before, and cases of this enum.
#[derive(Clone, Copy, Default)]
struct Counts {
    enums: usize,
    defs: usize,
    cases: usize,
}

impl Counts {
    // An enum's cases are counted from its record on.
    fn after(self, token: Token) -> Counts
        requires { (self.enums < 512) × ((self.defs < 512) × (self.cases < 512)) }
        ensures { counted result ≡ seen (counted self) token }
    {
        match token {
            Token::Enum(_) => Counts {
                enums: self.enums + 1,
                cases: 0,
                ..self
            },
            Token::Case { .. } => Counts {
                cases: self.cases + 1,
                ..self
            },
            Token::Def { .. } => Counts {
                defs: self.defs + 1,
                ..self
            },
            _ => self,
        }
    }
}

fn has_enum(layout: &Layout<'_>, k: u16) -> bool
    ensures { OnCard (tokens_in layout.now) (λ C. result ≡ is_there (at C.enums k)) }
{
    (k as usize) < layout.enums()
}

fn has_function(layout: &Layout<'_>, f: u16) -> bool
    ensures { OnCard (tokens_in layout.now) (λ C. result ≡ is_there (at C.fns f)) }
{
    (f as usize) < layout.functions()
}

fn has_case(layout: &Layout<'_>, k: u16, c: u8) -> bool
    ensures { OnCard (tokens_in layout.now) (λ C. result ≡ is_there (case_of C k c)) }
{
    layout.case(k, c).is_some()
}

fn type_there(layout: &Layout<'_>, ty: Ty) -> bool
    ensures { OnCard (tokens_in layout.now) (λ C. result ≡ type_there C ty) }
{
    match ty {
        Ty::Enum(k) => has_enum(layout, k),
        _ => true,
    }
}

fn leaf_there(texts: usize, leaf: Leaf) -> bool
    ensures { result ≡ leaf_there texts leaf }
{
    match leaf {
        Leaf::Text { place, length } => place as usize + length as usize <= texts,
        _ => true,
    }
}

fn many_there(layout: &Layout<'_>, many: Many) -> bool
    ensures { OnCard (tokens_in layout.now) (λ C. result ≡ many_there C many) }
{
    match many {
        Many::Call(f) => has_function(layout, f),
        Many::Make { of, case } => has_case(layout, of, case),
    }
}

fn head_there(layout: &Layout<'_>, texts: usize, head: Head) -> bool
    ensures { OnCard (tokens_in layout.now) (λ C. result ≡ head_there C texts head) }
{
    match head {
        Head::Leaf(leaf) => leaf_there(texts, leaf),
        Head::Many(_, many) => many_there(layout, many),
        _ => true,
    }
}

fn in_order(layout: &Layout<'_>, texts: usize, counts: Counts, token: Token) -> bool
    ensures { OnCard (tokens_in layout.now) (λ C. result ≡ numbered_on C texts (counted counts) token) }
{
    match token {
        Token::Enum(k) => k as usize == counts.enums,
        Token::Case { number, .. } => number as usize == counts.cases,
        Token::Def { number, .. } => number as usize == counts.defs,
        Token::Ty(ty) => type_there(layout, ty),
        Token::Expr(head) => head_there(layout, texts, head),
        _ => true,
    }
}

// The lowest record that is numbered out of order, or names what the card lacks.
pub fn numbered(layout: &Layout<'_>, texts: usize) -> Result<(), usize>
    ensures { OnCard (tokens_in layout.now) (λ C. MatchResult result (λ _. misnumbered C texts 0 none_seen (tokens_in layout.now) ≡ None) (λ p. misnumbered C texts 0 none_seen (tokens_in layout.now) ≡ Some p)) }
{
    let mut counts = Counts::default();
    let tokens = layout.tokens();
    for (i, token) in tokens.iter().enumerate() {
        if !in_order(layout, texts, counts, *token) {
            return Err(i);
        }
        counts = counts.after(*token);
    }
    Ok(())
}
