ghost use Rattle.std.specs.Prelude.{◌≡◌, ℕ, ◌+◌, ◌^◌, ◌<◌, [], ◌∷◌, length, true, false, Some, IfOk};
ghost use Rattle.grammar.specs.Grammar.{want_type, want_expr, want_close, want_cases, want_arms, as_type, as_close, as_expr, as_case, as_arm, expecting, parts, misplaced};
ghost use Rattle.grammar.specs.Found.{found_by};
ghost use Rattle.grammar.specs.Picked.{Picks, after_case, after_arm};

use table::{Head, Token};

// A record that cannot follow those before it, or the records' end, and the innermost group open there.
#[derive(Clone, Copy)]
pub struct Misplaced {
    pub record: usize,
    pub group: Option<usize>,
}

// The CLOSE of a definition.
fn close(token: Token) -> Option<()>
    ensures { Picks as_close (λ K _. K) token result }
{
    token.is_close().then_some(())
}

fn ty(token: Token) -> Option<()>
    ensures { Picks as_type (λ K _. K) token result }
{
    token.ty().map(|_| ())
}

// What begins an expression.
fn head(token: Token) -> Option<Head>
    ensures { (place : ℕ) → Picks (as_expr place) (parts place) token result }
{
    token.head()
}

// The number of a CASE's fields.
fn case(token: Token) -> Option<u8>
    ensures { (enumeration : ℕ) → Picks (as_case enumeration false) (λ K n. after_case enumeration K (Some n)) token result }
{
    token.fields()
}

// The same, or none at the CLOSE behind the last case.
fn case_or_close(token: Token) -> Option<Option<u8>>
    ensures { (enumeration : ℕ) → Picks (as_case enumeration true) (after_case enumeration) token result }
{
    match token {
        Token::Case { fields, .. } => Some(Some(fields)),
        Token::Close => Some(None),
        _ => None,
    }
}

fn arm(token: Token) -> Option<()>
    ensures { (matching : ℕ) → Picks (as_arm matching false) (λ K _. after_arm matching K true) token result }
{
    token.arm().map(|_| ())
}

// Whether an arm begins; else it is the CLOSE behind the last arm.
fn arm_or_close(token: Token) -> Option<bool>
    ensures { (matching : ℕ) → Picks (as_arm matching true) (after_arm matching) token result }
{
    match token {
        Token::Arm { .. } => Some(true),
        Token::Close => Some(false),
        _ => None,
    }
}

// The records still to be read, and the place of the first of them.
#[derive(Drop)]
struct Cursor<'a> {
    rest: &'a [Token],
    at: usize,
    ghost within: { at + length rest.now < 2 ^ 64 },
}

#[tactic(auto, using(crate::proofs::Wanted::wanted))]
impl Cursor<'_> {
    ghost use Rattle.grammar.specs.Reading.{Takes, found_from, found_after, Reads};

    // What is picked of the next record; where nothing is, the record is misplaced and stays.
    fn take<T, F: FnOnce(Token) -> Option<T>>(
        &mut self,
        group: Option<usize>,
        pick: F,
    ) -> Result<T, Misplaced>
        requires { F.IsAlwaysCallable pick }
        ensures { Takes self.old group (F.post pick) result self.new }
    {
        let record = self.at;
        let picked = self
            .rest
            .first()
            .copied()
            .and_then(pick)
            .ok_or(Misplaced { record, group })?;
        self.rest = &self.rest[1..];
        self.at += 1;
        Ok(picked)
    }

    // As `expressions` but for the call: what is read by a function passed in needs a relation more.
    fn types(&mut self, n: usize, group: Option<usize>) -> Result<(), Misplaced>
        ensures { Reads self.old (expecting n want_type) group result self.new }
    {
        for _ in 0..n {
            self.take(group, ty)?;
        }
        Ok(())
    }

    // An enum's cases, one or more, and their CLOSE.
    fn cases(&mut self, enumeration: usize) -> Result<(), Misplaced>
        ensures { Reads self.old (λ K. want_cases enumeration false ∷ K) (Some enumeration) result self.new }
    {
        let group = Some(enumeration);
        let fields = self.take(group, case)?;
        self.types(fields as usize, group)?;
        while let Some(fields) = self.take(group, case_or_close)? {
            self.types(fields as usize, group)?;
        }
        Ok(())
    }

    #[cycle(expressions_and_arms)]
    fn expressions(&mut self, n: usize, group: Option<usize>) -> Result<(), Misplaced>
        ensures { Reads self.old (expecting n want_expr) group result self.new }
    {
        for _ in 0..n {
            self.expression(group)?;
        }
        Ok(())
    }

    // An expression and its parts.
    #[cycle(expressions_and_arms)]
    fn expression(&mut self, group: Option<usize>) -> Result<(), Misplaced>
        ensures { Reads self.old (λ K. want_expr ∷ K) group result self.new }
    {
        let at = self.at;
        match self.take(group, head)? {
            Head::Leaf(_) => Ok(()),
            Head::Pair(_) => self.expressions(2, group),
            Head::If => self.expressions(3, group),
            Head::Many(n, _) => self.expressions(n as usize, group),
            Head::Match => {
                self.expression(Some(at))?;
                self.arms(at)
            }
            Head::Exit => {
                self.take(group, ty)?;
                self.expression(group)
            }
        }
    }

    // The arms of a MATCH, one or more, and their CLOSE.
    #[cycle(expressions_and_arms)]
    fn arms(&mut self, matching: usize) -> Result<(), Misplaced>
        ensures { Reads self.old (λ K. want_arms matching false ∷ K) (Some matching) result self.new }
    {
        let group = Some(matching);
        self.take(group, arm)?;
        self.expression(group)?;
        while self.take(group, arm_or_close)? {
            self.expression(group)?;
        }
        Ok(())
    }

    // The types of a function's parameters and of its result, its body, and the CLOSE.
    fn definition(&mut self, definition: usize, parameters: u8) -> Result<(), Misplaced>
        ensures { Reads self.old (λ K. expecting parameters want_type (want_type ∷ want_expr ∷ want_close definition ∷ K)) (Some definition) result self.new }
    {
        let group = Some(definition);
        self.types(parameters as usize, group)?;
        self.take(group, ty)?;
        self.expression(group)?;
        self.take(group, close)?;
        Ok(())
    }

    // An ENUM or a DEF, before which nothing is open.
    fn item(&mut self) -> Result<(), Misplaced>
        requires { 0 < length self.old.rest.now }
        ensures onward { IfOk result (λ _. self.old.at < self.new.at) }
        ensures wanted { found_from self.old [] ≡ found_after result self.new [] }
    {
        let at = self.at;
        match self.take(None, Some)? {
            Token::Enum(_) => self.cases(at),
            Token::Def { parameters, .. } => self.definition(at, parameters),
            _ => Err(Misplaced {
                record: at,
                group: None,
            }),
        }
    }
}

// The first record that cannot follow those before it, or the records' end where more is wanted.
pub fn placed(tokens: &[Token]) -> Result<(), Misplaced>
    ensures { found_by result ≡ misplaced 0 [] tokens.now }
{
    let mut cursor = Cursor {
        rest: tokens,
        at: 0,
    };
    while !cursor.rest.is_empty() {
        cursor.item()?;
    }
    Ok(())
}
