ghost use Rattle.std.specs.Prelude.{◌≡◌, Some};
ghost use Rattle.table.specs.Sorts.{head_of, arm_in, type_of, field_count, parameter_count, is_close};

use battery::{Arith, Ty};

// A record that the table knows, by its name and the fields that it names.
#[derive(Clone, Copy, Default)]
pub enum Token {
    #[default]
    Close,
    Enum(u16),
    Case { fields: u8, number: u16 },
    Def { parameters: u8, number: u16 },
    Ty(Ty),
    Arm { names: u8, first: u16, case: u8 },
    Expr(Head),
}

// An ARM: how many names it binds, the first of them, and its case.
#[derive(Clone, Copy)]
pub struct Arm {
    pub names: u8,
    pub first: u16,
    pub case: u8,
}

// What begins an expression, by the parts that follow it.
#[derive(Clone, Copy)]
pub enum Head {
    Leaf(Leaf),
    Pair(Pair),
    If,
    Match,
    Exit,
    Many(u8, Many),
}

// No part follows.
#[derive(Clone, Copy)]
pub enum Leaf {
    Unit,
    Number(i32),
    Boolean(bool),
    Text { place: u16, length: u8 },
    Local(u16),
}

// Two parts follow.
#[derive(Clone, Copy)]
pub enum Pair {
    Calc(Arith),
    Concat,
    Eq,
    Lt,
    Seq,
    Val(u16),
}

// As many parts follow as the record says.
#[derive(Clone, Copy)]
pub enum Many {
    Call(u16),
    Make { of: u16, case: u8 },
}

impl Token {
    pub fn head(self) -> Option<Head>
        ensures { result ≡ head_of (Some self) }
    {
        match self {
            Token::Expr(head) => Some(head),
            _ => None,
        }
    }

    pub fn arm(self) -> Option<Arm>
        ensures { result ≡ arm_in (Some self) }
    {
        match self {
            Token::Arm { names, first, case } => Some(Arm { names, first, case }),
            _ => None,
        }
    }

    pub fn ty(self) -> Option<Ty>
        ensures { result ≡ type_of (Some self) }
    {
        match self {
            Token::Ty(ty) => Some(ty),
            _ => None,
        }
    }

    // How many fields a CASE has.
    pub fn fields(self) -> Option<u8>
        ensures { result ≡ field_count (Some self) }
    {
        match self {
            Token::Case { fields, .. } => Some(fields),
            _ => None,
        }
    }

    // How many parameters a DEF has.
    pub fn parameters(self) -> Option<u8>
        ensures { result ≡ parameter_count (Some self) }
    {
        match self {
            Token::Def { parameters, .. } => Some(parameters),
            _ => None,
        }
    }

    pub fn is_close(self) -> bool
        ensures { result ≡ is_close (Some self) }
    {
        matches!(self, Token::Close)
    }
}
