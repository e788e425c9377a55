ghost use Rattle.std.specs.Prelude.{◌≡◌};
ghost use Rattle.table.specs.Naming.{type_named, named as named_as, token_of, small as small_of};

use crate::{Head, Kind, Leaf, Many, Pair, Token};
use battery::{Arith, Ty};
use image::Record;

// A length or a case, which the table keeps far below 256.
fn small(c: i32) -> u8
    ensures { result ≡ small_of c }
{
    u8::try_from(c).unwrap_or(0)
}

// The number of a TYPE becomes a type here, and is seen nowhere else.
fn type_named(a: u8, b: u16) -> Ty
    ensures { result ≡ type_named a b }
{
    match a {
        0 => Ty::Unit,
        1 => Ty::Number,
        2 => Ty::Boolean,
        3 => Ty::Text,
        _ => Ty::Enum(b),
    }
}

// A record of a kind whose limits it keeps.
fn named(kind: Kind, r: Record) -> Token
    ensures { result ≡ named_as kind r }
{
    let (number, case) = (r.b, small(r.c));
    match kind {
        Kind::Close => Token::Close,
        Kind::Enum => Token::Enum(number),
        Kind::Case => Token::Case {
            fields: r.a,
            number,
        },
        Kind::Def => Token::Def {
            parameters: r.a,
            number,
        },
        Kind::Ty => Token::Ty(type_named(r.a, r.b)),
        Kind::Arm => Token::Arm {
            names: r.a,
            first: r.b,
            case,
        },
        Kind::Unit => Token::Expr(Head::Leaf(Leaf::Unit)),
        Kind::Number => Token::Expr(Head::Leaf(Leaf::Number(r.c))),
        Kind::Boolean => Token::Expr(Head::Leaf(Leaf::Boolean(r.a == 1))),
        Kind::Text => Token::Expr(Head::Leaf(Leaf::Text {
            place: r.b,
            length: case,
        })),
        Kind::Local => Token::Expr(Head::Leaf(Leaf::Local(r.b))),
        Kind::Add => Token::Expr(Head::Pair(Pair::Calc(Arith::Add))),
        Kind::Mul => Token::Expr(Head::Pair(Pair::Calc(Arith::Mul))),
        Kind::Div => Token::Expr(Head::Pair(Pair::Calc(Arith::Div))),
        Kind::Mod => Token::Expr(Head::Pair(Pair::Calc(Arith::Mod))),
        Kind::Concat => Token::Expr(Head::Pair(Pair::Concat)),
        Kind::Eq => Token::Expr(Head::Pair(Pair::Eq)),
        Kind::Lt => Token::Expr(Head::Pair(Pair::Lt)),
        Kind::Seq => Token::Expr(Head::Pair(Pair::Seq)),
        Kind::Val => Token::Expr(Head::Pair(Pair::Val(r.b))),
        Kind::If => Token::Expr(Head::If),
        Kind::Match => Token::Expr(Head::Match),
        Kind::Exit => Token::Expr(Head::Exit),
        Kind::Call => Token::Expr(Head::Many(r.a, Many::Call(r.b))),
        Kind::Make => Token::Expr(Head::Many(r.a, Many::Make { of: r.b, case })),
    }
}

// Nothing where the table does not know the kind, or does not allow the fields.
pub fn token_of(r: Record) -> Option<Token>
    ensures { result ≡ token_of r }
{
    let kind = Kind::try_from(r.kind).ok()?;
    kind.allows(r).then_some(named(kind, r))
}
