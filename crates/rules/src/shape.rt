ghost use Rattle.std.specs.Prelude.{◌≡◌};
ghost use Rattle.rules.specs.Shapes.{shape_of};
ghost use Rattle.verdict.specs.Order.{enum_of};

use battery::Ty;
use table::{Head, Leaf, Pair};

// How a head's parts are typed: none, in a scope that grows, as arms, behind a type, or so many in one scope.
#[derive(Clone, Copy)]
pub enum Shape {
    Leaf(Leaf),
    Val(u16),
    Match,
    Exit,
    Plain(u8),
}

pub fn shape_of(head: Head) -> Shape
    ensures { result ≡ shape_of head }
{
    match head {
        Head::Leaf(leaf) => Shape::Leaf(leaf),
        Head::Pair(Pair::Val(name)) => Shape::Val(name),
        Head::Pair(_) => Shape::Plain(2),
        Head::If => Shape::Plain(3),
        Head::Match => Shape::Match,
        Head::Exit => Shape::Exit,
        Head::Many(n, _) => Shape::Plain(n),
    }
}

pub fn enum_of(ty: Ty) -> Option<u16>
    ensures { result ≡ enum_of ty }
{
    match ty {
        Ty::Enum(of) => Some(of),
        _ => None,
    }
}
