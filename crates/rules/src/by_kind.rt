ghost use Rattle.std.specs.Prelude.{◌≡◌};
ghost use Rattle.rules.specs.Rules.{pair_type, if_type, pair_rule, if_rule, declared_rule, leaf_rule};
ghost use Rattle.rules.specs.Typed.{checked_by};
ghost use Rattle.scope.specs.Bound.{scope_of};

use crate::{Broken, TypeFault};
use battery::Ty;
use scope::{Entry, newest};
use table::{Leaf, Pair};

fn pair_type(pair: Pair, a: Ty, b: Ty) -> Option<Ty>
    ensures { result ≡ pair_type pair a b }
{
    match (pair, a, b) {
        (Pair::Calc(_), Ty::Number, Ty::Number) => Some(Ty::Number),
        (Pair::Lt, Ty::Number, Ty::Number) => Some(Ty::Boolean),
        (Pair::Concat, Ty::Text, Ty::Text) => Some(Ty::Text),
        (Pair::Eq, a, b) if a == b => Some(Ty::Boolean),
        (Pair::Seq | Pair::Val(_), _, b) => Some(b),
        _ => None,
    }
}

fn if_type(condition: Ty, a: Ty, b: Ty) -> Option<Ty>
    ensures { result ≡ if_type condition a b }
{
    (condition == Ty::Boolean && a == b).then_some(a)
}

pub(crate) fn pair_rule(at: usize, pair: Pair, parts: &[Ty]) -> Result<Ty, TypeFault>
    ensures { checked_by result ≡ pair_rule at pair parts.now }
{
    let mistyped = Broken::Mistyped.at(at);
    match parts {
        [a, b] => pair_type(pair, *a, *b).ok_or(mistyped),
        _ => Err(mistyped),
    }
}

pub(crate) fn if_rule(at: usize, parts: &[Ty]) -> Result<Ty, TypeFault>
    ensures { checked_by result ≡ if_rule at parts.now }
{
    let mistyped = Broken::Mistyped.at(at);
    match parts {
        [condition, a, b] => if_type(*condition, *a, *b).ok_or(mistyped),
        _ => Err(mistyped),
    }
}

// As many parts as declared, and then of the types declared.
pub(crate) fn declared_rule(
    at: usize,
    parts: &[Ty],
    declared: &[Ty],
    returned: Ty,
) -> Result<Ty, TypeFault>
    ensures { checked_by result ≡ declared_rule at parts.now declared.now returned }
{
    if parts.len() != declared.len() {
        return Err(Broken::Count.at(at));
    }
    if parts != declared {
        return Err(Broken::Mistyped.at(at));
    }
    Ok(returned)
}

pub fn leaf_rule(at: usize, leaf: Leaf, entries: &[Entry<Ty>]) -> Result<Ty, TypeFault>
    ensures { checked_by result ≡ leaf_rule (scope_of entries.now) at leaf }
{
    match leaf {
        Leaf::Unit => Ok(Ty::Unit),
        Leaf::Number(_) => Ok(Ty::Number),
        Leaf::Boolean(_) => Ok(Ty::Boolean),
        Leaf::Text { .. } => Ok(Ty::Text),
        Leaf::Local(name) => newest(entries, name as u32).ok_or(Broken::Unbound.at(at)),
    }
}
