ghost use Rattle.std.specs.Prelude.{◌≡◌};
ghost use Rattle.battery.specs.Tree.{at};
ghost use Rattle.numbering.specs.Views.{tokens_in};
ghost use Rattle.table.specs.Sorts.{head_of, arm_in, type_of, field_count, parameter_count, is_close};

use battery::Ty;
use numbering::Layout;
use table::{Arm, Head, Token};

fn token(card: &Layout<'_>, place: usize) -> Option<Token>
    ensures { result ≡ at (tokens_in card.now) place }
{
    card.tokens().get(place).copied()
}

pub fn head_at(card: &Layout<'_>, place: usize) -> Option<Head>
    ensures { result ≡ head_of (at (tokens_in card.now) place) }
{
    token(card, place)?.head()
}

pub fn arm_at(card: &Layout<'_>, place: usize) -> Option<Arm>
    ensures { result ≡ arm_in (at (tokens_in card.now) place) }
{
    token(card, place)?.arm()
}

pub fn type_at(card: &Layout<'_>, place: usize) -> Option<Ty>
    ensures { result ≡ type_of (at (tokens_in card.now) place) }
{
    token(card, place)?.ty()
}

pub(crate) fn fields_at(card: &Layout<'_>, place: usize) -> Option<u8>
    ensures { result ≡ field_count (at (tokens_in card.now) place) }
{
    token(card, place)?.fields()
}

pub(crate) fn parameters_at(card: &Layout<'_>, place: usize) -> Option<u8>
    ensures { result ≡ parameter_count (at (tokens_in card.now) place) }
{
    token(card, place)?.parameters()
}

pub fn closes_at(card: &Layout<'_>, place: usize) -> bool
    ensures { result ≡ is_close (at (tokens_in card.now) place) }
{
    token(card, place).is_some_and(Token::is_close)
}
