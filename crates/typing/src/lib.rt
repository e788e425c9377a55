#![tactic(auto)]

mod walk;

ghost use Rattle.std.specs.Prelude.{◌≡◌};
ghost use Rattle.numbering.specs.Views.{tokens_in, OnCard};
ghost use Rattle.verdict.specs.Order.{check_card};
ghost use Rattle.rules.specs.Typed.{checked_by};

use numbering::Layout;
use rules::TypeFault;
use walk::Walk;

// The functions in the card's order: the first fault in typing order.
pub fn typed(card: &Layout<'_>) -> Result<(), TypeFault>
    ensures { OnCard (tokens_in card.now) (λ C. checked_by result ≡ check_card C) }
{
    let mut walk = Walk::over(card);
    for number in 0..card.functions() as u16 {
        walk.function(number)?;
    }
    Ok(())
}
