ghost use Rattle.std.specs.Prelude.{◌≤◌, length};
ghost use Rattle.numbering.specs.Limits.{AllLimited};

use table::Token;

// A card's tokens: no more than an image has records, and each as the table allows it.
#[derive(Clone, Copy)]
pub struct Tokens<'a> {
    pub list: &'a [Token],
    ghost few: { length list.now ≤ 512 },
    ghost limited: { ∥ AllLimited list.now ∥₁ },
}
