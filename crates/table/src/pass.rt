ghost use Rattle.std.specs.Prelude.{◌≡◌, ◌+◌, length, Ok, Err, MatchResult, OnSome};
ghost use Rattle.table.specs.Naming.{token_in, tokens_from};

use crate::{Token, token_of};
use image::Reader;

// Nothing where the image has no record more, or the table does not know it.
#[tactic(auto, unfolding(crate::specs::Naming::token_in))]
fn next_token(reader: &mut Reader<'_>) -> Option<Token>
    ensures given { result ≡ token_in reader.old.image.now reader.old.place }
    ensures image { reader.new.image.now ≡ reader.old.image.now }
    ensures place { OnSome result (reader.new.place ≡ reader.old.place + 8) }
{
    token_of(reader.record()?)
}

// The tokens of as many records as there is room for, from the reader's place on; or else the
// lowest record, counted from 0, that the image lacks or that the table does not know.
pub fn tokens_of(mut reader: Reader<'_>, tokens: &mut [Token]) -> Result<(), usize>
    ensures { MatchResult result (λ _. tokens_from reader.entry.image.now reader.entry.place 0 (length tokens.old) ≡ Ok tokens.new) (λ i. tokens_from reader.entry.image.now reader.entry.place 0 (length tokens.old) ≡ Err i) }
{
    for (i, token) in tokens.iter_mut().enumerate() {
        *token = next_token(&mut reader).ok_or(i)?;
    }
    Ok(())
}
