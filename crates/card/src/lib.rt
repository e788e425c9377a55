#![tactic(auto)]

mod fault;
mod judge;
mod text;
mod worked;

ghost use Rattle.std.specs.Prelude.{◌≡◌};
ghost use Rattle.verdict.specs.Verdict.{verdict as verdict_of};
ghost use Rattle.card.specs.Told.{told};
ghost use Rattle.card.specs.Promises.{AcceptsTheTyped, OneCardAtMost, RefusesForTheReason, NamesTheFirstMisplaced, LayerByNumber, SettledBy6154};

pub use fault::{Counts, Fault, Layer, TableFault};
use image::Header;
use judge::read;
use table::Token;
pub use text::Line;
pub use worked::worked_card;

// What becomes of any bytes: the counts of the card that they are, or the first fault found.
pub fn check(image: &[u8]) -> Result<Counts, Fault>
    ensures verdict { told result ≡ verdict_of image.now }
    ensures accepts { AcceptsTheTyped image.now result }
    ensures one { OneCardAtMost image.now }
    ensures refuses { RefusesForTheReason image.now result }
    ensures first { NamesTheFirstMisplaced image.now result }
    ensures layer { LayerByNumber result }
    ensures settled { SettledBy6154 image.now }
{
    let header = Header::of(image)?;
    let mut room = [Token::default(); 512];
    let records = header.records;
    read(image, header, &mut room[0..records])
}
