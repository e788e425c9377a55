ghost use Rattle.std.specs.Prelude.{◌≡◌, ◌≤◌, length};
ghost use Rattle.program.specs.Card.{Runs};
ghost use Rattle.program.specs.Views.{if_spelt, spelled_by, spelled};

use super::Program;
use few::Few;
use grammar::placed;
use image::{Header, Reader};
use numbering::{Layout, Tokens};
use table::{Token, tokens_of};

impl Program {
    // Nothing where the tokens spell no card.
    fn on_card(tokens: Tokens<'_>, bytes: &[u8]) -> Option<Program>
        requires some { 1 ≤ length tokens.list.now }
        requires bytes { length bytes.now ≤ 2048 }
        ensures { spelled result ≡ if_spelt bytes.now tokens.entry.list.now }
    {
        placed(tokens.list).ok()?;
        let (functions, ends) = Layout::of(tokens).into_tables();
        Some(Program {
            tokens: Few::of(tokens.list)?,
            ends,
            text: Few::of(bytes)?,
            functions,
        })
    }

    // Nothing where the bytes are no image, or one of no card.
    fn read(image: &[u8]) -> Option<Program>
        ensures { spelled result ≡ spelled_by image.now }
    {
        let header = Header::of(image).ok()?;
        let mut room = [Token::default(); 512];
        let list = &mut room[..header.records];
        tokens_of(Reader::new(image, 9), list).ok()?;
        Program::on_card(Tokens { list }, &image[9 + 8 * header.records..])
    }

    // The program of an image: that of the card whose form its bytes have.
    pub fn of(image: &[u8]) -> Option<Program>
        ensures spelled { spelled result ≡ spelled_by image.now }
        ensures card { Runs image.now result }
    {
        Program::read(image)
    }
}
