ghost use Rattle.std.specs.Prelude.{◌≡◌, ◌<◌, [], length, None, Ok, OnOk};
ghost use Rattle.image.specs.Bytes.{count_of, text_of, records_of};
ghost use Rattle.image.specs.Header.{header_fault};
ghost use Rattle.table.specs.Naming.{tokens_of, tokens_from};
ghost use Rattle.grammar.specs.Grammar.{misplaced};
ghost use Rattle.numbering.specs.Numbering.{none_seen, misnumbered};
ghost use Rattle.numbering.specs.Views.{tokens_in, OnCard};
ghost use Rattle.verdict.specs.Verdict.{by_types, by_numbers, by_table};
ghost use Rattle.verdict.specs.Order.{check_card};
ghost use Rattle.card.specs.Told.{told};
ghost use Rattle.card.specs.Layers.{known_by, placed_by, numbered_by, types_by, counts_in};

use crate::fault::{Counts, Fault, TableFault};
use grammar::placed;
use image::{Header, Reader};
use numbering::{Layout, Tokens, numbered};
use rules::TypeFault;
use table::{Token, tokens_of};
use typing::typed;

// The tokens of the records behind the header, as many as there is room for.
fn known(image: &[u8], room: &mut [Token]) -> Result<(), TableFault>
    ensures answer { result ≡ known_by (tokens_from image.now 9 0 (length room.old)) }
    ensures tokens { OnOk result (tokens_from image.now 9 0 (length room.old) ≡ Ok room.new) }
{
    tokens_of(Reader::new(image, 9), room).map_err(|record| TableFault::Unknown { record })
}

fn in_place(tokens: &[Token]) -> Result<(), TableFault>
    ensures { result ≡ placed_by (misplaced 0 [] tokens.now) }
{
    Ok(placed(tokens)?)
}

fn in_order(layout: &Layout<'_>, texts: usize) -> Result<(), TableFault>
    ensures { OnCard (tokens_in layout.now) (λ C. result ≡ numbered_by (misnumbered C texts 0 none_seen (tokens_in layout.now))) }
{
    numbered(layout, texts).map_err(|record| TableFault::Misnumbered { record })
}

fn counts(layout: &Layout<'_>) -> Counts
    ensures { OnCard (tokens_in layout.now) (λ C. result ≡ counts_in C) }
{
    Counts {
        enums: layout.enums(),
        functions: layout.functions(),
    }
}

// The counts of a card whose functions have their declared types.
fn well_typed(layout: &Layout<'_>) -> Result<Counts, TypeFault>
    ensures { OnCard (tokens_in layout.now) (λ C. told (types_by result) ≡ by_types C (check_card C)) }
{
    typed(layout)?;
    Ok(counts(layout))
}

// The layers behind the grammar, on the card that the tokens spell.
fn judged(layout: &Layout<'_>, texts: usize) -> Result<Counts, Fault>
    ensures { OnCard (tokens_in layout.now) (λ C. told result ≡ by_numbers C (misnumbered C texts 0 none_seen (tokens_in layout.now))) }
{
    in_order(layout, texts)?;
    Ok(well_typed(layout)?)
}

// The layers behind the header, with room for as many tokens as there are records.
pub(crate) fn read(image: &[u8], header: Header, room: &mut [Token]) -> Result<Counts, Fault>
    requires header { header_fault image.now ≡ None }
    requires texts { header.texts ≡ text_of image.now }
    requires room { length room.old ≡ count_of image.now }
    ensures { told result ≡ by_table image.now (tokens_of (records_of image.now)) }
{
    known(image, room)?;
    in_place(room)?;
    judged(&Layout::of(Tokens { list: room }), header.texts)
}
