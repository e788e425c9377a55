mod past;

ghost use Rattle.std.specs.Prelude.{◌≡◌, ◌<◌, length};
ghost use Rattle.numbering.specs.Ends.{Ends};

use crate::Tokens;

// The table as far as it is filled: behind a place, from the last token back.
#[derive(Clone, Copy)]
struct Filled<'a, 'b> {
    tokens: Tokens<'a>,
    ends: &'b [u16; 512],
    place: u16,
    ghost within: { place < length tokens.list.now },
}

// The place after each expression: what is behind a place is known before it.
pub(crate) fn ends(tokens: Tokens<'_>) -> [u16; 512]
    ensures ends { Ends tokens.entry.list.now result }
    ensures whole { length result ≡ 512 }
{
    let mut ends = [0; 512];
    for (i, token) in tokens.list.iter().enumerate().rev() {
        let filled = Filled {
            tokens,
            ends: &ends,
            place: i as u16,
        };
        ends[i] = filled.past(*token);
    }
    ends
}
