ghost use Rattle.std.specs.Prelude.{◌≡◌};
ghost use Rattle.battery.specs.Tree.{at};
ghost use Rattle.few.specs.Listed.{listed};

use few::Few;

// Places of tokens, in order: a card has at most 512.
pub type Places = Few<u16, 512>;

pub fn place_at(places: &Places, i: usize) -> Option<usize>
    ensures { result ≡ at (listed places.now) i }
{
    places.as_slice().get(i).map(|&place| place as usize)
}
