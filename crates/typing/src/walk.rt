mod expressions;
mod functions;

ghost use Rattle.std.specs.Prelude.{◌≡◌, ◌+◌, ◌-◌, ◌*◌, ◌≤◌, length};
ghost use Rattle.numbering.specs.Views.{tokens_in};

use battery::Ty;
use numbering::Layout;
use scope::Entry;

// A walk over a card's records: the place that it has come to, and the names bound there, which are the first `bound`
// entries. Each record binds four names at most, so that there is room for all that are to come.
// The bound entries are no `Few`: a walk goes back to an older count.
#[derive(Drop)]
pub(crate) struct Walk<'c, 't> {
    card: &'c Layout<'t>,
    place: usize,
    entries: [Entry<Ty>; 2048],
    bound: usize,
    ghost whole: { length entries ≡ 2048 },
    ghost room: { bound + 4 * (length (tokens_in card.now) - place) ≤ 2048 },
}
