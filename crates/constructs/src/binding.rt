ghost use Rattle.std.specs.Prelude.{◌≡◌, ◌+◌, ◌-◌, ◌≤◌, length};
ghost use Rattle.battery.specs.Tree.{bind};
ghost use Rattle.frames.specs.Views.{window, Agree};

use battery::Value;
use frames::Entries;
use scope::bind_all;

// Binds the names from `first` on to the values, above a scope; what lies below stays.
pub(crate) fn bind_above(
    entries: &mut Entries,
    base: u16,
    height: u16,
    first: u16,
    values: &[Value],
)
    requires based { base ≤ height }
    requires few { length values.now ≤ 4 }
    requires room { height + length values.now ≤ 1028 }
    ensures agree { Agree entries.old entries.new height }
    ensures scope { window entries.new base (height + length values.now - base) ≡ bind first values.now (window entries.old base (height - base)) }
{
    let count = (height - base) as usize;
    let part = &mut entries[base as usize..];
    // There is room.
    let _ = bind_all(part, count, first, values);
}
