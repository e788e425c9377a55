ghost use Rattle.std.specs.Prelude.{◌≡◌, ℕ, ◌+◌, ◌<◌, ◌≤◌, [], ◌∷◌, ◌++◌, length, slice_set};
ghost use Rattle.battery.specs.Cell.{placed, added};
ghost use Rattle.battery.specs.Tree.{at};
ghost use Rattle.std.specs.Option.{option_map};
ghost use Rattle.cells.specs.Meaning.{meaning};
ghost use Rattle.stores.specs.Bounds.{held_within};
ghost use Rattle.stores.specs.Plain.{held, room, written};

use crate::Store;
use cells::Cell;

// A store over a lent run of cells: the first `used` are its own, and the others keep their contents.
#[derive(Drop)]
pub struct Plain<'a> {
    slots: &'a mut [Cell],
    used: u16,
}

// How many are held.
fn counted(slots: &[Cell], used: u16) -> u16
    ensures len { result ≡ length (held used slots.now) }
    ensures within { result ≤ length slots.now }
{
    slots.len().min(used as usize) as u16
}

// Writes a cell behind those held.
fn write(slots: &mut [Cell], place: u16, cell: Cell)
    requires { place < room slots.old }
    ensures slots { slots.new ≡ slice_set slots.old place cell }
    ensures list { (used : ℕ) → place ≡ length (held used slots.old) → held (place + 1) slots.new ≡ held used slots.old ++ meaning cell ∷ [] }
{
    slots[place as usize] = cell;
}

// The cell at a place of those held.
fn read(slots: &[Cell], used: u16, place: u16) -> Option<Cell>
    ensures { option_map meaning result ≡ at (held used slots.now) place }
{
    let held = &slots[..counted(slots, used) as usize];
    held.get(place as usize).copied()
}

impl<'a> Plain<'a> {
    pub fn new(slots: &'a mut [Cell]) -> Plain<'a>
        ensures list { held result.used result.slots.now ≡ [] }
        ensures slots { result.slots.now ≡ slots.old }
        ensures lent { result.slots.ghost_name ≡ slots.entry.ghost_name }
    {
        Plain { slots, used: 0 }
    }
}

impl<'a> Store for Plain<'a> {
    ghost cells = { λ p. held p.used p.slots.now };

    ghost limit = { λ p. room p.slots.now };

    fn put(&mut self, cell: Cell) -> Option<u16>
        ensures answer { result ≡ placed (room self.old.slots.now) (held self.old.used self.old.slots.now) }
        ensures list { held self.new.used self.new.slots.now ≡ added (room self.old.slots.now) (held self.old.used self.old.slots.now) (meaning cell) }
        ensures most { room self.new.slots.now ≡ room self.old.slots.now }
        ensures slots { self.new.slots.now ≡ written self.old.used self.old.slots.now cell }
        ensures lent { self.new.slots.ghost_name ≡ self.old.slots.ghost_name }
    {
        let place = self.len();
        if place >= self.most() {
            return None;
        }
        write(self.slots, place, cell);
        self.used = place + 1;
        Some(place)
    }

    fn get(&self, place: u16) -> Option<Cell> {
        read(self.slots, self.used, place)
    }

    fn len(&self) -> u16 {
        counted(self.slots, self.used)
    }

    fn most(&self) -> u16 {
        self.slots.len().min(65535) as u16
    }

    fn empty(&mut self)
        ensures list { held self.new.used self.new.slots.now ≡ [] }
        ensures most { room self.new.slots.now ≡ room self.old.slots.now }
        ensures slots { self.new.slots.now ≡ self.old.slots.now }
        ensures lent { self.new.slots.ghost_name ≡ self.old.slots.ghost_name }
    {
        self.used = 0;
    }

    ghost within = { λ p. held_within p.used p.slots.now };
}
