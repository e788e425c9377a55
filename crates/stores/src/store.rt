ghost use Rattle.std.specs.Prelude.{◌≡◌, ℕ, List, [], length};
ghost use Rattle.battery.specs.Cell.{Cell as Held, placed, added};
ghost use Rattle.battery.specs.Tree.{at};
ghost use Rattle.std.specs.Option.{option_map};
ghost use Rattle.cells.specs.Meaning.{meaning};
ghost use Rattle.stores.specs.Within.{Within};

use cells::Cell;

// A list of cells that is never longer than a most, which never changes.
pub trait Store {
    ghost cells: { Self → List Held };

    ghost limit: { Self → ℕ };

    // Adds the cell and answers its place, the old length; at the most nothing is added.
    fn put(&mut self, cell: Cell) -> Option<u16>
        ensures answer { result ≡ placed (limit self.old) (cells self.old) }
        ensures list { cells self.new ≡ added (limit self.old) (cells self.old) (meaning cell) }
        ensures most { limit self.new ≡ limit self.old };

    // The cell at a place, where there is one.
    fn get(&self, place: u16) -> Option<Cell>
        ensures { option_map meaning result ≡ at (cells self.now) place };

    fn len(&self) -> u16
        ensures { result ≡ length (cells self.now) };

    fn most(&self) -> u16
        ensures { result ≡ limit self.now };

    // Leaves no cells, and the whole most for use.
    fn empty(&mut self)
        ensures list { cells self.new ≡ [] }
        ensures most { limit self.new ≡ limit self.old };

    // What each make of store shows: the list is within the most, and the most within 65,535.
    ghost within: { (s : Self) → Within (cells s) (limit s) };
}
