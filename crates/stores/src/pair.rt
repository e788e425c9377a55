ghost use Rattle.std.specs.Prelude.{◌≡◌, ◌<◌, List, [], ◌∷◌, ◌++◌, length, Some};
ghost use Rattle.battery.specs.Cell.{Cell as Held, placed, added};
ghost use Rattle.cells.specs.Meaning.{meaning};
ghost use Rattle.stores.specs.Lies.{Lies};
ghost use Rattle.stores.specs.Bounds.{chain_within};
ghost use Rattle.stores.specs.Pair.{chain, sum};

use crate::Store;
use cells::Cell;

// Two stores, one filled after the other.
#[derive(Drop)]
pub struct Pair<P, Q> {
    first: P,
    second: Q,
}

// Where a place lies: in one of the two stores, by its place there.
#[derive(Clone, Copy)]
enum Side {
    First(u16),
    Second(u16),
}

// The length of two lists together, from their lengths and the most of the first.
fn chained(first: u16, most: u16, second: u16) -> u16
    ensures { (xs ys : List Held) → first ≡ length xs → second ≡ length ys → result ≡ length (chain xs most ys) }
{
    if first < most {
        first
    } else {
        first.saturating_add(second)
    }
}

impl<P: Store, Q: Store> Pair<P, Q> {
    // Empties both.
    pub fn new(first: P, second: Q) -> Pair<P, Q>
        ensures first { P.Store.cells result.first ≡ [] }
        ensures second { Q.Store.cells result.second ≡ [] }
        ensures list { chain (P.Store.cells result.first) (P.Store.limit result.first) (Q.Store.cells result.second) ≡ [] }
        ensures most { sum (P.Store.limit result.first) (Q.Store.limit result.second) ≡ sum (P.Store.limit first) (Q.Store.limit second) }
    {
        let mut pair = Pair { first, second };
        pair.empty();
        pair
    }

    // Adds a cell, for which there is room, and answers its place. Where the first store gets full
    // the second is emptied, since it counts from then on.
    fn add(&mut self, cell: Cell) -> u16
        requires { length (chain (P.Store.cells self.old.first) (P.Store.limit self.old.first) (Q.Store.cells self.old.second)) < sum (P.Store.limit self.old.first) (Q.Store.limit self.old.second) }
        ensures answer { Some result ≡ placed (sum (P.Store.limit self.old.first) (Q.Store.limit self.old.second)) (chain (P.Store.cells self.old.first) (P.Store.limit self.old.first) (Q.Store.cells self.old.second)) }
        ensures list { chain (P.Store.cells self.new.first) (P.Store.limit self.new.first) (Q.Store.cells self.new.second) ≡ added (sum (P.Store.limit self.old.first) (Q.Store.limit self.old.second)) (chain (P.Store.cells self.old.first) (P.Store.limit self.old.first) (Q.Store.cells self.old.second)) (meaning cell) }
        ensures most { sum (P.Store.limit self.new.first) (Q.Store.limit self.new.second) ≡ sum (P.Store.limit self.old.first) (Q.Store.limit self.old.second) }
    {
        let place = self.len();
        let len = self.first.len();
        let most = self.first.most();
        if len >= most {
            let _ = self.second.put(cell);
            return place;
        }
        let _ = self.first.put(cell);
        if len + 1 == most {
            self.second.empty()
        }
        place
    }

    // Nothing where the place lies in neither.
    fn side(&self, place: u16) -> Option<Side>
        ensures { Lies (P.Store.cells self.now.first) (P.Store.limit self.now.first) (Q.Store.cells self.now.second) place result }
    {
        let first = self.first.len();
        if place < first {
            return Some(Side::First(place));
        }
        if place < chained(first, self.first.most(), self.second.len()) {
            return Some(Side::Second(place - first));
        }
        None
    }
}

impl<P: Store, Q: Store> Store for Pair<P, Q> {
    ghost cells = { λ p. chain (P.Store.cells p.first) (P.Store.limit p.first) (Q.Store.cells p.second) };

    ghost limit = { λ p. sum (P.Store.limit p.first) (Q.Store.limit p.second) };

    fn put(&mut self, cell: Cell) -> Option<u16> {
        if self.len() >= self.most() {
            return None;
        }
        Some(self.add(cell))
    }

    fn get(&self, place: u16) -> Option<Cell> {
        match self.side(place)? {
            Side::First(place) => self.first.get(place),
            Side::Second(place) => self.second.get(place),
        }
    }

    fn len(&self) -> u16 {
        chained(self.first.len(), self.first.most(), self.second.len())
    }

    fn most(&self) -> u16 {
        self.first.most().saturating_add(self.second.most())
    }

    fn empty(&mut self)
        ensures first { P.Store.cells self.new.first ≡ [] }
        ensures second { Q.Store.cells self.new.second ≡ [] }
        ensures list { chain (P.Store.cells self.new.first) (P.Store.limit self.new.first) (Q.Store.cells self.new.second) ≡ [] }
        ensures most { sum (P.Store.limit self.new.first) (Q.Store.limit self.new.second) ≡ sum (P.Store.limit self.old.first) (Q.Store.limit self.old.second) }
    {
        self.first.empty();
        self.second.empty();
    }

    ghost within = { λ p. chain_within (P.Store.cells p.first) (Q.Store.cells p.second) (P.Store.limit p.first) (Q.Store.limit p.second) (P.Store.within p.first) (Q.Store.within p.second) };
}
