ghost use Rattle.std.specs.Prelude.{◌≡◌, ◌+◌, ◌<◌, ◌≤◌, length, MatchOption};
ghost use Rattle.image.specs.Bytes.{part as part_of, record_in};

use crate::Record;

// A lent image and a place in it.
#[derive(Clone, Copy)]
pub struct Reader<'a> {
    image: &'a [u8],
    place: usize,
}

impl<'a> Reader<'a> {
    pub fn new(image: &'a [u8], place: usize) -> Reader<'a>
        ensures { (result.image.now ≡ image.now) × (result.place ≡ place) }
    {
        Reader { image, place }
    }

    // The next n bytes, as a part of the image itself; nothing where the image has fewer.
    pub fn take(&mut self, n: usize) -> Option<&'a [u8]>
        ensures given { MatchOption result (length self.old.image.now < self.old.place + n) (λ p. (self.old.place + n ≤ length self.old.image.now) × (p.now ≡ part_of self.old.image.now self.old.place n) × (length p.now ≡ n)) }
        ensures image { self.new.image.now ≡ self.old.image.now }
        ensures place { MatchOption result (self.new.place ≡ self.old.place) (λ _. self.new.place ≡ self.old.place + n) }
    {
        let part = self.image.get(self.place..)?.get(..n)?;
        self.place += n;
        Some(part)
    }

    // The next record, eight bytes taken apart; nothing where the image has fewer.
    pub fn record(&mut self) -> Option<Record>
        ensures given { result ≡ record_in self.old.image.now self.old.place }
        ensures image { self.new.image.now ≡ self.old.image.now }
        ensures place { MatchOption result (self.new.place ≡ self.old.place) (λ _. self.new.place ≡ self.old.place + 8) }
    {
        Record::of(self.take(8)?)
    }

    // The text of n bytes that begins a number of bytes from the place.
    pub fn text(&self, from: usize, n: usize) -> Option<&'a [u8]>
        ensures { MatchOption result (length self.now.image.now < self.now.place + from + n) (λ p. (self.now.place + from + n ≤ length self.now.image.now) × (p.now ≡ part_of self.now.image.now (self.now.place + from) n)) }
    {
        self.image.get(self.place..)?.get(from..)?.get(..n)
    }
}
