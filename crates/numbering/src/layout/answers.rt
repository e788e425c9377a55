ghost use Rattle.std.specs.Prelude.{◌≡◌, length, if◌then◌else◌, nat_lt, slice_index};
ghost use Rattle.battery.specs.Tree.{at};
ghost use Rattle.numbering.specs.Places.{firsts_in, functions_in, case_count, case_place, next_first};
ghost use Rattle.numbering.specs.Views.{tokens_in, ends_in};

use super::Layout;
use crate::places::place_at;

impl Layout<'_> {
    pub fn enums(&self) -> usize
        ensures { result ≡ length (firsts_in 0 (tokens_in self.now)) }
    {
        self.firsts.len()
    }

    pub fn functions(&self) -> usize
        ensures { result ≡ length (functions_in 0 (tokens_in self.now)) }
    {
        self.functions.len()
    }

    pub fn function(&self, f: u16) -> Option<usize>
        ensures { result ≡ at (functions_in 0 (tokens_in self.now)) f }
    {
        place_at(&self.functions, f as usize)
    }

    // Where the cases of an enum end: at the next enum's first, or behind the last of all.
    fn next_first(&self, k: u16) -> usize
        ensures { result ≡ next_first (tokens_in self.now) k }
    {
        place_at(&self.firsts, k as usize + 1).unwrap_or(self.cases.len())
    }

    pub fn cases(&self, k: u16) -> Option<usize>
        ensures { result ≡ case_count (tokens_in self.now) k }
    {
        let first = place_at(&self.firsts, k as usize)?;
        Some((first..self.next_first(k)).len())
    }

    pub fn case(&self, k: u16, c: u8) -> Option<usize>
        ensures { result ≡ case_place (tokens_in self.now) k c }
    {
        let first = place_at(&self.firsts, k as usize)?;
        let place = (first..self.next_first(k)).nth(c as usize)?;
        place_at(&self.cases, place)
    }

    // The place after what stands at a place: past the tokens, their end.
    pub fn end(&self, place: usize) -> usize
        ensures { result ≡ (if nat_lt place (length (tokens_in self.now)) then slice_index (ends_in self.now) place else length (tokens_in self.now)) }
    {
        let all = self.tokens.list.len();
        match self.ends[..all].get(place) {
            Some(&end) => end as usize,
            None => all,
        }
    }
}
