ghost use Rattle.std.specs.Prelude.{◌≡◌, ◌<◌, length};
ghost use Rattle.std.specs.List.{list_all, range_with_len};
ghost use Rattle.std.specs.Iterator.{YieldsFirst, item_count};
ghost use Rattle.numbering.specs.Views.{tokens_in, ends_in};
ghost use Rattle.rules.specs.Arming.{next_place, arms_left, taken_once, names_fit, fields_in};
ghost use Rattle.rules.specs.Typed.{FitAt};

use crate::standing::{arm_at, fields_at};
use numbering::Layout;
use table::Arm;

// The arms of a MATCH from one on, in order.
#[derive(Clone, Copy)]
struct ArmsFrom<'c, 't> {
    card: &'c Layout<'t>,
    place: usize,
}

// The place behind an arm's part: another ARM, or the CLOSE of them all.
fn next_place(card: &Layout<'_>, arm: usize) -> usize
    requires { arm < length (tokens_in card.now) }
    ensures { result ≡ next_place (tokens_in card.now) (ends_in card.now) arm }
{
    card.end(arm + 1).max(arm + 1)
}

impl Iterator for ArmsFrom<'_, '_> {
    type Item = Arm;

    ghost next_gives = { YieldsFirst arms_left };

    ghost remaining = { item_count arms_left };

    fn next(&mut self) -> Option<Arm> {
        let arm = arm_at(self.card, self.place)?;
        self.place = next_place(self.card, self.place);
        Some(arm)
    }
}

// How many fields a case has, if it is there.
fn fields_of(card: &Layout<'_>, of: u16, case: u8) -> Option<u8>
    ensures { result ≡ fields_in (tokens_in card.now) of case }
{
    fields_at(card, card.case(of, case)?)
}

// As many names as the case has fields.
fn names_fit(card: &Layout<'_>, of: u16, arm: Arm) -> bool
    ensures { result ≡ names_fit (tokens_in card.now) of arm }
{
    fields_of(card, of, arm.case) == Some(arm.names)
}

impl ArmsFrom<'_, '_> {
    // One of them is of a case.
    fn taken_once(self, case: usize) -> bool
        ensures { result ≡ taken_once (arms_left self.entry) case }
    {
        self.filter(|arm| arm.case as usize == case).count() == 1
    }

    fn each_once(self, cases: usize) -> bool
        ensures { result ≡ list_all (taken_once (arms_left self.entry)) (range_with_len 0 cases) }
    {
        (0..cases).all(|case| self.taken_once(case))
    }

    // Each is of a case of the enum, with as many names as fields.
    fn all_named(mut self, of: u16) -> bool
        ensures { result ≡ list_all (names_fit (tokens_in self.entry.card.now) of) (arms_left self.entry) }
    {
        let card = self.card;
        self.all(|arm| names_fit(card, of, arm))
    }
}

// One arm for each of the cases below a number, all of the enum and with as many names as fields.
pub fn arms_fit(card: &Layout<'_>, arm: usize, of: u16, cases: usize) -> bool
    ensures { FitAt (tokens_in card.now) of cases arm result }
{
    let arms = ArmsFrom { card, place: arm };
    arms.each_once(cases) && arms.all_named(of)
}
