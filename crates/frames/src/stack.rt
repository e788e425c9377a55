ghost use Rattle.std.specs.Prelude.{◌≡◌, ◌+◌, ◌<◌, [], ◌∷◌};
ghost use Rattle.frames.specs.Stacks.{Room, Took, below, held, outcome, waiting_in};
ghost use Rattle.std.specs.Option.{option_map};
ghost use Rattle.frames.specs.Views.{part_of, parted};
ghost use Rattle.frames.specs.declared.data.Frame.TheVariants.{Passes};

use crate::data::{Frame, Given, Part, Stack, Wait};
use battery::Value;
use program::Program;

impl Stack {
    pub fn clear(&mut self)
        ensures { held self.new ≡ [] }
    {
        self.count = 0;
    }

    pub fn push(&mut self, frame: Frame)
        requires { self.old.count < 256 }
        ensures list { held self.new ≡ frame ∷ held self.old }
        ensures count { self.new.count ≡ self.old.count + 1 }
    {
        self.frames[self.count] = frame;
        self.count += 1;
    }

    // The newest frame is no longer open.
    pub fn pop(&mut self)
        ensures { held self.new ≡ below (held self.old) }
    {
        self.count = self.count.saturating_sub(1);
    }

    // The newest frame only passes a value on.
    pub fn pass(&mut self)
        requires { 0 < self.old.count }
        ensures { held self.new ≡ Passes ∷ below (held self.old) }
    {
        self.frames[self.count - 1] = Frame::Passes;
    }

    // Gives a value to the newest frame that waits.
    pub fn give(&mut self, v: Value) -> Given
        requires { Room (held self.old) }
        ensures told { result ≡ outcome (held self.old) v }
        ensures list { Took (held self.old) v (held self.new) }
    {
        while let Some(top) = self.count.checked_sub(1) {
            let frames = &mut self.frames;
            match frames[top].take(v) {
                Given::Done => self.count = top,
                given => return given,
            }
        }
        Given::Done
    }

    // The newest frame, if it waits for its first parts.
    pub fn waiting(&self) -> Option<&Wait>
        ensures { option_map (λ w. w.now) result ≡ waiting_in (held self.now) }
    {
        match &self.frames[self.count.checked_sub(1)?] {
            Frame::Waits(wait) => Some(wait),
            _ => None,
        }
    }

    // The newest frame's next part, behind which it goes.
    pub fn part(&mut self, program: &Program) -> Option<Part>
        ensures told { result ≡ part_of (held self.old) }
        ensures list { held self.new ≡ parted program.now (held self.old) }
    {
        let top = self.count.checked_sub(1)?;
        let frames = &mut self.frames;
        frames[top].part(program)
    }
}
