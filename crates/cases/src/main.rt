#![tactic(auto)]

ghost use Rattle.std.specs.Prelude.{◌≡◌, ◌+◌, ◌<◌, ◌≤◌, length, IfSome, MatchOption, OnSome};
ghost use Rattle.image.specs.Bytes.{field16, part};

use card::{Line, check};
use image::Reader;
use std::io;
use std::io::Read;

// The next entry's image, behind the two bytes of its length; nothing where the input ends before.
fn entry<'a>(reader: &mut Reader<'a>) -> Option<&'a [u8]>
    ensures whole { MatchOption result (length reader.old.image.now < reader.old.place + 2 + field16 (part reader.old.image.now reader.old.place 2) 0) (λ _. reader.new.place ≤ length reader.old.image.now) }
    ensures given { IfSome result (λ p. p.now ≡ part reader.old.image.now (reader.old.place + 2) (field16 (part reader.old.image.now reader.old.place 2) 0)) }
    ensures place { OnSome result (reader.new.place ≡ reader.old.place + 2 + field16 (part reader.old.image.now reader.old.place 2) 0) }
    ensures image { reader.new.image.now ≡ reader.old.image.now }
{
    let [low, high] = reader.take(2)? else {
        return None;
    };
    reader.take(u16::from_le_bytes([*low, *high]) as usize)
}

// Each image of the input is checked, and its line printed.
fn main(rt: HostRuntime) -> io::Result<()> {
    let mut input = Vec::new(rt.alloc());
    rt.stdin().read_to_end(&mut input)?;
    let mut reader = Reader::new(&input, 0);
    while let Some(image) = entry(&mut reader) {
        let line = Line(check(image));
        println!(rt; "{line}")?;
    }
    Ok(())
}
