#![tactic(auto)]

use card::{Line, check};
use std::io;
use std::io::Read;

// An image has at most 9 + 8 * 512 + 2,048 = 6,153 bytes. Whatever has more is refused by its first
// nine bytes or its length, so that the first 6,154 bytes settle the verdict on all of them: `check`
// ensures that. They are held with no heap, so that no want of memory stands before a verdict.
fn main(rt: HostRuntime) -> io::Result<()> {
    let mut image = [0u8; 6154];
    let mut room = image.as_mut_slice();
    let read = io::copy(&mut rt.stdin().take(6154), &mut room)? as usize;
    let line = Line(check(&image[..read.min(6154)]));
    println!(rt; "{line}")
}
