//! Reads a bundle from standard input, and prints the one line that it comes to.

#![tactic(auto)]

ghost use Rattle.std.specs.Prelude.{◌≡◌, ◌+◌, replicate};
ghost use Rattle.fields.specs.Fields.{most_bundle};

use checker::check;
use fields::MAX_BUNDLE;
use input::fill;
use std::io;

/// One byte more than a bundle may have, so that a longer one is seen to be longer.
const ROOM: usize = MAX_BUNDLE + 1;

fn main(rt: HostRuntime) -> io::Result<()> {
    run(&rt)
}

/// Reads, calls and prints.
fn run(rt: &HostRuntime) -> io::Result<()> {
    // kept: an array and the length of what was read: this program has no heap, and `fill` reads into a slice.
    let mut room = empty_room();
    let len = fill(&mut rt.stdin(), &mut room)?;
    let line = check(&room[..len]);
    println!(rt; "{line}")
}

/// Room for a bundle and one byte more, all 0.
fn empty_room() -> [u8; ROOM]
    ensures { result ≡ replicate (most_bundle + 1) 0 }
{
    [0; ROOM]
}
