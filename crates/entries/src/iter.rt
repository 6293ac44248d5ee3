//! The entries one after another.

ghost use Rattle.std.specs.Prelude.{◌≡◌, drop};
ghost use Rattle.std.specs.Iterator.{YieldsFirst, item_count};
ghost use Rattle.entries.specs.Entries.{entry_count, listed};

use crate::{Entries, Entry};
use std::ops::Range;

/// The entries that are still to come, in order.
// kept: an iterator of its own beside those of model, since one for all would need a trait above them and still a
// struct and an impl for each.
#[derive(Drop)]
pub struct Iter<'a> {
    entries: Entries<'a>,
    /// Their numbers,
    numbers: Range<u16>,
    // which end at the count of all
    ghost end: { numbers.end ≡ entry_count entries.bytes.now entries.base },
}

impl<'a> Entries<'a> {
    /// The entries in order, 4,000 at most.
    pub fn iter(self) -> Iter<'a>
        ensures { drop result.numbers.start (listed result.entries) ≡ listed self.entry }
    {
        Iter {
            entries: self,
            numbers: 0..self.count(),
        }
    }
}

impl<'a> Iterator for Iter<'a> {
    type Item = Entry;

    ghost next_gives = { YieldsFirst (λ it. drop it.numbers.start (listed it.entries)) };

    ghost remaining = { item_count (λ it. drop it.numbers.start (listed it.entries)) };

    fn next(&mut self) -> Option<Entry> {
        let i = self.numbers.next()?;
        Some(self.entries.present(i))
    }
}
