//! Entries of five bytes, read where they stand, each with a key: their first fault, and an index that finds them.

#![tactic(auto)]

ghost use Rattle.std.specs.Prelude.{◌≡◌, ◌<◌};
ghost use Rattle.entries.specs.Entries.{entry_number, entry_count};
ghost use Rattle.entries.specs.Keys.{key_at};

use model::ACTIONS_LEN;
use words::{byte_at, word_at};

mod faults;
mod index;
mod iter;
mod keys;

pub use faults::{check_below, check_head, check_length};
pub use index::EntryIndex;
pub use iter::Iter;
pub use keys::{BySource, BySourceAndAction, Key};

/// The most entries of a sheet or a table.
pub const MAX_ENTRIES: usize = 4_000;

/// The most entries that share a key.
pub const MAX_SHARING: u16 = 64;

/// The largest size of a sheet or a table.
pub const MAX_SIZE: u16 = 1_024;

/// The bytes of an entry.
pub const ENTRY_LEN: usize = 5;

/// The bytes of the size and the start, which stand first.
pub const HEAD_LEN: u16 = 4;

/// The places of an index by source: one for each source below the largest size, and one more.
pub const SOURCE_PLACES: usize = MAX_SIZE as usize + 1;

/// How many keys there are of entries that are in range, at most.
const MAX_KEYS: usize = MAX_SIZE as usize * ACTIONS_LEN;

/// The places of an index by source and action: one for each two below their bounds, and one more.
pub const SOURCE_ACTION_PLACES: usize = MAX_KEYS + 1;

/// One entry: a source, an action, and a target.
#[derive(Clone, Copy, Debug, PartialEq, Eq)]
pub struct Entry {
    pub from: u16,
    pub action: u8,
    pub to: u16,
}

/// The entries that stand in bytes from a base on, 4,000 at most.
#[derive(Clone, Copy, Debug)]
pub struct Entries<'a> {
    pub bytes: &'a [u8],
    pub base: u16,
}

impl<'a> Entries<'a> {
    /// How many whole entries there are, 4,000 at most.
    pub fn count(self) -> u16
        ensures { result ≡ entry_count self.entry.bytes.now self.entry.base }
    {
        let len = self.bytes.len().saturating_sub(usize::from(self.base));
        MAX_ENTRIES.min(len / ENTRY_LEN) as u16
    }

    /// Entry `i`; what stands past the end reads as 0.
    pub fn get(self, i: u16) -> Entry
        ensures { result ≡ entry_number self.entry.bytes.now self.entry.base i }
    {
        let at = usize::from(self.base) + ENTRY_LEN * usize::from(i);
        Entry {
            from: word_at(self.bytes, at),
            action: byte_at(self.bytes, at + 2),
            to: word_at(self.bytes, at + 3),
        }
    }

    /// Entry `i`, which is there.
    // kept: beside `get`, which tests each place. Tried: with `get` in its place the bench's `ways` takes 4,067 million
    // instructions, more than the 4,056 million that it may take (docs/speed.md).
    pub(crate) fn present(self, i: u16) -> Entry
        requires { i < entry_count self.bytes.now self.base }
        ensures { result ≡ entry_number self.entry.bytes.now self.entry.base i }
    {
        let at = usize::from(self.base) + ENTRY_LEN * usize::from(i);
        let bytes = &self.bytes[at..at + ENTRY_LEN];
        Entry {
            from: u16::from_be_bytes([bytes[0], bytes[1]]),
            action: bytes[2],
            to: u16::from_be_bytes([bytes[3], bytes[4]]),
        }
    }

    /// The key of entry `i`.
    pub fn key_at<K: Key>(self, i: u16) -> u32
        ensures { result ≡ key_at K.key self.entry.bytes.now self.entry.base i }
    {
        K::of(self.get(i))
    }
}
