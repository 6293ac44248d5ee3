//! The faults that sheets and tables share: of their length, of their size and start, and of their entries.

ghost use Rattle.std.specs.Prelude.{◌≡◌, ◌<◌, ◌≤◌, min};
ghost use Rattle.std.specs.Result.{result_err};
ghost use Rattle.model.specs.Actions.{action_count};
ghost use Rattle.entries.specs.declared.Entry.{Entry};
ghost use Rattle.entries.specs.Entries.{source_key};
ghost use Rattle.entries.specs.Limits.{most_keys, most_size};
ghost use Rattle.entries.specs.Faults.{length_fault, head_fault, below_fault, entry_fault, first_entry_fault};

use crate::{
    BySource, ENTRY_LEN, Entries, Entry, Key, MAX_ENTRIES, MAX_KEYS, MAX_SHARING, MAX_SIZE,
    SOURCE_PLACES,
};
use model::ACTIONS;
use refusal::{Fault, Refusal};
use words::word_at;

/// Checks that `len` bytes hold whole entries, 4,000 at most, from `base` on.
pub fn check_length(base: usize, len: usize) -> Result<(), Fault>
    ensures { result_err result ≡ length_fault base len }
{
    if len < base || (len - base) % ENTRY_LEN != 0 || (len - base) / ENTRY_LEN > MAX_ENTRIES {
        Err(Fault::in_content(Refusal::ContentLength, 0))
    } else {
        Ok(())
    }
}

/// Checks the size, which is from 1 to 1,024, and the start, which is below it.
pub fn check_head(bytes: &[u8]) -> Result<(), Fault>
    ensures { result_err result ≡ head_fault bytes.now }
{
    let size = word_at(bytes, 0);
    if size == 0 || size > MAX_SIZE {
        Err(Fault::in_content(Refusal::OutOfRange, 0))
    } else if word_at(bytes, 2) >= size {
        Err(Fault::in_content(Refusal::OutOfRange, 2))
    } else {
        Ok(())
    }
}

/// Checks that each byte is below a bound; the first of them is at byte `at` of the content.
pub fn check_below(bytes: &[u8], bound: u8, at: u32) -> Result<(), Fault>
    ensures { result_err result ≡ below_fault bound bytes.now at }
{
    match bytes.iter().position(|byte| *byte >= bound) {
        Some(place) => {
            let place = u32::try_from(place).unwrap_or(u32::MAX);
            Err(Fault::in_content(Refusal::OutOfRange, at.saturating_add(place)))
        }
        None => Ok(()),
    }
}

/// Checks the entry at a byte, before which `seen` have its key.
fn check_entry(entry: Entry, size: u16, seen: u16, at: u32) -> Result<(), Fault>
    requires { at < 100000 }
    ensures { result_err result ≡ entry_fault size seen entry at }
{
    if entry.from >= size {
        Err(Fault::in_content(Refusal::OutOfRange, at))
    } else if entry.action >= ACTIONS {
        Err(Fault::in_content(Refusal::OutOfRange, at + 2))
    } else if entry.to >= size {
        Err(Fault::in_content(Refusal::OutOfRange, at + 3))
    } else if seen >= MAX_SHARING {
        Err(Fault::in_content(Refusal::TooMany, at))
    } else {
        Ok(())
    }
}

impl<'a> Entries<'a> {
    /// Checks the entries, whose sources and targets are below the size; a size over 1,024 counts as 1,024.
    pub fn check<K: Key>(self, size: u16) -> Result<(), Fault>
        ensures { result_err result
            ≡ first_entry_fault K.key (min size most_size) self.entry.bytes.now self.entry.base }
    {
        self.check_counted::<K, MAX_KEYS>(size.min(MAX_SIZE))
    }

    /// Checks the entries as `check` does where the source is their key, with no more to count than there are sources.
    pub fn check_by_source(self, size: u16) -> Result<(), Fault>
        ensures { result_err result
            ≡ first_entry_fault source_key (min size most_size) self.entry.bytes.now self.entry.base }
    {
        self.check_counted::<BySource, SOURCE_PLACES>(size.min(MAX_SIZE))
    }

    /// Checks the entries, whose keys, where the entry is in range, are below N: how many have each is counted.
    // never inlined, so that the counts are in the frame of no call that is refused before it comes here
    #[inline(never)]
    fn check_counted<K: Key, const N: usize>(self, size: u16) -> Result<(), Fault>
        requires keys { (e : Entry) → e.from < size → e.action < action_count → K.key e < N }
        requires few { N ≤ most_keys }
        ensures { result_err result ≡ first_entry_fault K.key size self.entry.bytes.now self.entry.base }
    {
        let mut counts = [0u16; N];
        for (i, entry) in self.iter().enumerate() {
            let key = K::of(entry) as usize;
            let at = u32::from(self.base) + ENTRY_LEN as u32 * i as u32;
            let seen = counts.get(key).copied().unwrap_or(0);
            check_entry(entry, size, seen, at)?;
            counts[key] += 1;
        }
        Ok(())
    }
}
