//! The keys by which entries are found.

ghost use Rattle.std.specs.Prelude.{◌≡◌, ℕ, ◌<◌};
ghost use Rattle.model.specs.Actions.{action_count};
ghost use Rattle.entries.specs.declared.Entry.{Entry};
ghost use Rattle.entries.specs.Entries.{source_key, source_action_key};
ghost use Rattle.entries.specs.Limits.{most_keys, most_size};

use crate::Entry;
use model::ACTIONS;

/// A kind of key by which entries are found.
pub trait Key {
    // the key of an entry, as a number,
    ghost key: { Entry → ℕ };

    /// The key of an entry, as a number.
    fn of(entry: Entry) -> u32
        ensures { result ≡ key entry };

    // which is below 16,384 where the entry is in range
    ghost bounded: { (e : Entry) → e.from < most_size → e.action < action_count → key e < most_keys };
}

/// The source is the key.
#[derive(Clone, Copy, Debug, PartialEq, Eq)]
pub struct BySource;

impl Key for BySource {
    ghost use Rattle.std.proofs.Common.{arith};

    ghost key = { source_key };

    ghost bounded = { λ e from action. Prim.omega arith };

    fn of(entry: Entry) -> u32 {
        entry.from.into()
    }
}

/// The source and the action are the key: 16 times the source, and the action.
#[derive(Clone, Copy, Debug, PartialEq, Eq)]
pub struct BySourceAndAction;

impl Key for BySourceAndAction {
    ghost use Rattle.std.proofs.Common.{arith};

    ghost key = { source_action_key };

    ghost bounded = { λ e from action. Prim.omega arith };

    fn of(entry: Entry) -> u32 {
        u32::from(entry.from) * u32::from(ACTIONS) + u32::from(entry.action)
    }
}
