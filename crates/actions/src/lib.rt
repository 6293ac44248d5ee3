//! Sets of actions, and maps from actions to actions.

#![tactic(auto)]

ghost use Rattle.std.specs.Prelude.{◌≡◌, ◌==◌, IfOk};
ghost use Rattle.std.specs.Result.{result_err};
ghost use Rattle.actions.specs.Maps.{IntoActions, identity, image, map_fault, map_meaning};
ghost use Rattle.actions.specs.Sets.{in_set};

use entries::check_below;
use model::{ACTIONS, ACTIONS_LEN};
use refusal::{Fault, Refusal};

/// A set of actions.
#[derive(Clone, Copy, Debug, PartialEq, Eq)]
pub struct ActionSet {
    /// Bit i is 1 where action i is in the set.
    bits: u16,
}

impl ActionSet {
    /// The set of the actions whose bits are 1.
    pub fn new(bits: u16) -> ActionSet
        ensures { result.bits ≡ bits }
    {
        ActionSet { bits }
    }

    /// Whether no action is in the set.
    pub fn is_empty(self) -> bool
        ensures { result ≡ (self.bits == 0) }
    {
        self.bits == 0
    }

    /// Whether an action is in the set; a number that is no action is not.
    pub fn has(self, action: u8) -> bool
        ensures { result ≡ in_set self.bits action }
    {
        action < ACTIONS && (self.bits >> action) % 2 == 1
    }
}

/// The number of entries of a map, one for each action.
pub const MAP_LEN: usize = ACTIONS_LEN;

/// A map from actions to actions.
#[derive(Clone, Copy, Debug, PartialEq, Eq)]
pub struct ActionMap {
    /// Entry i stands in the place of action i,
    table: [u8; MAP_LEN],
    // and is itself an action
    ghost actions: { IntoActions table },
}

/// The entries of the map that changes nothing.
const IDENTITY: [u8; MAP_LEN] = [0, 1, 2, 3, 4, 5, 6, 7, 8, 9, 10, 11, 12, 13, 14, 15];

impl ActionMap {
    /// The map that changes nothing.
    pub fn identity() -> ActionMap
        ensures { result.table ≡ identity }
    {
        ActionMap { table: IDENTITY }
    }

    /// The map of these bytes, one for each action; of bytes that are no map, the one that changes nothing.
    pub fn new(bytes: &[u8]) -> ActionMap
        ensures { result.table ≡ map_meaning bytes.now }
    {
        ActionMap::try_from(bytes).unwrap_or_else(|_| ActionMap::identity())
    }

    /// What stands in the place of an action; of a number that is no action, 0.
    pub fn image(&self, action: u8) -> u8
        ensures { result ≡ image self.now.table action }
    {
        self.table.get(usize::from(action)).copied().unwrap_or(0)
    }
}

/// The map of these bytes, one for each action, or the first fault of bytes that are no map.
impl TryFrom<&[u8]> for ActionMap {
    type Error = Fault;

    ghost try_from_gives = { λ bytes result. (result_err result ≡ map_fault bytes.now)
        × IfOk result (λ map. map.table ≡ bytes.now) };

    fn try_from(bytes: &[u8]) -> Result<ActionMap, Fault> {
        let Ok(table) = <[u8; MAP_LEN]>::try_from(bytes) else {
            return Err(Fault::in_content(Refusal::ContentLength, 0));
        };
        check_below(&table, ACTIONS, 0)?;
        Ok(ActionMap { table })
    }
}

/// Checks that the bytes are a map.
pub fn check(bytes: &[u8]) -> Result<(), Fault>
    ensures { result_err result ≡ map_fault bytes.now }
{
    ActionMap::try_from(bytes).map(|_| ())
}
