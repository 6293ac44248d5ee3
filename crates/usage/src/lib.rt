//! How the calls are meant to be used: two functions that tests/compile-fail edits, where the compiler must refuse the
//! slip, and the tests of the libraries.

#![tactic(auto)]

ghost use Rattle.std.specs.Prelude.{◌≡◌, [], ◌∷◌};
ghost use Rattle.inspection.specs.Searches.{begun};
ghost use Rattle.sheet.specs.Sheets.{sheet_meaning};
ghost use Rattle.usage.specs.Again.{begun_again, cells_begun};

use inspection::{Cell, Inspection, Report};
use model::{Machine, Watcher};
use sheet::Sheet;

/// The size of a sheet's machine, which ends before the bytes are overwritten by a sheet of one state.
pub fn size_then_overwrite(bytes: &mut [u8; 4]) -> u32
    ensures size { result ≡ (sheet_meaning bytes.old).size }
    ensures bytes { bytes.new ≡ 0 ∷ (1 ∷ (0 ∷ (0 ∷ []))) }
{
    let machine = Sheet::new(bytes);
    let size = machine.size();
    drop(machine);
    *bytes = [0, 1, 0, 0];
    size
}

/// The report of one inspection over one table that is begun, cleared and begun again.
// kept: a machine, a watcher and cells as parameters, since the calls that it shows take them so.
pub fn begin_again<M: Machine, W: Watcher>(machine: &M, watcher: &W, cells: &mut [Cell]) -> Report
    ensures report { result ≡ begun_again (M.graph machine.now) (W.automaton watcher.now) cells.old }
    ensures cells { cells.new ≡ cells_begun (M.graph machine.now) (W.automaton watcher.now) cells.old }
{
    let mut inspection = Inspection::new();
    let _ = inspection.begin(machine, watcher, cells);
    inspection.clear();
    let _ = inspection.begin(machine, watcher, cells);
    inspection.verdict()
}

#[cfg(test)]
mod tests {
    use actions::{ActionMap, ActionSet};
    use checker::check as check_bundle;
    use entries::{BySource, Entries, EntryIndex};
    use inspection::{BLANK, Inspection, Verdict};
    use join::{Join, check_limits};
    use line::Line;
    use model::{Machine, Watcher};
    use rename::Rename;
    use sheet::Sheet;
    use std::test::Fail;
    use watch_table::WatchTable;

    // Of three entries, the first and the last leave source 2.
    #[test]
    fn entries_by_source(rt: HostRuntime) {
        let bytes = [0, 2, 5, 0, 1, 0, 0, 6, 0, 0, 0, 2, 7, 0, 3];
        let entries = Entries {
            bytes: &bytes,
            base: 0,
        };
        let index: EntryIndex<BySource, 4> = EntryIndex::new(entries);
        assert_eq!(rt; index.count(2), 2);
        assert_eq!(rt; index.get(2, 1).map(|entry| entry.action), Some(7));
    }

    // Two states: the quiet move leads from each to the other, and action 5 leads from state 0 back to it.
    #[test]
    fn moves_stand_in_sheet_order(rt: HostRuntime) {
        let bytes = [0, 2, 0, 0, 0, 0, 0, 0, 1, 0, 1, 0, 0, 0, 0, 0, 5, 0, 0];
        let sheet = Sheet::new(&bytes);
        assert_eq!(rt; sheet.move_count(0), 2);
        assert_eq!(rt; sheet.move_at(0, 1).map(|second| second.action), Some(5));
    }

    // Bytes that are no sheet make one state and no moves.
    #[test]
    fn no_sheet(rt: HostRuntime) {
        let sheet = Sheet::new(&[0, 2, 0, 2]);
        assert_eq!(rt; sheet.size(), 1);
        assert_eq!(rt; sheet.move_count(0), 0);
    }

    // A sheet of one state and 4,001 entries.
    #[test]
    fn too_many_entries(rt: HostRuntime) -> Result<(), Fail> {
        let mut bytes = [0; 20_009];
        bytes[1] = 1;
        let fault = sheet::check(&bytes).err().ok_or("no fault")?;
        assert_eq!(rt; u8::from(fault.refusal), 4);
        assert_eq!(rt; fault.byte, 0);
        Ok(())
    }

    // Mark 0 goes by action 3 to mark 1, which condemns, and has no way by another action.
    #[test]
    fn ways_by_action(rt: HostRuntime) {
        let bytes = [0, 2, 0, 0, 0, 1, 0, 0, 3, 0, 1];
        let table = WatchTable::new(&bytes);
        assert_eq!(rt; table.way_count(0, 3), 1);
        assert_eq!(rt; table.way_count(0, 2), 0);
        assert!(rt; table.condemns(1));
    }

    // Action 1 is shared, 2 is taken by the left alone and 3 by the right alone. The pair of left l and right r is
    // state 2 l + r.
    #[test]
    fn joined_moves(rt: HostRuntime) {
        let left = Sheet::new(&[0, 2, 0, 0, 0, 0, 1, 0, 1, 0, 0, 2, 0, 0]);
        let right = Sheet::new(&[0, 2, 0, 0, 0, 0, 3, 0, 1, 0, 0, 1, 0, 1]);
        let join = Join::new(left, right, ActionSet::new(2));
        assert_eq!(rt; join.move_count(0), 3);
        let move_at = |k| join.move_at(0, k).map(|found| (found.action, found.target));
        assert_eq!(rt; move_at(0), Some((1, 3)));
        assert_eq!(rt; move_at(1), Some((2, 0)));
        assert_eq!(rt; move_at(2), Some((3, 1)));
        assert_eq!(rt; move_at(3), None);
    }

    // Sheets of 1,024 states each: two may be joined, and three may not.
    #[test]
    fn join_past_the_limits(rt: HostRuntime) {
        let none = ActionSet::new(0);
        let two = Join::new(Sheet::new(&[4, 0, 0, 0]), Sheet::new(&[4, 0, 0, 0]), none);
        let third = Sheet::new(&[4, 0, 0, 0]);
        assert_eq!(rt; two.size(), 1_048_576);
        assert_eq!(rt; check_limits(&two, &third).map_err(u8::from), Err(14));
        assert_eq!(rt; Join::new(two, third, none).size(), 1);
    }

    // The map writes every action as action 5.
    #[test]
    fn renamed_moves(rt: HostRuntime) {
        let sheet = Sheet::new(&[0, 1, 0, 0, 0, 0, 3, 0, 0]);
        let renamed = Rename::new(sheet, ActionMap::new(&[5; 16]));
        assert_eq!(rt; renamed.move_at(0, 0).map(|first| first.action), Some(5));
        assert_eq!(rt; renamed.move_at(0, 1), None);
    }

    // One state with a quiet move; two quiet actions condemn. One opening leaves the verdict open.
    #[test]
    fn one_opening_at_a_time(rt: HostRuntime) {
        let machine = Sheet::new(&[0, 1, 0, 0, 0, 0, 0, 0, 0]);
        let watcher = WatchTable::new(&[0, 3, 0, 0, 0, 0, 1, 0, 0, 0, 0, 1, 0, 1, 0, 0, 2]);
        let mut cells = [BLANK; 2];
        let mut buffer = [9; 3];
        let mut inspection = Inspection::new();
        assert!(rt; inspection.begin(&machine, &watcher, &mut cells).is_ok());
        assert!(rt; inspection.begin(&machine, &watcher, &mut cells).is_err());
        assert!(rt;
            inspection
                .advance(&machine, &watcher, &mut cells, 1)
                .is_ok()
        );
        assert_eq!(rt; inspection.verdict().verdict, Verdict::Open);
        assert!(rt;
            inspection
                .advance(&machine, &watcher, &mut cells, 10_000)
                .is_ok()
        );
        assert_eq!(rt; inspection.verdict().verdict, Verdict::Broken(2));
        assert!(rt; inspection.trace(&machine, &cells, &mut buffer).is_ok());
        assert_eq!(rt; buffer, [0, 0, 9]);
    }

    // One byte more than a bundle may have, and as many as it may.
    #[test]
    fn longest_bundle(rt: HostRuntime) {
        assert!(rt;
            matches!(check_bundle(&[77; 32_769]), Line::Fault(p) if u8::from(p.fault.refusal) == 1)
        );
        assert!(rt;
            matches!(check_bundle(&[0; 32_768]), Line::Fault(p) if u8::from(p.fault.refusal) == 3)
        );
    }
}
