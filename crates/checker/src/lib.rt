//! A whole check: from the bytes of a bundle to the line that is printed.

#![tactic(auto)]

ghost use Rattle.std.specs.Prelude.{◌≡◌, ◌≤◌, length, replicate, Ok};
ghost use Rattle.inspection.specs.Cells.{blank};
ghost use Rattle.line.specs.Lines.{most_trace};
ghost use Rattle.refusal.specs.Faults.{fault_in_bundle};
ghost use Rattle.bundle.specs.Bundles.{bundle_of};
ghost use Rattle.checker.specs.Checked.{checked, inspected_line, or_fault, or_refused, verdict_line};
ghost use Rattle.checker.specs.Judged.{Judged};

use inspection::{BLANK, Cell, Inspection, Report, Verdict};
use line::{Line, MAX_TRACE, Trace};
use model::{Machine, Watcher};
use refusal::{PlacedFault, Refusal};
use sheet::Sheet;
use watch_table::WatchTable;

/// How many cells are opened at a time.
const BUDGET: u32 = 1_000;

/// The most cells that a bundle asks for.
const TABLE: usize = bundle::MAX_CELLS as usize;

/// The line of a bundle: its first fault, or what the inspection of its machine by its watcher comes to, in as many
/// cells as it asks for. Of an accepted bundle the line is full exactly when the near pairs outnumber the cells; else
/// broken, with a shortest condemned run, exactly when some run of the machine is condemned; else it holds.
pub fn check(bytes: &[u8]) -> Line
    ensures line { result ≡ checked bytes.now }
    ensures law { Judged (bundle_of bytes.now) result }
{
    inspect_bundle(bytes).unwrap_or_else(Line::Fault)
}

/// The line of an accepted bundle, or its first fault.
fn inspect_bundle(bytes: &[u8]) -> Result<Line, PlacedFault>
    ensures { or_fault result ≡ checked bytes.now }
{
    let parts = bundle::read(bytes)?;
    let machine = Sheet::new(parts.machine);
    let watcher = WatchTable::new(parts.watcher);
    let answer = inspect_in(&machine, &watcher, parts.cells);
    answer.map_err(refused)
}

/// The fault of a refused call.
fn refused(refusal: Refusal) -> PlacedFault
    ensures { result ≡ fault_in_bundle refusal 0 }
{
    PlacedFault::in_bundle(refusal, 0)
}

/// The line of an inspection to its end, in a new table of so many cells.
// kept: a machine and a watcher as two parameters, here and below: a struct of the two would be taken apart again at
// each call of an inspection.
fn inspect_in<M: Machine, W: Watcher>(machine: &M, watcher: &W, count: u16) -> Result<Line, Refusal>
    requires some { 1 ≤ count }
    requires few { count ≤ most_trace }
    ensures { result ≡ Ok (inspected_line (M.graph machine.now) (W.automaton watcher.now) (replicate count blank)) }
{
    // kept: an array of the most cells, of which the first are used: a library has no heap, and a search takes a slice.
    let mut table = [BLANK; TABLE];
    inspect(machine, watcher, &mut table[..usize::from(count)])
}

/// The line of an inspection to its end, in a table whose every trace can be printed.
fn inspect<M: Machine, W: Watcher>(
    machine: &M,
    watcher: &W,
    cells: &mut [Cell],
) -> Result<Line, Refusal>
    requires some { 1 ≤ length cells.old }
    requires few { length cells.old ≤ most_trace }
    ensures { result ≡ Ok (inspected_line (M.graph machine.now) (W.automaton watcher.now) cells.old) }
{
    let mut inspection = Inspection::new();
    inspection.begin(machine, watcher, cells)?;
    while let Verdict::Open = inspection.verdict().verdict {
        inspection.advance(machine, watcher, cells, BUDGET)?;
    }
    conclude(&inspection, machine, cells)
}

/// The line of a decided inspection.
fn conclude<M: Machine>(
    inspection: &Inspection,
    machine: &M,
    cells: &[Cell],
) -> Result<Line, Refusal>
    ensures { or_refused result ≡ verdict_line (M.graph machine.now)
        (record { progress = inspection.now.progress; table = cells.now }) inspection.now.progress.verdict }
{
    let Report {
        verdict,
        opened,
        found,
    } = inspection.verdict();
    match verdict {
        Verdict::Holds => Ok(Line::Holds { opened, found }),
        Verdict::Full => Ok(Line::Full { opened, found }),
        _ => {
            // kept: an array of the most actions: a library has no heap, and `trace` writes into a slice.
            let mut buffer = [0; MAX_TRACE];
            let actions = inspection.trace(machine, cells, &mut buffer)?;
            Ok(Line::Broken {
                actions,
                opened,
                found,
                trace: Trace::new(buffer, actions),
            })
        }
    }
}
