//! A bundle: the fields that describe one check, each with its content checked.
//!
//! The fields are M (the machine, a sheet), W (the watcher, a watch table) and T (the number of cells), in this order.

#![tactic(auto)]

ghost use Rattle.std.specs.Prelude.{◌≡◌};
ghost use Rattle.fields.specs.Fields.{told};
ghost use Rattle.bundle.specs.Accepted.{Accepts};
ghost use Rattle.bundle.specs.Bundles.{bundle_of, cells_in, contents};

use fields::Fields;
use refusal::{Fault, PlacedFault, Refusal};

/// The most cells that a bundle may ask for.
pub const MAX_CELLS: u16 = 1_024;

/// What a bundle describes: the bytes of a sheet and of a watch table, both without a fault, and a number of cells.
#[derive(Clone, Copy, Debug)]
pub struct Parts<'a> {
    pub machine: &'a [u8],
    pub watcher: &'a [u8],
    pub cells: u16,
}

/// The parts of a bundle, or its first fault: of its size, then field by field of the tag, of the length and of the
/// content, and last of what stands after the fields. Accepted is exactly what describes its parts: three fields in a
/// row, of allowed contents, and nothing else.
pub fn read(bytes: &[u8]) -> Result<Parts<'_>, PlacedFault>
    ensures answer { told contents result ≡ bundle_of bytes.now }
    ensures accepts { Accepts bytes.now (bundle_of bytes.now) }
{
    let mut fields = Fields::try_from(bytes)?;
    let machine = fields.take(b'M')?;
    machine.placed(sheet::check(machine.content))?;
    let watcher = fields.take(b'W')?;
    watcher.placed(watch_table::check(watcher.content))?;
    let table = fields.take(b'T')?;
    let cells = table.placed(cell_count(table.content))?;
    fields.end()?;
    Ok(Parts {
        machine: machine.content,
        watcher: watcher.content,
        cells,
    })
}

/// The number of cells that the two bytes of a content ask for.
fn cell_count(content: &[u8]) -> Result<u16, Fault>
    ensures { result ≡ cells_in content.now }
{
    let [high, low] = content else {
        return Err(Fault::in_content(Refusal::ContentLength, 0));
    };
    let count = u16::from_be_bytes([*high, *low]);
    if !(1..=MAX_CELLS).contains(&count) {
        return Err(Fault::in_content(Refusal::OutOfRange, 0));
    }
    Ok(count)
}
