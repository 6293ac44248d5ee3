//! Why a call is refused: every numbered refusal of the checker, and where a fault in handed bytes lies.

#![tactic(auto)]

ghost use Rattle.std.specs.Prelude.{◌≡◌, Some};
ghost use Rattle.refusal.specs.Faults.{fault_at, fault_bytes, fault_in_bundle, fault_in_content};
ghost use Rattle.refusal.specs.Numbers.{number, layer_number, byte_in_bundle};

use std::fmt;

/// Every refusal, with the number by which it is known.
#[derive(Clone, Copy, Debug, PartialEq, Eq)]
pub enum Refusal {
    /// The bundle is empty or longer than a bundle may be.
    BundleSize = 1,
    /// A field reaches past the end of the bundle.
    FieldPastEnd = 2,
    /// A tag is out of order or missing, or something stands after the last field.
    FieldOrder = 3,
    /// A content has the wrong length, a part of an entry, or too many entries.
    ContentLength = 4,
    /// A number is out of its range.
    OutOfRange = 5,
    /// A state has a move too many, or a mark and action a way too many.
    TooMany = 6,
    /// A table of cells is empty or longer than a table may be.
    TableSize = 12,
    /// A budget is 0 or larger than a budget may be.
    Budget = 13,
    /// Two machines are to be joined whose join would pass the limits of a machine.
    JoinLimits = 14,
    /// A buffer is shorter than the trace.
    ShortBuffer = 15,
    /// An inspection is to begin that is not idle.
    NotIdle = 41,
    /// An inspection is to advance or to trace that is idle.
    StillIdle = 42,
    /// An inspection is to advance whose verdict is decided.
    Decided = 43,
    /// An inspection is to trace whose verdict is not broken.
    NotBroken = 44,
    /// The table has another length than at begin.
    OtherTable = 45,
}

/// Who found a fault.
#[derive(Clone, Copy, Debug, PartialEq, Eq)]
pub enum Layer {
    /// The bundle: its size, or the order and lengths of its fields.
    Bundle = 1,
    /// The content of a field.
    Content = 2,
}

/// What is wrong with handed bytes: the refusal, the layer that found it, and the byte where it lies, counted from
/// the first byte that the layer was handed.
#[derive(Clone, Copy, Debug, PartialEq, Eq)]
pub struct Fault {
    pub refusal: Refusal,
    pub layer: Layer,
    pub byte: u32,
}

/// A fault as it was found, and beside it the place in the bundle of what its layer was handed: the byte where the
/// field's content begins, or 0 for a fault of the bundle itself.
#[derive(Clone, Copy, Debug, PartialEq, Eq)]
pub struct PlacedFault {
    pub fault: Fault,
    pub place: u32,
}

/// The number by which the refusal is known and printed.
impl From<Refusal> for u8 {
    ghost from_gives = { λ refusal result. result ≡ number refusal };

    fn from(refusal: Refusal) -> u8 {
        refusal as u8
    }
}

/// The number by which the layer is known and printed.
impl From<Layer> for u8 {
    ghost from_gives = { λ layer result. result ≡ layer_number layer };

    fn from(layer: Layer) -> u8 {
        layer as u8
    }
}

impl Refusal {
    /// The number by which the refusal is known and printed. It is that of `u8::from`, for which a caller's crate would
    /// have to depend on this one.
    pub fn number(self) -> u8
        ensures { result ≡ number self }
    {
        u8::from(self)
    }
}

impl Layer {
    /// The number by which the layer is known and printed, as `Refusal::number` is that of a refusal.
    pub fn number(self) -> u8
        ensures { result ≡ layer_number self }
    {
        self.into()
    }
}

impl Fault {
    /// A fault of a content, at a byte of it.
    pub fn in_content(refusal: Refusal, byte: u32) -> Fault
        ensures { result ≡ fault_in_content refusal byte }
    {
        Fault {
            refusal,
            layer: Layer::Content,
            byte,
        }
    }

    /// The fault, with the place in the bundle of what its layer was handed.
    pub fn at(self, place: u32) -> PlacedFault
        ensures { result ≡ fault_at self place }
    {
        PlacedFault { fault: self, place }
    }
}

impl PlacedFault {
    /// A fault of the bundle itself, at a byte of it.
    pub fn in_bundle(refusal: Refusal, byte: u32) -> PlacedFault
        ensures { result ≡ fault_in_bundle refusal byte }
    {
        Fault {
            refusal,
            layer: Layer::Bundle,
            byte,
        }
        .at(0)
    }

    /// The byte of the bundle where the fault lies.
    pub fn byte(self) -> u64
        ensures { result ≡ byte_in_bundle self }
    {
        u64::from(self.fault.byte) + u64::from(self.place)
    }
}

impl fmt::Display for PlacedFault {
    ghost output = { λ placed. Some (fault_bytes placed) };

    fn fmt<W: fmt::Write>(&self, f: &mut fmt::Formatter<W>) -> fmt::Result {
        let number = u8::from(self.fault.refusal);
        let layer = u8::from(self.fault.layer);
        let at = self.byte();
        write!(f, "fault {number} layer {layer} at {at}")
    }
}
