//! The fields of a bundle, taken one after the other where they lie.
//!
//! A field is a tag byte, a two-byte length (the high byte first) and that many bytes of content.

#![tactic(auto)]

ghost use Rattle.std.specs.Prelude.{◌≡◌, ◌≤◌, IfOk, length, option_map, take};
ghost use Rattle.fields.specs.Fields.{at_place, due_at, ended, most_bundle, moved, needed, piece, sized, stood, told};

use refusal::{Fault, PlacedFault, Refusal};

/// The most bytes of a bundle.
pub const MAX_BUNDLE: usize = 32_768;

/// The bytes of a field before its content: the tag and the length.
const HEADER: usize = 3;

/// A field's content, and the byte of the bundle where it begins.
#[derive(Clone, Copy, Debug)]
pub struct Field<'a> {
    pub content: &'a [u8],
    pub place: u32,
}

impl<'a> Field<'a> {
    /// What was made of the content, or the fault that was found in it, placed where the content begins.
    pub fn placed<T>(self, made: Result<T, Fault>) -> Result<T, PlacedFault>
        ensures { result ≡ at_place self.entry.place made }
    {
        made.map_err(|fault| fault.at(self.place))
    }
}

/// The fields of a bundle that are not yet taken: those from byte `at` on.
#[derive(Debug, Drop)]
pub struct Fields<'a> {
    bytes: &'a [u8],
    at: usize,
    ghost short: { length bytes.now ≤ most_bundle },
    ghost within: { at ≤ length bytes.now },
}

impl<'a> Fields<'a> {
    /// All fields of a bundle; of an overlong one, those of the bytes that a bundle may have.
    pub fn new(bytes: &'a [u8]) -> Fields<'a>
        ensures bytes { result.bytes.now ≡ take most_bundle bytes.now }
        ensures at { result.at ≡ 0 }
    {
        Fields {
            bytes: &bytes[..bytes.len().min(MAX_BUNDLE)],
            at: 0,
        }
    }

    /// The next field if it has this tag, and nothing if it has another or none is left. A field that is not whole is
    /// a fault. Only a field that is handed out is taken.
    pub fn due(&mut self, tag: u8) -> Result<Option<Field<'a>>, PlacedFault>
        ensures value { told (option_map piece) result ≡ due_at self.old.bytes.now self.old.at tag }
        ensures at { self.new.at ≡ moved self.old.at (told (option_map piece) result) }
        ensures bytes { self.new.bytes ≡ self.old.bytes }
    {
        let left = &self.bytes[self.at..];
        if left.first() != Some(&tag) {
            return Ok(None);
        }
        let cut = PlacedFault::in_bundle(Refusal::FieldPastEnd, self.at as u32);
        let [_, high, low, rest @ ..] = left else {
            return Err(cut);
        };
        let len = usize::from(u16::from_be_bytes([*high, *low]));
        let content = rest.get(..len).ok_or(cut)?;
        let place = self.at + HEADER;
        self.at = place + len;
        Ok(Some(Field {
            content,
            place: place as u32,
        }))
    }

    /// The next field, which must have this tag.
    pub fn take(&mut self, tag: u8) -> Result<Field<'a>, PlacedFault>
        ensures value { told piece result ≡ needed self.old.at (due_at self.old.bytes.now self.old.at tag) }
        ensures at { self.new.at ≡ stood self.old.at (told piece result) }
        ensures bytes { self.new.bytes ≡ self.old.bytes }
    {
        let missing = PlacedFault::in_bundle(Refusal::FieldOrder, self.at as u32);
        self.due(tag)?.ok_or(missing)
    }

    /// Nothing, or the fault that something is left.
    pub fn end(&self) -> Result<(), PlacedFault>
        ensures { result ≡ ended self.now.bytes.now self.now.at }
    {
        if self.at < self.bytes.len() {
            return Err(PlacedFault::in_bundle(Refusal::FieldOrder, self.at as u32));
        }
        Ok(())
    }
}

/// All fields of a bundle, or the fault of an empty or an overlong one.
impl<'a> TryFrom<&'a [u8]> for Fields<'a> {
    type Error = PlacedFault;

    ghost try_from_gives = { λ bytes result. (told (λ _. tt) result ≡ sized bytes.now)
        × IfOk result (λ fields. (fields.bytes.now ≡ bytes.now) × (fields.at ≡ 0)) };

    fn try_from(bytes: &'a [u8]) -> Result<Fields<'a>, PlacedFault> {
        check_size(bytes)?;
        Ok(Fields::new(bytes))
    }
}

/// Nothing, or the fault of an empty or an overlong bundle.
pub fn check_size(bytes: &[u8]) -> Result<(), PlacedFault>
    ensures { result ≡ sized bytes.now }
{
    if bytes.is_empty() || bytes.len() > MAX_BUNDLE {
        return Err(PlacedFault::in_bundle(Refusal::BundleSize, 0));
    }
    Ok(())
}
