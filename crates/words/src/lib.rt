//! Bytes and two-byte numbers, read where they stand; what stands past the end reads as 0.

#![tactic(auto)]

ghost use Rattle.std.specs.Prelude.{◌≡◌, ◌+◌, ◌*◌, slice_index};
ghost use Rattle.words.specs.Words.{word};

/// The byte at a place, or 0 past the end.
pub fn byte_at(bytes: &[u8], at: usize) -> u8
    ensures { result ≡ slice_index bytes.now at }
{
    bytes.get(at).copied().unwrap_or(0)
}

/// The number in the two bytes at a place, the high byte first.
pub fn word_at(bytes: &[u8], at: usize) -> u16
    ensures { result ≡ word bytes.now at }
{
    u16::from_be_bytes([byte_at(bytes, at), byte_at(bytes, at.saturating_add(1))])
}
