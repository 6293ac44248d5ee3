//! Runs the check on many bundles and prints the line of each.
//!
//! Each line of standard input is one bundle in hexadecimal: two digits make a byte, and all else is passed over. A
//! `#` and what follows it up to the line's end is a comment, which is printed as it is; a bundle before it goes on
//! after it.

#![tactic(auto)]

ghost use Rattle.std.specs.Prelude.{◌≡◌, ◌≤◌, length, take};
ghost use Rattle.std.specs.List.{filter_map};
ghost use Rattle.cases.specs.Digits.{byte_value, digit_value, paired};

use checker::check;
use input::fill;
use std::io;

/// The most bytes of the text that is read, and so of a bundle's digits.
const TEXT: usize = 65_536;

/// The most bytes that such digits make.
const BYTES: usize = TEXT / 2;

/// The value of a hexadecimal digit.
fn digit_of(b: u8) -> Option<u8>
    ensures { result ≡ digit_value b }
{
    match b {
        b'0'..=b'9' => Some(b - b'0'),
        b'A'..=b'F' => Some(b - b'A' + 10),
        _ => None,
    }
}

/// Writes the values of the digits of a text at the front of `room`, as many as there is room for; answers how many.
fn digits_of(text: &[u8], room: &mut [u8]) -> usize
    ensures within { result ≤ length room.new }
    ensures digits { take result room.new ≡ take (length room.old) (filter_map digit_value text.now) }
{
    let mut len = 0;
    for b in text {
        if let Some(digit) = digit_of(*b) {
            if len < room.len() {
                room[len] = digit;
                len += 1;
            }
        }
    }
    len
}

/// The byte of two digits.
fn byte_of(pair: &[u8; 2]) -> u8
    ensures { result ≡ byte_value pair.now }
{
    let [high, low] = pair;
    high % 16 * 16 + low % 16
}

/// Writes the bytes of digits, two each, at the front of `room`, as many as there is room for; answers how many. A
/// last digit alone makes none.
fn bytes_of(digits: &[u8], room: &mut [u8]) -> usize
    ensures within { result ≤ length room.new }
    ensures bytes { take result room.new ≡ take (length room.old) (paired digits.now) }
{
    let (pairs, _) = digits.as_chunks::<2>();
    let mut len = 0;
    for pair in pairs {
        if len < room.len() {
            room[len] = byte_of(pair);
            len += 1;
        }
    }
    len
}

fn main(rt: HostRuntime) -> io::Result<()> {
    // kept: three arrays, each with the length of what it holds: this program has no heap, and `fill` reads into a slice.
    let mut text = [0; TEXT];
    let mut digits = [0; TEXT];
    let mut bytes = [0; BYTES];
    let len = fill(&mut rt.stdin(), &mut text)?;
    let mut count = 0;
    for line in text[..len].split_inclusive(|b| *b == b'\n') {
        match line.iter().position(|b| *b == b'#') {
            Some(at) => {
                let (before, comment) = line.split_at(at);
                count += digits_of(before, &mut digits[count..]);
                for b in comment {
                    rt.print(char::from(*b))?;
                }
            }
            None => {
                count += digits_of(line, &mut digits[count..]);
                if line.ends_with(b"\n") {
                    let len = bytes_of(&digits[..count], &mut bytes);
                    println!(rt; "{}", check(&bytes[..len]))?;
                    count = 0;
                }
            }
        }
    }
    Ok(())
}
