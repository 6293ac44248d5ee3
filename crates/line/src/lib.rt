//! The one line that a check prints.

#![tactic(auto)]

ghost use Rattle.std.specs.Prelude.{◌≡◌, ◌≤◌, length, Some};
ghost use Rattle.line.specs.Letters.{letter, letters};
ghost use Rattle.line.specs.Lines.{actions_of, line_bytes, most_trace, trace_of};

use model::ACTIONS;
use refusal::PlacedFault;
use std::fmt;

/// The most actions that a printed trace has.
pub const MAX_TRACE: usize = 1_024;

/// The character by which an action is written: `-` for action 0, `a` to `o` for 1 to 15, and `?` for what is none.
pub fn letter_of(action: u8) -> char
    ensures { result ≡ letter action }
{
    match action {
        0 => '-',
        1..ACTIONS => char::from(b'a' + (action - 1)),
        _ => '?',
    }
}

/// The actions of a run, printed as their letters.
// kept: a fixed buffer and its length, since a library has no heap, a line owns its trace, and `inspection` writes the
// trace into a buffer that is lent.
#[derive(Debug, Drop)]
pub struct Trace {
    buffer: [u8; MAX_TRACE],
    len: u32,
}

impl Trace {
    /// The first `len` actions of the buffer; all of them where it has fewer.
    pub fn new(buffer: [u8; MAX_TRACE], len: u32) -> Trace
        ensures { result ≡ trace_of buffer len }
    {
        Trace { buffer, len }
    }

    /// The actions, in order; there are at most 1,024.
    pub fn actions(&self) -> &[u8]
        ensures actions { result.now ≡ actions_of self.now }
        ensures few { length result.now ≤ most_trace }
    {
        &self.buffer[..(self.len as usize).min(MAX_TRACE)]
    }
}

impl fmt::Display for Trace {
    ghost output = { λ trace. Some (letters (actions_of trace)) };

    fn fmt<W: fmt::Write>(&self, f: &mut fmt::Formatter<W>) -> fmt::Result {
        for action in self.actions() {
            f.write_char(letter_of(*action))?;
        }
        Ok(())
    }
}

/// What a check came to: the verdict with its counts, and the run where one is condemned; or the fault of the bundle.
// kept: `opened` and `found` in each variant, since a struct of the two would be no plainer: it would stand in every
// pattern, and in every definition of what a line says.
#[derive(Debug, Drop)]
pub enum Line {
    Broken {
        actions: u32,
        opened: u32,
        found: u32,
        trace: Trace,
    },
    Holds {
        opened: u32,
        found: u32,
    },
    Full {
        opened: u32,
        found: u32,
    },
    Fault(PlacedFault),
}

impl fmt::Display for Line {
    ghost output = { λ line. Some (line_bytes line) };

    fn fmt<W: fmt::Write>(&self, f: &mut fmt::Formatter<W>) -> fmt::Result {
        match self {
            Line::Broken {
                actions,
                opened,
                found,
                trace,
            } => {
                write!(f, "broken {actions} opened {opened} found {found} trace")?;
                if !trace.actions().is_empty() {
                    write!(f, " {trace}")?;
                }
                Ok(())
            }
            Line::Holds { opened, found } => write!(f, "holds opened {opened} found {found}"),
            Line::Full { opened, found } => write!(f, "full opened {opened} found {found}"),
            Line::Fault(placed) => write!(f, "{placed}"),
        }
    }
}
