//! Worked examples, proved of the definitions.

#![tactic(auto)]

ghost use Rattle.std.specs.Prelude.{◌≡◌};
ghost use Rattle.worked.specs.Examples.{Examples};

/// Some small bundles come to the lines that they should. Answers how many they are.
pub fn examples_hold() -> u8
    ensures count { result ≡ 4 }
    ensures examples { Examples }
{
    4
}
