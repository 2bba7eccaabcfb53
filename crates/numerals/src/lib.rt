// Numbers as texts: which bytes are a number, and how a number is written. The definitions are in specs/.
#![tactic(auto)]

// How many digits a number may have.
pub const MOST_DIGITS: usize = 10;
