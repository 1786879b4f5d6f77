// The answer of a public call, one of two cases: accepted with its count, or refused with reason and number.
#![tactic(auto)]

ghost use Rattle.format.specs.Reasons.{IsFile};

use reasons::Reason;

// Stays: document 01 gives each public call this answer, two cases by name.
#[derive(Clone, Copy, Debug, PartialEq, Eq)]
pub enum Answer {
    Accepted(u64),
    Refused(Reason, u64),
}

// Every slice of bytes is a file: what the theorems of `write` after `read` suppose of the list of a `&[u8]`.
pub fn is_file(bytes: &[u8])
    ensures { IsFile bytes.now }
{}
