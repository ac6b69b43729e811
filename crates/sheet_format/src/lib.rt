//! The bytes of a graph sheet, with no code: the format's definitions, and what reading promises of them.

#![tactic(auto)]

ghost use Rattle.sheet_format.specs.Promise.{ReadingAcceptsExactlyTheLayout};

/// Reading accepts exactly the layout, and refuses with the first fault.
pub fn reading_accepts_exactly_the_layout()
    ensures { ReadingAcceptsExactlyTheLayout }
{}
