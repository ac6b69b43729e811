//! A set of stages.

ghost use Rattle.std.specs.Prelude.{◌^◌, ◌<◌};

mod methods;

/// A set of stages by a word of 64 marks: stage s is in the set if bit s is set.
#[derive(Clone, Copy, Debug, PartialEq, Eq)]
pub struct StageSet {
    pub(crate) word: u64,
    ghost fits: { word < 2 ^ 64 },
}
