//! What a rule proposes.

/// One move that makes a graph smaller: to hold a stage, to pass a stage, or to drop the link from one stage to
/// another.
#[derive(Clone, Copy, Debug, PartialEq, Eq, Hash)]
pub enum Action {
    Hold(u8),
    Pass(u8),
    DropLink(u8, u8),
}
