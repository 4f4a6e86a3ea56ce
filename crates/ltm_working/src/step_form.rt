//! How the node step of a pair is given.

/// As what has been counted by the slot's end, or as what has moved in the slot.
#[derive(Clone, Copy, Debug, PartialEq, Eq)]
pub(crate) enum StepForm {
    Counted,
    Moved,
}
