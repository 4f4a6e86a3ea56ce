//! What a view works with.
use crate::boards::Boards;
use ltm_core::Scratch;
use ltm_session::Script;
use std::alloc::Global;

/// What a script is served with while viewers look on. It is not `Drop`: its boards are ended.
pub struct Stage {
    pub(crate) alloc: Global,
    pub(crate) script: Script,
    pub(crate) scratch: Scratch,
    pub(crate) boards: Boards,
}
