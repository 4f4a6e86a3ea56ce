//! A story: what is done with a core, one thing after another, and what is answered.
use crate::rig::{Act, Rig, Told, rig_of};
use crate::roads::Case;
use std::alloc::Global;
use std::process::Abort;

/// The place, counted from 1, of the first thing that is answered otherwise; none where all is answered so.
fn first_otherwise(alloc: Global, rig: &mut Rig, story: &[(Act, Told)]) -> Option<usize> {
    for (place, (act, told)) in story.iter().enumerate() {
        if rig.act(alloc, *act) != *told {
            return Some(place);
        }
    }
    None
}

/// Whether a core of the case answers as the story says.
pub fn tell(rt: &impl Abort, alloc: Global, case: Case, story: &[(Act, Told)]) {
    let mut rig = rig_of(alloc, case).expect(rt, "a core");
    let otherwise = first_otherwise(alloc, &mut rig, story);
    rig.end();
    assert_eq!(rt; otherwise, None);
}
