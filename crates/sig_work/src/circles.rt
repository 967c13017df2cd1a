//! Links on which clusters may wait for each other within an instant.

use crate::plans::links_in;
use sig_plan::{LinkInfo, Plan};
use sig_step::actors_in;
use std::alloc::{AllocError, Global};

/// Where circles of links may lie: in each, some link leads to a cluster that is not behind its writer, and such
/// links span all of it.
#[derive(Drop)]
pub(crate) struct Circles {
    /// By actor, the first one, it or one behind it, from which no circle leads on.
    ends: Vec<usize>,
}

impl Circles {
    pub(crate) fn of(alloc: Global, plan: &Plan) -> Result<Circles, AllocError> {
        let mut ends = back_links(alloc, plan)?;
        let mut reached = 0;
        for (actor, end) in ends.iter_mut().enumerate() {
            reached = reached.max(*end).max(actor);
            *end = reached;
        }
        for actor in (1..ends.len()).rev() {
            if ends[actor - 1] > actor - 1 {
                ends[actor - 1] = ends[actor];
            }
        }
        Ok(Circles { ends })
    }

    /// Whether a link may lie on a circle.
    pub(crate) fn may_hold(&self, link: &LinkInfo) -> bool {
        match self.ends.get(link.writer as usize) {
            Some(end) => (link.reader as usize) <= *end,
            None => true,
        }
    }
}

/// By actor, the last writer of a link that leads to it and is not before it; 0 where there is none.
fn back_links(alloc: Global, plan: &Plan) -> Result<Vec<usize>, AllocError> {
    let mut last = Vec::from_elem(alloc, 0, actors_in(plan))?;
    for link in links_in(plan) {
        let writer = link.writer as usize;
        match last.get_mut(link.reader as usize) {
            Some(known) => *known = writer.max(*known),
            None => {}
        }
    }
    Ok(last)
}
