//! The handing over of what ends hold.

ghost use Rattle.std.specs.Prelude.{◌≡◌, ◌<◌, length, IsTrue};
ghost use Rattle.sig_work.specs.Ends.{HasPutAt, HaveHandedOver};

use crate::ends::LinkEnds;
use crate::member::Member;
use crate::neighbours::Neighbours;
use sig_halt::Halt;
use sig_plan::Plan;
use std::sync::Wait;

impl Member {
    /// Hands over all items that the actor's ends hold and for which there is room.
    pub(crate) fn hand_over<R: Wait>(&mut self, rt: &R, plan: &Plan, halt: &Halt)
        ensures ends { HaveHandedOver self.old.ends self.new.ends }
        ensures rest { self.new ≡ record self.old { ends = self.new.ends } }
    {
        self.ends.hand_over(rt, Neighbours { plan, halt });
    }
}

impl LinkEnds {
    /// Hands over what the ends hold, each as far as its queue has room.
    fn hand_over<R: Wait>(&mut self, rt: &R, neighbours: Neighbours<'_>)
        ensures { HaveHandedOver self.old self.new }
    {
        if !self.holds {
            return;
        }
        self.holds = false;
        for link in 0..self.puts.len() {
            self.hand_over_at(rt, neighbours, link);
        }
    }

    /// Hands over what one of the ends holds, if there is one and its queue has room.
    fn hand_over_at<R: Wait>(&mut self, rt: &R, neighbours: Neighbours<'_>, link: usize)
        requires { link < length self.old.puts.items }
        ensures { HaveHandedOver self.old self.new }
    {
        if !self.holds_at(link) {
            return;
        }
        match &mut self.puts[link] {
            Some(put) => {
                let handed = put.hand_over(rt);
                self.holds |= !handed;
                neighbours.note_put(link.min(u32::MAX as usize) as u32, handed);
            }
            None => unreachable!(),
        }
    }

    /// Whether the end of this link is here and holds items.
    fn holds_at(&self, link: usize) -> bool
        requires { link < length self.now.puts.items }
        ensures { IsTrue result → HasPutAt self.now link }
    {
        match &self.puts[link] {
            Some(put) => put.holds(),
            None => false,
        }
    }
}
