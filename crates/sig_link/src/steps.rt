//! One step on a link's queue, as the end that puts and the end that takes make it.

ghost use Rattle.std.specs.Prelude.{◌≡◌, true, [], ◌∷◌, ◌++◌, IfNone, IfSome, OnErr, OnOk};
ghost use Rattle.crossbeam_queue.specs.Passes.{view, ruled_capacity, IsPassOf};
ghost use Rattle.sig_link.specs.Rule.{IsSameEnd, WasFull, WasEmpty};

use super::rule::{Line, LinkPass, Popping, Pushing};
use sig_base::Full;
use std::sync::Wait;

/// A push: it finds room, or it finds the queue full and changes nothing.
pub fn push_step<T: Drop, R: Wait>(
    rt: &R,
    line: &Line<T>,
    pass: &mut LinkPass<T>,
    item: T,
) -> Result<(), Full>
    requires queue { IsPassOf line.now pass.old }
    requires end { (view pass.old).puts ≡ true }
    ensures queue { IsPassOf line.now pass.new × IsSameEnd pass.old pass.new }
    ensures ok { OnOk result ((view pass.new).sent ≡ (view pass.old).sent ++ item ∷ []) }
    ensures full { OnErr result ((view pass.new ≡ view pass.old)
        × WasFull (ruled_capacity line.now) (view pass.old).sent) }
{
    match line.push_as::<Pushing, R>(rt, pass, item) {
        Ok(()) => Ok(()),
        Err(_) => Err(Full),
    }
}

/// A pop: it finds an item, or it finds the queue empty and changes nothing.
pub fn pop_step<T, R: Wait>(rt: &R, line: &Line<T>, pass: &mut LinkPass<T>) -> Option<T>
    requires queue { IsPassOf line.now pass.old }
    requires end { (view pass.old).takes ≡ true }
    ensures queue { IsPassOf line.now pass.new × IsSameEnd pass.old pass.new }
    ensures item { IfSome result (λ x. (view pass.new).taken ≡ (view pass.old).taken ++ x ∷ []) }
    ensures empty { IfNone result ((view pass.new ≡ view pass.old)
        × WasEmpty (view pass.old).taken) }
{
    line.pop_as::<Popping, R>(rt, pass)
}
