//! The answers that a store keeps.

ghost use Rattle.std.specs.Prelude.{◌≡◌, IfSome, List};
ghost use Rattle.sig_dd.specs.declared.node.Node.{Node};
ghost use Rattle.sig_dd.specs.Question.{HoldsAll, IsAnswer, IsTable};

use crate::keyed::Keyed;
use crate::node::Ref;
use crate::question::Question;
use crate::store::{KEPT, Store};
use std::alloc::{AllocError, Global};
use std::collections::HashMap;

/// The second function where the first is true, and the third elsewhere: what the cache is asked by.
#[derive(Clone, Copy, Debug, PartialEq, Eq, Hash)]
pub(crate) struct Choice {
    pub(crate) first: Ref,
    pub(crate) second: Ref,
    pub(crate) third: Ref,
}

/// How many answers one call keeps at most: as many as the most nodes that a program may have.
const ROOM: usize = 8_000_000;

/// What one call has answered so far: the restrictions, and the choices that lasted after so many were put into the
/// store's cache as it has room for. Until then none of the call's own choices has left the cache.
#[derive(Drop)]
pub(crate) struct Table {
    cached: usize,
    pub(crate) others: HashMap<Question, Ref, Keyed>,
}

/// Whether one more answer is kept beside so many.
pub(crate) fn room_beside(answers: usize) -> Result<(), AllocError> {
    if answers < ROOM {
        return Ok(());
    }
    Err(AllocError)
}

impl Table {
    /// Nothing was answered yet.
    pub(crate) fn new(alloc: Global, keyed: Keyed) -> Table
        ensures { (nodes : List Node) → IsTable ⟦<Question as PartialEq>⟧.eq nodes result.others }
    {
        Table {
            cached: 0,
            others: HashMap::with_hasher(alloc, keyed),
        }
    }
}

impl Store {
    /// The answer of the question, where it is kept. The cache is asked only for choices that last.
    pub(crate) fn recall(&self, table: &Table, question: Question, lasts: bool) -> Option<Ref>
        requires { IsTable ⟦<Question as PartialEq>⟧.eq self.now.nodes table.now.others }
        ensures { IfSome result (IsAnswer self.now.nodes question) }
    {
        match question {
            Question::Pick(first, second, third) => {
                if !lasts {
                    return None;
                }
                let choice = Choice {
                    first,
                    second,
                    third,
                };
                let cached = self.recall_choice(choice);
                if cached.is_some() || table.cached < KEPT {
                    return cached;
                }
            }
            Question::Fix(..) => {}
        }
        table.others.get(&question).copied()
    }

    /// Keeps the answer of the question, that of a choice only where it lasts.
    pub(crate) fn keep(
        &mut self,
        table: &mut Table,
        question: Question,
        r: Ref,
        lasts: bool,
    ) -> Result<(), AllocError>
        requires held { HoldsAll self.old.nodes question }
        requires answer { IsAnswer self.old.nodes question r }
        requires table { IsTable ⟦<Question as PartialEq>⟧.eq self.old.nodes table.old.others }
        ensures same { self.new ≡ self.old }
        ensures table { IsTable ⟦<Question as PartialEq>⟧.eq self.old.nodes table.new.others }
    {
        match question {
            Question::Pick(first, second, third) => {
                if !lasts {
                    return Ok(());
                }
                if table.cached < KEPT {
                    let choice = Choice {
                        first,
                        second,
                        third,
                    };
                    self.keep_choice(choice, r);
                    table.cached += 1;
                    return Ok(());
                }
            }
            Question::Fix(..) => {}
        }
        room_beside(table.others.len())?;
        table.others.insert(question, r)?;
        Ok(())
    }

    /// The answer of a choice, where the cache has it. The look leaves the cache as it is, so the
    /// entry that goes first is the one that was put in first.
    fn recall_choice(&self, choice: Choice) -> Option<Ref>
        ensures { IfSome result (
            IsAnswer self.now.nodes (Question.Pick choice.first choice.second choice.third)) }
    {
        self.cache.peek(&choice).copied()
    }

    /// Puts the answer of a choice into the cache, where there is memory for it.
    fn keep_choice(&mut self, choice: Choice, r: Ref)
        requires held { HoldsAll self.old.nodes
            (Question.Pick choice.first choice.second choice.third) }
        requires answer { IsAnswer self.old.nodes
            (Question.Pick choice.first choice.second choice.third) r }
        ensures { self.new ≡ self.old }
    {
        // What the cache has no memory for is not kept, and the call goes on.
        let _kept = self.cache.put(choice, r);
    }
}
