//! The link ends of one actor.

ghost use Rattle.std.specs.Prelude.{◌≡◌, IfOk};
ghost use Rattle.sig_work.specs.Ends.{HasNoEnds};

use crate::neighbours::Neighbours;
use sig_base::Full;
use sig_chunk::{Inlet, Outlet};
use sig_step::Ends;
use std::alloc::{AllocError, Global};
use std::mem;
use std::sync::Wait;

/// The ends of the links to which one actor sends and from which it takes, by the numbers of links.
#[derive(Drop)]
pub struct LinkEnds {
    pub(crate) puts: Vec<Option<Inlet>>,
    pub(crate) takes: Vec<Option<Outlet>>,
    /// Whether some of those that put may hold items that they have not handed over.
    pub(crate) holds: bool,
}

impl LinkEnds {
    /// No links.
    fn of_no_links(alloc: Global) -> LinkEnds {
        LinkEnds {
            puts: Vec::new(alloc),
            takes: Vec::new(alloc),
            holds: false,
        }
    }

    /// The end of a link that puts, if it is here.
    pub(crate) fn put_at(&self, link: u32) -> Option<&Inlet> {
        self.puts.get(link as usize)?.as_ref()
    }

    /// The end of a link that takes, if it is here.
    pub(crate) fn take_at(&self, link: u32) -> Option<&Outlet> {
        self.takes.get(link as usize)?.as_ref()
    }

    /// Hands out the ends, and keeps none.
    pub(crate) fn take(&mut self) -> LinkEnds
        ensures { result ≡ self.old }
    {
        let none = LinkEnds::of_no_links(*self.puts.allocator());
        mem::replace(self, none)
    }

    /// Room for the ends of so many links, of which there is none yet.
    pub(crate) fn of_none(alloc: Global, links: usize) -> Result<LinkEnds, AllocError>
        ensures { IfOk result (HasNoEnds links) }
    {
        let mut puts = Vec::with_capacity(alloc, links)?;
        let mut takes = Vec::with_capacity(alloc, links)?;
        for _ in 0..links {
            puts.push_reserved(None);
            takes.push_reserved(None);
        }
        Ok(LinkEnds {
            puts,
            takes,
            holds: false,
        })
    }
}

/// Link ends with the leave to wait for the other end's steps.
#[derive(Drop)]
pub(crate) struct Lent<'a, R> {
    pub(crate) rt: &'a R,
    pub(crate) neighbours: Neighbours<'a>,
    pub(crate) ends: LinkEnds,
}

impl<'a, R: Wait> Ends for Lent<'a, R> {
    ghost use Rattle.std.specs.Prelude.{None, Some};
    ghost use Rattle.std.proofs.Common.{inl, refl};
    ghost use Rattle.sig_work.specs.Ends.{AreSameEnds, AreSameEnds-itself, HasFoundEmpty, HasFoundFull, past_of, puts_of, takes_of};

    ghost past = { λ lent. Some (past_of lent.ends) };

    ghost queues = { λ lent. None };

    ghost pushes = { λ lent. puts_of lent.ends };

    ghost pops = { λ lent. takes_of lent.ends };

    ghost found_full = { λ link old new. HasFoundFull link old.ends new.ends };

    ghost found_empty = { λ link old new. HasFoundEmpty link old.ends new.ends };

    ghost tells = { λ lent. inl refl };

    ghost same = { λ old new. AreSameEnds old.ends new.ends };

    ghost same_itself = { λ lent. AreSameEnds-itself lent.ends };

    fn push(&mut self, link: u32, item: i64) -> Result<(), Full> {
        match &mut self.ends.puts[link as usize] {
            Some(put) => {
                let pushed = put.push(self.rt, item);
                let holds = put.holds();
                self.ends.holds |= holds;
                self.neighbours.note_put(link, pushed.is_ok() & !holds);
                pushed
            }
            None => unreachable!(),
        }
    }

    fn pop(&mut self, link: u32) -> Option<i64> {
        match &mut self.ends.takes[link as usize] {
            Some(take) => {
                let popped = take.pop(self.rt);
                self.neighbours
                    .note_take(link, popped.is_some() & take.began_chunk());
                popped
            }
            None => unreachable!(),
        }
    }
}
