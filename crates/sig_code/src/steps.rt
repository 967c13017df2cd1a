//! The steps of an actor.

ghost use Rattle.std.specs.Prelude.{◌≡◌, ◌+◌, ◌*◌, ◌<◌, ◌^◌, ◌++◌};
ghost use Rattle.sig_code.specs.Prelude.{IfOk, OnOk, map, length, slice_get, filter_map, Holds, at_end, at_number, instructions_of, numbered, over_order, operations_in, numbers_of};
ghost use Rattle.sig_code.specs.inner.Coding.{Adds, AreCodesOf, AreHeld, IsCodeOf};
ghost use Rattle.sig_code.specs.inner.Turns.{AreReady, doing, ending, parts_of, receiving, sending};

use crate::answer::CodeAnswer;
use crate::routes::{Route, Routes};
use crate::slots::{At, add, add_if_any};
use sig_base::OpId;
use sig_dd::{Ref, Store};
use sig_plan::{Code, LinkInfo, Op, StepKind};
use std::alloc::Global;

/// What the codes of actors are made of: the operations and their order, the links, those of them that
/// carry what each operation writes, the number of clusters, and the guard of what is always done.
#[derive(Drop)]
pub(crate) struct Source<'a> {
    pub(crate) store: &'a Store,
    pub(crate) ops: &'a [Op],
    pub(crate) order: &'a [OpId],
    pub(crate) links: &'a [LinkInfo],
    pub(crate) routes: &'a [Routes],
    pub(crate) clusters: u32,
    pub(crate) unguarded: Ref,
}

impl Source<'_> {
    /// The codes of the clusters, and the collector's last.
    pub(crate) fn codes(&self, alloc: Global) -> Result<Vec<Code>, CodeAnswer>
        requires { AreReady self.now.store.now.nodes self.now.ops.now self.now.order.now self.now.links.now self.now.routes.now self.now.unguarded }
        ensures { IfOk result (λ codes. AreCodesOf self.now.store.now.nodes
            (instructions_of (operations_in self.now.store.now.nodes self.now.ops.now) (numbers_of self.now.order.now)
            (parts_of self.now.clusters self.now.links.now)) (self.now.clusters + 1) codes.items) }
    {
        let mut codes = Vec::new(alloc);
        for cluster in 0..self.clusters {
            codes.push(self.code_of(alloc, cluster)?)?;
        }
        codes.push(self.code_of(alloc, self.clusters)?)?;
        Ok(codes)
    }

    /// The code of an actor: its steps over the order, and then those at the end.
    fn code_of(&self, alloc: Global, actor: u32) -> Result<Code, CodeAnswer>
        requires { AreReady self.now.store.now.nodes self.now.ops.now self.now.order.now self.now.links.now self.now.routes.now self.now.unguarded }
        ensures { IfOk result (IsCodeOf self.now.store.now.nodes
            (instructions_of (operations_in self.now.store.now.nodes self.now.ops.now) (numbers_of self.now.order.now)
            (parts_of self.now.clusters self.now.links.now) actor)) }
    {
        let mut code = Code {
            steps: Vec::new(alloc),
            slots: Vec::new(alloc),
        };
        self.add_places(actor, &mut code)?;
        self.add_end(actor, &mut code)?;
        Ok(code)
    }

    /// Adds the steps of an actor over the order.
    fn add_places(&self, actor: u32, code: &mut Code) -> Result<(), CodeAnswer>
        requires ready { AreReady self.now.store.now.nodes self.now.ops.now self.now.order.now self.now.links.now self.now.routes.now self.now.unguarded }
        requires slots { AreHeld self.now.store.now.nodes code.old.slots }
        ensures { OnOk result (Adds self.now.store.now.nodes
            (over_order (operations_in self.now.store.now.nodes self.now.ops.now) (numbers_of self.now.order.now) self.now.links.now actor)
            code.old code.new) }
    {
        for (place, number) in self.order.iter().enumerate() {
            self.add_place(actor, place as u32, *number, code)?;
        }
        Ok(())
    }

    /// Adds the steps of an actor at a place of the order: it does its own operation, and sends what that
    /// writes; and it receives what another actor's writes, where it imports it.
    fn add_place(
        &self,
        actor: u32,
        place: u32,
        number: OpId,
        code: &mut Code,
    ) -> Result<(), CodeAnswer>
        requires ready { AreReady self.now.store.now.nodes self.now.ops.now self.now.order.now self.now.links.now self.now.routes.now self.now.unguarded }
        requires place { place < length self.now.ops.now }
        requires number { number.0 < length self.now.ops.now }
        requires slots { AreHeld self.now.store.now.nodes code.old.slots }
        ensures { OnOk result (Adds self.now.store.now.nodes
            (at_number (operations_in self.now.store.now.nodes self.now.ops.now) self.now.links.now actor place number.0
            (slice_get (operations_in self.now.store.now.nodes self.now.ops.now) number.0)) code.old code.new) }
    {
        let op = &self.ops[number.0 as usize];
        let routes = self.routes[number.0 as usize].as_slice();
        let guard = op.guard;
        let behind = At {
            pos: 2 * place + 1,
            guard,
        };
        if op.actor == actor {
            let pos = 2 * place;
            add(self.store, code, StepKind::Do(number), At { pos, guard })?;
            add_sends(self.store, routes, behind, code)
        } else {
            add_receives(self.store, routes, actor, behind, code)
        }
    }

    /// Adds the steps of an actor at the end: a cluster reports, and the collector collects the reports and
    /// commits.
    fn add_end(&self, actor: u32, code: &mut Code) -> Result<(), CodeAnswer>
        requires ready { AreReady self.now.store.now.nodes self.now.ops.now self.now.order.now self.now.links.now self.now.routes.now self.now.unguarded }
        requires slots { AreHeld self.now.store.now.nodes code.old.slots }
        ensures { OnOk result (Adds self.now.store.now.nodes
            (at_end self.now.links.now self.now.clusters (length self.now.ops.now) actor) code.old code.new) }
    {
        let guard = self.unguarded;
        let pos = 2 * self.ops.len() as u32;
        self.add_reports(actor, At { pos, guard }, code)?;
        if actor == self.clusters {
            let pos = pos + 1;
            add(self.store, code, StepKind::Commit, At { pos, guard })?;
        }
        Ok(())
    }

    /// Adds what an actor does with each report link.
    fn add_reports(&self, actor: u32, at: At, code: &mut Code) -> Result<(), CodeAnswer>
        requires few { length self.now.links.now < 2 ^ 32 }
        requires guard { Holds self.now.store.now.nodes at.guard }
        requires slots { AreHeld self.now.store.now.nodes code.old.slots }
        ensures { OnOk result (Adds self.now.store.now.nodes
            (map (doing self.now.store.now.nodes at.guard at.pos) (filter_map (ending self.now.clusters actor) (numbered self.now.links.now)))
            code.old code.new) }
    {
        for (number, link) in self.links.iter().enumerate() {
            let kind = self.ending(actor, number as u32, *link);
            add_if_any(self.store, code, kind, at)?;
        }
        Ok(())
    }

    /// What an actor does with a link at the end: the collector collects each report, and a cluster sends
    /// its own.
    fn ending(&self, actor: u32, number: u32, link: LinkInfo) -> Option<StepKind>
        ensures { result ≡ ending self.now.clusters actor (number, link) }
    {
        match link.signal {
            Some(_) => None,
            None if actor == self.clusters => Some(StepKind::Collect(number)),
            None if link.writer == actor => Some(StepKind::Report(number)),
            None => None,
        }
    }
}

/// Adds a send for each of these links.
fn add_sends(store: &Store, routes: &[Route], at: At, code: &mut Code) -> Result<(), CodeAnswer>
    requires guard { Holds store.now.nodes at.guard }
    requires slots { AreHeld store.now.nodes code.old.slots }
    ensures { OnOk result (Adds store.now.nodes (map (λ route. doing store.now.nodes at.guard at.pos (sending route)) routes.now) code.old code.new) }
{
    for route in routes {
        add(store, code, StepKind::Send(route.link), at)?;
    }
    Ok(())
}

/// Adds a receipt for the one of these links that an actor reads.
fn add_receives(
    store: &Store,
    routes: &[Route],
    actor: u32,
    at: At,
    code: &mut Code,
) -> Result<(), CodeAnswer>
    requires guard { Holds store.now.nodes at.guard }
    requires slots { AreHeld store.now.nodes code.old.slots }
    ensures { OnOk result (Adds store.now.nodes (map (doing store.now.nodes at.guard at.pos) (filter_map (receiving actor) routes.now)) code.old code.new) }
{
    for route in routes {
        add_if_any(store, code, receiving(actor, *route), at)?;
    }
    Ok(())
}

/// The receipt of an actor on a link that it reads.
fn receiving(actor: u32, route: Route) -> Option<StepKind>
    ensures { result ≡ receiving actor route }
{
    if route.reader == actor {
        return Some(StepKind::Receive(route.link));
    }
    None
}
