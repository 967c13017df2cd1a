//! The links that carry what operations write.

ghost use Rattle.std.specs.Prelude.{◌≡◌, ◌<◌, ◌^◌, IfOk, length, map};
ghost use Rattle.sig_code.specs.inner.Turns.{route_if, routes_of};

use sig_base::SigId;
use sig_plan::{LinkInfo, Op};
use std::alloc::{AllocError, Global};
use std::marker::Model;

/// A link that carries what is written, and its reader.
#[derive(Clone, Copy)]
pub(crate) struct Route {
    pub(crate) link: u32,
    pub(crate) reader: u32,
}

/// The links that carry what an operation writes, by number. Contracts see the list.
#[derive(Drop)]
pub(crate) struct Routes {
    list: Vec<Route>,
}

impl Model for Routes {
    ghost use Rattle.std.specs.Prelude.{List};
    ghost use Rattle.sig_code.specs.declared.routes.Route.{Route};

    ghost Value = { List Route };

    ghost view = { λ routes. routes.list.items };
}

impl Routes {
    /// The links.
    pub(crate) fn as_slice(&self) -> &[Route]
        ensures { result.now ≡ self.now }
    {
        self.list.as_slice()
    }
}

/// To each operation the links that carry what it writes.
pub(crate) fn routes_of_each(
    alloc: Global,
    ops: &[Op],
    links: &[LinkInfo],
) -> Result<Vec<Routes>, AllocError>
    requires { length links.now < 2 ^ 32 }
    ensures { IfOk result (λ routes. routes.items ≡ map (λ op. routes_of links.now op.writes) ops.now) }
{
    let mut routes = Vec::new(alloc);
    for op in ops {
        routes.push(routes_of(alloc, links, op.writes)?)?;
    }
    Ok(routes)
}

/// The links that carry what is written.
fn routes_of(alloc: Global, links: &[LinkInfo], writes: Option<SigId>) -> Result<Routes, AllocError>
    requires { length links.now < 2 ^ 32 }
    ensures { IfOk result (λ routes. routes ≡ routes_of links.now writes) }
{
    let list = links
        .iter()
        .enumerate()
        .filter_map(|(number, link)| route_if(writes, number as u32, *link))
        .collect(alloc)?;
    Ok(Routes { list })
}

/// A link and its number, where it carries what is written.
fn route_if(writes: Option<SigId>, number: u32, link: LinkInfo) -> Option<Route>
    ensures { result ≡ route_if writes (number, link) }
{
    if link.signal? == writes? {
        return Some(Route {
            link: number,
            reader: link.reader,
        });
    }
    None
}
