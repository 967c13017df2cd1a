//! How the operations of a kernel are split among actors.

ghost use Rattle.std.specs.Prelude.{◌≡◌, List};

use sig_base::SigId;
use std::marker::Model;

/// A link: the signal whose values it carries, or none where it carries the reports of a cluster; the
/// actor that sends them, and the one that receives them.
#[derive(Clone, Copy, Debug, PartialEq, Eq)]
pub struct LinkInfo {
    pub signal: Option<SigId>,
    pub writer: u32,
    pub reader: u32,
}

/// The signals that an actor imports, by number. Contracts see the list.
#[derive(Debug, Drop)]
pub struct Imports {
    pub list: Vec<SigId>,
}

impl Model for Imports {
    ghost use Rattle.sig_plan.specs.Prelude.{List, SigId};

    ghost Value = { List SigId };

    ghost view = { λ imports. imports.list.items };
}

impl Imports {
    /// The signals.
    pub fn as_slice(&self) -> &[SigId]
        ensures { result.now ≡ self.now }
    {
        self.list.as_slice()
    }
}

impl From<Vec<SigId>> for Imports {
    ghost from_gives = { λ list imports. imports ≡ list.items };

    fn from(list: Vec<SigId>) -> Imports {
        Imports { list }
    }
}

/// The parts of a kernel: the number of its clusters, which is also the number of the collector, the
/// links in order, and the imports of each actor, the collector's last.
#[derive(Drop)]
pub struct Parts {
    pub clusters: u32,
    pub links: Vec<LinkInfo>,
    pub imports: Vec<Imports>,
}

impl Model for Parts {
    ghost use Rattle.sig_plan.specs.Parts.{PartsView};

    ghost Value = { PartsView };

    ghost view = { λ parts. record {
      clusters = parts.clusters;
      links = parts.links.items;
      imports = parts.imports.items;
    } };
}
