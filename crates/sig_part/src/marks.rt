//! Marks on signals, and the lists of those that are marked.

ghost use Rattle.std.specs.Prelude.{◌≡◌, IfOk, false, replicate};
ghost use Rattle.sig_part.specs.inner.Marks.{AreMarked, AreMarkedIn, mark_at};

use sig_base::SigId;
use sig_plan::Imports;
use std::alloc::{AllocError, Global};
use std::marker::Model;

/// A mark for each signal. Contracts see the list.
#[derive(Drop)]
pub(crate) struct Marks {
    list: Vec<bool>,
}

impl Model for Marks {
    ghost use Rattle.std.specs.Prelude.{Bool, List};

    ghost Value = { List Bool };

    ghost view = { λ marks. marks.list.items };
}

impl Marks {
    /// Whether a signal is there and marked.
    pub(crate) fn has(&self, x: SigId) -> bool
        ensures { result ≡ mark_at self.now x.0 }
    {
        self.list.get(x.0 as usize).copied().unwrap_or(false)
    }
}

impl From<Vec<bool>> for Marks {
    ghost from_gives = { λ list marks. marks ≡ list.items };

    fn from(list: Vec<bool>) -> Marks {
        Marks { list }
    }
}

/// So many signals of which none is marked.
pub(crate) fn unmarked(alloc: Global, count: usize) -> Result<Vec<bool>, AllocError>
    ensures { IfOk result (λ marks. marks.items ≡ replicate count false) }
{
    vec![in alloc; false; count]
}

/// The lists of those of so many signals that are marked.
pub(crate) fn lists_of(
    alloc: Global,
    count: u32,
    marks: &[Marks],
) -> Result<Vec<Imports>, AllocError>
    ensures { IfOk result (λ lists. AreMarkedIn count marks.now lists.items) }
{
    let mut lists = Vec::new(alloc);
    for of_actor in marks {
        lists.push(list_of(alloc, count, of_actor)?)?;
    }
    Ok(lists)
}

/// Those of so many signals that are marked, by number.
fn list_of(alloc: Global, count: u32, marks: &Marks) -> Result<Imports, AllocError>
    ensures { IfOk result (AreMarked count marks.now) }
{
    let mut list = Vec::new(alloc);
    for number in 0..count {
        if marks.has(SigId(number)) {
            list.push(SigId(number))?;
        }
    }
    Ok(Imports::from(list))
}
