//! Calls that lead back to the process in which they stand.

ghost use Rattle.std.specs.Prelude.{◌≡◌};
ghost use Rattle.sig_type.specs.Prelude.{Some, OnOk, graph_of, graph_in, place_of, names_in, interface_models, process_texts};
ghost use Rattle.sig_type.specs.inner.Asked.{recursive_in};
ghost use Rattle.sig_type.specs.inner.Findings.{Finds};

use crate::finding::{Finding, First};
use sig_recursion::{Calls, is_recursive, none_leads_back};
use sig_scope::Processes;
use sig_tree::Name;
use std::alloc::{AllocError, Global};

/// The calls of a process that lead back to it. Its own place is the target: that of the first
/// process of its name.
pub fn recursive_calls<'a>(
    alloc: Global,
    processes: &Processes,
    calls: &Calls,
    back: &Name,
    target: usize,
    names: &[&'a Name],
    first: &mut First<'a>,
) -> Result<(), AllocError>
    requires calls { graph_in calls.now.callees.items ≡ graph_of (interface_models processes.now.interfaces.items) }
    requires target { Some target ≡ place_of (process_texts (interface_models processes.now.interfaces.items)) back.now.text }
    ensures { OnOk result (Finds first.old first.new (recursive_in (interface_models processes.now.interfaces.items) back.now.text (names_in names.now))) }
{
    if none_leads_back(processes, calls, names, back, target) {
        return Ok(());
    }
    let mut visited = vec![in alloc; false; calls.callees.len()]?;
    for name in names {
        let name: &'a Name = *name;
        let found = is_recursive(alloc, processes, calls, name, back, target, &mut visited)?;
        first.ask(found, Finding::Recursive(name));
        if found {
            return Ok(());
        }
    }
    Ok(())
}
