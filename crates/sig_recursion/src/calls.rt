//! The calls of processes, by their places, and which of them lead where.

ghost use Rattle.std.specs.Prelude.{◌≡◌, ◌<◌, ◌↔◌, ◌⊎◌, ◌++◌, [], IfOk, OnOk, IsTrue, false, length, flat_map, Some};
ghost use Rattle.std.specs.List.{All, AllByRecursion};
ghost use Rattle.sig_tree.specs.Declarations.{called_in};
ghost use Rattle.sig_tree.specs.Syntax.{equations_of};
ghost use Rattle.sig_tree.specs.Rules.{Reaches};
ghost use Rattle.sig_recursion.specs.Calls.{graph_of, graph_in, places_called, Path, IsGraph, IsCovered, IsFalling, Visits};
ghost use Rattle.sig_scope.specs.Places.{place_of};
ghost use Rattle.sig_scope.specs.Walked.{bodies_in, names_in, interface_models, process_texts};

use crate::ranks::{rank_at, ranks_of};
use sig_scope::{Processes, flat_equations};
use sig_tree::{Body, Name, Right};
use std::alloc::{AllocError, Global};

/// Adds the name of the process that an equation calls.
fn add_called<'a>(all: &mut Vec<&'a Name>, body: &'a Body) -> Result<(), AllocError>
    ensures { OnOk result (names_in all.new.items ≡ names_in all.old.items ++ called_in (equations_of body.now)) }
{
    match body {
        Body::Def(_, Right::Call(name, _, _)) => Ok(all.push(name)?),
        Body::Def(_, Right::Value(_)) | Body::All(_) | Body::Same(_) => Ok(()),
    }
}

/// The names of the processes that equations call.
pub fn called_names<'a>(alloc: Global, equations: &[&'a Body]) -> Result<Vec<&'a Name>, AllocError>
    ensures { IfOk result (λ all. names_in all.items ≡ flat_map called_in (bodies_in equations.now)) }
{
    let mut all = Vec::new(alloc);
    for equation in equations {
        add_called(&mut all, *equation)?;
    }
    Ok(all)
}

/// The places of the processes of these names, of those that are there.
fn places_of(
    alloc: Global,
    processes: &Processes,
    names: &[&Name],
) -> Result<Vec<usize>, AllocError>
    ensures { IfOk result (λ all. all.items ≡ places_called (process_texts (interface_models processes.now.interfaces.items)) (names_in names.now)) }
{
    let mut all = Vec::new(alloc);
    for name in names {
        let name: &Name = *name;
        if let Some(place) = processes.place(name.text.as_bytes()) {
            all.push(place)?;
        }
    }
    Ok(all)
}

/// The places of the processes that each process calls, and ranks of the processes that fall along
/// calls.
#[derive(Drop)]
pub struct Calls {
    pub callees: Vec<Vec<usize>>,
    ranks: Vec<Option<usize>>,
    ghost falling: { IsFalling (graph_in callees.items) ranks.items },
}

impl Calls {
    /// The calls of all processes.
    pub fn new(alloc: Global, processes: &Processes) -> Result<Calls, AllocError>
        ensures { IfOk result (λ calls. graph_in calls.callees.items ≡ graph_of (interface_models processes.now.interfaces.items)) }
    {
        let mut callees = Vec::new(alloc);
        for interface in processes.as_slice() {
            let body = flat_equations(alloc, &interface.process.body)?;
            let names = called_names(alloc, &body)?;
            let places = places_of(alloc, processes, &names)?;
            callees.push(places)?;
        }
        let ranks = ranks_of(alloc, &callees)?;
        Ok(Calls { callees, ranks })
    }
}

/// Visits places. Those that were not visited before wait.
fn visit(places: &[usize], visited: &mut [bool], waiting: &mut Vec<usize>) -> Result<(), AllocError>
    requires { All (λ place. place < length visited.old) places.now }
    ensures { OnOk result (Visits visited.old waiting.old.items visited.new waiting.new.items places.now) }
{
    for place in places {
        let place = *place;
        if !visited[place] {
            visited[place] = true;
            waiting.push(place)?;
        }
    }
    Ok(())
}

/// Whether the start leads to the target by calls. What is visited already does not, and where the
/// start does not, nothing that is visited then does.
fn reaches(
    alloc: Global,
    calls: &Calls,
    start: usize,
    target: usize,
    visited: &mut [bool],
) -> Result<bool, AllocError>
    requires graph { IsGraph (graph_in calls.now.callees.items) }
    requires sizes { length visited.old ≡ length calls.now.callees.items }
    requires start { start < length calls.now.callees.items }
    requires covered { IsCovered (graph_in calls.now.callees.items) target visited.old [] }
    ensures found { IfOk result (λ found. IsTrue found ↔ Path (graph_in calls.now.callees.items) start target) }
    ensures covered { IfOk result (λ found. IsTrue found ⊎ IsCovered (graph_in calls.now.callees.items) target visited.new []) }
{
    let mut waiting = Vec::new(alloc);
    let first = [start];
    visit(first.as_slice(), visited, &mut waiting)?;
    while let Some(next) = waiting.pop() {
        if next == target {
            return Ok(true);
        }
        visit(&calls.callees[next], visited, &mut waiting)?;
    }
    Ok(false)
}

/// Whether the process of a name leads to the target by calls. What is visited already does not, and
/// where the process does not, nothing that is visited then does.
pub fn is_recursive(
    alloc: Global,
    processes: &Processes,
    calls: &Calls,
    name: &Name,
    back: &Name,
    target: usize,
    visited: &mut [bool],
) -> Result<bool, AllocError>
    requires calls { graph_in calls.now.callees.items ≡ graph_of (interface_models processes.now.interfaces.items) }
    requires target { Some target ≡ place_of (process_texts (interface_models processes.now.interfaces.items)) back.now.text }
    requires sizes { length visited.old ≡ length calls.now.callees.items }
    requires covered { IsCovered (graph_in calls.now.callees.items) target visited.old [] }
    ensures found { IfOk result (λ found. IsTrue found ↔ Reaches (interface_models processes.now.interfaces.items) name.now.text back.now.text) }
    ensures covered { IfOk result (λ found. IsTrue found ⊎ IsCovered (graph_in calls.now.callees.items) target visited.new []) }
{
    match processes.place(name.text.as_bytes()) {
        Some(start) => {
            let found = reaches(alloc, calls, start, target, visited)?;
            Ok(found)
        }
        None => Ok(false),
    }
}

/// Whether the process of a name may lead to the target by calls, by their ranks.
fn may_lead_back(
    processes: &Processes,
    calls: &Calls,
    name: &Name,
    back: &Name,
    target: usize,
) -> bool
    requires calls { graph_in calls.now.callees.items ≡ graph_of (interface_models processes.now.interfaces.items) }
    requires target { Some target ≡ place_of (process_texts (interface_models processes.now.interfaces.items)) back.now.text }
    ensures { result ≡ false → Reaches (interface_models processes.now.interfaces.items) name.now.text back.now.text → ⊥ }
{
    match processes.place(name.text.as_bytes()) {
        Some(start) => rank_at(&calls.ranks, target) <= rank_at(&calls.ranks, start),
        None => false,
    }
}

/// Whether none of the processes of these names leads to the target by calls, by their ranks.
pub fn none_leads_back(
    processes: &Processes,
    calls: &Calls,
    names: &[&Name],
    back: &Name,
    target: usize,
) -> bool
    requires calls { graph_in calls.now.callees.items ≡ graph_of (interface_models processes.now.interfaces.items) }
    requires target { Some target ≡ place_of (process_texts (interface_models processes.now.interfaces.items)) back.now.text }
    ensures { IsTrue result → AllByRecursion (λ name. Reaches (interface_models processes.now.interfaces.items) name.text back.now.text → ⊥) (names_in names.now) }
{
    for name in names {
        if may_lead_back(processes, calls, *name, back, target) {
            return false;
        }
    }
    true
}
