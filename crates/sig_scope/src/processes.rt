//! The processes of a program, in the order of the text, each found by its name.

ghost use Rattle.std.specs.Prelude.{◌≡◌, ◌++◌, ◌↔◌};
ghost use Rattle.sig_scope.specs.Prelude.{IfOk, OnOk, IsTrue, option_map, model_of, program_of, all_processes, with_inner, process_of};
ghost use Rattle.sig_scope.specs.Places.{place_of};
ghost use Rattle.sig_scope.specs.Walked.{models_in, interface_models, process_texts};

use crate::scope::Interface;
use crate::texts::Texts;
use sig_tree::{Name, Process, Program};
use std::alloc::{AllocError, Global};

/// All processes of a program, of which the first of each name is found.
#[derive(Drop)]
pub struct Processes<'a> {
    pub interfaces: Vec<Interface<'a>>,
    names: Texts<'a>,
    ghost named: { names ≡ process_texts (interface_models interfaces.items) },
}

impl<'a> Processes<'a> {
    /// All processes of a program, each before those inside it.
    pub fn new(alloc: Global, program: &'a Program) -> Result<Processes<'a>, AllocError>
        ensures { IfOk result (λ all. interface_models all.interfaces.items ≡ all_processes (program_of program.now)) }
    {
        let mut all = Vec::new(alloc);
        for process in &program.processes {
            add_process(&mut all, process)?;
        }
        let interfaces = interfaces_of(alloc, &all)?;
        let names = names_of(alloc, &all)?;
        Ok(Processes { interfaces, names })
    }

    /// The first process of a name.
    pub fn get(&self, text: &[u8]) -> Option<&Interface<'a>>
        ensures { option_map (λ i. model_of i.now.process.now) result ≡ process_of (interface_models self.now.interfaces.items) text.now }
    {
        match self.names.place(text) {
            Some(place) => Some(&self.interfaces[place]),
            None => None,
        }
    }

    /// Whether no process has a name.
    pub fn lacks(&self, name: &Name) -> bool
        ensures { IsTrue result ↔ (process_of (interface_models self.now.interfaces.items) name.now.text ≡ None) }
    {
        match self.get(name.text.as_bytes()) {
            Some(_) => false,
            None => true,
        }
    }

    /// The place of the first process of a name.
    pub fn place(&self, text: &[u8]) -> Option<usize>
        ensures { result ≡ place_of (process_texts (interface_models self.now.interfaces.items)) text.now }
    {
        self.names.place(text)
    }

    /// What each process declares, in the order of the text.
    pub fn as_slice(&self) -> &[Interface<'a>]
        ensures { result.now ≡ self.now.interfaces.items }
    {
        self.interfaces.as_slice()
    }
}

/// Adds a process and those inside it.
fn add_process<'a>(all: &mut Vec<&'a Process>, process: &'a Process) -> Result<(), AllocError>
    ensures { OnOk result (models_in all.new.items ≡ models_in all.old.items ++ with_inner (model_of process.now)) }
{
    all.push(process)?;
    for inner in &process.inner {
        add_process(all, inner)?;
    }
    Ok(())
}

/// What each of these processes declares.
fn interfaces_of<'a>(
    alloc: Global,
    processes: &[&'a Process],
) -> Result<Vec<Interface<'a>>, AllocError>
    ensures { IfOk result (λ all. interface_models all.items ≡ models_in processes.now) }
{
    let mut all = Vec::new(alloc);
    for process in processes {
        let interface = Interface::new(alloc, *process)?;
        all.push(interface)?;
    }
    Ok(all)
}

/// The names of processes.
fn names_of<'a>(alloc: Global, processes: &[&'a Process]) -> Result<Texts<'a>, AllocError>
    ensures { IfOk result (λ names. names ≡ process_texts (models_in processes.now)) }
{
    let mut names = Texts::new(alloc);
    for process in processes {
        let process: &'a Process = *process;
        names.add(process.name.text.as_bytes())?;
    }
    Ok(names)
}
