//! What a process declares, found by its name.

ghost use Rattle.std.specs.Prelude.{◌≡◌, ◌++◌, ◌↔◌};
ghost use Rattle.sig_scope.specs.Prelude.{map, List, IfOk, OnOk, IsTrue, option_map, Option, Kind as KindOfValues, model_of, declared_of, Declaration, declarations, declaration_of, params_of, inputs_of, outputs_of, locals_of, kind_of_name, parameter_kind, kind_of_constant, IsGiven, IsSignal, HasInit};
ghost use Rattle.sig_scope.specs.Declarations.{declaration_in, declarations_in, texts_in};

use crate::declared::{Declared, Role, declared_by};
use crate::texts::Texts;
use sig_base::Kind;
use sig_tree::{Constant, Name, Process};
use std::alloc::{AllocError, Global};
use std::marker::Model;

/// Declarations, of which the first of each name is found.
#[derive(Drop)]
pub struct Scope<'a> {
    declared: Vec<Declared<'a>>,
    names: Texts<'a>,
}

impl<'a> Model for Scope<'a> {
    ghost Value = { List Declaration };

    ghost view = { λ s. declarations_in s.declared.items };

    ghost invariant = { λ s. s.names ≡ texts_in (declarations_in s.declared.items) };
}

impl<'a> Scope<'a> {
    /// The first declaration of a name.
    pub fn get(&self, text: &[u8]) -> Option<Declared<'a>>
        ensures { option_map declaration_in result ≡ declaration_of self.now text.now }
    {
        match self.names.place(text) {
            Some(place) => Some(self.declared[place]),
            None => None,
        }
    }

    /// Whether a name is declared nowhere.
    pub fn lacks(&self, name: &Name) -> bool
        ensures { IsTrue result ↔ (declaration_of self.now name.now.text ≡ None) }
    {
        match self.get(name.text.as_bytes()) {
            Some(_) => false,
            None => true,
        }
    }

    /// The kind of a name.
    pub fn kind(&self, name: &Name) -> Option<Kind>
        ensures { result ≡ kind_of_name self.now name.now.text }
    {
        match self.get(name.text.as_bytes()) {
            Some(declared) => Some(declared.kind),
            None => None,
        }
    }

    /// The kind of a name, where it is a parameter.
    pub fn parameter_kind(&self, name: &Name) -> Option<Kind>
        ensures { result ≡ parameter_kind (declaration_of self.now name.now.text) }
    {
        match self.get(name.text.as_bytes()) {
            Some(declared) => match declared.role {
                Role::Parameter => Some(declared.kind),
                Role::Input | Role::Output | Role::Local => None,
            },
            None => None,
        }
    }

    /// Whether a name is an input or a parameter.
    pub fn is_given(&self, name: &Name) -> bool
        ensures { IsTrue result ↔ IsGiven (declaration_of self.now name.now.text) }
    {
        match self.get(name.text.as_bytes()) {
            Some(declared) => match declared.role {
                Role::Parameter | Role::Input => true,
                Role::Output | Role::Local => false,
            },
            None => false,
        }
    }

    /// Whether a name is a signal.
    pub fn is_signal(&self, name: &Name) -> bool
        ensures { IsTrue result ↔ IsSignal (declaration_of self.now name.now.text) }
    {
        match self.get(name.text.as_bytes()) {
            Some(declared) => match declared.role {
                Role::Parameter => false,
                Role::Input | Role::Output | Role::Local => true,
            },
            None => false,
        }
    }

    /// Whether a name is first declared with an init.
    pub fn has_init(&self, name: &Name) -> bool
        ensures { IsTrue result ↔ HasInit (declaration_of self.now name.now.text) }
    {
        match self.get(name.text.as_bytes()) {
            Some(declared) => declared.init.is_some(),
            None => false,
        }
    }

    /// All declarations.
    pub fn as_slice(&self) -> &[Declared<'a>]
        ensures { declarations_in result.now ≡ self.now }
    {
        self.declared.as_slice()
    }

    /// The kind of a constant.
    pub fn constant_kind(&self, constant: &Constant) -> Option<Kind>
        ensures { result ≡ kind_of_constant self.now constant.now }
    {
        match constant {
            Constant::Int(..) => Some(Kind::Integer),
            Constant::Bool(..) => Some(Kind::Boolean),
            Constant::Param(name) => self.parameter_kind(name),
        }
    }
}

/// Adds declarations to others.
fn add_declared<'a>(all: &mut Vec<Declared<'a>>, more: &[Declared<'a>]) -> Result<(), AllocError>
    ensures { OnOk result (declarations_in all.new.items ≡ declarations_in all.old.items ++ declarations_in more.now) }
{
    for one in more {
        all.push(*one)?;
    }
    Ok(())
}

/// The names of declarations.
fn names_of<'a>(alloc: Global, declared: &[Declared<'a>]) -> Result<Texts<'a>, AllocError>
    ensures { IfOk result (λ names. names ≡ texts_in (declarations_in declared.now)) }
{
    let mut names = Texts::new(alloc);
    for one in declared {
        names.add(one.name.text.as_bytes())?;
    }
    Ok(names)
}

/// What a process declares, by role.
#[derive(Drop)]
pub struct Interface<'a> {
    pub process: &'a Process,
    pub params: Vec<Declared<'a>>,
    pub inputs: Vec<Declared<'a>>,
    pub outputs: Vec<Declared<'a>>,
    pub locals: Vec<Declared<'a>>,
    ghost params_are: { declarations_in params.items ≡ params_of (model_of process.now) },
    ghost inputs_are: { declarations_in inputs.items ≡ inputs_of (model_of process.now) },
    ghost outputs_are: { declarations_in outputs.items ≡ outputs_of (model_of process.now) },
    ghost locals_are: { declarations_in locals.items ≡ locals_of (model_of process.now) },
}

impl<'a> Interface<'a> {
    /// What a process declares.
    pub fn new(alloc: Global, process: &'a Process) -> Result<Interface<'a>, AllocError>
        ensures { IfOk result (λ i. i.process.now ≡ process.now) }
    {
        let params = declared_by(alloc, Role::Parameter, &process.params)?;
        let inputs = declared_by(alloc, Role::Input, &process.inputs)?;
        let outputs = declared_by(alloc, Role::Output, &process.outputs)?;
        let locals = declared_by(alloc, Role::Local, &process.locals)?;
        Ok(Interface {
            process,
            params,
            inputs,
            outputs,
            locals,
        })
    }

    /// All that the process declares, by name.
    pub fn scope(&self, alloc: Global) -> Result<Scope<'a>, AllocError>
        ensures { IfOk result (λ scope. scope ≡ declarations (model_of self.now.process.now)) }
    {
        let mut declared = Vec::new(alloc);
        add_declared(&mut declared, &self.params)?;
        add_declared(&mut declared, &self.inputs)?;
        add_declared(&mut declared, &self.outputs)?;
        add_declared(&mut declared, &self.locals)?;
        let names = names_of(alloc, &declared)?;
        Ok(Scope { declared, names })
    }
}
