//! What the names of a process stand for in a copy of it.

ghost use Rattle.std.specs.Prelude.{◌≡◌, ◌++◌, ◌+◌, ◌<◌, ◌^◌};
ghost use Rattle.sig_call.specs.Prelude.{ℕ, List, IfOk, OnOk, option_map, length, Binding as BoundTo, bound_from, bound_constants, declarations_in};
ghost use Rattle.sig_call.specs.Bindings.{binding_in, bindings_in, texts_bound, binding_found};

use sig_base::{Kind, SigId};
use sig_scope::{Declared, Texts};
use sig_tree::Name;
use std::alloc::{AllocError, Global};
use std::marker::Model;

/// What a name stands for: a signal, or a constant of a kind.
#[derive(Clone, Copy)]
pub enum Binding {
    Signal(SigId),
    Constant(i64, Kind),
}

/// A declared name, and what it stands for.
#[derive(Clone, Copy)]
pub struct Bound<'a> {
    pub name: &'a Name,
    pub to: Binding,
}

/// Names, of which the first of each text is found.
#[derive(Drop)]
pub struct Bindings<'a> {
    bound: Vec<Bound<'a>>,
    names: Texts<'a>,
}

impl<'a> Model for Bindings<'a> {
    ghost Value = { List (List ℕ × BoundTo) };

    ghost view = { λ b. bindings_in b.bound.items };

    ghost invariant = { λ b. b.names ≡ texts_bound (bindings_in b.bound.items) };
}

impl<'a> Bindings<'a> {
    /// These names.
    pub fn of(alloc: Global, bound: Vec<Bound<'a>>) -> Result<Bindings<'a>, AllocError>
        ensures { IfOk result (λ all. all ≡ bindings_in bound.entry.items) }
    {
        let names = names_of(alloc, &bound)?;
        Ok(Bindings { bound, names })
    }

    /// What the first of these names stands for.
    pub fn get(&self, text: &[u8]) -> Option<Binding>
        ensures { option_map binding_in result ≡ binding_found self.now text.now }
    {
        match self.names.place(text) {
            Some(place) => Some(self.bound[place].to),
            None => None,
        }
    }
}

/// The texts of names.
fn names_of<'a>(alloc: Global, bound: &[Bound<'a>]) -> Result<Texts<'a>, AllocError>
    ensures { IfOk result (λ names. names ≡ texts_bound (bindings_in bound.now)) }
{
    let mut names = Texts::new(alloc);
    for one in bound {
        names.add(one.name.text.as_bytes())?;
    }
    Ok(names)
}

/// Adds parameters, each with its constant.
pub fn bind_constants<'a>(
    bound: &mut Vec<Bound<'a>>,
    params: &[Declared<'a>],
    constants: &[i64],
) -> Result<(), AllocError>
    ensures { OnOk result (bindings_in bound.new.items ≡ bindings_in bound.old.items ++ bound_constants (declarations_in params.now) constants.now) }
{
    for (param, constant) in params.iter().zip(constants) {
        bound.push(Bound {
            name: param.name,
            to: Binding::Constant(*constant, param.kind),
        })?;
    }
    Ok(())
}

/// Adds signals, numbered from the first one's number.
pub fn bind_signals<'a>(
    bound: &mut Vec<Bound<'a>>,
    first: u32,
    signals: &[Declared<'a>],
) -> Result<(), AllocError>
    requires { first + length signals.now < 2 ^ 32 }
    ensures { OnOk result (bindings_in bound.new.items ≡ bindings_in bound.old.items ++ bound_from first (declarations_in signals.now)) }
{
    let mut number = first;
    for signal in signals {
        bound.push(Bound {
            name: signal.name,
            to: Binding::Signal(SigId(number)),
        })?;
        number += 1;
    }
    Ok(())
}
