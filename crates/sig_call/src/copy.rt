//! Copies of processes.

ghost use Rattle.std.specs.Prelude.{◌≡◌, ◌+◌, ◌<◌, ◌^◌};
ghost use Rattle.sig_call.specs.Prelude.{map, length, IfOk, option_map, model_of, declarations, copy_of, copy_prefix, binding_of, signal_of, value_of, init_value, declared_init, signals_declared};
ghost use Rattle.sig_call.specs.Bindings.{binding_in, bindings_of};

use crate::binding::{Binding, Bindings, bind_constants, bind_signals};
use itoa::Buffer;
use sig_base::{SigId, Text};
use sig_scope::{Interface, Scope};
use sig_tree::{Constant, Name, Process};
use std::alloc::{AllocError, Global};

/// The prefix of the signals of the copy that a call makes, by the name that is called and the
/// number of the call.
pub fn prefix_of(alloc: Global, name: &Name, call: u32) -> Result<Text, AllocError>
    ensures { IfOk result (λ prefix. prefix ≡ copy_prefix name.now call) }
{
    let mut buffer = Buffer::new();
    let mut prefix = Vec::from_slice(alloc, name.text.as_bytes())?;
    prefix.extend_from_slice(b"#")?;
    prefix.extend_from_slice(buffer.format(call).as_bytes())?;
    prefix.extend_from_slice(b".")?;
    Ok(Text::from(prefix))
}

/// A copy of a process: the prefix of its signals' names, and what its names stand for.
#[derive(Drop)]
pub struct ProcessCopy<'a> {
    pub prefix: Text,
    pub process: &'a Process,
    names: Bindings<'a>,
    scope: Scope<'a>,
    ghost scope_is: { scope ≡ declarations (model_of process.now) },
}

impl<'a> ProcessCopy<'a> {
    ghost use Rattle.sig_call.specs.inner.Copies.{copy_in};

    /// A copy whose parameters are these constants, and whose signals are numbered from the first
    /// one's number.
    pub fn new(
        alloc: Global,
        prefix: Text,
        first: u32,
        constants: &[i64],
        interface: &Interface<'a>,
    ) -> Result<ProcessCopy<'a>, AllocError>
        requires { first + length (signals_declared (model_of interface.now.process.now)) < 2 ^ 32 }
        ensures { IfOk result (λ copy. copy_in copy ≡ copy_of prefix first constants.now (model_of interface.now.process.now)) }
    {
        let names = bind(alloc, first, constants, interface)?;
        let scope = interface.scope(alloc)?;
        Ok(ProcessCopy {
            prefix,
            process: interface.process,
            names,
            scope,
        })
    }

    /// What a name stands for.
    pub fn binding(&self, name: &Name) -> Option<Binding>
        ensures { option_map binding_in result ≡ binding_of (copy_in self.now) name.now.text }
    {
        self.names.get(name.text.as_bytes())
    }

    /// The number of a signal's name.
    pub fn signal(&self, name: &Name) -> SigId
        ensures { result.0 ≡ signal_of (copy_in self.now) name.now }
    {
        match self.binding(name) {
            Some(Binding::Signal(number)) => number,
            Some(Binding::Constant(..)) | None => SigId(0),
        }
    }

    /// The value of a constant.
    pub fn value(&self, constant: &Constant) -> i64
        ensures { result ≡ value_of (copy_in self.now) constant.now }
    {
        match constant {
            Constant::Int(value, _) => *value,
            Constant::Bool(truth, _) => i64::from(*truth),
            Constant::Param(name) => match self.binding(name) {
                Some(Binding::Constant(value, _)) => value,
                Some(Binding::Signal(_)) | None => 0,
            },
        }
    }

    /// The values of constants.
    pub fn values(&self, alloc: Global, constants: &[Constant]) -> Result<Vec<i64>, AllocError>
        ensures { IfOk result (λ values. values.items ≡ map (value_of (copy_in self.now)) constants.now) }
    {
        let mut values = Vec::new(alloc);
        for constant in constants {
            values.push(self.value(constant))?;
        }
        Ok(values)
    }

    /// The value of an init; 0 where there is none.
    pub fn init(&self, init: &Option<Constant>) -> i64
        ensures { result ≡ init_value (copy_in self.now) init.now }
    {
        match init {
            Some(constant) => self.value(constant),
            None => 0,
        }
    }

    /// The value of the init with which a name is declared; 0 where there is none.
    pub fn declared_init(&self, name: &Name) -> i64
        ensures { result ≡ init_value (copy_in self.now) (declared_init (copy_in self.now) name.now) }
    {
        match self.scope.get(name.text.as_bytes()) {
            Some(declared) => self.init(declared.init),
            None => 0,
        }
    }
}

/// What the names of a process stand for in a copy.
fn bind<'a>(
    alloc: Global,
    first: u32,
    constants: &[i64],
    interface: &Interface<'a>,
) -> Result<Bindings<'a>, AllocError>
    requires { first + length (signals_declared (model_of interface.now.process.now)) < 2 ^ 32 }
    ensures { IfOk result (λ names. names ≡ bindings_of first constants.now (model_of interface.now.process.now)) }
{
    let mut bound = Vec::new(alloc);
    let outputs = first + interface.inputs.len() as u32;
    let locals = outputs + interface.outputs.len() as u32;
    bind_constants(&mut bound, &interface.params, constants)?;
    bind_signals(&mut bound, first, &interface.inputs)?;
    bind_signals(&mut bound, outputs, &interface.outputs)?;
    bind_signals(&mut bound, locals, &interface.locals)?;
    Bindings::of(alloc, bound)
}
