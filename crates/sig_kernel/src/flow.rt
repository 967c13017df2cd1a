//! Flows of values.

ghost use Rattle.std.specs.Prelude.{◌≡◌, ◌↔◌};
ghost use Rattle.sig_kernel.specs.Prelude.{ℤ, List, IsTrue, list_all};
ghost use Rattle.sig_kernel.specs.Validity.{AreFlowsFor, value_is};

use crate::kernel::Kernel;
use sig_base::Kind;
use std::marker::Model;

/// The values of an input, one after another: integers, or truths as 0 and 1. Contracts see the
/// list.
#[derive(Debug, Drop)]
pub struct Flow {
    pub values: Vec<i64>,
}

impl Model for Flow {
    ghost Value = { List ℤ };

    ghost view = { λ flow. flow.values.items };
}

impl Flow {
    /// The values.
    pub fn as_slice(&self) -> &[i64]
        ensures { result.now ≡ self.now }
    {
        self.values.as_slice()
    }
}

impl From<Vec<i64>> for Flow {
    ghost from_gives = { λ values flow. flow ≡ values.items };

    fn from(values: Vec<i64>) -> Flow {
        Flow { values }
    }
}

/// Whether each value is of the kind.
fn has_values_of(kind: Kind, values: &[i64]) -> bool
    ensures { result ≡ list_all (value_is kind) values.now }
{
    values.iter().all(|value| is_value(kind, *value))
}

/// Whether a value is of the kind: an integer, or as a truth 0 or 1, or as an event 1.
fn is_value(kind: Kind, value: i64) -> bool
    ensures { result ≡ value_is kind value }
{
    match kind {
        Kind::Integer => true,
        Kind::Boolean => value == 0 || value == 1,
        Kind::Event => value == 1,
    }
}

/// The flows of all inputs, in the order of the inputs. Contracts see the list.
#[derive(Debug, Drop)]
pub struct Inputs {
    pub flows: Vec<Flow>,
}

impl Model for Inputs {
    ghost Value = { List (List ℤ) };

    ghost view = { λ inputs. inputs.flows.items };
}

impl Inputs {
    /// The flows.
    pub fn as_slice(&self) -> &[Flow]
        ensures { result.now ≡ self.now }
    {
        self.flows.as_slice()
    }

    /// Whether there is one flow for each input of the kernel, each of its values of the input's
    /// kind. It takes no memory.
    pub fn fits(&self, kernel: &Kernel) -> bool
        ensures { IsTrue result ↔ AreFlowsFor kernel.now self.now }
    {
        let inputs = kernel.inputs();
        let flows = self.as_slice();
        if inputs.len() != flows.len() {
            return false;
        }
        for i in 0..inputs.len() {
            if !has_values_of(inputs[i].kind, flows[i].as_slice()) {
                return false;
            }
        }
        true
    }
}

impl From<Vec<Flow>> for Inputs {
    ghost from_gives = { λ flows inputs. inputs ≡ flows.items };

    fn from(flows: Vec<Flow>) -> Inputs {
        Inputs { flows }
    }
}
