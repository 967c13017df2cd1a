//! The names and the comments that a step is written with.

use crate::unread::Unread;
use sig_base::Text;
use std::marker::Model;

/// The names of a step. The variables are those of the signals, then of whether each output comes, and then of what each memory
/// has next.
#[derive(Drop)]
pub struct StepNames {
    pub prefix: Text,
    pub include: Text,
    pub inputs: Vec<Text>,
    pub outputs: Vec<Text>,
    pub variables: Vec<Text>,
    pub fields: Vec<Text>,
    pub unread: Vec<Unread>,
}

impl Model for StepNames {
    ghost use Rattle.std.specs.Prelude.{map};
    ghost use Rattle.sig_c_write.specs.Given.{Given, ignored_of};

    ghost Value = { Given };

    ghost view = { λ names. record {
      prefix = names.prefix;
      include = names.include;
      inputs = names.inputs.items;
      outputs = names.outputs.items;
      variables = names.variables.items;
      fields = names.fields.items;
      unread = map ignored_of names.unread.items;
    } };
}

/// The lines of the first comment, and a comment for each operation that is not left out.
#[derive(Drop)]
pub struct StepNotes {
    pub head: Vec<Text>,
    pub operations: Vec<Text>,
}

impl Model for StepNotes {
    ghost use Rattle.sig_c_write.specs.Text.{Notes};

    ghost Value = { Notes };

    ghost view = { λ notes. record { head = notes.head.items; operations = notes.operations.items } };
}
