//! What is made of the plan of a program, as a text.

ghost use Rattle.sig_compile_command.specs.Prelude.{IfOk, IsCodeText, IsTreeText};
ghost use Rattle.sig_compile_command.specs.Compiling.{IsDueOf};

use sig_code::{CodeAnswer, code_text};
use sig_hier::{TreeAnswer, tree, tree_text};
use sig_plan::Plan;
use std::alloc::{AllocError, Global};

/// What is asked for of a program that is accepted: that it is, the hierarchy of its clocks, or its
/// step code.
#[derive(Clone, Copy, Debug, PartialEq, Eq)]
pub enum Product {
    Verdict,
    Tree,
    Code,
}

impl Product {
    /// The text of this product of a plan. Only memory can be wanting.
    pub fn text(self, alloc: Global, plan: &Plan) -> Result<Vec<u8>, AllocError>
        ensures { IfOk result (λ text. IsDueOf self plan.now.kernel text.items) }
    {
        match self {
            Product::Verdict => Vec::from_slice(alloc, b"accepted\n"),
            Product::Tree => match text_of_tree(alloc, plan) {
                Ok(text) => Ok(text),
                Err(TreeAnswer::OutOfMemory) => Err(AllocError),
            },
            Product::Code => match text_of_code(alloc, plan) {
                Ok(text) => Ok(text),
                Err(CodeAnswer::OutOfMemory) => Err(AllocError),
            },
        }
    }
}

/// The text of the hierarchy of a plan's clocks.
fn text_of_tree(alloc: Global, plan: &Plan) -> Result<Vec<u8>, TreeAnswer>
    ensures { IfOk result (λ text. IsTreeText plan.now.kernel text.items) }
{
    let tree = tree(alloc, &plan.clocks, &plan.store)?;
    tree_text(alloc, &plan.kernel, &plan.clocks, &tree)
}

/// The text of a plan's code.
fn text_of_code(alloc: Global, plan: &Plan) -> Result<Vec<u8>, CodeAnswer>
    ensures { IfOk result (λ text. IsCodeText plan.now.kernel text.items) }
{
    // What holds of every plan is known where its fields are read.
    let _inputs = plan.kernel.inputs;
    code_text(alloc, plan)
}
