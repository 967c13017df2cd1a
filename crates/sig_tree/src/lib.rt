//! The syntax tree of programs, and what programs are: the grammar as a relation between tokens and
//! trees (`specs/Grammar.antt` and the files that it names), the rules of well-formed programs
//! (`specs/WellFormed.antt`), flat bodies, in which no calls are left (`specs/FlatBody.antt`), with what
//! their expressions mean (`specs/Meaning.antt`) and which traces are those of a process
//! (`specs/ProcessTraces.antt`). It stands on sig_base and sig_lex.
#![tactic(auto)]

mod expansion;
mod expr;
mod flat;
mod laws;
mod meaning;
mod process;
mod steps;
mod well_formed;

pub use expansion::one_flat_body;
pub use expr::{BinOp, Constant, Expr, Name, UnOp};
pub use flat::{Flat, FlatEq, FlatExpr};
pub use laws::{
    beginnings, one_declaration, one_equation, one_expression, one_process, one_program, one_tree,
    spine, within_both_limits, within_no_limits,
};
pub use meaning::{
    meaning_up_to_an_instant, one_longest_trace, one_meaning, prefixes_of_traces, silence_in_traces,
};
pub use process::{Body, Group, Item, Process, Program, Right, RunOn};
pub use steps::{equations_step, expressions_step, traces_step};
pub use well_formed::{one_offence, some_offence};
