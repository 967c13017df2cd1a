//! Instructions over numbered cells, each under a guard. An instant is a walk over stretches of them: what one guard tells of
//! those behind it is found once, so that those which are all done are done in a row, and the next guard that has to be asked
//! is told by few conditions. It stands on sig_dd, whose diagrams the guards are, on sig_kernel for functions and flows, on
//! sig_plan for causes, and on sig_values for what functions give.
#![tactic(auto)]

mod code;
mod coded;
mod guard;
mod implied;
mod instruction;
mod instructions;
mod quick;
mod react;
mod row;
mod runs;
mod stretches;
mod test;
mod tests;
mod ways;
mod works;

pub use code::GuardedCode;
pub use instruction::{Instruction, Work};
pub use instructions::Instructions;
pub use react::Fault;
