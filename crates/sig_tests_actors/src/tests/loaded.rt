//! The plan of a program, and flows for it.

ghost use Rattle.std.specs.Prelude.{IfOk};
ghost use Rattle.sig_kernel.specs.Validity.{AreFlowsFor};

use sig_back::back;
use sig_base::limits::PROGRAM_BYTES;
use sig_flow::read_flows;
use sig_front::front;
use sig_kernel::Inputs;
use sig_plan::Plan;
use std::alloc::Global;
use std::test::Fail;

/// The plan of a program that has one, and the flows of a flow file for its inputs.
pub fn loaded(alloc: Global, program: &[u8], flows: &[u8]) -> Result<(Plan, Inputs), Fail>
    ensures { IfOk result (λ both. AreFlowsFor both.0.kernel both.1) }
{
    if program.len() > PROGRAM_BYTES {
        return Err(Fail::from("the text is too long"));
    }
    let kernel = front(alloc, program)?;
    let inputs = read_flows(alloc, flows, &kernel)?;
    if !inputs.fits(&kernel) {
        return Err(Fail::from("the flows do not fit"));
    }
    Ok((back(alloc, kernel)?, inputs))
}

/// The number that a word tells, or 0.
pub fn number(word: Option<&str>) -> u16 {
    word.unwrap_or("").parse::<u16>().unwrap_or(0)
}
