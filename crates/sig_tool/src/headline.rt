//! The sentence that sigc is for, as a law. The function of a law does nothing when it runs.

ghost use Rattle.std.specs.Prelude.{◌≡◌, true};
ghost use Rattle.sig_tool.specs.Prelude.{ℕ, ℤ, List, Bool, false, Option, AreFlowsFor, Ended, GetsPaces, HasOwnKernel, HasTracesOf, IsAcceptedProgram, IsKernelEnd, Kernel, Place, Trace};
ghost use Rattle.sig_tool.specs.Headline.{HasFlowsOfPaces, KeepsHeadline, KeepsHeadlineWithFlag};

use sig_deciding_laws::{
    accepted_kernels_have_one_end, accepted_kernels_have_plans,
    ends_of_plans_are_those_of_their_kernels,
};
use sig_flat::restricted_traces_keep_flows;
use sig_front::{kernels_of_texts, traces_of_programs};
use sig_kernel::{beginnings_are_traces, silent_instants_make_no_difference};
use sig_pace::{
    paced_kernels_have_the_old_traces, paces_write_nothing, traces_fit_the_flows_of_paces,
    traces_have_paces,
};
use sig_schedule_laws::{
    events_are_enabled_until_all_have_ended, finished_states_have_the_end,
    states_begin_the_longest_trace,
};

/// A law: if the compiler accepts a process, for all input flows and limits of instants its fitting traces,
/// silent instants removed, are the prefixes of one trace; every interleaving of its clusters, over links of
/// any capacity from one, writes a prefix of that trace's text and has an enabled event until finished, and a
/// finished one wrote exactly that text and names the first cause of its end. With the flag for paces, so it
/// is for flows of the inputs and of the paces, and each fitting trace of the process is one at some paces.
/// The traces of the kernel of a program's text are those of the program. There is one end of a run, of which
/// the clauses `run` and `play` of `sig_main` speak too.
pub fn accepted_programs_keep_the_headline()
    ensures headline { (bytes : List ℕ) → (program : IsAcceptedProgram false bytes) → (flows : List (List ℤ))
        → AreFlowsFor program.kernel flows → (limit : ℕ) → KeepsHeadline bytes program.kernel flows limit }
    ensures with_flag { (bytes : List ℕ) → (program : IsAcceptedProgram true bytes) → (flows : List (List ℤ))
        → AreFlowsFor program.kernel flows → (limit : ℕ) → KeepsHeadlineWithFlag bytes program.kernel flows limit }
    ensures paces { (bytes : List ℕ) (own kernel : Kernel) (least : List ℕ) → HasOwnKernel bytes own → GetsPaces own kernel least
        → HasFlowsOfPaces bytes own kernel least }
    ensures traces { (bytes : List ℕ) (own : Kernel) → HasOwnKernel bytes own → HasTracesOf bytes own }
    ensures one { (pace : Bool) (bytes : List ℕ) → (program : IsAcceptedProgram pace bytes) → (flows : List (List ℤ))
        → AreFlowsFor program.kernel flows → (limit : ℕ) → (trace other : Trace) (place at : Option Place) (end ended : Ended)
        → IsKernelEnd program.kernel flows limit trace place end → IsKernelEnd program.kernel flows limit other at ended
        → (trace ≡ other) × (place ≡ at) × (end ≡ ended) }
{
    kernels_of_texts();
    traces_of_programs();
    beginnings_are_traces();
    silent_instants_make_no_difference();
    restricted_traces_keep_flows();
    paced_kernels_have_the_old_traces();
    traces_fit_the_flows_of_paces();
    traces_have_paces();
    paces_write_nothing();
    accepted_kernels_have_plans();
    accepted_kernels_have_one_end();
    ends_of_plans_are_those_of_their_kernels();
    states_begin_the_longest_trace();
    events_are_enabled_until_all_have_ended();
    finished_states_have_the_end();
}
