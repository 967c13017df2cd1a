//! Laws of accepted plans. The function of a law does nothing when it runs.

ghost use Rattle.std.specs.Prelude.{◌≡◌, ◌≢◌, ◌<◌};
ghost use Rattle.sig_plan.specs.Prelude.{ℕ, Bool, true, List, length, slice_get, None, Some, Contains, SigId, HasClocks, AreClocks, ClocksView, KeepsTo, Reaction, Speaks, is_present, status_at, Depends, truth_of, Holds, diagram, test, Asks, Node, Ref, IsValid, Kernel};
ghost use Rattle.sig_plan.specs.Acceptance.{HasOperations};
ghost use Rattle.sig_plan.specs.Alike.{AreAlike};
ghost use Rattle.sig_plan.specs.Codes.{CodeView, Instruction, IsStepOf, instructions_of, op_id};
ghost use Rattle.sig_plan.specs.Guards.{IsGuardOf};
ghost use Rattle.sig_plan.specs.Holding.{HasBefore, HasGuard};
ghost use Rattle.sig_plan.specs.Instructions.{IsFor, NamesWithin};
ghost use Rattle.sig_plan.specs.Operations.{AreOperations, Operation, operations_in};
ghost use Rattle.sig_plan.specs.Parts.{IsOutput, PartsView};
ghost use Rattle.sig_plan.specs.Plans.{IsAccepted, PlanView, numbers_of};
ghost use Rattle.sig_plan.specs.Written.{AreWritten};
ghost use Rattle.sig_plan.specs.declared.code.Slot.{Slot};
ghost use Rattle.sig_plan.specs.declared.code.Step.{Step};
ghost use Rattle.sig_plan.specs.declared.code.StepKind.TheVariants.{Do, Send, Commit};
ghost use Rattle.sig_plan.specs.declared.op.Op.{Op};
ghost use Rattle.sig_plan.specs.declared.parts.LinkInfo.{LinkInfo};

/// A law: the operations that are made with a kernel's clocks are the kernel's, and so are those of an
/// accepted plan.
pub fn accepted_plans_have_their_operations()
    ensures made { (kernel : Kernel) (nodes : List Node) (clocks : ClocksView) (ops : List Op)
        → HasClocks kernel → AreClocks kernel nodes clocks → AreOperations kernel nodes clocks ops
        → HasOperations kernel clocks.conditions (operations_in nodes ops) }
    ensures plan { (plan : PlanView) → IsAccepted plan
        → HasOperations plan.kernel plan.clocks.conditions (operations_in plan.store.nodes plan.ops) }
{}

/// A law: each signal of a valid kernel is written by some operation, and an operation writes a signal
/// of its own cluster.
pub fn signals_are_written_in_their_clusters()
    ensures { (kernel : Kernel) (conditions : List SigId) (operations : List Operation) → IsValid kernel
        → HasOperations kernel conditions operations → AreWritten kernel.signals operations }
{}

/// A law: each instruction of an actor does one of its operations, sends what one of them writes,
/// receives what an operation of another actor writes, or reports, collects or commits at the end.
pub fn instructions_are_for_operations()
    ensures { (operations : List Operation) (order : List ℕ) (parts : PartsView) (actor : ℕ) (instruction : Instruction)
        → Contains (instructions_of operations order parts actor) instruction
        → IsFor operations order parts.links parts.clusters actor instruction }
{}

/// A law: a guard of an accepted plan, be it of an operation or of a slot, is held by its store and
/// depends on conditions alone. Its walk, by truths that a reaction keeps to, asks only for conditions
/// that are present in the reaction; so truths that agree on these give it one value.
pub fn guards_of_plans_ask_no_absent_condition()
    ensures held { (plan : PlanView) → IsAccepted plan → (guard : Ref) → IsGuardOf plan guard
        → Holds plan.store.nodes guard }
    ensures variables { (plan : PlanView) → IsAccepted plan → (guard : Ref) → IsGuardOf plan guard
        → (v : ℕ) → Depends (test plan.store.nodes guard) v → v < length plan.clocks.conditions }
    ensures asks { (plan : PlanView) → IsAccepted plan → (guard : Ref) → IsGuardOf plan guard
        → (proposal : List Bool) (reaction : Reaction) → Speaks plan.kernel reaction
        → KeepsTo plan.clocks.conditions proposal reaction
        → (v : ℕ) → Asks (diagram plan.store.nodes guard) proposal v
        → (condition : SigId) × (slice_get plan.clocks.conditions v ≡ Some condition)
        × (status_at reaction condition.0 ≢ None) }
    ensures agree { (plan : PlanView) → IsAccepted plan → (guard : Ref) → IsGuardOf plan guard
        → (proposal : List Bool) (reaction : Reaction) → Speaks plan.kernel reaction
        → KeepsTo plan.clocks.conditions proposal reaction
        → (other : List Bool)
        → ((v : ℕ) (condition : SigId) → slice_get plan.clocks.conditions v ≡ Some condition
        → status_at reaction condition.0 ≢ None → truth_of proposal v ≡ truth_of other v)
        → test plan.store.nodes guard proposal ≡ test plan.store.nodes guard other }
{}

/// A law: each step of an accepted plan does the instruction at its place. It names an operation or a
/// link of the plan and a slot of its code, a slot has an earlier one as its parent, and the order
/// names operations of the plan.
pub fn codes_name_what_is_there()
    ensures instructions { (plan : PlanView) → (is : IsAccepted plan)
        → (actor : ℕ) (code : CodeView) → slice_get plan.codes actor ≡ Some code
        → (k : ℕ) (step : Step) → slice_get code.steps k ≡ Some step
        → (i : Instruction) × (slice_get (instructions_of (operations_in plan.store.nodes plan.ops)
        (numbers_of plan.order) is.parts actor) k ≡ Some i) × IsStepOf plan.store.nodes code.slots i step }
    ensures steps { (plan : PlanView) → IsAccepted plan
        → (actor : ℕ) (code : CodeView) → slice_get plan.codes actor ≡ Some code
        → (k : ℕ) (step : Step) → slice_get code.steps k ≡ Some step
        → NamesWithin (length plan.ops) (length plan.links) step.kind }
    ensures slots { (plan : PlanView) → IsAccepted plan
        → (actor : ℕ) (code : CodeView) → slice_get plan.codes actor ≡ Some code
        → (k : ℕ) (step : Step) → slice_get code.steps k ≡ Some step → step.slot < length code.slots }
    ensures parents { (plan : PlanView) → IsAccepted plan
        → (actor : ℕ) (code : CodeView) → slice_get plan.codes actor ≡ Some code
        → (number : ℕ) (slot : Slot) → slice_get code.slots number ≡ Some slot
        → (last : ℕ) → slot.parent ≡ Some last → last < number }
    ensures order { (plan : PlanView) → IsAccepted plan
        → (k number : ℕ) → slice_get (numbers_of plan.order) k ≡ Some number → number < length plan.ops }
{}

/// A law: the accepted plans of a kernel have one order of conditions, one list of operations, one
/// order, the same links and as many codes, which are alike: they differ in the references of their
/// guards alone.
pub fn a_kernel_has_one_plan()
    ensures conditions { (a b : PlanView) → IsAccepted a → IsAccepted b → a.kernel ≡ b.kernel
        → a.clocks.conditions ≡ b.clocks.conditions }
    ensures operations { (a b : PlanView) → IsAccepted a → IsAccepted b → a.kernel ≡ b.kernel
        → operations_in a.store.nodes a.ops ≡ operations_in b.store.nodes b.ops }
    ensures order { (a b : PlanView) → IsAccepted a → IsAccepted b → a.kernel ≡ b.kernel → a.order ≡ b.order }
    ensures links { (a b : PlanView) → IsAccepted a → IsAccepted b → a.kernel ≡ b.kernel → a.links ≡ b.links }
    ensures actors { (a b : PlanView) → IsAccepted a → IsAccepted b → a.kernel ≡ b.kernel
        → length a.codes ≡ length b.codes }
    ensures codes { (a b : PlanView) → IsAccepted a → IsAccepted b → a.kernel ≡ b.kernel
        → (actor : ℕ) (x y : CodeView) → slice_get a.codes actor ≡ Some x → slice_get b.codes actor ≡ Some y
        → AreAlike a.store.nodes b.store.nodes x y }
{}

/// A law: before a step of an accepted plan, in a reaction that keeps to the proposal, its actor has
/// written or received each condition that is present and on which the step's guard depends; and where
/// the guard holds, each signal that its operation reads, the signal that it sends, and for the commit
/// each output that is present.
pub fn steps_have_what_they_need()
    ensures conditions { (plan : PlanView) → IsAccepted plan → (proposal : List Bool) (reaction : Reaction)
        → Speaks plan.kernel reaction → KeepsTo plan.clocks.conditions proposal reaction
        → (actor : ℕ) (code : CodeView) → slice_get plan.codes actor ≡ Some code
        → (k : ℕ) (step : Step) (slot : Slot) → slice_get code.steps k ≡ Some step → HasGuard code step slot
        → (v : ℕ) (condition : SigId) → slice_get plan.clocks.conditions v ≡ Some condition
        → is_present reaction condition.0 ≡ true → Depends (test plan.store.nodes slot.guard) v
        → HasBefore plan code proposal k condition }
    ensures reads { (plan : PlanView) → IsAccepted plan → (proposal : List Bool) (reaction : Reaction)
        → Speaks plan.kernel reaction → KeepsTo plan.clocks.conditions proposal reaction
        → (actor : ℕ) (code : CodeView) → slice_get plan.codes actor ≡ Some code
        → (k : ℕ) (step : Step) (slot : Slot) → slice_get code.steps k ≡ Some step → HasGuard code step slot
        → (number : ℕ) (op : Op) → step.kind ≡ Do (op_id number) → slice_get plan.ops number ≡ Some op
        → test plan.store.nodes slot.guard proposal ≡ true
        → (x : SigId) → Contains op.reads x → HasBefore plan code proposal k x }
    ensures sends { (plan : PlanView) → IsAccepted plan → (proposal : List Bool) (reaction : Reaction)
        → Speaks plan.kernel reaction → KeepsTo plan.clocks.conditions proposal reaction
        → (actor : ℕ) (code : CodeView) → slice_get plan.codes actor ≡ Some code
        → (k : ℕ) (step : Step) (slot : Slot) → slice_get code.steps k ≡ Some step → HasGuard code step slot
        → (link : ℕ) (info : LinkInfo) (x : SigId) → step.kind ≡ Send link
        → slice_get plan.links link ≡ Some info → info.signal ≡ Some x
        → test plan.store.nodes slot.guard proposal ≡ true → HasBefore plan code proposal k x }
    ensures commits { (plan : PlanView) → IsAccepted plan → (proposal : List Bool) (reaction : Reaction)
        → Speaks plan.kernel reaction → KeepsTo plan.clocks.conditions proposal reaction
        → (actor : ℕ) (code : CodeView) → slice_get plan.codes actor ≡ Some code
        → (k : ℕ) (step : Step) (slot : Slot) → slice_get code.steps k ≡ Some step → HasGuard code step slot
        → step.kind ≡ Commit → (x : SigId) → IsOutput plan.kernel x → is_present reaction x.0 ≡ true
        → HasBefore plan code proposal k x }
{}
