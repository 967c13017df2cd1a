//! Laws of the links of a kernel and of the instructions that use them. The function of a law does
//! nothing when it runs.

ghost use Rattle.std.specs.Prelude.{◌≡◌, ◌≢◌, ◌<◌, ◌≤◌, ◌+◌, ◌*◌, ◌⊎◌};
ghost use Rattle.sig_plan.specs.Prelude.{ℕ, Bool, true, List, length, slice_get, None, Some, Contains, SigId, KeepsTo, Reaction, Speaks, is_present, Depends, IsValid, Kernel};
ghost use Rattle.sig_plan.specs.Acceptance.{HasOperations};
ghost use Rattle.sig_plan.specs.Codes.{Instruction, instructions_of, op_id, under, unguarded};
ghost use Rattle.sig_plan.specs.Instructions.{CarriesFrom, IsProvidedBefore, StandsAt};
ghost use Rattle.sig_plan.specs.Operations.{Operation};
ghost use Rattle.sig_plan.specs.Order.{IsCompiledOrder};
ghost use Rattle.sig_plan.specs.Parts.{AreParts, IsOutput, PartsView};
ghost use Rattle.sig_plan.specs.declared.code.StepKind.TheVariants.{Do, Send, Receive, Report, Collect, Commit};
ghost use Rattle.sig_plan.specs.declared.parts.LinkInfo.{LinkInfo};

/// A law: a link goes from a cluster to another actor; its writer alone sends or reports on it, and
/// its reader alone receives or collects from it.
pub fn links_have_one_writer_and_one_reader()
    ensures ends { (kernel : Kernel) → IsValid kernel → (conditions : List SigId) (operations : List Operation)
        → HasOperations kernel conditions operations
        → (parts : PartsView) → AreParts kernel conditions operations parts
        → (link : ℕ) (info : LinkInfo) → slice_get parts.links link ≡ Some info
        → (info.writer < parts.clusters) × (info.reader ≤ parts.clusters) × (info.writer ≢ info.reader) }
    ensures writer { (kernel : Kernel) → IsValid kernel → (conditions : List SigId) (operations : List Operation)
        → HasOperations kernel conditions operations
        → (parts : PartsView) → AreParts kernel conditions operations parts
        → (order : List ℕ) (actor link : ℕ) (info : LinkInfo) → slice_get parts.links link ≡ Some info
        → (i : Instruction) → Contains (instructions_of operations order parts actor) i
        → (i.kind ≡ Send link) ⊎ (i.kind ≡ Report link) → actor ≡ info.writer }
    ensures reader { (kernel : Kernel) → IsValid kernel → (conditions : List SigId) (operations : List Operation)
        → HasOperations kernel conditions operations
        → (parts : PartsView) → AreParts kernel conditions operations parts
        → (order : List ℕ) (actor link : ℕ) (info : LinkInfo) → slice_get parts.links link ≡ Some info
        → (i : Instruction) → Contains (instructions_of operations order parts actor) i
        → (i.kind ≡ Receive link) ⊎ (i.kind ≡ Collect link) → actor ≡ info.reader }
{}

/// A law: for each operation that writes a link's signal the link's writer sends on it and its reader
/// receives from it, at equal positions and under the operation's guard. What a cluster reports is
/// collected, at equal positions too.
pub fn what_is_sent_is_received()
    ensures sends { (kernel : Kernel) → IsValid kernel → (conditions : List SigId) (operations : List Operation)
        → HasOperations kernel conditions operations
        → (parts : PartsView) → AreParts kernel conditions operations parts
        → (order : List ℕ) (j number link : ℕ) (p : Operation) → StandsAt operations order j number p
        → (from : CarriesFrom parts.links p link)
        → Contains (instructions_of operations order parts from.info.writer) (under p (Send link) (2 * j + 1))
        × Contains (instructions_of operations order parts from.info.reader) (under p (Receive link) (2 * j + 1)) }
    ensures reports { (kernel : Kernel) → IsValid kernel → (conditions : List SigId) (operations : List Operation)
        → HasOperations kernel conditions operations
        → (parts : PartsView) → AreParts kernel conditions operations parts
        → (order : List ℕ) (link : ℕ) (info : LinkInfo) → slice_get parts.links link ≡ Some info
        → info.signal ≡ None
        → Contains (instructions_of operations order parts info.writer) (unguarded (Report link) (2 * length operations))
        × Contains (instructions_of operations order parts info.reader) (unguarded (Collect link) (2 * length operations)) }
{}

/// A law: the instructions of an actor stand by position. Where the guard of one holds, in a reaction
/// that keeps to the proposal, the actor has before it what it needs: each condition that is present
/// and on which the guard depends, each signal that its operation reads, the signal that it sends, and
/// for the commit each output that is present. Each is written by an operation that the actor has done,
/// or was received.
pub fn actors_have_what_they_need()
    ensures positions { (operations : List Operation) (order : List ℕ) (parts : PartsView) (actor : ℕ)
        → length order ≡ length operations
        → (i k : ℕ) (a b : Instruction) → i < k
        → slice_get (instructions_of operations order parts actor) i ≡ Some a
        → slice_get (instructions_of operations order parts actor) k ≡ Some b → a.position ≤ b.position }
    ensures conditions { (kernel : Kernel) → IsValid kernel → (conditions : List SigId) (operations : List Operation)
        → HasOperations kernel conditions operations
        → (order : List ℕ) → IsCompiledOrder conditions operations order
        → (parts : PartsView) → AreParts kernel conditions operations parts
        → (proposal : List Bool) (reaction : Reaction) → Speaks kernel reaction → KeepsTo conditions proposal reaction
        → (actor : ℕ) → actor ≤ parts.clusters
        → (v : ℕ) (condition : SigId) → slice_get conditions v ≡ Some condition
        → is_present reaction condition.0 ≡ true
        → (k : ℕ) (b : Instruction) → slice_get (instructions_of operations order parts actor) k ≡ Some b
        → Depends b.guard v
        → IsProvidedBefore operations parts.links (instructions_of operations order parts actor) proposal k condition }
    ensures reads { (kernel : Kernel) → IsValid kernel → (conditions : List SigId) (operations : List Operation)
        → HasOperations kernel conditions operations
        → (order : List ℕ) → IsCompiledOrder conditions operations order
        → (parts : PartsView) → AreParts kernel conditions operations parts
        → (proposal : List Bool) (reaction : Reaction) → Speaks kernel reaction → KeepsTo conditions proposal reaction
        → (actor : ℕ) → actor ≤ parts.clusters
        → (k : ℕ) (b : Instruction) → slice_get (instructions_of operations order parts actor) k ≡ Some b
        → (number : ℕ) (q : Operation) → b.kind ≡ Do (op_id number) → slice_get operations number ≡ Some q
        → b.guard proposal ≡ true → (x : SigId) → Contains q.reads x
        → IsProvidedBefore operations parts.links (instructions_of operations order parts actor) proposal k x }
    ensures sends { (kernel : Kernel) → IsValid kernel → (conditions : List SigId) (operations : List Operation)
        → HasOperations kernel conditions operations
        → (order : List ℕ) → IsCompiledOrder conditions operations order
        → (parts : PartsView) → AreParts kernel conditions operations parts
        → (proposal : List Bool) (reaction : Reaction) → Speaks kernel reaction → KeepsTo conditions proposal reaction
        → (actor : ℕ) → actor ≤ parts.clusters
        → (k : ℕ) (b : Instruction) → slice_get (instructions_of operations order parts actor) k ≡ Some b
        → (link : ℕ) (info : LinkInfo) (x : SigId) → b.kind ≡ Send link → slice_get parts.links link ≡ Some info
        → info.signal ≡ Some x → b.guard proposal ≡ true
        → IsProvidedBefore operations parts.links (instructions_of operations order parts actor) proposal k x }
    ensures commits { (kernel : Kernel) → IsValid kernel → (conditions : List SigId) (operations : List Operation)
        → HasOperations kernel conditions operations
        → (order : List ℕ) → IsCompiledOrder conditions operations order
        → (parts : PartsView) → AreParts kernel conditions operations parts
        → (proposal : List Bool) (reaction : Reaction) → Speaks kernel reaction → KeepsTo conditions proposal reaction
        → (actor : ℕ) → actor ≤ parts.clusters
        → (k : ℕ) (b : Instruction) → slice_get (instructions_of operations order parts actor) k ≡ Some b
        → b.kind ≡ Commit → (x : SigId) → IsOutput kernel x → is_present reaction x.0 ≡ true
        → IsProvidedBefore operations parts.links (instructions_of operations order parts actor) proposal k x }
{}
