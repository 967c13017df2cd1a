//! Laws of plans. The function of a law does nothing when it runs.

ghost use Rattle.std.specs.Prelude.{◌≡◌, ◌+◌, ◌*◌, ◌^◌, ◌<◌, ◌≤◌};
ghost use Rattle.sig_plan.specs.Prelude.{ℕ, List, Contains, length, slice_index, SigId, AreClocks, ClocksView, Keeps, StoreView, IsValid, Kernel};
ghost use Rattle.sig_plan.specs.Acceptance.{HasOperations, IsAcceptedKernel, IsRefusedFor, KernelFault};
ghost use Rattle.sig_plan.specs.Operations.{Operation, presence_in};
ghost use Rattle.sig_plan.specs.Order.{IsCompiledOrder, Precedes, Reaches};
ghost use Rattle.sig_plan.specs.Shares.{share_of};

/// A law: the clocks of a kernel stay its clocks while the store of their guards grows, and their
/// guards stay the same functions.
pub fn clocks_stay()
    ensures clocks { (kernel : Kernel) (old new : StoreView) (clocks : ClocksView) → Keeps old new
        → AreClocks kernel old.nodes clocks → AreClocks kernel new.nodes clocks }
    ensures guards { (kernel : Kernel) (old new : StoreView) (clocks : ClocksView) → Keeps old new
        → AreClocks kernel old.nodes clocks → presence_in new.nodes clocks ≡ presence_in old.nodes clocks }
{}

/// A law: operations have one compiled order at most. It has each operation once, and what precedes
/// an operation stands before it; so where there is an order, no operation precedes itself, directly
/// or through others.
pub fn operations_have_one_order()
    ensures one { (conditions : List SigId) (operations : List Operation) (a b : List ℕ)
        → IsCompiledOrder conditions operations a → IsCompiledOrder conditions operations b → a ≡ b }
    ensures each { (conditions : List SigId) (operations : List Operation) (order : List ℕ)
        → IsCompiledOrder conditions operations order → (i : ℕ) → i < length operations → Contains order i }
    ensures once { (conditions : List SigId) (operations : List Operation) (order : List ℕ)
        → IsCompiledOrder conditions operations order → (i j : ℕ) → i < length operations → j < length operations
        → slice_index order i ≡ slice_index order j → i ≡ j }
    ensures before { (conditions : List SigId) (operations : List Operation) (order : List ℕ)
        → IsCompiledOrder conditions operations order → (j : ℕ) → j < length operations
        → (p : ℕ) → Precedes conditions operations p (slice_index order j)
        → (i : ℕ) × (i < j) × (slice_index order i ≡ p) }
    ensures acyclic { (conditions : List SigId) (operations : List Operation) (order : List ℕ)
        → IsCompiledOrder conditions operations order → (i : ℕ) → i < length operations
        → Reaches (Precedes conditions operations) i i → ⊥ }
{}

/// A law: the share of operations is within three calls for each equation over the conditions, and
/// within 60 over any greater number of unknowns.
pub fn operations_need_few_nodes()
    ensures conditions { (kernel : Kernel) (conditions : List SigId)
        → share_of kernel conditions ≤ 2 ^ length conditions * 3 * (length kernel.equations + 1) }
    ensures unknowns { (kernel : Kernel) (conditions : List SigId) (u : ℕ) → length conditions ≤ u
        → share_of kernel conditions ≤ 2 ^ u * 60 * (length kernel.equations + u * u * u) }
{}

/// A law: a valid kernel that has clocks has one order of its conditions and one list of operations.
pub fn a_kernel_has_its_operations_once()
    ensures { (kernel : Kernel) (conditions other_conditions : List SigId) (operations other_operations : List Operation) → IsValid kernel
        → HasOperations kernel conditions operations → HasOperations kernel other_conditions other_operations
        → (conditions ≡ other_conditions) × (operations ≡ other_operations) }
{}

/// A law: a valid kernel is refused for one reason at most, with the same signals, and where it is, it is
/// not accepted.
pub fn a_kernel_has_one_fault_at_most()
    ensures one { (kernel : Kernel) (a b : KernelFault) → IsValid kernel → IsRefusedFor kernel a → IsRefusedFor kernel b → a ≡ b }
    ensures apart { (kernel : Kernel) (fault : KernelFault) → IsValid kernel → IsAcceptedKernel kernel → IsRefusedFor kernel fault → ⊥ }
{}
