//! Laws of acceptance. The function of a law does nothing when it runs.

ghost use Rattle.std.specs.Prelude.{◌≡◌, ◌⊎◌};
ghost use Rattle.sig_deciding_laws.specs.Prelude.{List, AreClocks, ClocksView, IsStore, StoreView, IsValid, Kernel, IsAcceptedKernel, IsRefusedFor, KernelFault, AreOperations, IsAccepted, PlanView, Op};
ghost use Rattle.sig_deciding_laws.specs.KernelRuns.{IsPlanOf};

/// A law: each kernel, valid or not, is accepted, or it is refused for one of the reasons, with the
/// signals that are named.
pub fn kernels_are_accepted_or_refused()
    ensures { (kernel : Kernel) → IsAcceptedKernel kernel ⊎ ((fault : KernelFault) × IsRefusedFor kernel fault) }
{}

/// A law: an accepted kernel has a plan over each store that holds the guards of its clocks and of its
/// operations. What else a plan needs, the compiled order, the links and the code of each actor, is
/// there, and takes no more of the store.
pub fn accepted_kernels_have_plans_where_guards_are_held()
    ensures { (kernel : Kernel) (store : StoreView) (clocks : ClocksView) (ops : List Op) → IsValid kernel
        → IsAcceptedKernel kernel → IsStore store → AreClocks kernel store.nodes clocks
        → AreOperations kernel store.nodes clocks ops
        → (plan : PlanView) × IsAccepted plan × (plan.kernel ≡ kernel) × (plan.store ≡ store)
        × (plan.clocks ≡ clocks) × (plan.ops ≡ ops) }
{}

/// A law: an accepted kernel has a plan. Its guards are held by some list of nodes, however long.
pub fn accepted_kernels_have_plans()
    ensures { (kernel : Kernel) → IsValid kernel → IsAcceptedKernel kernel
        → (plan : PlanView) × IsPlanOf kernel plan }
{}
