//! Laws of systems of accepted programs. The function of a law does nothing when it runs.

ghost use Rattle.std.specs.Prelude.{◌≡◌, ◌⊎◌, ◌<◌, ◌≤◌};
ghost use Rattle.sig_system_laws.specs.Prelude.{ℕ, ℤ, List, [], length, slice_get, slice_index_or, Option, Some, Instant, IsPrefixOf, SigId, flow_of, AreFlowsFor, Kernel, Place, Ended, Exhausted, IsKernelEnd};
ghost use Rattle.sig_system_laws.specs.BoundedLinks.{Capacity, HoldsAll, IsReachedFromWithin, IsReachedWithin, IsStill};
ghost use Rattle.sig_system_laws.specs.Faults.{IsAtFault};
ghost use Rattle.sig_system_laws.specs.Joined.{AreJoined, flows_of};
ghost use Rattle.sig_system_laws.specs.Systems.{AreAccepted, Begins, Given, IsEnabled, IsFinal, IsReached, IsReachedFrom, State, carried};

/// A law: any two interleavings can be joined: from the states that they leave, some more events lead to one
/// state. So what a program did in one of them begins what it did in the other one, or the other way round.
pub fn interleavings_join()
    ensures join { (given : Given) → AreAccepted given.system → (s t : State) → IsReached given s → IsReached given t
        → (u : State) × IsReachedFrom given s u × IsReachedFrom given t u }
    ensures one { (given : Given) → AreAccepted given.system → (s t : State) → IsReached given s → IsReached given t
        → (k : ℕ) → IsPrefixOf (s k) (t k) ⊎ IsPrefixOf (t k) (s k) }
{}

/// A law: a state in which no program can go on has all that any other state has, and there is only one.
pub fn final_states_are_one()
    ensures all { (given : Given) → AreAccepted given.system → (s t : State) → IsReached given s → IsReached given t
        → IsFinal given t → Begins s t }
    ensures one { (given : Given) → AreAccepted given.system → (s t : State) → IsReached given s → IsFinal given s
        → IsReached given t → IsFinal given t → s ≡ t }
{}

/// A law: longer flows from outside and more instants take nothing away: each state that is reached without them
/// is reached with them.
pub fn longer_flows_keep_what_was_done()
    ensures { (given : Given) (flows : List (List ℤ)) (limit : ℕ → ℕ)
        → ((input : ℕ) → IsPrefixOf (slice_index_or given.flows input []) (slice_index_or flows input []))
        → ((k : ℕ) → given.limit k ≤ limit k) → (s : State) → IsReached given s
        → IsReached (record given { flows = flows; limit = limit }) s }
{}

/// A law: over links that hold no more than so many values the programs do nothing that they may not do over
/// links without bounds.
pub fn bounds_add_nothing()
    ensures reached { (given : Given) (capacity : Capacity) (s : State) → IsReachedWithin given capacity s → IsReached given s }
    ensures begins { (given : Given) → AreAccepted given.system → (capacity : Capacity) (s t : State)
        → IsReachedWithin given capacity s → IsReached given t → IsFinal given t → Begins s t }
{}

/// A law: over links with bounds, too, any two interleavings can be joined, within the same bounds. So there is one state, at
/// most, in which the programs stand still, and it has all that any other state within these bounds has.
pub fn bounded_interleavings_join()
    ensures join { (given : Given) → AreAccepted given.system → (capacity : Capacity) (s t : State)
        → IsReachedWithin given capacity s → IsReachedWithin given capacity t
        → (u : State) × IsReachedFromWithin given capacity s u × IsReachedFromWithin given capacity t u }
    ensures all { (given : Given) → AreAccepted given.system → (capacity : Capacity) (s t : State)
        → IsReachedWithin given capacity s → IsReachedWithin given capacity t → IsStill given capacity t → Begins s t }
    ensures one { (given : Given) → AreAccepted given.system → (capacity : Capacity) (s t : State)
        → IsReachedWithin given capacity s → IsStill given capacity s
        → IsReachedWithin given capacity t → IsStill given capacity t → s ≡ t }
{}

/// A law: links that have room for all that they carry in the final state change nothing: the programs stand
/// still in no other state.
pub fn links_with_room_change_nothing()
    ensures { (given : Given) → AreAccepted given.system → (capacity : Capacity) (s t : State)
        → IsReachedWithin given capacity s → IsStill given capacity s
        → IsReached given t → IsFinal given t → HoldsAll given capacity t → s ≡ t }
{}

/// A law: a fault is final: a program that is at a fault goes past it in no interleaving, whatever comes later on
/// its other inputs.
pub fn faults_are_final()
    ensures { (given : Given) → AreAccepted given.system → (s t : State) → IsReached given s → IsReached given t
        → (k : ℕ) (instant : Instant) → IsAtFault given s k instant → IsPrefixOf (t k) (s k) }
{}

/// A law: in a final state what each program did is the longest trace for the flows that its links carried, with
/// the end that a run of it over these flows has. In any state these flows fit the program.
pub fn final_states_are_runs()
    ensures fit { (given : Given) → AreAccepted given.system → AreJoined given → (t : State) → IsReached given t
        → (k : ℕ) (kernel : Kernel) → slice_get given.system.programs k ≡ Some kernel
        → AreFlowsFor kernel (flows_of given t k kernel) }
    ensures end { (given : Given) → AreAccepted given.system → AreJoined given → (t : State) → IsReached given t → IsFinal given t
        → (k : ℕ) (kernel : Kernel) → slice_get given.system.programs k ≡ Some kernel
        → (place : Option Place) × (ended : Ended)
        × IsKernelEnd kernel (flows_of given t k kernel) (given.limit k) (t k) place ended }
{}

/// A law: a program whose run over what its links carried ends since an input is exhausted has taken all that the link
/// to this input carried.
pub fn starved_programs_have_taken_all()
    ensures { (given : Given) → AreAccepted given.system → AreJoined given → (t : State) → IsReached given t
        → (k : ℕ) (kernel : Kernel) → slice_get given.system.programs k ≡ Some kernel → (place : Option Place) (ended : Ended)
        → IsKernelEnd kernel (flows_of given t k kernel) (given.limit k) (t k) place ended
        → (x : SigId) → x.0 < kernel.inputs → ended.cause ≡ Exhausted x → flow_of x.0 (t k) ≡ carried given t k x.0 }
{}

/// A law: a system comes to a final state: in each state that is reached no program can go on, or one can; none has more
/// instants than it may; and from each state some more events lead to a final one.
pub fn systems_come_to_a_final_state()
    ensures next { (given : Given) → AreAccepted given.system → AreJoined given → (s : State) → IsReached given s
        → IsFinal given s ⊎ ((k : ℕ) × (instant : Instant) × IsEnabled given s k instant) }
    ensures within { (given : Given) (s : State) → IsReached given s → (k : ℕ) → length (s k) ≤ given.limit k }
    ensures last { (given : Given) → AreAccepted given.system → AreJoined given → (s : State) → IsReached given s
        → (t : State) × IsReachedFrom given s t × IsFinal given t }
{}

/// A law: over links with bounds, too, from each state some more events, each with room, lead to a state in which the
/// programs stand still.
pub fn bounded_systems_come_to_stand_still()
    ensures { (given : Given) → AreAccepted given.system → AreJoined given → (capacity : Capacity) (s : State)
        → IsReachedWithin given capacity s
        → (t : State) × IsReachedFromWithin given capacity s t × IsStill given capacity t }
{}
