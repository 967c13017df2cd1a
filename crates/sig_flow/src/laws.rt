//! Laws of the definitions of files.

ghost use Rattle.std.specs.Prelude.{◌≡◌, ◌⊎◌, ◌↔◌};
ghost use Rattle.sig_flow.specs.Prelude.{ℕ, ℤ, List, None, Some, Signal, Kind, AreFlowsFor, inputs_of, Kernel};
ghost use Rattle.sig_flow.specs.Events.{AreEvents, IsFirstBadEvent};
ghost use Rattle.sig_flow.specs.Flows.{AreFlows, IsFirstBadPlace, value_judge};
ghost use Rattle.sig_flow.specs.First.{AllGood, IsFirst, first_fault};
ghost use Rattle.sig_flow.specs.Words.{Word};
ghost use Rattle.sig_flow.specs.declared.version.Version.{Version};
ghost use Rattle.sig_flow.specs.declared.answer.EventAnswer.{EventAnswer};
ghost use Rattle.sig_flow.specs.declared.answer.FlowAnswer.{FlowAnswer};
ghost use Rattle.sig_flow.specs.declared.event.FileEvent.{FileEvent};

/// A law: bytes have one list of flows for some inputs, or one first offending place, and not both.
pub fn one_flow_reading()
    ensures some { (inputs : List Signal) (bytes : List ℕ) →
        ((flows : List (List ℤ)) × AreFlows inputs bytes flows) ⊎ ((fault : FlowAnswer) × IsFirstBadPlace inputs bytes fault) }
    ensures flows { (inputs : List Signal) (bytes : List ℕ) (a b : List (List ℤ)) → AreFlows inputs bytes a → AreFlows inputs bytes b → a ≡ b }
    ensures fault { (inputs : List Signal) (bytes : List ℕ) (a b : FlowAnswer) → IsFirstBadPlace inputs bytes a → IsFirstBadPlace inputs bytes b → a ≡ b }
    ensures apart { (inputs : List Signal) (bytes : List ℕ) (flows : List (List ℤ)) (fault : FlowAnswer) →
        AreFlows inputs bytes flows → IsFirstBadPlace inputs bytes fault → ⊥ }
{}

/// A law: the flows of a flow file for the inputs of a kernel fit the kernel: there is one for each
/// input, and each of its values is of the input's kind, an integer of 64 bits, a truth or true.
pub fn flows_that_are_read_fit()
    ensures { (kernel : Kernel) (bytes : List ℕ) (flows : List (List ℤ)) → AreFlows (inputs_of kernel) bytes flows
        → AreFlowsFor kernel flows }
{}

/// A law: the place at which a line's values offend is that of the first word that does, and every word
/// before it is good.
pub fn first_wrong_word()
    ensures fault { (version : Version) (kind : Kind) (number before : ℕ) (words : List Word) (fault : FlowAnswer) →
        (first_fault (value_judge version kind number) before words ≡ Some fault) ↔ IsFirst (value_judge version kind number) before words fault }
    ensures good { (version : Version) (kind : Kind) (number before : ℕ) (words : List Word) →
        (first_fault (value_judge version kind number) before words ≡ None) ↔ AllGood (value_judge version kind number) before words }
{}

/// A law: bytes have one list of events, or one first offending line, and not both.
pub fn one_event_reading()
    ensures some { (bytes : List ℕ) →
        ((events : List FileEvent) × AreEvents bytes events) ⊎ ((fault : EventAnswer) × IsFirstBadEvent bytes fault) }
    ensures events { (bytes : List ℕ) (a b : List FileEvent) → AreEvents bytes a → AreEvents bytes b → a ≡ b }
    ensures fault { (bytes : List ℕ) (a b : EventAnswer) → IsFirstBadEvent bytes a → IsFirstBadEvent bytes b → a ≡ b }
    ensures apart { (bytes : List ℕ) (events : List FileEvent) (fault : EventAnswer) → AreEvents bytes events → IsFirstBadEvent bytes fault → ⊥ }
{}
