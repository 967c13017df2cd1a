//! Statuses of signals as pairs of diagrams.

ghost use Rattle.std.specs.Prelude.{◌∷◌, if◌then◌else◌};
ghost use Rattle.sig_rel.specs.Prelude.{[], IfOk, true, same_status, same_truth, Holds, test, Agree, SpanAll, HoldAll};
ghost use Rattle.sig_rel.specs.Shares.{Makes};
ghost use Rattle.sig_rel.specs.inner.Statuses.{itself, refs_of, status_by};

use sig_dd::{DdAnswer, Ref, Store};

/// What a signal is, as functions of variables: whether it is present, and its truth where it is.
#[derive(Clone, Copy)]
pub(crate) struct Known {
    pub(crate) present: Ref,
    pub(crate) truth: Ref,
}

impl Known {
    /// Where two signals are both absent, or both present with one truth.
    pub(crate) fn same(self, store: &mut Store, other: Known) -> Result<Ref, DdAnswer>
        requires held { HoldAll store.old.nodes (refs_of self) }
        requires other { HoldAll store.old.nodes (refs_of other) }
        ensures made { Makes 5 (SpanAll store.old.nodes (self.present ∷ self.truth ∷ other.present ∷ other.truth ∷ []))
            store.old store.new itself result }
        ensures value { IfOk result (λ r. Agree (test store.new.nodes r) (λ truths.
            same_status
            (status_by store.old.nodes self truths) (status_by store.old.nodes other truths))) }
    {
        let alike = same_truth(store, other.truth, self.truth)?;
        let both = store.conj(other.present, alike)?;
        let neither = store.negate(other.present)?;
        store.ite(self.present, both, neither)
    }

    /// Where this signal is absent, or has this truth.
    pub(crate) fn may_have(self, store: &mut Store, truth: Ref) -> Result<Ref, DdAnswer>
        requires held { HoldAll store.old.nodes (refs_of self) }
        requires truth { Holds store.old.nodes truth }
        ensures made { Makes 3 (SpanAll store.old.nodes (self.present ∷ self.truth ∷ truth ∷ []))
            store.old store.new itself result }
        ensures value { IfOk result (λ r. Agree (test store.new.nodes r) (λ truths.
            if test store.old.nodes self.present truths
            then same_truth (test store.old.nodes self.truth truths) (test store.old.nodes truth truths)
            else true)) }
    {
        let same = same_truth(store, self.truth, truth)?;
        let always = store.constant(true);
        store.ite(self.present, same, always)
    }
}

/// Where two functions have one truth.
pub(crate) fn same_truth(store: &mut Store, a: Ref, b: Ref) -> Result<Ref, DdAnswer>
    requires a { Holds store.old.nodes a }
    requires b { Holds store.old.nodes b }
    ensures made { Makes 2 (SpanAll store.old.nodes (a ∷ b ∷ [])) store.old store.new itself result }
    ensures value { IfOk result (λ r. Agree (test store.new.nodes r) (λ truths.
        same_truth (test store.old.nodes a truths) (test store.old.nodes b truths))) }
{
    let not_b = store.negate(b)?;
    store.ite(a, b, not_b)
}
