//! `PartedJudge`, which follows the starts and ends of the accesses to one object.
ghost use Rattle.std.specs.Prelude.{◌≡◌, ◌≢◌, ◌↔◌, ◌⊎◌, ◌++◌, ◌∷◌, [], ℕ, List, Err, IfErr, IfOk, IfSome, IsNone, IsTrue, OnErr, OnOk};
ghost use Rattle.history_object.specs.declared.access.Access.{Access as AnAccess};
ghost use Rattle.history_object.specs.declared.faults.JudgeFault.{JudgeFault};
ghost use Rattle.history_object.specs.Following.{CanBegin, HasSome, IsCallOf, IsFull, IsJudgeOf, IsOpen, TakesPlace};
ghost use Rattle.history_object.specs.ObjectBytes.{State, effect, first_state};
ghost use Rattle.history_object.specs.TimedCalls.{Timed};
ghost use Rattle.history_parts.specs.Parts.{HasMoreBeside, HasMoreJoined, IsRefutedBeside};

use crate::part::Part;
use crate::parts::{calls, join, set_aside};
use crate::split::range_of;
use history_object::{Access, JudgeFault, ObjectAccesses, ObjectBytes, Refutation, TimedJudge};
use std::alloc::{AllocError, Global};
use std::marker::Model;

/// A judge of the accesses to an object. Parts of the object can be set aside.
#[derive(Drop)]
pub struct PartedJudge {
    judge: TimedJudge<ObjectAccesses>,
    parts: Vec<Part>,
    // Whether an access that conflicts with a store of a part may be pending.
    called: bool,
}

impl Model for PartedJudge {
    ghost use Rattle.history_object.specs.ObjectBytes.{State};
    ghost use Rattle.history_object.specs.Following.{TimedStanding};
    ghost use Rattle.history_object.specs.declared.access.Access.{Access as AnAccess};
    ghost use Rattle.history_parts.specs.Parts.{HasParts, whole};

    ghost Value = { TimedStanding State AnAccess };

    ghost view = { λ j. whole j.judge j.parts.items };

    ghost invariant = { λ j. HasParts j.judge.standing j.parts.items j.called };
}

impl PartedJudge {
    /// Creates a judge of an object of `len` zeros, with no pending access.
    pub fn new(alloc: Global, len: u64) -> Result<PartedJudge, AllocError>
        ensures follows { IfOk result (λ judge. IsJudgeOf effect (first_state len) [] judge) }
        ensures some { IfOk result (λ judge. HasSome effect judge) }
        ensures none_open { IfOk result (λ judge. (number : ℕ) → IsOpen judge number → ⊥) }
    {
        let judge = TimedJudge::new(alloc, ObjectBytes::new(alloc, len))?;
        let parts = Vec::new(alloc);
        Ok(PartedJudge {
            judge,
            parts,
            called: false,
        })
    }

    /// Records the start of an access, under a number that no pending access has.
    ///
    /// The error is `TooManyPending` if 64 accesses are pending. The judge is then unchanged.
    pub fn begin(&mut self, number: u32, access: Access) -> Result<(), JudgeFault>
        requires fresh { IsOpen self.old number → ⊥ }
        ensures follows { OnOk result
            ((start : State) (calls : List (Timed AnAccess)) (begin end : ℕ) → IsJudgeOf effect start calls self.old
            → CanBegin calls self.old (record { number = number; begin = begin; end = end; call = access })
            → IsJudgeOf effect start
            (calls ++ record { number = number; begin = begin; end = end; call = access } ∷ []) self.new) }
        ensures open { OnOk result ((n : ℕ) → IsOpen self.new n ↔ ((n ≡ number) ⊎ IsOpen self.old n)) }
        ensures some { OnOk result (HasSome effect self.old → HasSome effect self.new) }
        ensures place { OnOk result (TakesPlace number access self.old self.new) }
        ensures full { IfErr result (λ fault. fault ≡ JudgeFault.TooManyPending) }
        ensures taken { OnErr result (IsFull self.old) }
        ensures unchanged { OnErr result (self.new ≡ self.old) }
    {
        self.called = calls(self.called, self.parts.as_slice(), &access);
        self.judge.begin(number, access)
    }

    /// Records the end of the pending access with this number, and forgets the access. Returns `None` if some
    /// configuration is left. Otherwise returns why none is left.
    ///
    /// The error is `TooMany` if more than `most` configurations are met beside the parts that stay aside, or are kept
    /// as parts are joined. It is `Memory` if an allocation fails.
    pub fn end(
        &mut self,
        alloc: Global,
        number: u32,
        most: usize,
    ) -> Result<Option<Refutation<ObjectAccesses>>, JudgeFault>
        requires { IsOpen self.old number }
        ensures follows { OnOk result
            ((start : State) (calls : List (Timed AnAccess)) → IsJudgeOf effect start calls self.old
            → IsJudgeOf effect start calls self.new) }
        ensures open { OnOk result ((n : ℕ) → IsOpen self.new n ↔ (IsOpen self.old n × (n ≢ number))) }
        ensures calls { OnOk result
            ((n : ℕ) (access : AnAccess) → IsCallOf self.new n access → IsCallOf self.old n access) }
        ensures some { IfOk result (λ ended. IsNone ended ↔ HasSome effect self.new) }
        ensures refuted { IfOk result (λ ended. IfSome ended (IsRefutedBeside self.old number)) }
        ensures many { result ≡ Err JudgeFault.TooMany
            → HasMoreJoined self.old.standing.kept most ⊎ HasMoreBeside self.old number most }
        ensures not_full { result ≡ Err JudgeFault.TooManyPending → ⊥ }
    {
        let called = self.called;
        self.called = true;
        join(alloc, &mut self.judge, &mut self.parts, called, most)?;
        let range = range_of(self.judge.call(number));
        let ended = self.judge.end(alloc, number, most)?;
        set_aside(alloc, &mut self.judge, &mut self.parts, range)?;
        self.called = false;
        Ok(ended)
    }

    /// Whether the access with this number is pending.
    pub fn is_open(&self, number: u32) -> bool
        ensures { IsTrue result ↔ IsOpen self.now number }
    {
        let _parts = &self.parts;
        self.judge.is_open(number)
    }
}
