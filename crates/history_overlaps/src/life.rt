//! `Life`, a live object and the judge of its accesses.
ghost use Rattle.std.specs.Prelude.{◌≡◌, IfErr, IfOk, IfSome, IsNone, OnOk, Some};
ghost use Rattle.history_overlaps.specs.Judges.{AccessJudge};
ghost use Rattle.history_overlaps.specs.LifeSteps.{HasBegun, HasEndedAt, HasJudge, IsToldAtEnd, is_explained};
ghost use Rattle.history_overlaps.specs.Stops.{CannotBegin, CannotEnd};
ghost use Rattle.history_object.specs.Following.{IsOpen};

use crate::objects::NewObject;
use crate::possible::{Unexplained, unexplained_access};
use history_object::{Access, JudgeFault};
use history_parts::PartedJudge;
use std::alloc::{AllocError, Global};

/// A live object, with the judge of its accesses if an access has begun.
#[derive(Drop)]
pub struct Life {
    /// The object.
    pub object: NewObject,
    /// The judge of the accesses to the object. `None` before the first access begins.
    pub judge: Option<PartedJudge>,
}

/// The result of the end of an access.
#[derive(Drop)]
pub enum AccessEnd {
    /// Some configuration is left: some order of the accesses explains the answer.
    Explained,
    /// No configuration is left: no order of the accesses explains the answer.
    Unexplained(Unexplained),
}

impl Life {
    /// Handles the start of an access. No pending access may have the number `number`.
    ///
    /// The error is `TooManyPending` if 64 accesses are pending, and `Memory` if an allocation fails.
    pub fn begin(&mut self, alloc: Global, number: u32, access: Access) -> Result<(), JudgeFault>
        requires fresh { (judge : AccessJudge) → self.old.judge ≡ Some judge → IsOpen judge number → ⊥ }
        ensures object { self.new.object ≡ self.old.object }
        ensures begun { OnOk result (HasBegun self.old self.new number access) }
        ensures stopped { IfErr result (CannotBegin self.old) }
    {
        self.give_judge(alloc)?;
        match &mut self.judge {
            Some(judge) => judge.begin(number, access)?,
            None => unreachable!(),
        }
        Ok(())
    }

    /// Gives the object a judge if it has none.
    fn give_judge(&mut self, alloc: Global) -> Result<(), AllocError>
        ensures object { self.new.object ≡ self.old.object }
        ensures given { OnOk result (HasJudge self.old self.new) }
    {
        if self.judge.is_some() {
            return Ok(());
        }
        let judge = PartedJudge::new(alloc, self.object.len)?;
        self.judge = Some(judge);
        Ok(())
    }

    /// Handles the end of the pending access with this number. Returns how the access ended, or `None` if no such
    /// access is pending.
    ///
    /// The error is `TooMany` if more than `most` configurations are met beside the parts of the object that are set
    /// aside, or are kept as parts are joined. It is `Memory` if an allocation fails.
    pub fn end(
        &mut self,
        alloc: Global,
        number: u32,
        most: usize,
    ) -> Result<Option<AccessEnd>, JudgeFault>
        ensures object { self.new.object ≡ self.old.object }
        ensures ended { IfOk result
            (λ ended. IfSome ended (λ end. HasEndedAt self.old self.new number (is_explained end))) }
        ensures told { IfOk result (λ ended. IfSome ended (IsToldAtEnd self.old number)) }
        ensures none { IfOk result
            (λ ended. IsNone ended → (judge : AccessJudge) → self.old.judge ≡ Some judge → IsOpen judge number → ⊥) }
        ensures unchanged { IfOk result (λ ended. IsNone ended → self.new ≡ self.old) }
        ensures stopped { IfErr result (CannotEnd self.old number most) }
    {
        let Some(judge) = &mut self.judge else {
            return Ok(None);
        };
        if !judge.is_open(number) {
            return Ok(None);
        }
        match judge.end(alloc, number, most)? {
            None => Ok(Some(AccessEnd::Explained)),
            Some(refutation) => {
                let unexplained = unexplained_access(alloc, self.object, refutation)?;
                Ok(Some(AccessEnd::Unexplained(unexplained)))
            }
        }
    }
}
