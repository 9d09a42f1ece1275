//! The plan of a world: one that its caller lends, or one that it owns.
ghost use Rattle.std.specs.Prelude.{◌≡◌, ◌<◌, length, IfNone, IfSome, OnOk, Err, None};
ghost use Rattle.lab_plan.specs.Longer.{session_of, more_refusal, IsOfItsOwn};
ghost use Rattle.lab_plan.specs.IsPlan.{IsPlan};
ghost use Rattle.interleaving.specs.Adding.{PlanAdds};

use crate::add_refusal::AddRefusal;
use lab_plan::{InstrumentNo, JobNo, Plan, Verb};
use std::alloc::{Allocator, Global};
use std::marker::Model;

#[derive(Drop)]
pub(crate) enum Whose<'a, A: Allocator = Global> {
    Lent(&'a Plan<A>),
    Own(Plan<A>),
}

#[derive(Drop)]
pub(crate) struct KeptPlan<'a, A: Allocator = Global> {
    whose: Whose<'a, A>,
}

impl<'a, A: Allocator> Model for KeptPlan<'a, A> {
    ghost use Rattle.lab_plan.specs.LabPlan.{LabPlan};

    ghost Value = { LabPlan };

    ghost use Rattle.interleaving.specs.KeptPlan.{the_plan};

    ghost view = { λ k. the_plan k.whose };
}

impl<'a, A: Allocator> KeptPlan<'a, A> {
    pub(crate) fn lent(plan: &'a Plan<A>) -> KeptPlan<'a, A>
        ensures { result ≡ plan.now }
    {
        KeptPlan {
            whose: Whose::Lent(plan),
        }
    }

    pub(crate) fn own(plan: Plan<A>) -> KeptPlan<'a, A>
        ensures { result ≡ plan }
    {
        KeptPlan {
            whose: Whose::Own(plan),
        }
    }

    pub(crate) fn get(&self) -> &Plan<A>
        ensures { result.now ≡ self.now }
    {
        match &self.whose {
            Whose::Lent(plan) => plan,
            Whose::Own(plan) => plan,
        }
    }

    /// Why the plan takes no further session of the job, unless no memory is left.
    pub(crate) fn refuses(
        &self,
        job: JobNo,
        patience: Option<u32>,
        commands: &[(InstrumentNo, Verb)],
    ) -> Option<AddRefusal>
        requires { job < length self.now.jobs }
        ensures none { IfNone result (more_refusal self.now job (session_of patience commands.now) ≡ None) }
        ensures some { IfSome result (λ cause. PlanAdds self.now job (session_of patience commands.now) (Err cause) self.now) }
    {
        match &self.whose {
            Whose::Lent(_) => Some(AddRefusal::IsLent),
            Whose::Own(plan) => Some(AddRefusal::Refused(plan.more_refusal(
                job, patience, commands,
            )?)),
        }
    }

    /// The plan takes one more session of the job.
    pub(crate) fn add_session(
        &mut self,
        job: JobNo,
        patience: Option<u32>,
        commands: &[(InstrumentNo, Verb)],
    ) -> Result<(), AddRefusal>
        requires { job < length self.old.jobs }
        ensures adds { PlanAdds self.old job (session_of patience commands.now) result self.new }
        ensures own { OnOk result (IsOfItsOwn self.old job (session_of patience commands.now)) }
        ensures is_plan { OnOk result (IsPlan self.new) }
    {
        match &mut self.whose {
            Whose::Lent(_) => Err(AddRefusal::IsLent),
            Whose::Own(plan) => {
                plan.add_session(job, patience, commands)?;
                let _ = plan.jobs();
                Ok(())
            }
        }
    }
}
