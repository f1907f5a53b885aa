//! The job that models a session: its scripts and its plan are empty.
ghost use Rattle.std.specs.Prelude.{◌≡◌, ◌≤◌, [], replicate, IfOk};
ghost use Rattle.run_live.specs.Sessions.{HasFairSizes, job_of};

use crate::Sizes;
use std::alloc::{AllocError, Global};
use text_job::{Job, Plan, Script, Scripts, Version};

/// A job of these sizes, with empty scripts and an empty plan.
pub(crate) fn idle_job(alloc: Global, sizes: &Sizes) -> Result<Job, AllocError>
    requires { HasFairSizes sizes.now }
    ensures { IfOk result (λ job. job ≡ job_of sizes.now) }
{
    Ok(Job {
        version: Version::Two,
        pages: sizes.pages,
        history: sizes.history,
        scripts: idle_scripts(alloc, sizes.workers)?,
        plan: Plan::new(Vec::new(alloc)),
    })
}

/// An empty script for each of `workers` workers.
fn idle_scripts(alloc: Global, workers: u32) -> Result<Scripts, AllocError>
    requires some { 1 ≤ workers }
    requires few { workers ≤ 64 }
    ensures { IfOk result (λ scripts. scripts ≡ replicate workers []) }
{
    let mut scripts = Vec::with_capacity(alloc, workers as usize)?;
    for _made in 0..workers {
        scripts.push(Script::new(alloc))?;
    }
    Ok(Scripts::new(scripts))
}
