//! The laws of lanes, jobs and commands, each as the contract of a function that does nothing.
ghost use Rattle.f2b_model.specs.JobLaws.{JobLaw};
ghost use Rattle.f2b_model.specs.RenderLaws.{RenderLaw};

/// Jobs of bans go in turn in each epoch of a lane, pending jobs stand for all jobs, what a failed check voids, and what a step keeps.
pub fn job_law()
    ensures { JobLaw }
{}

/// Which parts of a command's template are tags, that what a value contains is not read again, and what a ban shows of lines.
pub fn render_law()
    ensures { RenderLaw }
{}
