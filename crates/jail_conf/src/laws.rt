//! The law of configurations, as the contract of a function that does nothing.
ghost use Rattle.jail_conf.specs.Laws.{ConfLaw};

/// Each configuration that is accepted is within the limits of a server, fit for the model, and within the bounds of what is stored,
/// and what a user wrote as a date pattern is one.
pub fn conf_law()
    ensures { ConfLaw }
{}
