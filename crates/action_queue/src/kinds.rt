//! What kinds of jobs mean to their lanes.
ghost use Rattle.std.specs.Prelude.{◌≡◌};
ghost use Rattle.f2b_model.specs.Checks.{has_check, is_stop};

use f2b_base::JobKind;

/// Whether a job is checked before it is tried.
pub(crate) fn has_check(kind: JobKind) -> bool
    ensures { result ≡ has_check kind }
{
    match kind {
        JobKind::Ban => true,
        JobKind::Unban => true,
        JobKind::Start => false,
        JobKind::Stop => false,
        JobKind::Reban => false,
    }
}

/// Whether a job stops its lane.
pub(crate) fn is_stop(kind: JobKind) -> bool
    ensures { result ≡ is_stop kind }
{
    match kind {
        JobKind::Stop => true,
        JobKind::Start => false,
        JobKind::Ban => false,
        JobKind::Unban => false,
        JobKind::Reban => false,
    }
}
