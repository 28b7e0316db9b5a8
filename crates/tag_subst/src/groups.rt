//! Groups of patterns, which also begin with a `<`.
ghost use Rattle.std.specs.Prelude.{◌≡◌};
ghost use Rattle.f2b_model.specs.Render.{opens_group};

/// Whether a `<` behind this text begins the name of a group of a pattern, and no tag.
pub(crate) fn opens_group(before: &[u8]) -> bool
    ensures { result ≡ opens_group before.now }
{
    before.ends_with(b"(?") || before.ends_with(b"(?P")
}
