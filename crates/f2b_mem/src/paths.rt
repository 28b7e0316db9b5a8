//! Paths below a directory.
ghost use Rattle.std.specs.Prelude.{◌≢◌, ◌≡◌, ◌++◌, ℕ, List, MatchOption};
ghost use Rattle.f2b_world.specs.Trees.{with_slash};

/// The path relative to a directory.
pub fn path_below<'a>(dir: &str, path: &'a str) -> Option<&'a str>
    ensures { MatchOption result ((below : List ℕ) → path.now ≢ with_slash dir.now ++ below) (λ below. path.now ≡ with_slash dir.now ++ below.now) }
{
    let below = path.strip_prefix(dir)?;
    if dir.ends_with('/') {
        Some(below)
    } else {
        below.strip_prefix('/')
    }
}
