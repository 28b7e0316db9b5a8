//! Which files are those of a configuration.
ghost use Rattle.std.specs.Prelude.{◌≡◌, ◌==◌, leb, count_by, Decides};
ghost use Rattle.f2b_world.specs.Trees.{IsConfigured};

// Whether a path is in the directory itself or in a direct subdirectory.
fn is_near(path: &str) -> bool
    ensures { result ≡ leb (count_by (λ byte. byte == 47) path.now) 1 }
{
    let slashes = path.as_bytes().iter().filter(|byte| **byte == b'/');
    slashes.count() <= 1
}

/// Whether a path, which is relative to the directory of a configuration, is one of its files: it stands in the directory itself or
/// in a direct subdirectory, and ends in `.conf` or `.local`.
pub fn is_configured(path: &str) -> bool
    ensures { Decides result (IsConfigured path.now) }
{
    is_near(path) && (path.ends_with(".conf") || path.ends_with(".local"))
}
