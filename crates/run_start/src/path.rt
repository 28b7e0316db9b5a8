//! `JailPath`, a path of a jail.
ghost use Rattle.std.specs.Prelude.{◌≡◌};

use f2b_base::{NoMemory, Plain, Text, WatchDef};
use std::marker::Model;

/// A path of a jail. Contracts see it as the law does.
#[derive(Drop)]
pub struct JailPath {
    jail: Text,
    watch: WatchDef,
}

impl Model for JailPath {
    ghost use Rattle.run_law.specs.Paths.{Path};

    ghost Value = { Path };

    ghost view = { λ p. record { jail = p.jail; watch = p.watch } };
}

impl JailPath {
    pub fn new(jail: Text, watch: WatchDef) -> JailPath
        ensures { result ≡ record { jail = jail; watch = watch } }
    {
        JailPath { jail, watch }
    }

    /// The name of the jail.
    pub fn jail(&self) -> &Text
        ensures { result.now ≡ self.now.jail }
    {
        &self.jail
    }

    /// The path, and from where its log is followed.
    pub fn watch(&self) -> &WatchDef
        ensures { result.now ≡ self.now.watch }
    {
        &self.watch
    }
}

impl Plain for JailPath {
    fn copy(&self) -> Result<JailPath, NoMemory> {
        Ok(JailPath {
            jail: self.jail.copy()?,
            watch: self.watch.copy()?,
        })
    }
}
