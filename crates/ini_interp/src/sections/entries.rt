//! The sections one by one.
ghost use Rattle.std.specs.Prelude.{◌≡◌, ◌<◌, Some, length, slice_get};

use crate::items::Items;
use crate::sections::Sections;

impl Sections {
    /// How many there are.
    pub(crate) fn len(&self) -> usize
        ensures { result ≡ length self.now }
    {
        self.map.len()
    }

    /// The section at the place: its name and its items.
    pub(crate) fn at(&self, index: usize) -> (&str, &Items)
        requires { index < length self.now }
        ensures { Some (result.0.now, result.1.now.items) ≡ slice_get self.now index }
    {
        match self.map.get_index(index) {
            Some((name, items)) => (name.as_str(), items),
            None => unreachable!(),
        }
    }
}
