//! The items one by one.
ghost use Rattle.std.specs.Prelude.{◌≡◌, ◌<◌, Some, length, slice_get};

use crate::items::Items;

impl Items {
    /// How many there are.
    pub(crate) fn len(&self) -> usize
        ensures { result ≡ length self.now.items }
    {
        self.map.len()
    }

    /// The item at the place: its name and its raw value.
    pub(crate) fn at(&self, index: usize) -> (&str, &str)
        requires { index < length self.now.items }
        ensures { Some (result.0.now, result.1.now) ≡ slice_get self.now.items index }
    {
        match self.map.get_index(index) {
            Some((name, value)) => (name.as_str(), value.as_str()),
            None => unreachable!(),
        }
    }
}
