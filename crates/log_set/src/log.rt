//! One log, and what a look brings of it.
ghost use Rattle.std.specs.Prelude.{◌≡◌, IfOk, IfSome, OnOk};
ghost use Rattle.f2b_model.specs.Storable.{IsJailName, IsStorablePlace};
ghost use Rattle.log_follow.specs.Watches.{IsPlace};
ghost use Rattle.log_set.specs.Places.{looked_of, moved_to, same_place};

use f2b_base::{FileLook, NoMemory, Place, Text};
use log_follow::{Follower, Step};
use std::alloc::Global;

/// A log that is followed, by its jail's name and its path.
#[derive(Drop)]
pub struct Log {
    pub jail: Text,
    pub path: Text,
    pub follower: Follower,

    // So that what is read of it can be stored.
    ghost named: { IsJailName jail },
}

/// What a look brought of a log.
#[derive(Drop)]
pub struct Looked {
    pub step: Step,
    /// Where the log is followed to now, where that is another place than before.
    pub moved: Option<Place>,
}

/// Whether two places are one.
fn same_place(a: &Place, b: &Place) -> bool
    ensures { result ≡ same_place a.now b.now }
{
    match a {
        Place::Tail => matches!(b, Place::Tail),
        Place::Pos { position, head } => match b {
            Place::Tail => false,
            Place::Pos {
                position: other,
                head: start,
            } => *position == *other && *head == *start,
        },
    }
}

/// The place, where it is another one than before.
fn moved_to(before: &Place, place: Place) -> Option<Place>
    ensures value { result ≡ moved_to before.now place }
    ensures storable { IsPlace place → IfSome result IsStorablePlace }
{
    if same_place(before, &place) {
        None
    } else {
        Some(place)
    }
}

impl Log {
    ghost use Rattle.log_follow.specs.Followed.{StandsFor, ask_of};
    ghost use Rattle.log_follow.specs.Watches.{Answers, Watch, looked};

    /// Takes what a look at it brought. After an error the lines of the look may be lost.
    pub fn take(&mut self, alloc: Global, look: &FileLook) -> Result<Looked, NoMemory>
        requires { Answers (ask_of self.old.follower) look.now }

        // Whatever watch the follower stands for.
        ensures looked { IfOk result (λ looked. (w : Watch) → StandsFor self.old.follower w → looked ≡ looked_of w look.now) }
        ensures stands { OnOk result ((w : Watch) → StandsFor self.old.follower w → StandsFor self.new.follower (looked w look.now).0) }
        ensures place { IfOk result (λ looked. IfSome looked.moved IsStorablePlace) }
        ensures jail { self.new.jail ≡ self.old.jail }
        ensures path { self.new.path ≡ self.old.path }
    {
        let before = self.follower.place(alloc)?;
        let step = self.follower.take(alloc, look)?;
        let place = self.follower.place(alloc)?;
        let moved = moved_to(&before, place);
        Ok(Looked { step, moved })
    }
}
