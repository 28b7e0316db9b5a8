//! The usual forms of dates.
ghost use Rattle.std.specs.Prelude.{◌≡◌};
ghost use Rattle.date_detect.specs.Usual.{usual_text, usual_groups};

use crate::form::Groups;

/// A form of dates that logs use.
#[derive(Clone, Copy)]
pub(crate) enum UsualForm {
    /// ISO 8601 and RFC 3339: `2024-03-01T10:00:00.123+01:00`. The fraction and the zone may be left out.
    Iso,
    /// The Common Log Format of web servers: `01/Mar/2024:11:00:00 +0100`.
    Access,
    /// The C function `ctime` and its like: `Fri Mar  1 10:00:00.123 2024`.
    Ctime,
    /// The error log of nginx: `2024/03/01 10:00:00`.
    Slashes,
    /// The BSD syslog protocol, RFC 3164, 4.1.2, without a year: `Mar  1 10:00:00`.
    Syslog,
    /// Seconds since 1970 in ten digits: `1709287200.123`.
    Epoch,
}

impl UsualForm {
    /// All of them, in the order in which they are tried.
    pub(crate) const ALL: [UsualForm; 6] = [
        UsualForm::Iso,
        UsualForm::Access,
        UsualForm::Ctime,
        UsualForm::Slashes,
        UsualForm::Syslog,
        UsualForm::Epoch,
    ];

    /// The text of its pattern.
    pub(crate) fn text(self) -> &'static str
        ensures { result.now ≡ usual_text self }
    {
        match self {
            UsualForm::Iso => {
                r"([0-9]{4})-([0-9]{2})-([0-9]{2})[T ]([0-9]{2}):([0-9]{2}):([0-9]{2})(?:[.,][0-9]{1,9})?(Z|[+-][0-9]{2}:?[0-9]{2})?"
            }
            UsualForm::Access => {
                "([0-9]{2})/(Jan|Feb|Mar|Apr|May|Jun|Jul|Aug|Sep|Oct|Nov|Dec)/([0-9]{4}):([0-9]{2}):([0-9]{2}):([0-9]{2}) ([+-][0-9]{4})"
            }
            UsualForm::Ctime => {
                r"(?:(?:Mon|Tue|Wed|Thu|Fri|Sat|Sun) )?(Jan|Feb|Mar|Apr|May|Jun|Jul|Aug|Sep|Oct|Nov|Dec) +([0-9]{1,2}) ([0-9]{2}):([0-9]{2}):([0-9]{2})(?:\.[0-9]{1,9})? ([0-9]{4})"
            }
            UsualForm::Slashes => {
                "([0-9]{4})/([0-9]{2})/([0-9]{2}) ([0-9]{2}):([0-9]{2}):([0-9]{2})"
            }
            UsualForm::Syslog => {
                "(Jan|Feb|Mar|Apr|May|Jun|Jul|Aug|Sep|Oct|Nov|Dec) +([0-9]{1,2}) ([0-9]{2}):([0-9]{2}):([0-9]{2})"
            }
            UsualForm::Epoch => r"\b([0-9]{10})(?:\.[0-9]{1,6})?\b",
        }
    }

    /// What the groups of its pattern mean.
    pub(crate) fn groups(self) -> Groups
        ensures { result ≡ usual_groups self }
    {
        match self {
            UsualForm::Iso => Groups {
                year: Some(1),
                month: Some(2),
                day: Some(3),
                zone: Some(7),
                ..Groups::time(4, 5, 6)
            },
            UsualForm::Access => Groups {
                day: Some(1),
                month_name: Some(2),
                year: Some(3),
                zone: Some(7),
                ..Groups::time(4, 5, 6)
            },
            UsualForm::Ctime => Groups {
                month_name: Some(1),
                day: Some(2),
                year: Some(6),
                ..Groups::time(3, 4, 5)
            },
            UsualForm::Slashes => Groups {
                year: Some(1),
                month: Some(2),
                day: Some(3),
                ..Groups::time(4, 5, 6)
            },
            UsualForm::Syslog => Groups {
                month_name: Some(1),
                day: Some(2),
                ..Groups::time(3, 4, 5)
            },
            UsualForm::Epoch => Groups {
                moment: Some(1),
                ..Groups::NONE
            },
        }
    }
}
