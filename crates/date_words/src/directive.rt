//! The directives of a date pattern, and what each stands for.
ghost use Rattle.std.specs.Prelude.{◌≡◌};
ghost use Rattle.date_words.specs.Directives.{directive_of, piece_of};

/// What a `%` and the letter behind it stand for.
#[derive(Clone, Copy)]
pub(crate) enum Directive {
    /// `%Y`, a year of four digits.
    Year,
    /// `%y`, a year of two digits: 1969 to 2068.
    ShortYear,
    /// `%m`, a month of two digits.
    Month,
    /// `%b`, the first three letters of an English month.
    MonthName,
    /// `%d`, a day of one or two digits, or of a blank and a digit.
    Day,
    /// `%H`, an hour of two digits.
    Hour,
    /// `%M`, a minute of two digits.
    Minute,
    /// `%S`, a second of two digits.
    Second,
    /// `%z`, `Z`, or hours and minutes ahead of UTC.
    Zone,
    /// `%a`, the first three letters of an English weekday, which is not checked.
    Weekday,
    /// `%f`, a fraction of a second in 1 to 9 digits, which is dropped.
    Fraction,
    /// `%%`, a `%`.
    Percent,
}

impl Directive {
    /// The directive with that letter behind its `%`.
    pub(crate) fn of(letter: char) -> Option<Directive>
        ensures { result ≡ directive_of letter }
    {
        match letter {
            'Y' => Some(Directive::Year),
            'y' => Some(Directive::ShortYear),
            'm' => Some(Directive::Month),
            'b' => Some(Directive::MonthName),
            'd' => Some(Directive::Day),
            'H' => Some(Directive::Hour),
            'M' => Some(Directive::Minute),
            'S' => Some(Directive::Second),
            'z' => Some(Directive::Zone),
            'a' => Some(Directive::Weekday),
            'f' => Some(Directive::Fraction),
            '%' => Some(Directive::Percent),
            _ => None,
        }
    }

    /// The piece of a pattern that it stands for.
    pub(crate) fn piece(self) -> &'static str
        ensures { result.now ≡ piece_of self }
    {
        match self {
            Directive::Year => "(?P<f2bY>[0-9]{4})",
            Directive::ShortYear => "(?P<f2by>[0-9]{2})",
            Directive::Month => "(?P<f2bm>[0-9]{2})",
            Directive::MonthName => {
                "(?P<f2bb>(Jan|Feb|Mar|Apr|May|Jun|Jul|Aug|Sep|Oct|Nov|Dec))"
            }
            Directive::Day => r"(?P<f2bd>[0-9]{1,2}|[ \t][0-9])",
            Directive::Hour => "(?P<f2bH>[0-9]{2})",
            Directive::Minute => "(?P<f2bM>[0-9]{2})",
            Directive::Second => "(?P<f2bS>[0-9]{2})",
            Directive::Zone => "(?P<f2bz>Z|[+-][0-9]{2}:?[0-9]{2})",
            Directive::Weekday => "(?:Mon|Tue|Wed|Thu|Fri|Sat|Sun)",
            Directive::Fraction => "[0-9]{1,9}",
            Directive::Percent => "%",
        }
    }
}
