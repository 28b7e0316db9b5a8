//! Which names a pattern stands for.
ghost use Rattle.std.specs.Prelude.{◌≡◌, ◌==◌, ◌<◌, ◌||◌, ◌∷◌, [], length, IfSome, IfNone, IsUtf8};
ghost use Rattle.std.specs.Str.{chars};
ghost use Rattle.log_follow.specs.Globs.{globs, any_end};
ghost use Rattle.log_follow.specs.Walked.{IsWalk};

/// Whether the pattern stands for the name: `*` for any run of characters, `?` for one, and all else for itself. Takes no memory,
/// and at most about as many steps as the product of the two lengths.
pub fn glob_match(pattern: &str, name: &str) -> bool
    ensures { result ≡ globs (chars pattern.now) (chars name.now) }
{
    match walk_along(pattern, name) {
        Walk::Whole => true,
        Walk::Differs => false,
        Walk::Star { behind, left } => some_end_matches(behind, left),
    }
}

/// What comes where a pattern and a name are walked along side by side.
#[derive(Clone, Copy)]
pub enum Walk<'a> {
    /// Both end.
    Whole,
    /// They differ, or one ends before the other.
    Differs,
    /// A star of the pattern.
    Star {
        /// What follows the star.
        behind: &'a str,
        /// What is left of the name.
        left: &'a str,
    },
}

// Walks up to the first star.
fn walk_along<'a>(pattern: &'a str, name: &'a str) -> Walk<'a>
    ensures { IsWalk pattern.now name.now result }
{
    let mut pattern = pattern;
    let mut name = name;
    while let Some((wanted, behind)) = first(pattern) {
        if wanted == '*' {
            return Walk::Star { behind, left: name };
        }
        match first(name) {
            Some((found, left)) if stands_for(wanted, found) => {
                pattern = behind;
                name = left;
            }
            _ => return Walk::Differs,
        }
    }
    match first(name) {
        None => Walk::Whole,
        Some(_) => Walk::Differs,
    }
}

// Whether a character of a pattern that is no star stands for this one.
fn stands_for(wanted: char, found: char) -> bool
    ensures { result ≡ (wanted == 63 || wanted == found) }
{
    wanted == '?' || wanted == found
}

// Whether the pattern stands for some end of the name. The first end at which the pattern is met up to its next star is as good
// as any later one, so no star is gone back to once the next is found.
fn some_end_matches(pattern: &str, name: &str) -> bool
    ensures { result ≡ any_end (globs (chars pattern.now)) (chars name.now) }
{
    let mut pattern = pattern;
    let mut name = name;
    loop {
        match walk_along(pattern, name) {
            Walk::Whole => return true,
            Walk::Star { behind, left } => {
                pattern = behind;
                name = left;
            }
            Walk::Differs => match first(name) {
                Some((_, left)) => name = left,
                None => return false,
            },
        }
    }
}

// The first character, and what follows it.
fn first(text: &str) -> Option<(char, &str)>
    ensures some { IfSome result (λ cut. chars text.now ≡ cut.0 ∷ chars cut.1.now) }
    ensures shorter { IfSome result (λ cut. length cut.1.now < length text.now) }
    ensures text { IfSome result (λ cut. IsUtf8 cut.1.now) }
    ensures none { IfNone result (chars text.now ≡ []) }
{
    let mut chars = text.chars();
    let first = chars.next()?;
    Some((first, chars.as_str()))
}
