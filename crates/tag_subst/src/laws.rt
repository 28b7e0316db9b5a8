//! The law of static tags, as the contract of a function that does nothing.
ghost use Rattle.tag_subst.specs.TagLaws.{TagLaw};

/// A text whose static tags have no value stays, and what comes of any text is such a one, reached by replacing one tag at a time.
pub fn tag_law()
    ensures { TagLaw }
{}
