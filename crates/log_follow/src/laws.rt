//! The laws of watches and of text, each as the contract of a function that does nothing.
ghost use Rattle.log_follow.specs.Laws.{DecodeLaw, WatchLaw};

/// The lines of any list of looks are the whole lines of what was seen, however it was cut; and what always holds of a watch.
pub fn watch_law()
    ensures { WatchLaw }
{}

/// The three equations that give the text of any bytes.
pub fn decode_law()
    ensures { DecodeLaw }
{}
