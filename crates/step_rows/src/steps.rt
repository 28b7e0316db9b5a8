//! What no clause says: the histories of docs/model.md with their texts, what is told of lanes and lines, and whole runs. All that a
//! test lets happen can be stored, so that a core which is made of a view goes on.

mod checks;
mod happens;
mod histories;
mod inputs;
mod lines;
mod pairs;
mod play;
mod runs;
mod shown;
mod told;
mod values;
mod views;
