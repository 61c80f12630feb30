// Textures: what may be made, where its cells lie, and in which runs a surface is cleared.
// A cast by `as` goes between `usize` and another number, or to fewer bits, where there is no `From`; none loses anything.
#![tactic(auto)]

mod alignment;
mod descriptor;
mod format;
mod meaning;
mod pitch;
mod shape;
mod walk;

pub use descriptor::{TextureDescriptor, TextureNumbers};
pub use format::{ClearMode, Dimension, Format, UnknownNumber};
pub use meaning::{clears_stand, tiling_stands, trials_stand};
pub use shape::Shape;
pub use walk::{Run, SurfaceRuns};
