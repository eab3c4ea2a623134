//! Process images: what a process asks next by its script, and where it stands after the answer.
#![tactic(auto)]

mod image;

pub use image::Image;
