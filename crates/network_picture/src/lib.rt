//! The picture of a network: its nodes in layers by their ranks at a class, its links, and the routes of that class.
#![tactic(auto)]

mod answer;
mod arrows;
mod asked;
mod class;
mod job;
mod made;
mod marks;
mod nodes;
mod refused;

pub use answer::{picture_answer, picture_of_tables};
pub use asked::{Drawing, PictureJob};
pub use job::run_picture;
pub use made::picture_of;
