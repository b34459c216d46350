//! The picture of a network as data: nodes in layers, links and routes; and its text in SVG and in DOT.
#![tactic(auto)]

mod curve;
mod dot;
mod layout;
mod parts;
mod picture;
mod svg;
mod svg_boxes;
mod svg_lines;

pub use dot::{DotBody, DotHead};
pub use layout::{Layout, layout_of};
pub use parts::{Arrow, Choice, Corner, LinkLine, NodeBox, Size, StandInMark};
pub use picture::Picture;
pub use svg::{SvgBody, SvgHead};
