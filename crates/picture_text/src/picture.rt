//! A picture as data.
ghost use Rattle.std.specs.Prelude.{◌≡◌};
ghost use Rattle.picture_text.specs.Picture.{Drawn};

use crate::parts::{Arrow, LinkLine, NodeBox, Size};
use card_digits::Prefix;
use std::marker::Model;

/// The picture of a network at a class: its nodes and links, and the routes of the class as arrows.
#[derive(Drop)]
pub struct Picture {
    class: Option<Prefix>,
    size: Size,
    boxes: Vec<NodeBox>,
    links: Vec<LinkLine>,
    arrows: Vec<Arrow>,
}

impl Model for Picture {
    ghost Value = { Drawn };

    ghost view = { λ p. record {
      class = p.class;
      size = p.size;
      boxes = p.boxes.items;
      links = p.links.items;
      arrows = p.arrows.items;
    } };
}

impl Picture {
    /// A picture of these parts, with the class whose routes it shows.
    pub fn new(
        class: Option<Prefix>,
        size: Size,
        boxes: Vec<NodeBox>,
        links: Vec<LinkLine>,
        arrows: Vec<Arrow>,
    ) -> Picture
        ensures { result ≡ record {
          class = class;
          size = size;
          boxes = boxes.items;
          links = links.items;
          arrows = arrows.items;
        } }
    {
        Picture {
            class,
            size,
            boxes,
            links,
            arrows,
        }
    }

    /// The class whose routes are shown, if there is one.
    pub fn class(&self) -> &Option<Prefix>
        ensures { result.now ≡ self.now.class }
    {
        &self.class
    }

    /// How wide and how high the picture is.
    pub fn size(&self) -> Size
        ensures { result ≡ self.now.size }
    {
        self.size
    }

    /// The nodes, in the order of the tables.
    pub fn boxes(&self) -> &[NodeBox]
        ensures { result.now ≡ self.now.boxes }
    {
        &self.boxes
    }

    /// The links, in the order of the tables.
    pub fn links(&self) -> &[LinkLine]
        ensures { result.now ≡ self.now.links }
    {
        &self.links
    }

    /// The links of the routes, node by node.
    pub fn arrows(&self) -> &[Arrow]
        ensures { result.now ≡ self.now.arrows }
    {
        &self.arrows
    }
}
