//! Links and arrows of an SVG.
ghost use Rattle.std.specs.Prelude.{◌≡◌, Some};
ghost use Rattle.picture_text.specs.Svg.{stroke_text, fill_text, dash_text, tip_text, link_line, link_lines, link_label, link_labels, arrow_line, arrow_lines};

use crate::curve::{curve_between, label};
use crate::parts::{Arrow, Choice, LinkLine, NodeBox};
use std::fmt;

/// The ink of a line: red where its row is refused.
#[derive(Clone, Copy)]
pub(crate) struct Stroke {
    pub is_refused: bool,
}

impl fmt::Display for Stroke {
    ghost output = { λ s. Some (stroke_text s.is_refused) };

    fn fmt<W: fmt::Write>(&self, f: &mut fmt::Formatter<W>) -> fmt::Result {
        if self.is_refused {
            f.write_str(" stroke='#d00'")
        } else {
            Ok(())
        }
    }
}

/// The ink of a text: red where its row is refused.
#[derive(Clone, Copy)]
pub(crate) struct Fill {
    pub is_refused: bool,
}

impl fmt::Display for Fill {
    ghost output = { λ s. Some (fill_text s.is_refused) };

    fn fmt<W: fmt::Write>(&self, f: &mut fmt::Formatter<W>) -> fmt::Result {
        if self.is_refused {
            f.write_str(" fill='#d00'")
        } else {
            Ok(())
        }
    }
}

/// The ink and the head of an arrow.
#[derive(Clone, Copy)]
struct Tip {
    is_refused: bool,
}

impl fmt::Display for Tip {
    ghost output = { λ s. Some (tip_text s.is_refused) };

    fn fmt<W: fmt::Write>(&self, f: &mut fmt::Formatter<W>) -> fmt::Result {
        if self.is_refused {
            f.write_str(" stroke='#d00' marker-end='url(#refused)'")
        } else {
            Ok(())
        }
    }
}

/// Dashes, where the link of an arrow is a fallback.
#[derive(Clone, Copy)]
struct Dashes {
    choice: Choice,
}

impl fmt::Display for Dashes {
    ghost output = { λ d. Some (dash_text d.choice) };

    fn fmt<W: fmt::Write>(&self, f: &mut fmt::Formatter<W>) -> fmt::Result {
        match self.choice {
            Choice::First => Ok(()),
            Choice::Fallback => f.write_str(" stroke-dasharray='6 4'"),
        }
    }
}

/// A link between boxes.
#[derive(Clone, Copy)]
struct LinkPath<'p> {
    boxes: &'p [NodeBox],
    link: &'p LinkLine,
}

impl fmt::Display for LinkPath<'_> {
    ghost output = { λ l. Some (link_line l.boxes.now l.link.now) };

    fn fmt<W: fmt::Write>(&self, f: &mut fmt::Formatter<W>) -> fmt::Result {
        let Some(curve) = curve_between(self.boxes, self.link.from, self.link.to) else {
            return Ok(());
        };
        let ink = Stroke {
            is_refused: self.link.is_refused,
        };
        let (name, ticks) = (self.link.name, self.link.ticks);
        write!(f, "<path d='{curve}'{ink}>")?;
        write!(f, "<title>{name} {ticks}</title></path>\n")
    }
}

/// The lines of all links.
#[derive(Clone, Copy)]
pub(crate) struct Links<'p> {
    pub boxes: &'p [NodeBox],
    pub links: &'p [LinkLine],
}

impl fmt::Display for Links<'_> {
    ghost output = { λ l. Some (link_lines l.boxes.now l.links.now) };

    fn fmt<W: fmt::Write>(&self, f: &mut fmt::Formatter<W>) -> fmt::Result {
        let boxes = self.boxes;
        for link in self.links {
            let line = LinkPath { boxes, link };
            write!(f, "{line}")?;
        }
        Ok(())
    }
}

/// The name of a link, and its ticks.
#[derive(Clone, Copy)]
struct LinkLabel<'p> {
    boxes: &'p [NodeBox],
    link: &'p LinkLine,
}

impl fmt::Display for LinkLabel<'_> {
    ghost output = { λ l. Some (link_label l.boxes.now l.link.now) };

    fn fmt<W: fmt::Write>(&self, f: &mut fmt::Formatter<W>) -> fmt::Result {
        let Some(curve) = curve_between(self.boxes, self.link.from, self.link.to) else {
            return Ok(());
        };
        let point = label(curve, self.link.link);
        let (left, top) = (point.left, point.top);
        let ink = Fill {
            is_refused: self.link.is_refused,
        };
        let (name, ticks) = (self.link.name, self.link.ticks);
        write!(f, "<text x='{left}' y='{top}'{ink}>")?;
        write!(f, "{name} {ticks}</text>\n")
    }
}

/// The labels of all links.
#[derive(Clone, Copy)]
pub(crate) struct Labels<'p> {
    pub boxes: &'p [NodeBox],
    pub links: &'p [LinkLine],
}

impl fmt::Display for Labels<'_> {
    ghost output = { λ l. Some (link_labels l.boxes.now l.links.now) };

    fn fmt<W: fmt::Write>(&self, f: &mut fmt::Formatter<W>) -> fmt::Result {
        let boxes = self.boxes;
        for link in self.links {
            let text = LinkLabel { boxes, link };
            write!(f, "{text}")?;
        }
        Ok(())
    }
}

/// A link of a route between boxes.
#[derive(Clone, Copy)]
struct Route<'p> {
    boxes: &'p [NodeBox],
    arrow: &'p Arrow,
}

impl fmt::Display for Route<'_> {
    ghost output = { λ r. Some (arrow_line r.boxes.now r.arrow.now) };

    fn fmt<W: fmt::Write>(&self, f: &mut fmt::Formatter<W>) -> fmt::Result {
        let Some(curve) = curve_between(self.boxes, self.arrow.from, self.arrow.to) else {
            return Ok(());
        };
        let dashes = Dashes {
            choice: self.arrow.choice,
        };
        let tip = Tip {
            is_refused: self.arrow.is_refused,
        };
        write!(f, "<path d='{curve}'{dashes}{tip}/>\n")
    }
}

/// The arrows of all routes.
#[derive(Clone, Copy)]
pub(crate) struct Routes<'p> {
    pub boxes: &'p [NodeBox],
    pub arrows: &'p [Arrow],
}

impl fmt::Display for Routes<'_> {
    ghost output = { λ r. Some (arrow_lines r.boxes.now r.arrows.now) };

    fn fmt<W: fmt::Write>(&self, f: &mut fmt::Formatter<W>) -> fmt::Result {
        let boxes = self.boxes;
        for arrow in self.arrows {
            let route = Route { boxes, arrow };
            write!(f, "{route}")?;
        }
        Ok(())
    }
}
