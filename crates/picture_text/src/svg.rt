//! A picture as SVG.
ghost use Rattle.std.specs.Prelude.{◌≡◌, Some};
ghost use Rattle.picture_text.specs.Svg.{opening, page, svg_head, class_text, class_line, legend, marker_shape, markers, svg_links, svg_arrows, svg_boxes, svg_labels, svg_body};

use crate::parts::Size;
use crate::picture::Picture;
use crate::svg_boxes::{BoxTexts, Frames};
use crate::svg_lines::{Labels, Links, Routes};
use card_digits::Prefix;
use std::fmt;

/// How large the picture is.
#[derive(Clone, Copy)]
struct Opening {
    size: Size,
}

impl fmt::Display for Opening {
    ghost output = { λ o. Some (opening o.size) };

    fn fmt<W: fmt::Write>(&self, f: &mut fmt::Formatter<W>) -> fmt::Result {
        let (width, height) = (self.size.width, self.size.height);
        f.write_str("<svg xmlns='http://www.w3.org/2000/svg'")?;
        write!(f, " width='{width}' height='{height}'\n")
    }
}

/// The letters, the ground, and the beginning of the verdict's line.
#[derive(Clone, Copy)]
struct Page;

impl fmt::Display for Page {
    ghost output = { λ _. Some page };

    fn fmt<W: fmt::Write>(&self, f: &mut fmt::Formatter<W>) -> fmt::Result {
        f.write_str("font-family='sans-serif' font-size='11'>\n")?;
        f.write_str("<rect width='100%' height='100%' fill='white'/>\n")?;
        f.write_str("<text x='20' y='22' font-size='14'>")
    }
}

/// What stands before the verdict.
#[derive(Clone, Copy)]
pub struct SvgHead {
    pub size: Size,
}

impl fmt::Display for SvgHead {
    ghost output = { λ h. Some (svg_head h.size) };

    fn fmt<W: fmt::Write>(&self, f: &mut fmt::Formatter<W>) -> fmt::Result {
        let opening = Opening { size: self.size };
        let page = Page;
        write!(f, "{opening}{page}")
    }
}

/// A class, or that there is none.
#[derive(Clone, Copy)]
pub(crate) struct ClassText<'p> {
    pub class: &'p Option<Prefix>,
}

impl fmt::Display for ClassText<'_> {
    ghost output = { λ c. Some (class_text c.class.now) };

    fn fmt<W: fmt::Write>(&self, f: &mut fmt::Formatter<W>) -> fmt::Result {
        match self.class {
            Some(class) => write!(f, "class {class}"),
            None => f.write_str("no class"),
        }
    }
}

/// The end of the verdict, and the line of the class.
#[derive(Clone, Copy)]
struct ClassLine<'p> {
    class: &'p Option<Prefix>,
}

impl fmt::Display for ClassLine<'_> {
    ghost output = { λ c. Some (class_line c.class.now) };

    fn fmt<W: fmt::Write>(&self, f: &mut fmt::Formatter<W>) -> fmt::Result {
        let class = ClassText { class: self.class };
        f.write_str("</text>\n<text x='20' y='40' font-size='14'>")?;
        write!(f, "{class}</text>\n")
    }
}

/// What lines and inks mean.
#[derive(Clone, Copy)]
struct Legend;

impl fmt::Display for Legend {
    ghost output = { λ _. Some legend };

    fn fmt<W: fmt::Write>(&self, f: &mut fmt::Formatter<W>) -> fmt::Result {
        f.write_str("<text x='20' y='57' fill='#555'>solid: first link of a route; ")?;
        f.write_str("dashed: fallback; grey: link with its ticks; ")?;
        f.write_str("red: refused</text>\n")
    }
}

/// How the heads of arrows look.
#[derive(Clone, Copy)]
struct MarkerShape;

impl fmt::Display for MarkerShape {
    ghost output = { λ _. Some marker_shape };

    fn fmt<W: fmt::Write>(&self, f: &mut fmt::Formatter<W>) -> fmt::Result {
        f.write_str(" stroke='none' markerUnits='userSpaceOnUse' orient='auto'\n")?;
        f.write_str("markerWidth='9' markerHeight='8' refX='9' refY='4'>")?;
        f.write_str("<path d='M0 0L9 4L0 8z'/></marker>\n")
    }
}

/// The heads of arrows: of routes that stand, and of those that are refused.
#[derive(Clone, Copy)]
struct Markers;

impl fmt::Display for Markers {
    ghost output = { λ _. Some markers };

    fn fmt<W: fmt::Write>(&self, f: &mut fmt::Formatter<W>) -> fmt::Result {
        let shape = MarkerShape;
        write!(f, "<marker id='tip' fill='#06c'{shape}")?;
        write!(f, "<marker id='refused' fill='#d00'{shape}")
    }
}

/// The links.
#[derive(Clone, Copy)]
struct LinkGroup<'p> {
    picture: &'p Picture,
}

impl fmt::Display for LinkGroup<'_> {
    ghost output = { λ g. Some (svg_links g.picture.now) };

    fn fmt<W: fmt::Write>(&self, f: &mut fmt::Formatter<W>) -> fmt::Result {
        let lines = Links {
            boxes: self.picture.boxes(),
            links: self.picture.links(),
        };
        write!(f, "<g fill='none' stroke='#aaa'>\n{lines}</g>\n")
    }
}

/// The routes.
#[derive(Clone, Copy)]
struct RouteGroup<'p> {
    picture: &'p Picture,
}

impl fmt::Display for RouteGroup<'_> {
    ghost output = { λ g. Some (svg_arrows g.picture.now) };

    fn fmt<W: fmt::Write>(&self, f: &mut fmt::Formatter<W>) -> fmt::Result {
        let lines = Routes {
            boxes: self.picture.boxes(),
            arrows: self.picture.arrows(),
        };
        f.write_str("<g fill='none' stroke='#06c' stroke-width='1.5'")?;
        write!(f, " marker-end='url(#tip)'>\n{lines}</g>\n")
    }
}

/// The nodes.
#[derive(Clone, Copy)]
struct BoxGroup<'p> {
    picture: &'p Picture,
}

impl fmt::Display for BoxGroup<'_> {
    ghost output = { λ g. Some (svg_boxes g.picture.now) };

    fn fmt<W: fmt::Write>(&self, f: &mut fmt::Formatter<W>) -> fmt::Result {
        let boxes = self.picture.boxes();
        let frames = Frames { boxes };
        let texts = BoxTexts { boxes };
        write!(f, "<g fill='white' stroke='black'>\n{frames}</g>\n{texts}")
    }
}

/// The labels of links.
#[derive(Clone, Copy)]
struct LabelGroup<'p> {
    picture: &'p Picture,
}

impl fmt::Display for LabelGroup<'_> {
    ghost output = { λ g. Some (svg_labels g.picture.now) };

    fn fmt<W: fmt::Write>(&self, f: &mut fmt::Formatter<W>) -> fmt::Result {
        let labels = Labels {
            boxes: self.picture.boxes(),
            links: self.picture.links(),
        };
        f.write_str("<g text-anchor='middle' fill='#555' stroke='white'")?;
        write!(f, " stroke-width='3' paint-order='stroke'>\n{labels}</g>\n")
    }
}

/// What stands behind the verdict.
#[derive(Clone, Copy)]
pub struct SvgBody<'p> {
    pub picture: &'p Picture,
}

impl fmt::Display for SvgBody<'_> {
    ghost output = { λ b. Some (svg_body b.picture.now) };

    fn fmt<W: fmt::Write>(&self, f: &mut fmt::Formatter<W>) -> fmt::Result {
        let picture = self.picture;
        let class = ClassLine {
            class: picture.class(),
        };
        let legend = Legend;
        let markers = Markers;
        let links = LinkGroup { picture };
        let routes = RouteGroup { picture };
        let boxes = BoxGroup { picture };
        let labels = LabelGroup { picture };
        write!(f, "{class}{legend}{markers}")?;
        write!(f, "{links}{routes}{labels}{boxes}</svg>\n")
    }
}
