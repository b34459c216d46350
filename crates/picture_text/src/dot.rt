//! A picture in DOT, the language of Graphviz.
ghost use Rattle.std.specs.Prelude.{◌≡◌, Some};
ghost use Rattle.picture_text.specs.Dot.{red_text, font_text, stand_in_text, node_label, node_text, node_texts, edge_text, link_text, link_texts, style_text, arrow_text, arrow_texts, dot_head, dot_body};

use crate::parts::{Arrow, Choice, LinkLine, NodeBox, StandInMark};
use crate::picture::Picture;
use crate::svg::ClassText;
use crate::svg_boxes::{HomeText, RankText};
use card_digits::NodeNo;
use std::fmt;

/// Red, where a row is refused.
#[derive(Clone, Copy)]
struct Red {
    is_refused: bool,
}

impl fmt::Display for Red {
    ghost output = { λ r. Some (red_text r.is_refused) };

    fn fmt<W: fmt::Write>(&self, f: &mut fmt::Formatter<W>) -> fmt::Result {
        if self.is_refused {
            f.write_str(",color=red")
        } else {
            Ok(())
        }
    }
}

/// How the day of a stand-in row begins.
#[derive(Clone, Copy)]
struct DayFont {
    is_refused: bool,
}

impl fmt::Display for DayFont {
    ghost output = { λ d. Some (font_text d.is_refused) };

    fn fmt<W: fmt::Write>(&self, f: &mut fmt::Formatter<W>) -> fmt::Result {
        if self.is_refused {
            f.write_str("<br/><font color='red'>day ")
        } else {
            f.write_str("<br/><font>day ")
        }
    }
}

/// The day of a node's stand-in row, if it has one.
#[derive(Clone, Copy)]
struct StandInText<'p> {
    stand_in: &'p Option<StandInMark>,
}

impl fmt::Display for StandInText<'_> {
    ghost output = { λ s. Some (stand_in_text s.stand_in.now) };

    fn fmt<W: fmt::Write>(&self, f: &mut fmt::Formatter<W>) -> fmt::Result {
        match self.stand_in {
            Some(mark) => {
                let font = DayFont {
                    is_refused: mark.is_refused,
                };
                let day = mark.day.value();
                write!(f, "{font}{day}</font>")
            }
            None => Ok(()),
        }
    }
}

/// What is said of a node.
#[derive(Clone, Copy)]
struct NodeLabel<'p> {
    node: &'p NodeBox,
}

impl fmt::Display for NodeLabel<'_> {
    ghost output = { λ n. Some (node_label n.node.now) };

    fn fmt<W: fmt::Write>(&self, f: &mut fmt::Formatter<W>) -> fmt::Result {
        let (name, id) = (self.node.name, self.node.id);
        let rank = RankText {
            rank: self.node.rank,
        };
        let home = HomeText {
            is_home: self.node.is_home,
        };
        let stand_in = StandInText {
            stand_in: &self.node.stand_in,
        };
        write!(f, "{name}<br/>{id}<br/>{rank}{home}{stand_in}")
    }
}

/// A node by its place in the tables.
#[derive(Clone, Copy)]
struct NodeText<'p> {
    node: &'p NodeBox,
}

impl fmt::Display for NodeText<'_> {
    ghost output = { λ n. Some (node_text n.node.now) };

    fn fmt<W: fmt::Write>(&self, f: &mut fmt::Formatter<W>) -> fmt::Result {
        let node = self.node;
        let place = node.node.place();
        let red = Red {
            is_refused: node.is_refused,
        };
        let label = NodeLabel { node };
        write!(f, "n{place} [shape=box{red},label=<{label}>]\n")
    }
}

/// All nodes.
#[derive(Clone, Copy)]
struct Nodes<'p> {
    boxes: &'p [NodeBox],
}

impl fmt::Display for Nodes<'_> {
    ghost output = { λ n. Some (node_texts n.boxes.now) };

    fn fmt<W: fmt::Write>(&self, f: &mut fmt::Formatter<W>) -> fmt::Result {
        for node in self.boxes {
            let text = NodeText { node };
            write!(f, "{text}")?;
        }
        Ok(())
    }
}

/// The ends of a link or an arrow.
#[derive(Clone, Copy)]
struct Edge {
    from: NodeNo,
    to: NodeNo,
}

impl fmt::Display for Edge {
    ghost output = { λ e. Some (edge_text e.from e.to) };

    fn fmt<W: fmt::Write>(&self, f: &mut fmt::Formatter<W>) -> fmt::Result {
        let (from, to) = (self.from.place(), self.to.place());
        write!(f, "n{from} -> n{to}")
    }
}

/// A link, with its name and ticks.
#[derive(Clone, Copy)]
struct LinkText<'p> {
    link: &'p LinkLine,
}

impl fmt::Display for LinkText<'_> {
    ghost output = { λ l. Some (link_text l.link.now) };

    fn fmt<W: fmt::Write>(&self, f: &mut fmt::Formatter<W>) -> fmt::Result {
        let link = self.link;
        let edge = Edge {
            from: link.from,
            to: link.to,
        };
        let red = Red {
            is_refused: link.is_refused,
        };
        let (name, ticks) = (link.name, link.ticks);
        write!(
            f,
            "{edge} [dir=none,constraint=false,color=gray{red},label=<{name} {ticks}>]\n"
        )
    }
}

/// All links.
#[derive(Clone, Copy)]
struct Links<'p> {
    links: &'p [LinkLine],
}

impl fmt::Display for Links<'_> {
    ghost output = { λ l. Some (link_texts l.links.now) };

    fn fmt<W: fmt::Write>(&self, f: &mut fmt::Formatter<W>) -> fmt::Result {
        for link in self.links {
            let text = LinkText { link };
            write!(f, "{text}")?;
        }
        Ok(())
    }
}

/// How an arrow is drawn.
#[derive(Clone, Copy)]
struct Style {
    choice: Choice,
}

impl fmt::Display for Style {
    ghost output = { λ s. Some (style_text s.choice) };

    fn fmt<W: fmt::Write>(&self, f: &mut fmt::Formatter<W>) -> fmt::Result {
        match self.choice {
            Choice::First => f.write_str("solid"),
            Choice::Fallback => f.write_str("dashed"),
        }
    }
}

/// A link of a route.
#[derive(Clone, Copy)]
struct ArrowText<'p> {
    arrow: &'p Arrow,
}

impl fmt::Display for ArrowText<'_> {
    ghost output = { λ a. Some (arrow_text a.arrow.now) };

    fn fmt<W: fmt::Write>(&self, f: &mut fmt::Formatter<W>) -> fmt::Result {
        let arrow = self.arrow;
        let edge = Edge {
            from: arrow.from,
            to: arrow.to,
        };
        let red = Red {
            is_refused: arrow.is_refused,
        };
        let style = Style {
            choice: arrow.choice,
        };
        write!(f, "{edge} [color=blue{red},style={style}]\n")
    }
}

/// All routes.
#[derive(Clone, Copy)]
struct Arrows<'p> {
    arrows: &'p [Arrow],
}

impl fmt::Display for Arrows<'_> {
    ghost output = { λ a. Some (arrow_texts a.arrows.now) };

    fn fmt<W: fmt::Write>(&self, f: &mut fmt::Formatter<W>) -> fmt::Result {
        for arrow in self.arrows {
            let text = ArrowText { arrow };
            write!(f, "{text}")?;
        }
        Ok(())
    }
}

/// What stands before the verdict.
#[derive(Clone, Copy)]
pub struct DotHead;

impl fmt::Display for DotHead {
    ghost output = { λ _. Some dot_head };

    fn fmt<W: fmt::Write>(&self, f: &mut fmt::Formatter<W>) -> fmt::Result {
        f.write_str("digraph network {\nrankdir=LR\nlabelloc=t\nlabel=<")
    }
}

/// What stands behind the verdict.
#[derive(Clone, Copy)]
pub struct DotBody<'p> {
    pub picture: &'p Picture,
}

impl fmt::Display for DotBody<'_> {
    ghost output = { λ b. Some (dot_body b.picture.now) };

    fn fmt<W: fmt::Write>(&self, f: &mut fmt::Formatter<W>) -> fmt::Result {
        let picture = self.picture;
        let class = ClassText {
            class: picture.class(),
        };
        let nodes = Nodes {
            boxes: picture.boxes(),
        };
        let links = Links {
            links: picture.links(),
        };
        let arrows = Arrows {
            arrows: picture.arrows(),
        };
        write!(f, "<br/>{class}>\n{nodes}{links}{arrows}}}\n")
    }
}
