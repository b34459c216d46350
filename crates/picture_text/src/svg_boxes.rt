//! The boxes of an SVG.
ghost use Rattle.std.specs.Prelude.{◌≡◌, ◌+◌, Some};
ghost use Rattle.picture_text.specs.Svg.{rank_text, home_text, day_text, is_day_refused, line_start, frame, frames, name_line, id_line, rank_line, day_line, box_text, box_texts};

use crate::parts::{NodeBox, StandInMark};
use crate::svg_lines::{Fill, Stroke};
use std::fmt;

/// A rank, or that there is none.
#[derive(Clone, Copy)]
pub(crate) struct RankText {
    pub rank: Option<u16>,
}

impl fmt::Display for RankText {
    ghost output = { λ r. Some (rank_text r.rank) };

    fn fmt<W: fmt::Write>(&self, f: &mut fmt::Formatter<W>) -> fmt::Result {
        match self.rank {
            Some(rank) => write!(f, "rank {rank}"),
            None => f.write_str("no rank"),
        }
    }
}

/// The mark of the home.
#[derive(Clone, Copy)]
pub(crate) struct HomeText {
    pub is_home: bool,
}

impl fmt::Display for HomeText {
    ghost output = { λ h. Some (home_text h.is_home) };

    fn fmt<W: fmt::Write>(&self, f: &mut fmt::Formatter<W>) -> fmt::Result {
        if self.is_home {
            f.write_str(", home")
        } else {
            Ok(())
        }
    }
}

/// The day of a node's stand-in row, if it has one.
#[derive(Clone, Copy)]
pub(crate) struct DayText {
    pub stand_in: Option<StandInMark>,
}

impl fmt::Display for DayText {
    ghost output = { λ d. Some (day_text d.stand_in) };

    fn fmt<W: fmt::Write>(&self, f: &mut fmt::Formatter<W>) -> fmt::Result {
        match &self.stand_in {
            Some(mark) => {
                let day = mark.day.value();
                write!(f, "day {day}")
            }
            None => Ok(()),
        }
    }
}

/// Whether a node's stand-in row is refused.
pub(crate) fn is_day_refused(stand_in: &Option<StandInMark>) -> bool
    ensures { result ≡ is_day_refused stand_in.now }
{
    match stand_in {
        Some(mark) => mark.is_refused,
        None => false,
    }
}

/// Where a line of a box begins, so far below its upper side.
#[derive(Clone, Copy)]
struct LineStart<'p> {
    node: &'p NodeBox,
    below: u8,
}

impl fmt::Display for LineStart<'_> {
    ghost output = { λ s. Some (line_start s.node.now s.below) };

    fn fmt<W: fmt::Write>(&self, f: &mut fmt::Formatter<W>) -> fmt::Result {
        let left = self.node.corner.left as u32 + 6;
        let top = self.node.corner.top as u32 + self.below as u32;
        write!(f, "<text x='{left}' y='{top}'")
    }
}

/// The frame of a box.
#[derive(Clone, Copy)]
struct Frame<'p> {
    node: &'p NodeBox,
}

impl fmt::Display for Frame<'_> {
    ghost output = { λ b. Some (frame b.node.now) };

    fn fmt<W: fmt::Write>(&self, f: &mut fmt::Formatter<W>) -> fmt::Result {
        let (left, top) = (self.node.corner.left, self.node.corner.top);
        let ink = Stroke {
            is_refused: self.node.is_refused,
        };
        write!(
            f,
            "<rect x='{left}' y='{top}'{ink} width='110' height='62'/>\n"
        )
    }
}

/// The frames of all boxes.
#[derive(Clone, Copy)]
pub(crate) struct Frames<'p> {
    pub boxes: &'p [NodeBox],
}

impl fmt::Display for Frames<'_> {
    ghost output = { λ b. Some (frames b.boxes.now) };

    fn fmt<W: fmt::Write>(&self, f: &mut fmt::Formatter<W>) -> fmt::Result {
        for node in self.boxes {
            let frame = Frame { node };
            write!(f, "{frame}")?;
        }
        Ok(())
    }
}

/// The line of a node's name.
#[derive(Clone, Copy)]
struct NameLine<'p> {
    node: &'p NodeBox,
}

impl fmt::Display for NameLine<'_> {
    ghost output = { λ b. Some (name_line b.node.now) };

    fn fmt<W: fmt::Write>(&self, f: &mut fmt::Formatter<W>) -> fmt::Result {
        let start = LineStart {
            node: self.node,
            below: 14,
        };
        let name = self.node.name;
        write!(f, "{start} font-weight='bold'>{name}</text>\n")
    }
}

/// The line of a node's id.
#[derive(Clone, Copy)]
struct IdLine<'p> {
    node: &'p NodeBox,
}

impl fmt::Display for IdLine<'_> {
    ghost output = { λ b. Some (id_line b.node.now) };

    fn fmt<W: fmt::Write>(&self, f: &mut fmt::Formatter<W>) -> fmt::Result {
        let start = LineStart {
            node: self.node,
            below: 28,
        };
        let id = self.node.id;
        write!(f, "{start}>{id}</text>\n")
    }
}

/// The line of a node's rank.
#[derive(Clone, Copy)]
struct RankLine<'p> {
    node: &'p NodeBox,
}

impl fmt::Display for RankLine<'_> {
    ghost output = { λ b. Some (rank_line b.node.now) };

    fn fmt<W: fmt::Write>(&self, f: &mut fmt::Formatter<W>) -> fmt::Result {
        let start = LineStart {
            node: self.node,
            below: 42,
        };
        let rank = RankText {
            rank: self.node.rank,
        };
        let home = HomeText {
            is_home: self.node.is_home,
        };
        write!(f, "{start}>{rank}{home}</text>\n")
    }
}

/// The line of a node's stand-in day.
#[derive(Clone, Copy)]
struct DayLine<'p> {
    node: &'p NodeBox,
}

impl fmt::Display for DayLine<'_> {
    ghost output = { λ b. Some (day_line b.node.now) };

    fn fmt<W: fmt::Write>(&self, f: &mut fmt::Formatter<W>) -> fmt::Result {
        let start = LineStart {
            node: self.node,
            below: 56,
        };
        let ink = Fill {
            is_refused: is_day_refused(&self.node.stand_in),
        };
        let day = DayText {
            stand_in: self.node.stand_in,
        };
        write!(f, "{start}{ink}>{day}</text>\n")
    }
}

/// What stands in a box.
#[derive(Clone, Copy)]
struct BoxText<'p> {
    node: &'p NodeBox,
}

impl fmt::Display for BoxText<'_> {
    ghost output = { λ b. Some (box_text b.node.now) };

    fn fmt<W: fmt::Write>(&self, f: &mut fmt::Formatter<W>) -> fmt::Result {
        let node = self.node;
        let name = NameLine { node };
        let id = IdLine { node };
        let rank = RankLine { node };
        let day = DayLine { node };
        write!(f, "{name}{id}{rank}{day}")
    }
}

/// What stands in all boxes.
#[derive(Clone, Copy)]
pub(crate) struct BoxTexts<'p> {
    pub boxes: &'p [NodeBox],
}

impl fmt::Display for BoxTexts<'_> {
    ghost output = { λ b. Some (box_texts b.boxes.now) };

    fn fmt<W: fmt::Write>(&self, f: &mut fmt::Formatter<W>) -> fmt::Result {
        for node in self.boxes {
            let text = BoxText { node };
            write!(f, "{text}")?;
        }
        Ok(())
    }
}
