//! The ways of links and arrows between boxes.
ghost use Rattle.std.specs.Prelude.{◌≡◌, ◌<◌, ◌^◌, Some};
ghost use Rattle.picture_text.specs.Curve.{left_side, right_side, rightwards, leftwards, around, curve, curve_between, curve_text, part, label};

use crate::parts::{Corner, NodeBox};
use card_digits::{LinkNo, NodeNo};
use std::fmt;

const BOX_WIDTH: u32 = 110;

/// How far below a box's upper side lines to the right meet it, and those to the left: two arrows between two boxes stand apart.
const TO_RIGHT: u32 = 26;

const TO_LEFT: u32 = 36;
/// How far a line leaves a box sideways.
const STUB: u32 = 10;
/// How far it goes out where both boxes stand in one column.
const ASIDE: u32 = 60;

/// A place in a picture, in pixels from its upper left corner.
#[derive(Clone, Copy)]
pub struct Point {
    pub left: u32,
    pub top: u32,
}

/// A way from one box to another, which leaves and enters them sideways.
#[derive(Clone, Copy)]
pub struct Curve {
    pub start: Point,
    pub out: u32,
    pub back: u32,
    pub end: Point,
}

/// A place on a box's left side, so far below its upper side.
fn left_side(corner: Corner, below: u32) -> Point
    requires { below < 2 ^ 16 }
    ensures { result ≡ left_side corner below }
{
    Point {
        left: corner.left as u32,
        top: corner.top as u32 + below,
    }
}

/// The same on its right side.
fn right_side(corner: Corner, below: u32) -> Point
    requires { below < 2 ^ 16 }
    ensures { result ≡ right_side corner below }
{
    Point {
        left: corner.left as u32 + BOX_WIDTH,
        top: corner.top as u32 + below,
    }
}

/// The way to a box further right.
fn rightwards(from: Corner, to: Corner) -> Curve
    ensures { result ≡ rightwards from to }
{
    Curve {
        start: right_side(from, TO_RIGHT),
        out: from.left as u32 + BOX_WIDTH + STUB,
        back: (to.left as u32).saturating_sub(STUB),
        end: left_side(to, TO_RIGHT),
    }
}

/// The way to a box further left.
fn leftwards(from: Corner, to: Corner) -> Curve
    ensures { result ≡ leftwards from to }
{
    Curve {
        start: left_side(from, TO_LEFT),
        out: (from.left as u32).saturating_sub(STUB),
        back: to.left as u32 + BOX_WIDTH + STUB,
        end: right_side(to, TO_LEFT),
    }
}

/// The way between boxes in one column, out on the right and back.
fn around(from: Corner, to: Corner) -> Curve
    ensures { result ≡ around from to }
{
    let aside = from.left as u32 + BOX_WIDTH + ASIDE;
    Curve {
        start: right_side(from, TO_RIGHT),
        out: aside,
        back: aside,
        end: right_side(to, TO_LEFT),
    }
}

/// The way from one box to another.
fn curve_of(from: Corner, to: Corner) -> Curve
    ensures { result ≡ curve from to }
{
    if from.left < to.left {
        rightwards(from, to)
    } else if to.left < from.left {
        leftwards(from, to)
    } else {
        around(from, to)
    }
}

/// The way between two nodes, if both are there.
pub(crate) fn curve_between(boxes: &[NodeBox], from: NodeNo, to: NodeNo) -> Option<Curve>
    ensures { result ≡ curve_between boxes.now from to }
{
    let from = boxes.get(from.place())?;
    let to = boxes.get(to.place())?;
    Some(curve_of(from.corner, to.corner))
}

/// As the path of an SVG.
impl fmt::Display for Curve {
    ghost output = { λ c. Some (curve_text c) };

    fn fmt<W: fmt::Write>(&self, f: &mut fmt::Formatter<W>) -> fmt::Result {
        let (left, top) = (self.start.left, self.start.top);
        let (out, back) = (self.out, self.back);
        let (end_left, end_top) = (self.end.left, self.end.top);
        write!(f, "M{left} {top}L{out} {top} ")?;
        write!(f, "{back} {end_top} {end_left} {end_top}")
    }
}

/// A quarter, half or three quarters of the way between two numbers.
fn part(third: usize, a: u32, b: u32) -> u32
    ensures { result ≡ part third a b }
{
    let (a, b) = (a as u64, b as u64);
    if third == 0 {
        ((3 * a + b) / 4) as u32
    } else if third == 1 {
        ((a + b) / 2) as u32
    } else {
        ((a + 3 * b) / 4) as u32
    }
}

/// Where the label of a link stands: at one of three places on its way, so that labels of links beside each other don't meet.
pub(crate) fn label(curve: Curve, link: LinkNo) -> Point
    ensures { result ≡ label curve link }
{
    let third = link.place() % 3;
    Point {
        left: part(third, curve.out, curve.back),
        top: part(third, curve.start.top, curve.end.top),
    }
}
