//! What a picture is made of.
use card_digits::{Amount, Id, LinkNo, Name, NodeNo};

/// The upper left corner of a box, in pixels from that of the picture.
#[derive(Clone, Copy)]
pub struct Corner {
    pub left: u16,
    pub top: u16,
}

/// How large a picture is, in pixels.
#[derive(Clone, Copy)]
pub struct Size {
    pub width: u16,
    pub height: u16,
}

/// What a node may approve by itself for a card and a day.
#[derive(Clone, Copy)]
pub struct StandInMark {
    pub day: Amount,
    pub is_refused: bool,
}

/// A node in its layer: its rank, or the layer of the nodes that have none.
#[derive(Clone, Copy)]
pub struct NodeBox {
    pub node: NodeNo,
    pub name: Name,
    pub id: Id,
    pub rank: Option<u16>,
    pub is_home: bool,
    pub stand_in: Option<StandInMark>,
    pub is_refused: bool,
    pub corner: Corner,
}

/// A link between two nodes, with the ticks of its timer.
#[derive(Clone, Copy)]
pub struct LinkLine {
    pub link: LinkNo,
    pub name: Name,
    pub from: NodeNo,
    pub to: NodeNo,
    pub ticks: u16,
    pub is_refused: bool,
}

/// Where a link stands in a node's route.
#[derive(Clone, Copy)]
pub enum Choice {
    First,
    Fallback,
}

/// A link of a node's route, from that node to the link's other end.
#[derive(Clone, Copy)]
pub struct Arrow {
    pub link: LinkNo,
    pub from: NodeNo,
    pub to: NodeNo,
    pub choice: Choice,
    pub is_refused: bool,
}
