//! What a picture is asked for.
use card_digits::Prefix;

/// The languages of pictures.
#[derive(Clone, Copy, Debug, PartialEq, Eq)]
pub enum Drawing {
    Svg,
    /// The language of Graphviz.
    Dot,
}

/// The picture of the class of a prefix, or without one of the class that the verdict names, or of the first issuer.
#[derive(Clone, Copy, Debug, PartialEq, Eq)]
pub struct PictureJob {
    pub prefix: Option<Prefix>,
    pub drawing: Drawing,
}
