//! Whose grants a node stores.
ghost use Rattle.std.specs.Prelude.{◌≡◌};
ghost use Rattle.advice_store.specs.Nodes.{lenders_with};

/// The lenders of all grants that were ever stored: a node stores its own.
#[derive(Clone, Copy)]
pub(crate) enum Lenders {
    None,
    One([u8; 11]),
    Several,
}

impl Lenders {
    /// With the lender of one grant more.
    pub fn with(self, lender: [u8; 11]) -> Lenders
        ensures { result ≡ lenders_with lender self }
    {
        match self {
            Lenders::None => Lenders::One(lender),
            Lenders::One(own) => {
                if own == lender {
                    self
                } else {
                    Lenders::Several
                }
            }
            Lenders::Several => Lenders::Several,
        }
    }
}
