//! All tables.
ghost use Rattle.std.specs.Prelude.{◌≡◌, ◌↔◌, IsTrue};

use crate::lists::{Compared, same_rows};
use net_rows::Tables;

/// Whether two tables have the same settings, and the same rows in the same order. Looks at each row at most once.
#[tactic(auto, using(crate::proofs::Fields::network_is))]
pub fn same_tables(a: &Tables, b: &Tables) -> bool
    ensures { IsTrue result ↔ (a.now ≡ b.now) }
{
    a.settings().is_same(b.settings())
        && same_rows(a.nodes(), b.nodes())
        && same_rows(a.links(), b.links())
        && same_rows(a.acquirers(), b.acquirers())
        && same_rows(a.issuers(), b.issuers())
        && same_rows(a.routes(), b.routes())
        && same_rows(a.stand_ins(), b.stand_ins())
}
