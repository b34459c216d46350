//! The picture of a network.
ghost use Rattle.std.specs.Prelude.{◌≡◌, IfOk, map};
ghost use Rattle.picture_text.specs.Layout.{AreAllApart};
ghost use Rattle.network_picture.specs.Made.{drawn_at};

use crate::nodes::{AtClass, ranks_in};
use all_refusals::RowRefusal;
use card_digits::Prefix;
use net_rows::Tables;
use picture_text::{Picture, layout_of};
use rank_cert::Cert;
use std::alloc::{AllocError, Global};

/// The picture of a network at a class, with the rows that these refusals speak of in red.
pub fn picture_of(
    alloc: Global,
    tables: &Tables,
    cert: &Cert,
    class: &Option<Prefix>,
    found: &[RowRefusal],
) -> Result<Picture, AllocError>
    ensures parts { IfOk result (λ p. p ≡ drawn_at tables.now cert.now class.now found.now) }
    // No two boxes meet.
    ensures apart { IfOk result (λ p. AreAllApart (map (λ b. b.corner) p.boxes)) }
{
    let ranks = ranks_in(alloc, tables, cert, class)?;
    let layout = layout_of(alloc, &ranks)?;
    let at = AtClass {
        tables,
        cert,
        class,
        found,
    };
    let boxes = at.boxes(alloc, &layout.corners)?;
    let links = at.links(alloc)?;
    let arrows = at.arrows(alloc)?;
    Ok(Picture::new(*class, layout.size, boxes, links, arrows))
}
