//! The refusals that belong to the class of a picture.
ghost use Rattle.std.specs.Prelude.{◌≡◌, IfOk};
ghost use Rattle.network_picture.specs.Refused.{is_class, is_here, here};

use crate::class::named_class;
use all_refusals::RowRefusal;
use card_digits::Prefix;
use std::alloc::{AllocError, Global};
use table_checker::Refusal;

/// Whether it is the class of the picture.
fn is_class(class: &Option<Prefix>, other: &Prefix) -> bool
    ensures { result ≡ is_class class.now other.now }
{
    match class {
        Some(class) => *class == *other,
        None => false,
    }
}

/// Whether a refusal is of this class, or of none.
fn is_here(class: &Option<Prefix>, refusal: &Refusal) -> bool
    ensures { result ≡ is_here class.now refusal.now }
{
    match named_class(refusal) {
        Some(other) => is_class(class, &other),
        None => true,
    }
}

/// The refusals of a class, and those of none.
pub(crate) fn refusals_here(
    alloc: Global,
    found: &[RowRefusal],
    class: &Option<Prefix>,
) -> Result<Vec<RowRefusal>, AllocError>
    ensures { IfOk result (λ v. v.items ≡ here class.now found.now) }
{
    found
        .iter()
        .copied()
        .filter(|refusal| is_here(class, &refusal.refusal))
        .collect(alloc)
}
