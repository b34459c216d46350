//! Lists of rows.
ghost use Rattle.std.specs.Prelude.{◌≡◌, ◌↔◌, IsTrue};

/// What can be compared.
pub(crate) trait Compared {
    fn is_same(&self, other: &Self) -> bool
        ensures { IsTrue result ↔ (self.now ≡ other.now) };
}

#[tactic(auto, using(crate::proofs::Places::same_below))]
/// Whether two lists have the same rows in the same order.
pub(crate) fn same_rows<T: Compared>(a: &[T], b: &[T]) -> bool
    ensures { IsTrue result ↔ (a.now ≡ b.now) }
{
    if a.len() != b.len() {
        return false;
    }
    for k in 0..a.len() {
        if !a[k].is_same(&b[k]) {
            return false;
        }
    }
    true
}
