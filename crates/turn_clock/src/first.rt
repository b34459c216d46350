//! What comes first.
ghost use Rattle.std.specs.Prelude.{◌≡◌, ◌≤◌, IfSome};
ghost use Rattle.turn_clock.specs.Sooner.{sooner};

/// The sooner of two numbers of turns, of which either may be lacking.
pub fn sooner(one: Option<u64>, other: Option<u64>) -> Option<u64>
    ensures sooner { result ≡ sooner one other }
    // Neither is passed over.
    ensures one { IfSome one (λ a. IfSome result (λ r. r ≤ a)) }
    ensures other { IfSome other (λ b. IfSome result (λ r. r ≤ b)) }
{
    match (one, other) {
        (Some(a), Some(b)) => Some(a.min(b)),
        (Some(a), None) => Some(a),
        (None, b) => b,
    }
}
