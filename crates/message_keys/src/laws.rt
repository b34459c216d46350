//! What holds of keys by their definitions alone. The function has no body, and its contract is the law.
ghost use Rattle.std.specs.Prelude.{◌≡◌, ◌↔◌, true};
ghost use Rattle.card_digits.specs.declared.key.Key.{Key};
ghost use Rattle.message_keys.specs.declared.keys.AdviceId.{AdviceId};
ghost use Rattle.message_keys.specs.Keys.{Content, key_eq, content_eq, identity_eq};

/// The tests of keys, contents and identities are those of equality.
pub fn equality()
    ensures keys { (a b : Key) → (key_eq a b ≡ true) ↔ (a ≡ b) }
    ensures contents { (a b : Content) → (content_eq a b ≡ true) ↔ (a ≡ b) }
    ensures identities { (a b : AdviceId) → (identity_eq a b ≡ true) ↔ (a ≡ b) }
{}
