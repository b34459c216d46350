//! What holds of messages and bytes by their definitions alone. Each function has no body, and its contract is the law.
ghost use Rattle.std.specs.Prelude.{◌≡◌, ℕ, List, Option, Some, None, Ok};
ghost use Rattle.hex.specs.Hex.{IsBytes};
ghost use Rattle.message_elements.specs.Table.{form_of};
ghost use Rattle.message_elements.specs.Values.{set_fault};
ghost use Rattle.iso_message.specs.Fields.{Fields};
ghost use Rattle.iso_message.specs.Messages.{read};
ghost use Rattle.iso_message.specs.Grammar.{Spells, IsPiece, IsFault};
ghost use Rattle.message_elements.specs.declared.fault.DecodeFault.{DecodeFault};
ghost use Rattle.iso_message.specs.Spelling.{spelling, IsMessage};

/// Bytes spell at most one message.
pub fn one_message()
    ensures { (bytes : List ℕ) (m n : Fields) → Spells bytes m → Spells bytes n → m ≡ n }
{}

/// Bytes have at most one first fault, and none where they spell a message.
pub fn one_fault()
    ensures one { (bytes : List ℕ) (e d : DecodeFault) → IsFault bytes e → IsFault bytes d → e ≡ d }
    ensures none { (bytes : List ℕ) (m : Fields) (e : DecodeFault) → Spells bytes m → IsFault bytes e → ⊥ }
{}

/// Every message of good values in ascending order has the canonical spelling.
pub fn canonical()
    ensures { (m : Fields) → IsMessage m → Spells (spelling m) m }
{}

/// What is spelled is a message of good values in ascending order.
pub fn spelled_is_message()
    ensures { (bytes : List ℕ) (m : Fields) → Spells bytes m → IsMessage m }
{}

/// Reading what was written gives the message back.
pub fn round_trip()
    ensures { (m : Fields) → IsMessage m → read (spelling m) ≡ Ok m }
{}

/// An element may be set to a value exactly where some bytes are the piece of that value.
pub fn settable()
    ensures may_set { (n : ℕ) (value : List ℕ) → IsBytes value → set_fault (form_of n) n value ≡ None → (text : List ℕ) × IsPiece (form_of n) value text }
    ensures only_so { (n : ℕ) (value text : List ℕ) → IsPiece (form_of n) value text → set_fault (form_of n) n value ≡ None }
{}
