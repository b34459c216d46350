//! Messages.
ghost use Rattle.std.specs.Prelude.{◌≡◌, ◌↔◌, ◌⊎◌, ◌<◌, ◌^◌, ◌++◌, [], length, IsTrue, Some, None, Ok, IfOk, OnOk, OnErr, IfErr};
ghost use Rattle.std.specs.Option.{option_copied};
ghost use Rattle.message_elements.specs.declared.fault.DecodeFault.TheVariants.{Memory};
ghost use Rattle.message_elements.specs.Values.{set_fault};
ghost use Rattle.message_elements.specs.Table.{form_of};
ghost use Rattle.iso_message.specs.Grammar.{Spells, IsFault};
ghost use Rattle.card_digits.specs.Attempts.{Gives};
ghost use Rattle.iso_message.specs.Messages.{read, is_memory};
ghost use Rattle.iso_message.specs.Spelling.{IsMessage, spelling, two_maps};
ghost use Rattle.iso_message.specs.Fields.{Fields, get, has, el, set_element, remove_element, as_kind};

use crate::elements::{ElementIter, Elements};
use crate::reading::read_into;
use crate::writing::push_map;
use message_elements::{DecodeFault, Kind, value_fault};
use std::alloc::{AllocError, Global};
use std::marker::Model;

/// A type, and elements in ascending order of number, each with the bytes that the table of elements allows it.
#[derive(Debug, Drop)]
pub struct Message {
    pub(crate) kind: Kind,
    pub(crate) elements: Elements,
}

impl Model for Message {
    ghost use Rattle.iso_message.specs.Fields.{Fields};
    ghost use Rattle.iso_message.specs.Spelling.{IsMessage};

    ghost Value = { Fields };

    ghost view = { λ a. record { kind = a.kind; elements = a.elements } };

    ghost invariant = { λ a. IsMessage (record { kind = a.kind; elements = a.elements }) };
}

impl Message {
    /// A message with no elements.
    pub fn new(alloc: Global, kind: Kind) -> Message
        ensures { result ≡ record { kind = kind; elements = [] } }
    {
        Message {
            kind,
            elements: Elements::new(alloc),
        }
    }

    /// The type of the message.
    pub fn kind(&self) -> Kind
        ensures kind { result ≡ self.now.kind }

        // Every message is one that can be written and read.
        ensures is_message { IsMessage self.now }
    {
        self.kind
    }

    /// Gives the message another type.
    pub fn set_kind(&mut self, kind: Kind)
        ensures { self.new ≡ as_kind kind self.old }
    {
        self.kind = kind;
    }

    /// The bytes of an element, which for a binary one are eight. An element of length 0 is there.
    pub fn get(&self, number: u8) -> Option<&[u8]>
        ensures { option_copied result ≡ get self.now number }
    {
        self.elements.get(number)
    }

    /// The number of elements.
    pub fn len(&self) -> usize
        ensures { result ≡ length self.now.elements }
    {
        self.elements.len()
    }

    /// Whether it has no elements.
    pub fn is_empty(&self) -> bool
        ensures { IsTrue result ↔ (self.now.elements ≡ []) }
    {
        self.elements.len() == 0
    }

    /// The elements in ascending order of number, each with its bytes.
    #[inline(always)]
    pub fn iter(&self) -> ElementIter<'_>
        ensures { result ≡ self.now.elements }
    {
        self.elements.iter()
    }

    /// Whether an element is there.
    pub fn has(&self, number: u8) -> bool
        ensures { result ≡ has self.now number }
    {
        self.get(number).is_some()
    }

    /// Sets an element, in place of the value that it has. `Element` names a number that is not in the table, `Length` a
    /// value of a length that the element doesn't take, `Character` one with a byte of another class; they are tested in
    /// this order, and the message is unchanged after each, and where memory was refused.
    pub fn set(&mut self, number: u8, value: &[u8]) -> Result<(), DecodeFault>
        ensures fits { OnOk result (set_fault (form_of number) number value.now ≡ None) }
        ensures ok { OnOk result (self.new ≡ set_element self.old number value.now) }
        ensures fault { IfErr result (λ e. (e ≡ Memory) ⊎ (set_fault (form_of number) number value.now ≡ Some e)) }
        ensures err { OnErr result (self.new ≡ self.old) }
    {
        match value_fault(number, value) {
            Some(fault) => Err(fault),
            None => {
                self.elements.put(number, value)?;
                Ok(())
            }
        }
    }

    /// Sets an element to a value that it takes.
    #[inline(always)]
    pub(crate) fn put(&mut self, number: u8, value: &[u8]) -> Result<(), AllocError>
        requires { set_fault (form_of number) number value.now ≡ None }
        ensures { OnOk result (self.new ≡ set_element self.old number value.now) }
    {
        self.elements.put(number, value)
    }

    /// What the message's bytes are allocated by.
    pub(crate) fn allocator(&self) -> Global {
        self.elements.allocator()
    }

    /// Takes an element out, where it is there.
    pub fn remove(&mut self, number: u8)
        ensures { self.new ≡ remove_element self.old number }
    {
        self.elements.remove(number);
    }

    /// Reads the message that the bytes spell in the place and the memory of this one, as `decode` reads it into new memory.
    /// After a fault there are no elements.
    pub fn read_again(&mut self, bytes: &[u8]) -> Result<(), DecodeFault>
        ensures found { IfOk result (λ _. Spells bytes.now self.new) }
        ensures only { (m : Fields) → Spells bytes.now m → Gives is_memory (λ _. self.new) result (Ok m) }
        ensures fault { IfErr result (λ e. (e ≡ Memory) ⊎ IsFault bytes.now e) }
        ensures exact { Gives is_memory (λ _. self.new) result (read bytes.now) }
        ensures err { OnErr result (self.new ≡ record { kind = self.old.kind; elements = [] }) }
    {
        self.fill(bytes)
    }

    /// The same, by what reading gives.
    fn fill(&mut self, bytes: &[u8]) -> Result<(), DecodeFault>
        ensures exact { Gives is_memory (λ _. self.new) result (read bytes.now) }
        ensures err { OnErr result (self.new ≡ record { kind = self.old.kind; elements = [] }) }
    {
        let found = read_into(&mut self.elements, bytes)?;
        self.kind = found;
        Ok(())
    }

    /// A message of the same type and elements, in memory of its own.
    pub fn copy(&self) -> Result<Message, AllocError>
        ensures { IfOk result (λ m. m ≡ self.now) }
    {
        Ok(Message {
            kind: self.kind,
            elements: self.elements.copy()?,
        })
    }
}

/// The bytes of an element, none where it is absent.
#[tactic(auto, unfolding(crate::specs::Fields::el))]
#[inline]
pub fn bytes_of(message: &Message, number: u8) -> &[u8]
    ensures { result.now ≡ el message.now number }
{
    match message.get(number) {
        Some(bytes) => bytes,
        None => &[],
    }
}

/// The bytes that spell the message, with hexadecimal digits in upper case and a secondary bit map only where an element
/// above 64 is there.
pub fn encode(alloc: Global, message: &Message) -> Result<Vec<u8>, AllocError>
    ensures spelling { IfOk result (λ bytes. bytes.items ≡ spelling message.now) }
    ensures spells { IfOk result (λ bytes. Spells bytes.items message.now) }
{
    let mut out = Vec::new(alloc);
    encode_into(&mut out, message)?;
    // Every message can be written, so its spelling spells it.
    let _ = message.kind();
    Ok(out)
}

/// Writes the bytes that spell the message behind those that are there.
pub fn encode_into(out: &mut Vec<u8>, message: &Message) -> Result<(), AllocError>
    ensures { OnOk result (out.new.items ≡ out.old.items ++ spelling message.now) }
{
    let (low, high) = message.elements.maps();
    out.reserve(message.elements.room().saturating_add(OTHER_ROOM))?;
    out.extend_from_slice(message.kind.as_slice())?;
    push_maps(out, low, high)?;
    message.elements.push_to(out)
}

/// The room for a type, two bit maps, and the second digits of the three binary elements.
const OTHER_ROOM: usize = 4 + 32 + 3 * 8;
/// Writes the first map, and the second where it has a bit.
fn push_maps(out: &mut Vec<u8>, low: u64, high: u64) -> Result<(), AllocError>
    requires { low < 2 ^ 63 }
    ensures { OnOk result (out.new.items ≡ out.old.items ++ two_maps low high) }
{
    if high == 0 {
        push_map(out, low)?;
    } else {
        push_map(out, (1 << 63) + low)?;
        push_map(out, high)?;
    }
    Ok(())
}
