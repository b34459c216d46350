//! Messages.
ghost use Rattle.std.specs.Prelude.{◌≡◌, ◌≤◌, ◌<◌, ◌⊎◌, false, true, Some, None, length, IfOk, IfErr};
ghost use Rattle.element_spans.specs.Spans.{LocatesAll, HasCount, span_of};
ghost use Rattle.card_switch_c.specs.Messages.{fault_number, fault_element, TellsFault, IsReadStatus};
ghost use Rattle.card_switch_c.specs.Writing.{Spells, Writes, WantsBytes, IsWriteFault, TellsWriteFault, IsWriteStatus};

use crate::status::{DONE, FAULT, NO_MEMORY, TOO_SMALL};
use buffer_front::put_front;
use element_spans::{ElementSpan, LocateFault, build, locate, span_of};
use iso_message::encode;
use message_elements::{DecodeFault, Kind};
use std::alloc::Global;

/// What was read: how many elements, or the fault by its number and the element that it names.
#[repr(C)]
#[derive(Clone, Copy, Debug, PartialEq, Eq)]
pub struct Reading {
    pub count: usize,
    pub fault: u8,
    pub element: u8,
}

/// The number of a fault, as it is printed.
pub(crate) fn fault_number(fault: DecodeFault) -> u8
    ensures { result ≡ fault_number fault }
{
    match fault {
        DecodeFault::Short => 1,
        DecodeFault::BadType => 2,
        DecodeFault::BitMap => 3,
        DecodeFault::Element(_) => 4,
        DecodeFault::Length(_) => 5,
        DecodeFault::Character(_) => 6,
        DecodeFault::Trailing => 7,
        DecodeFault::Memory => 8,
    }
}

/// The element that a fault names, 0 where it names none.
pub(crate) fn fault_element(fault: DecodeFault) -> u8
    ensures { result ≡ fault_element fault }
{
    match fault {
        DecodeFault::Element(number) => number,
        DecodeFault::Length(number) => number,
        DecodeFault::Character(number) => number,
        _ => 0,
    }
}

/// Where the elements of a message stand in its bytes.
#[unsafe(no_mangle)]
pub extern "C" fn cs_message_read(
    message: &[u8],
    elements: &mut [ElementSpan],
    reading: &mut Reading,
) -> u8
    ensures status { IsReadStatus result }
    ensures done { result ≡ 0 → LocatesAll message.now elements.new reading.new.count }
    ensures count { result ≡ 0 → reading.new.count ≤ length elements.new }
    ensures fault { result ≡ 2 → TellsFault message.now reading.new.fault reading.new.element }
    ensures small { result ≡ 3 → HasCount message.now reading.new.count }
    ensures few { result ≡ 3 → length elements.old < reading.new.count }
{
    *reading = Reading {
        count: 0,
        fault: 0,
        element: 0,
    };
    match locate(message, elements) {
        Ok(count) => {
            reading.count = count;
            DONE
        }
        Err(LocateFault::Message(fault)) => {
            reading.fault = fault_number(fault);
            reading.element = fault_element(fault);
            FAULT
        }
        Err(LocateFault::TooFewPlaces(count)) => {
            reading.count = count;
            TOO_SMALL
        }
    }
}

/// The element of a number among those that were found.
#[unsafe(no_mangle)]
pub extern "C" fn cs_message_get(
    elements: &[ElementSpan],
    number: u8,
    element: &mut ElementSpan,
) -> bool
    ensures found { result ≡ true → span_of number elements.now ≡ Some element.new }
    ensures absent { result ≡ false → span_of number elements.now ≡ None }
    ensures unchanged { result ≡ false → element.new ≡ element.old }
{
    match span_of(elements, number) {
        Some(span) => {
            *element = span;
            true
        }
        None => false,
    }
}

/// What was written: how many bytes, or the fault by its number and the element that it names.
#[repr(C)]
#[derive(Clone, Copy, Debug, PartialEq, Eq)]
pub struct Writing {
    pub length: usize,
    pub fault: u8,
    pub element: u8,
}

/// The bytes of the message of a type and of the values at spans of some bytes.
fn message_bytes(
    alloc: Global,
    kind: &[u8],
    values: &[u8],
    elements: &[ElementSpan],
) -> Result<Vec<u8>, DecodeFault>
    ensures ok { IfOk result (λ bytes. Spells kind.now values.now elements.now bytes.items) }
    ensures fault { IfErr result (λ fault. (fault ≡ DecodeFault.Memory) ⊎ IsWriteFault kind.now values.now elements.now fault) }
{
    let kind = Kind::read(kind).ok_or(DecodeFault::BadType)?;
    let message = build(alloc, kind, values, elements)?;
    let bytes = encode(alloc, &message)?;
    Ok(bytes)
}

/// The message of a type and of the values at spans of some bytes.
#[unsafe(no_mangle)]
pub extern "C" fn cs_message_write(
    alloc: Global,
    kind: &[u8],
    values: &[u8],
    elements: &[ElementSpan],
    output: &mut [u8],
    writing: &mut Writing,
) -> u8
    ensures status { IsWriteStatus result }
    ensures done { result ≡ 0 → Writes (Spells kind.now values.now elements.now) output.old output.new writing.new.length }
    ensures fault { result ≡ 2 → TellsWriteFault kind.now values.now elements.now writing.new.fault writing.new.element }
    ensures small { result ≡ 3 → WantsBytes (Spells kind.now values.now elements.now) (length output.old) writing.new.length }
    ensures memory { result ≡ 4 → (writing.new.length ≡ 0) × (writing.new.fault ≡ 0) × (writing.new.element ≡ 0) }
    ensures unchanged { 0 < result → output.new ≡ output.old }
{
    *writing = Writing {
        length: 0,
        fault: 0,
        element: 0,
    };
    match message_bytes(alloc, kind, values, elements) {
        Ok(bytes) => {
            writing.length = bytes.len();
            if put_front(&bytes, output) {
                DONE
            } else {
                TOO_SMALL
            }
        }
        Err(DecodeFault::Memory) => NO_MEMORY,
        Err(fault) => {
            writing.fault = fault_number(fault);
            writing.element = fault_element(fault);
            FAULT
        }
    }
}
