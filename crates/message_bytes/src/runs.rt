//! How far bytes are of a class, tested sixteen at a time and once for all elements that they make up.
ghost use Rattle.std.specs.Prelude.{◌≡◌, ◌≤◌, ◌+◌, length, take};
ghost use Rattle.std.specs.List.{list_all};
ghost use Rattle.message_elements.specs.Values.{fits, AreOf};
ghost use Rattle.message_elements.specs.declared.form.Class.TheVariants.{Digits, Text};
ghost use Rattle.message_bytes.specs.Known.{IsKnown, PassBetween, PassIn, lanes_before};

use message_elements::{Class, are_of};
use std::simd::prelude::*;

/// How many of the last bytes may be of another class: all bytes before them are digits, or text.
#[derive(Clone, Copy, Debug)]
pub struct Known {
    digits: usize,
    text: usize,
}

const LANES: usize = 16;

/// How many lanes, at most sixteen, come before the first that stops.
#[inline(always)]
fn lanes_before(stops: u64) -> usize
    ensures { result ≡ lanes_before stops }
{
    if stops == 0 {
        LANES
    } else {
        stops.trailing_zeros() as usize
    }
}

/// How many of sixteen bytes are digits before another comes.
#[inline(always)]
fn digits_in(bytes: &[u8], at: usize) -> usize
    requires { at + LANES ≤ length bytes.now }
    ensures { PassIn (fits Digits) bytes.now at LANES result }
{
    let from_zero = u8x16::from_slice(&bytes[at..]) - u8x16::splat(b'0');
    lanes_before(from_zero.simd_ge(u8x16::splat(10)).to_bitmask())
}

/// How many of sixteen bytes are text before another comes.
#[inline(always)]
fn text_in(bytes: &[u8], at: usize) -> usize
    requires { at + LANES ≤ length bytes.now }
    ensures { PassIn (fits Text) bytes.now at LANES result }
{
    let from_space = u8x16::from_slice(&bytes[at..]) - u8x16::splat(0x20);
    lanes_before(from_space.simd_ge(u8x16::splat(0x5F)).to_bitmask())
}

#[inline(always)]
fn fits_class(class: Class, byte: u8) -> bool
    ensures { result ≡ fits class byte }
{
    match class {
        Class::Digits => byte.is_ascii_digit(),
        Class::Text => 0x20 <= byte && byte <= 0x7E,
    }
}

/// How many of sixteen bytes are of the class before another comes.
#[inline(always)]
fn run_in(class: Class, bytes: &[u8], at: usize) -> usize
    requires { at + LANES ≤ length bytes.now }
    ensures { PassIn (fits class) bytes.now at LANES result }
{
    match class {
        Class::Digits => return digits_in(bytes, at),
        Class::Text => return text_in(bytes, at),
    }
}

/// A number of bytes from the first on that are of the class, as those before a place are, one at a time.
fn short_run(class: Class, bytes: &[u8], from: usize) -> usize
    requires inside { from ≤ length bytes.now }
    requires front { PassBetween (fits class) bytes.now 0 from }
    ensures bound { result ≤ length bytes.now }
    ensures passes { PassBetween (fits class) bytes.now 0 result }
{
    let mut done = from;
    while done < bytes.len() {
        if !fits_class(class, bytes[done]) {
            return done;
        }
        done += 1;
    }
    done
}

/// A number of bytes from the first on that are of the class, as those before a place are.
#[inline(always)]
fn run_from(class: Class, bytes: &[u8], from: usize) -> usize
    requires inside { from ≤ length bytes.now }
    requires front { PassBetween (fits class) bytes.now 0 from }
    ensures bound { result ≤ length bytes.now }
    ensures passes { PassBetween (fits class) bytes.now 0 result }
{
    if bytes.len() < LANES {
        return short_run(class, bytes, from);
    }
    // The last sixteen may overlap those before them.
    let last = bytes.len() - LANES;
    let mut done = from;
    while done < last {
        let run = run_in(class, bytes, done);
        if run < LANES {
            return done + run;
        }
        done += LANES;
    }
    last + run_in(class, bytes, last)
}

impl Known {
    ghost use Rattle.std.specs.Prelude.{◌≡◌, ◌≤◌, ◌-◌, length, take, is_some, IfSome};
    ghost use Rattle.std.specs.List.{list_all};
    ghost use Rattle.message_elements.specs.Values.{fits, AreOf};
    ghost use Rattle.message_bytes.specs.Known.{IsKnown};

    /// What is known of the bytes before they are read: how far they are digits, and how far text, which digits are too.
    pub fn of(bytes: &[u8]) -> Known
        ensures { IsKnown result bytes.now }
    {
        let digits = run_from(Class::Digits, bytes, 0);
        if digits == bytes.len() {
            return Known { digits: 0, text: 0 };
        }
        let text = run_from(Class::Text, bytes, digits);
        Known {
            digits: bytes.len() - digits,
            text: bytes.len() - text,
        }
    }

    /// How many of the last bytes may be of another class. Digits are looked for where they are not known so far.
    #[inline(always)]
    fn left(&mut self, class: Class, after: usize, bytes: &[u8]) -> usize
        requires { IsKnown self.old bytes.now }
        ensures value { AreOf class (take (length bytes.now - result) bytes.now) }
        ensures known { IsKnown self.new bytes.now }
    {
        match class {
            Class::Text => return self.text,
            Class::Digits => {
                if self.digits <= after {
                    return self.digits;
                }
                let run = run_from(Class::Digits, bytes, 0);
                self.digits = bytes.len() - run;
                return self.digits;
            }
        }
    }

    /// Whether so many bytes from the first on are of the class.
    #[inline(always)]
    pub fn is_front(&mut self, class: Class, size: usize, bytes: &[u8]) -> bool
        requires size { size ≤ length bytes.now }
        requires known { IsKnown self.old bytes.now }
        ensures value { result ≡ list_all (fits class) (take size bytes.now) }
        ensures known { IsKnown self.new bytes.now }
    {
        let after = bytes.len() - size;
        let left = self.left(class, after, bytes);
        left <= after || are_of(class, &bytes[..size])
    }

    /// What is known where so many bytes from the first on are of the class, none where they aren't.
    #[inline(always)]
    pub fn with_front(self, class: Class, size: usize, bytes: &[u8]) -> Option<Known>
        requires size { size ≤ length bytes.now }
        requires known { IsKnown self bytes.now }
        ensures value { is_some result ≡ list_all (fits class) (take size bytes.now) }
        ensures known { IfSome result (λ k. IsKnown k bytes.now) }
    {
        let left = match class {
            Class::Digits => self.digits,
            Class::Text => self.text,
        };
        if left <= bytes.len() - size {
            return Some(self);
        }
        let digits = self.looked_at(class, size, bytes)?;
        Some(Known {
            digits,
            text: self.text,
        })
    }

    /// How many of the last bytes may be no digits, where so many from the first on are of the class, which are looked at.
    #[inline(never)]
    fn looked_at(self, class: Class, size: usize, bytes: &[u8]) -> Option<usize>
        requires size { size ≤ length bytes.now }
        requires known { IsKnown self bytes.now }
        ensures value { is_some result ≡ list_all (fits class) (take size bytes.now) }
        ensures known { IfSome result (λ digits. AreOf Digits (take (length bytes.now - digits) bytes.now)) }
    {
        let mut known = self;
        if known.is_front(class, size, bytes) {
            Some(known.digits)
        } else {
            None
        }
    }

    /// Whether so few bytes from the first on are digits. They are looked at one by one where it isn't known.
    #[inline(always)]
    pub fn are_digits(&self, size: usize, bytes: &[u8]) -> bool
        requires size { size ≤ length bytes.now }
        requires known { IsKnown self.now bytes.now }
        ensures { result ≡ list_all (fits Digits) (take size bytes.now) }
    {
        self.digits <= bytes.len() - size || are_of(Class::Digits, &bytes[..size])
    }
}
