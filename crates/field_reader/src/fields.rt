//! A cursor over the fields of a content.

ghost use Rattle.std.specs.Prelude.{◌≡◌, length, OnErr, IfOk};
ghost use Rattle.std.specs.Int.{w8, w16, w32, w64};
ghost use Rattle.field_reader.specs.Format.{start, field, number, short_text, ends};
ghost use Rattle.field_reader.specs.Reading.{Takes};

use crate::fault::{Misspelled, refuse_unless};
use std::marker::Model;

/// A content, and how far it was read. A contract sees the place of the next byte, and the bytes from there on.
#[derive(Drop)]
pub struct Fields<'a> {
    content: &'a [u8],
    next: usize,
}

impl<'a> Model for Fields<'a> {
    ghost use Rattle.std.specs.Prelude.{drop, length, ◌≤◌};
    ghost use Rattle.field_reader.specs.Format.{Spot};

    ghost Value = { Spot };

    ghost view = { λ a. record { at = a.next; left = drop a.next a.content.now } };

    ghost invariant = { λ a. a.next ≤ length a.content.now };
}

impl<'a> Fields<'a> {
    /// The fields of a content, none of which was taken yet.
    pub fn new(content: &'a [u8]) -> Fields<'a>
        ensures { result ≡ start content.now }
    {
        Fields { content, next: 0 }
    }

    /// The place of the next byte.
    pub fn at(&self) -> u64
        ensures { result ≡ self.now.at }
    {
        self.next as u64
    }

    /// The bytes that were not taken yet.
    pub fn rest(&self) -> &'a [u8]
        ensures { result.now ≡ self.now.left }
    {
        &self.content[self.next..]
    }

    /// Takes the next `size` bytes. Where fewer are left, the fault is at the end and nothing is taken.
    #[tactic(auto, unfolding(crate::specs::Format::field))]
    pub fn take_slice(&mut self, size: usize) -> Result<&'a [u8], Misspelled>
        ensures taken { Takes (λ bytes. bytes.now) result self.new (field size self.old) }
        ensures size { IfOk result (λ bytes. length bytes.now ≡ size) }
        ensures err { OnErr result (self.new ≡ self.old) }
    {
        let rest = self.rest();
        if rest.len() < size {
            return Err(Misspelled(self.content.len() as u64));
        }
        self.next += size;
        Ok(&rest[..size])
    }

    /// Takes the next `N` bytes. Where fewer are left, the fault is at the end and nothing is taken.
    pub fn take_bytes<const N: usize>(&mut self) -> Result<[u8; N], Misspelled>
        ensures taken { Takes (λ bytes. bytes) result self.new (field N self.old) }
        ensures err { OnErr result (self.new ≡ self.old) }
    {
        let bytes = self.take_slice(N)?;
        let mut array = [0; N];
        array.copy_from_slice(bytes);
        Ok(array)
    }

    /// Takes one byte. Where none is left, the fault is at the end and nothing is taken.
    #[tactic(auto, unfolding(crate::specs::Format::number, crate::specs::Format::field))]
    pub fn take_u8(&mut self) -> Result<u8, Misspelled>
        ensures taken { Takes (λ number. number) result self.new (number w8 self.old) }
        ensures err { OnErr result (self.new ≡ self.old) }
    {
        let bytes = self.take_slice(1)?;
        Ok(bytes[0])
    }

    /// Takes a number of two bytes. Where fewer are left, the fault is at the end and nothing is taken.
    #[tactic(auto, unfolding(crate::specs::Format::number))]
    pub fn take_u16(&mut self) -> Result<u16, Misspelled>
        ensures taken { Takes (λ number. number) result self.new (number w16 self.old) }
        ensures err { OnErr result (self.new ≡ self.old) }
    {
        Ok(u16::from_be_bytes(self.take_bytes()?))
    }

    /// Takes a number of four bytes. Where fewer are left, the fault is at the end and nothing is taken.
    #[tactic(auto, unfolding(crate::specs::Format::number))]
    pub fn take_u32(&mut self) -> Result<u32, Misspelled>
        ensures taken { Takes (λ number. number) result self.new (number w32 self.old) }
        ensures err { OnErr result (self.new ≡ self.old) }
    {
        Ok(u32::from_be_bytes(self.take_bytes()?))
    }

    /// Takes a number of eight bytes. Where fewer are left, the fault is at the end and nothing is taken.
    #[tactic(auto, unfolding(crate::specs::Format::number))]
    pub fn take_u64(&mut self) -> Result<u64, Misspelled>
        ensures taken { Takes (λ number. number) result self.new (number w64 self.old) }
        ensures err { OnErr result (self.new ≡ self.old) }
    {
        Ok(u64::from_be_bytes(self.take_bytes()?))
    }

    /// Takes a short text: one byte of length, and so many bytes. Where bytes are missing, the fault is at the end and
    /// nothing is taken.
    #[tactic(auto, unfolding(crate::specs::Format::short_text))]
    pub fn take_short_text(&mut self) -> Result<&'a [u8], Misspelled>
        ensures taken { Takes (λ text. text.now) result self.new (short_text self.old) }
        ensures err { OnErr result (self.new ≡ self.old) }
    {
        let mut ahead = Fields {
            content: self.content,
            next: self.next,
        };
        let size = ahead.take_u8()?;
        let text = ahead.take_slice(size as usize)?;
        *self = ahead;
        Ok(text)
    }

    /// Ends the reading. Where bytes are left, the fault is at the first of them.
    #[tactic(auto, unfolding(crate::specs::Format::ends))]
    pub fn finish(&self) -> Result<(), Misspelled>
        ensures { Takes (λ unit. unit) result self.now (ends self.now) }
    {
        refuse_unless(self.next == self.content.len(), self.next as u64)
    }
}
