//! Bytes read from the front.

ghost use Rattle.std.specs.Prelude.{◌≡◌, ◌-◌, ◌==◌, ◌≤◌, ◌<◌, ◌^◌, length};
ghost use Rattle.std.specs.Int.{w8, w16, w32, w64};
ghost use Rattle.jvm_base.specs.Told.{Gives};
ghost use Rattle.class_file.specs.Reasons.{told};
ghost use Rattle.class_file.specs.Reading.Words.{Reads, number_at, bytes_at, offset_of, after};

use crate::error::ClassErr;
use byteorder::{BigEndian, ByteOrder};
use std::marker::Model;

/// A file and how far it was read.
#[derive(Drop)]
pub(crate) struct Reader<'a> {
    total: usize,
    rest: &'a [u8],
}

impl<'a> Model for Reader<'a> {
    ghost use Rattle.std.specs.Prelude.{◌≤◌, ◌<◌, ◌^◌, length};
    ghost use Rattle.class_file.specs.Place.{Place};

    ghost Value = { Place };

    ghost view = { λ r. record { total = r.total; rest = r.rest.now } };

    ghost invariant = { λ r. (length r.rest.now ≤ r.total) × (r.total < 2 ^ 63) };
}

impl<'a> Reader<'a> {
    /// The bytes of a file, none of them read.
    pub(crate) fn new(bytes: &'a [u8]) -> Reader<'a>
        ensures { result ≡ record { total = length bytes.now; rest = bytes.now } }
    {
        Reader {
            total: bytes.len(),
            rest: bytes,
        }
    }

    /// The offset of the next byte.
    pub(crate) fn offset(&self) -> u64
        ensures value { result ≡ offset_of self.now }
        ensures bound { result < 2 ^ 63 }
    {
        (self.total - self.rest.len()) as u64
    }

    /// The offset so many bytes on, or that of the end.
    pub(crate) fn offset_after(&self, len: usize) -> u64
        ensures { result ≡ offset_of (after len self.now) }
    {
        (self.total - self.rest.len().saturating_sub(len)) as u64
    }

    /// How many bytes are left.
    pub(crate) fn left(&self) -> usize
        ensures value { result ≡ length self.now.rest }
        ensures bound { result < 2 ^ 63 }
    {
        self.rest.len()
    }

    /// Whether no byte is left.
    pub(crate) fn is_done(&self) -> bool
        ensures { result ≡ (length self.now.rest == 0) }
    {
        self.rest.is_empty()
    }

    /// One byte.
    pub(crate) fn u1(&mut self) -> Result<u8, ClassErr>
        ensures { Reads self.new result (number_at w8 self.old) }
    {
        if self.rest.is_empty() {
            return Err(ClassErr::Cut(self.total as u64));
        }
        let (front, rest) = self.rest.split_at(1);
        self.rest = rest;
        Ok(front[0])
    }

    /// A number of two bytes.
    pub(crate) fn u2(&mut self) -> Result<u16, ClassErr>
        ensures { Reads self.new result (number_at w16 self.old) }
    {
        if self.rest.len() < 2 {
            return Err(ClassErr::Cut(self.total as u64));
        }
        let (front, rest) = self.rest.split_at(2);
        self.rest = rest;
        Ok(BigEndian::read_u16(front))
    }

    /// A number of four bytes.
    pub(crate) fn u4(&mut self) -> Result<u32, ClassErr>
        ensures { Reads self.new result (number_at w32 self.old) }
    {
        if self.rest.len() < 4 {
            return Err(ClassErr::Cut(self.total as u64));
        }
        let (front, rest) = self.rest.split_at(4);
        self.rest = rest;
        Ok(BigEndian::read_u32(front))
    }

    /// A number of eight bytes.
    pub(crate) fn u8(&mut self) -> Result<u64, ClassErr>
        ensures { Reads self.new result (number_at w64 self.old) }
    {
        if self.rest.len() < 8 {
            return Err(ClassErr::Cut(self.total as u64));
        }
        let (front, rest) = self.rest.split_at(8);
        self.rest = rest;
        Ok(BigEndian::read_u64(front))
    }

    /// So many bytes.
    pub(crate) fn take(&mut self, len: u32) -> Result<&'a [u8], ClassErr>
        ensures { Gives told (λ front. (front.now, self.new)) result (bytes_at len self.old) }
    {
        let len = len as usize;
        if self.rest.len() < len {
            return Err(ClassErr::Cut(self.total as u64));
        }
        let (front, rest) = self.rest.split_at(len);
        self.rest = rest;
        Ok(front)
    }
}
