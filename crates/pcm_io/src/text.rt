// A text in memory that was reserved before.
ghost use Rattle.std.specs.Prelude.{◌≡◌, ◌+◌, ◌*◌, ◌≤◌, ◌++◌, length, codes, decimal, IfOk};
ghost use Rattle.hex.specs.Hex.{encode_lower};
ghost use Rattle.pcm_io.specs.Reserved.{reserved, room_in, appended};

use crate::decimal::digits_in;
use crate::hexadecimal::{BYTES, digits_of, digits_of_byte};
use itoa::write_digits;
use std::alloc::{AllocError, Global};
use std::marker::Model;

/// Bytes that grow within room taken at the start, so that no later call takes memory.
#[derive(Drop)]
pub struct Text {
    // All the room: the bytes of the text, and behind them what is left of others.
    buffer: Vec<u8>,
    at: usize,
}

impl Model for Text {
    ghost use Rattle.std.specs.Prelude.{◌≤◌, length, take};
    ghost use Rattle.pcm_io.specs.Reserved.{Reserved};

    ghost Value = { Reserved };

    ghost view = { λ text. record {
      bytes = take text.at text.buffer.items;
      limit = length text.buffer.items;
    } };

    ghost invariant = { λ text. text.at ≤ length text.buffer.items };
}

impl Text {
    /// An empty text with room for so many bytes.
    pub fn new(alloc: Global, room: usize) -> Result<Text, AllocError>
        ensures { IfOk result (λ text. text ≡ reserved room) }
    {
        let mut buffer = Vec::with_capacity(alloc, room)?;
        buffer.resize(room, 0)?;
        Ok(Text { buffer, at: 0 })
    }

    /// The number of bytes that still fit.
    pub fn room(&self) -> usize
        ensures { result ≡ room_in self.now }
    {
        self.buffer.len() - self.at
    }

    /// Puts the bytes at the end.
    #[inline(always)]
    pub fn push(&mut self, bytes: &[u8])
        requires { length bytes.now ≤ room_in self.old }
        ensures after { self.new ≡ appended self.old bytes.now }
        ensures room { room_in self.new + length bytes.now ≡ room_in self.old }
    {
        let end = self.at + bytes.len();
        self.buffer[self.at..end].copy_from_slice(bytes);
        self.at = end;
    }

    /// Puts the bytes at the end, and a comma behind them.
    pub fn push_field(&mut self, field: &[u8])
        requires { length field.now + 1 ≤ room_in self.old }
        ensures after { self.new ≡ appended self.old (field.now ++ codes ",") }
        ensures room { room_in self.new + (length field.now + 1) ≡ room_in self.old }
    {
        self.push(field);
        self.push(b",");
    }

    /// Puts the decimal digits of the number at the end; they are at most 20.
    pub fn push_number(&mut self, number: u64)
        requires { length (decimal number) ≤ room_in self.old }
        ensures after { self.new ≡ appended self.old (decimal number) }
        ensures room { room_in self.new + length (decimal number) ≡ room_in self.old }
    {
        let end = self.at + digits_in(number);
        write_digits(number, &mut self.buffer, end);
        self.at = end;
    }

    /// Puts the decimal digits of the number at the end, and these bytes behind them.
    pub fn push_number_then(&mut self, number: u64, end: &[u8])
        requires { length (decimal number) + length end.now ≤ room_in self.old }
        ensures after { self.new ≡ appended self.old (decimal number ++ end.now) }
        ensures room { room_in self.new + (length (decimal number) + length end.now)
            ≡ room_in self.old }
    {
        self.push_number(number);
        self.push(end);
    }

    /// Puts two lower-case hexadecimal digits for each byte at the end.
    pub fn push_hex<const B: usize>(&mut self, bytes: &[u8; B])
        requires size { B ≤ 128 }
        requires room { 2 * B ≤ room_in self.old }
        ensures after { self.new ≡ appended self.old (encode_lower bytes.now) }
        ensures room { room_in self.new + 2 * B ≡ room_in self.old }
    {
        let (blocks, rest) = bytes.as_chunks::<BYTES>();
        for block in blocks {
            self.push(&digits_of(block));
        }
        for byte in rest {
            self.push(&digits_of_byte(*byte));
        }
    }

    /// The bytes so far, in order.
    pub fn bytes(&self) -> &[u8]
        ensures { result.now ≡ self.now.bytes }
    {
        &self.buffer[..self.at]
    }

    /// Forgets the bytes and keeps the room.
    pub fn clear(&mut self)
        ensures { self.new ≡ reserved self.old.limit }
    {
        self.at = 0;
    }
}
