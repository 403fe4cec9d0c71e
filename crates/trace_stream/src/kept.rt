//! What is kept of the record at hand.
ghost use Rattle.std.specs.Prelude.{◌≡◌, ◌==◌, ◌<◌, [], length, IfOk};
ghost use Rattle.trace_reader.specs.Rows.{text_at};
ghost use Rattle.trace_stream.specs.Kept.{with_bytes, with_field};

use pcm_io::Text;
use std::alloc::{AllocError, Global};
use std::marker::Model;

// One byte more than the longest field of a right row has.
const MOST_BYTES: usize = 257;

// One field more than a right row has.
const MOST_FIELDS: usize = 5;

/// The first fields of the record at hand, in room that was taken at the start: so many are whole, and the next one is at hand.
#[derive(Drop)]
pub struct Gathered {
    fields: Vec<Text>,
    whole: usize,
}

impl Model for Gathered {
    ghost use Rattle.std.specs.Prelude.{◌≤◌};
    ghost use Rattle.trace_stream.specs.Kept.{Kept};
    ghost use Rattle.trace_stream.specs.Room.{IsRoom, bytes_at, first_bytes};

    ghost Value = { Kept };

    ghost view = { λ g. record {
      fields = first_bytes g.whole g.fields.items;
      field = bytes_at g.fields.items g.whole;
    } };

    ghost invariant = { λ g. IsRoom g.fields.items × (g.whole ≤ 5) };
}

impl Gathered {
    /// Nothing, with room for all that is kept of a record.
    pub fn new(alloc: Global) -> Result<Gathered, AllocError>
        ensures { IfOk result (λ g. g ≡ record { fields = []; field = [] }) }
    {
        let mut fields = Vec::new(alloc);
        for _ in 0..MOST_FIELDS {
            fields.push(Text::new(alloc, MOST_BYTES)?)?;
        }
        Ok(Gathered { fields, whole: 0 })
    }

    /// How many fields are whole, up to five.
    pub fn count(&self) -> usize
        ensures { result ≡ length self.now.fields }
    {
        self.whole
    }

    /// Whether five fields are whole.
    pub fn is_full(&self) -> bool
        ensures { result ≡ (length self.now.fields == 5) }
    {
        self.whole == MOST_FIELDS
    }

    /// A whole field by its number from 0, empty where there is none.
    pub fn field(&self, index: usize) -> &[u8]
        ensures { result.now ≡ text_at self.now.fields index }
    {
        if index < self.whole {
            self.fields[index].bytes()
        } else {
            b""
        }
    }

    /// Begins a record.
    pub fn begin(&mut self)
        ensures { self.new ≡ record { fields = []; field = [] } }
    {
        self.whole = 0;
        self.fields[0].clear();
    }

    /// Bytes more of the field at hand.
    pub fn keep(&mut self, bytes: &[u8])
        requires { length self.old.fields < 5 }
        ensures { self.new ≡ record self.old { field = with_bytes self.old.field bytes.now } }
    {
        let field = &mut self.fields[self.whole];
        let count = bytes.len().min(field.room());
        field.push(&bytes[..count]);
    }

    /// The field at hand is whole.
    pub fn end_field(&mut self)
        requires { length self.old.fields < 5 }
        ensures { self.new ≡ record {
          fields = with_field self.old.fields self.old.field;
          field = [];
        } }
    {
        self.whole += 1;
        if self.whole < MOST_FIELDS {
            self.fields[self.whole].clear();
        }
    }
}
