// A reader kept together with the reply that it reads.
ghost use Rattle.std.specs.Prelude.{◌≡◌, None, Ok};
ghost use Rattle.xdr.specs.Part.{PartPromise};
ghost use Rattle.xdr.specs.Reading.{parsed};
ghost use Rattle.rules.specs.Client.{step, piece_layout};
ghost use Rattle.client.specs.Read.{of_step, of_piece};

use crate::body::next_piece;
use crate::open::Opened;
use crate::reply::{Fault, OpResult, Piece};
use crate::result::step;
use xdr::{Reader, Span};

#[derive(Clone, Copy)]
pub struct ReplyReader<'a> {
    pub reader: Reader<'a>,
}

impl<'a> ReplyReader<'a> {
    /// A reader at the first result of a reply that was opened.
    pub fn new(reply: &'a [u8], opened: Opened) -> Self
        ensures { (result.reader.bytes ≡ reply.entry) × (result.reader.at ≡ opened.first) }
    {
        ReplyReader {
            reader: Reader {
                bytes: reply,
                at: opened.first,
            },
        }
    }

    /// The result at its place, or nothing behind the last one. It then stands behind the result, or where the fault is.
    pub fn next(&mut self) -> Result<Option<OpResult>, Fault>
        ensures value { of_step self.old.reader.bytes.now result self.new.reader.at ≡ step self.old.reader.bytes.now self.old.reader.at }
        ensures done { result ≡ Ok None → self.new.reader.at ≡ self.old.reader.at }
        ensures reply { self.new.reader.bytes ≡ self.old.reader.bytes }
    {
        step(&mut self.reader)
    }

    /// A reader of the same reply at a place that was told.
    pub fn moved(self, place: usize) -> Self
        ensures { (result.reader.bytes ≡ self.entry.reader.bytes) × (result.reader.at ≡ place) }
    {
        ReplyReader {
            reader: Reader {
                bytes: self.reader.bytes,
                at: place,
            },
        }
    }

    /// The bytes of a span, a part of the reply.
    pub fn part(self, d: Span) -> &'a [u8]
        ensures { PartPromise self.entry.reader.bytes d result }
    {
        xdr::part(self.reader.bytes, d)
    }

    /// The piece of READ_PLUS at its place. It then stands behind the piece, or where the fault is.
    pub fn piece(&mut self) -> Option<Piece>
        ensures value { parsed (of_piece self.old.reader.bytes.now) result self.new.reader.at ≡ piece_layout.read self.old.reader.bytes.now self.old.reader.at }
        ensures reply { self.new.reader.bytes ≡ self.old.reader.bytes }
    {
        next_piece(&mut self.reader)
    }
}
