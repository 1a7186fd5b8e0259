// XDR (RFC 4506): numbers, booleans, opaque data and arrays of numbers, read from and written to bytes.
#![tactic(auto)]

mod bytes;
mod reader;
mod writer;

pub use bytes::{Span, padding, part};
pub use reader::Reader;
pub use writer::Writer;
