// The client's half: a request written from operations, and a reply taken apart. It knows no store.
#![tactic(auto)]

mod body;
mod open;
mod put;
mod reader;
mod records;
mod reply;
mod request;
mod result;
mod size;

pub use body::next_piece;
pub use open::{NotOpened, Opened, open_reply};
pub use reader::ReplyReader;
pub use records::{OpRecord, write_records};
pub use reply::{
    AttrsBody, Body, CopiedBody, DataBody, DataPiece, Fault, HolePiece, OpResult, Piece,
    PiecesBody, SoughtBody, WrittenBody,
};
pub use request::{Refusal, Request, write_request};
pub use result::step;
