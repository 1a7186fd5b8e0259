// Operations and results as bytes: the decoded operation, the readers of a request, the layouts of results. It knows no store.
#![tactic(auto)]

mod attrs;
mod decode;
mod operation;
mod result;
mod status;

pub use attrs::{Asked, FileAttrs, asked_in, put_attrs};
pub use decode::{header, item};
pub use operation::{
    CloneArgs, CopyArgs, Ending, Header, Operation, ReadArgs, RegionArgs, WriteArgs,
};
pub use result::{put_copied, put_data_head, put_hole, put_result, put_sought, put_written};
pub use status::Status;
