// Lines of hexadecimal in, lines out; a recording judged. The rules stand in specs/.
#![tactic(auto)]

mod blocks;
mod hex;
mod judge;
mod line;
mod parts;
mod text;
mod verdict;

pub use hex::{Request, put_hex, put_refusal, request_bytes};
pub use judge::{Judge, Verdict, decided, judge_text, judged};
pub use line::{Frame, MIN_OUT, frame_geometry, serve_line};
pub use text::{Progress, serve_end, serve_text};
pub use verdict::put_verdict;
