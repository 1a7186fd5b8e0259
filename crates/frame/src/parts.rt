// A text as the parts of its lines.
ghost use Rattle.std.specs.Prelude.{◌≡◌, ◌+◌, ◌<◌, [], ◌∷◌, length, MatchOption, IfSome};
ghost use Rattle.frame.specs.Text.{parts_of};
ghost use Rattle.frame.specs.Parts.{part_of, size_of};

use crate::blocks::line_end;

/// Characters of one line, and whether its newline stands behind them.
#[derive(Clone, Copy, Debug)]
pub struct Part<'a> {
    pub text: &'a [u8],
    pub ended: bool,
}

/// What is left of a text.
#[derive(Clone, Copy, Debug)]
pub struct Parts<'a> {
    pub rest: &'a [u8],
}

impl<'a> Parts<'a> {
    /// The first part of what is left.
    #[tactic(auto, using(crate::proofs::BlockLaws::index_le))]
    pub fn next(&mut self) -> Option<Part<'a>>
        ensures part { MatchOption result (self.old.rest.now ≡ []) (λ p. parts_of self.old.rest.now ≡ part_of p ∷ parts_of self.new.rest.now) }
        ensures size { IfSome result (λ p. size_of p + length self.new.rest.now ≡ length self.old.rest.now) }
        ensures shorter { IfSome result (λ p. length self.new.rest.now < length self.old.rest.now) }
    {
        let text = self.rest;
        if text.is_empty() {
            return None;
        }
        let end = line_end(text);
        let ended = end < text.len();
        self.rest = &text[end + usize::from(ended)..];
        Some(Part {
            text: &text[..end],
            ended,
        })
    }
}
