// What an operation without error does: it sets the handles, shows, or edits.
use crate::handles::Handles;
use crate::reads::View;
use store::Edit;

#[derive(Clone, Copy)]
pub enum Does<'a> {
    Sets(Handles),
    // Of a file.
    Shows(usize, View),
    Edits(Edit<'a>),
}
