// A lent store, sound by its type.
ghost use Rattle.std.specs.Prelude.{◌≡◌, true, cond, ◌+◌, ◌*◌, ◌<◌, ◌≤◌, length, is_ok};
ghost use Rattle.rules.specs.Store.{sound, size_of, bytes_from, fits_pool};
ghost use Rattle.rules.specs.Read.{seek_place, is_hole_at};
ghost use Rattle.rules.specs.Edit.{edited};
ghost use Rattle.rules.proofs.EditLaws.{Lawful};
ghost use Rattle.tables.specs.Lent.{geometry_of, tables};
ghost use Rattle.tables.specs.Tables.{TableTrue};
ghost use Rattle.tables.specs.Space.{SpaceIs};
ghost use Rattle.store.specs.Edits.{edit_from, ActKnown};
ghost use Rattle.store.specs.Readable.{PieceEnds};

use crate::edit::{Edit, NoSpace};
use crate::{edits, read, seek};
use tables::{Geometry, Space};

/// Lent tables that make a sound store, with a true table of holders: for each block the number of slots that hold it.
#[derive(Drop)]
pub struct Store<'a, 'h> {
    pub geometry: Geometry,
    pub sizes: &'a mut [u64],
    pub words: &'a mut [u32],
    pub memory: &'a mut [u8],
    pub holders: &'h mut [u32],
    pub ghost files: { length sizes.now ≡ geometry.files },
    pub ghost slots: { length words.now ≡ geometry.files * geometry.slots },
    pub ghost bytes: { length memory.now ≡ geometry.blocks * geometry.block_size },
    pub ghost is_sound: { sound (geometry_of geometry) (tables sizes.now words.now memory.now) ≡ true },
    pub ghost blocks: { length holders.now ≡ geometry.blocks },
    pub ghost counted: { TableTrue words.now holders.now },
}

impl Store<'_, '_> {
    ghost use Rattle.store.specs.Whole.{whole, KeepsWhole};

    /// The sizes of the files.
    pub fn sizes(&self) -> &[u64]
        ensures { result.now ≡ self.now.sizes.now }
    {
        self.sizes
    }

    /// The size of a file.
    pub fn size(&self, file: usize) -> u64
        requires { file < self.now.geometry.files }
        ensures { result ≡ size_of (whole self.now) file }
    {
        self.sizes[file]
    }

    /// Whether a place of a file lies in a hole.
    pub fn hole_at(&self, file: usize, at: usize) -> bool
        requires file { file < self.now.geometry.files }
        requires inside { at < self.now.geometry.slots * self.now.geometry.block_size }
        ensures { result ≡ is_hole_at (geometry_of self.now.geometry) (whole self.now) file at }
    {
        seek::hole_at(self.geometry, self.words, file, at)
    }

    /// The first place from `from` on that is a hole, or data, as asked; or the size.
    pub fn seek_file(&self, file: usize, hole: bool, from: u64) -> u64
        requires { file < self.now.geometry.files }
        ensures { result ≡ seek_place (geometry_of self.now.geometry) (whole self.now) file hole from }
    {
        seek::seek_file(
            self.geometry,
            self.words,
            self.sizes[file],
            file,
            hole,
            from,
        )
    }

    /// Where the piece that starts at place `at` ends: the first place after it of the other kind, or `end`.
    pub fn piece_end(&self, file: usize, at: usize, end: usize) -> usize
        requires file { file < self.now.geometry.files }
        requires inside { end ≤ self.now.geometry.slots * self.now.geometry.block_size }
        requires some { at < end }
        ensures { PieceEnds (geometry_of self.now.geometry) self.now.words.now file at end result }
    {
        seek::piece_end(self.geometry, self.words, file, at, end)
    }

    /// The file's bytes from place `at` on into the whole of `out`.
    pub fn read(&self, file: usize, at: usize, out: &mut [u8])
        requires file { file < self.now.geometry.files }
        requires inside { at + length out.old ≤ self.now.geometry.slots * self.now.geometry.block_size }
        ensures { out.new ≡ bytes_from (geometry_of self.now.geometry) (whole self.now) file at (length out.old) }
    {
        read::read_bytes(self.geometry, self.words, self.memory, file, at, out);
    }

    /// The room of a file: the slots that hold a block or are reserved, and the blocks that emptying it would free.
    pub fn space(&mut self, file: usize) -> Space
        requires { file < self.old.geometry.files }
        ensures keeps { KeepsWhole self.old self.new }
        ensures same { whole self.new ≡ whole self.old }
        ensures space { SpaceIs (geometry_of self.old.geometry) self.old.words.now file result.used result.freed self.old.holders.now self.new.holders.now }
    {
        let geometry = self.geometry;
        let words = &mut *self.words;
        let holders = &mut *self.holders;
        tables::file_space(geometry, words, holders, file)
    }

    /// Applies an edit. Refuses, and changes nothing, exactly if the store would then need more blocks than there are. It asks for a lawful
    /// edit, which keeps the store sound; the call over slices asks less.
    pub fn apply(&mut self, edit: &Edit<'_>) -> Result<(), NoSpace>
        requires lawful { Lawful (geometry_of self.old.geometry) (whole self.old) (edit_from edit.now) }
        requires act { ActKnown (geometry_of self.old.geometry) (whole self.old) edit.now.file edit.now.off edit.now.end edit.now.act }
        ensures keeps { KeepsWhole self.old self.new }
        ensures answer { is_ok result
            ≡ fits_pool self.old.geometry.blocks (edited (geometry_of self.old.geometry) (whole self.old) (edit_from edit.now)).words }
        ensures store { whole self.new
            ≡ cond (is_ok result) (edited (geometry_of self.old.geometry) (whole self.old) (edit_from edit.now)) (whole self.old) }
    {
        let geometry = self.geometry;
        let sizes = &mut *self.sizes;
        let words = &mut *self.words;
        let memory = &mut *self.memory;
        let holders = &mut *self.holders;
        edits::apply(geometry, sizes, words, memory, holders, edit)
    }
}
