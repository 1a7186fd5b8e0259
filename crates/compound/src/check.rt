// The errors of an operation in their order, each test with what it finds; and what an operation without error does.
ghost use Rattle.std.specs.Prelude.{◌≡◌, true, false, ℕ, ◌+◌, ◌-◌, ◌<◌, ◌^◌, cond, eqb, leb, ◌||◌, not, length, OnOk, OnErr, IsErrOf, Some, ok_or};
ghost use Rattle.rules.specs.Store.{good_geometry};
ghost use Rattle.rules.specs.Run.{overlap};
ghost use Rattle.xdr.specs.Bytes.{part_of};
ghost use Rattle.tables.specs.Lent.{geometry_of};

use crate::does::Does;
use crate::handles::{Handles, handle_file};
use crate::reads::View;
use crate::stateid::{read_stateid, zero_stateid};
use store::{Act, Edit, Source, Store};
use tables::Geometry;
use wire::{CloneArgs, CopyArgs, Operation, ReadArgs, RegionArgs, Status, WriteArgs, asked_in};
use xdr::Span;

/// An error unless the test holds.
pub fn ensure(holds: bool, status: Status) -> Result<(), Status>
    ensures ok { OnOk result (holds ≡ true) }
    ensures err { OnErr result (holds ≡ false) }
    ensures which { OnErr result (IsErrOf result status) }
{
    if holds { Ok(()) } else { Err(status) }
}

// Whether two ranges of n bytes have a byte in common.
fn overlapping(a: u64, b: u64, n: u64) -> bool
    ensures { result ≡ overlap a b n }
{
    a.abs_diff(b) < n
}

/// What an operation is checked against: the store, the request in which it stands, and the handles.
#[derive(Clone, Copy)]
pub struct Context<'s, 'r> {
    pub store: &'s Store<'s, 's>,
    pub request: &'r [u8],
    pub handles: Handles,
    pub ghost current: { (f : ℕ) → handles.current ≡ Some f → f < store.now.geometry.files },
    pub ghost saved: { (f : ℕ) → handles.saved ≡ Some f → f < store.now.geometry.files },
}

impl<'r> Context<'_, 'r> {
    ghost use Rattle.std.specs.Prelude.{[], ◌∷◌, ◌*◌, ◌≤◌, IfOk, IfErr};
    ghost use Rattle.rules.specs.Lists.{first};
    ghost use Rattle.rules.specs.Run.{read_stateid, zero_stateid, too_far, too_big, past_source, source_count, uneven};
    ghost use Rattle.rules.specs.Store.{size_of};
    ghost use Rattle.wire.specs.Status.{number_of};
    ghost use Rattle.wire.specs.Decoded.{meaning};
    ghost use Rattle.compound.specs.Runner.{first_of};
    ghost use Rattle.compound.specs.Does.{store_in, first_reads, first_edits, first_pair, Paired, Checked};

    fn current(&self) -> Result<usize, Status>
        ensures { result ≡ ok_or self.now.handles.current Status.NoFileHandle }
    {
        self.handles.current.ok_or(Status::NoFileHandle)
    }

    fn saved(&self) -> Result<usize, Status>
        ensures { result ≡ ok_or self.now.handles.saved Status.NoFileHandle }
    {
        self.handles.saved.ok_or(Status::NoFileHandle)
    }

    // The bytes of a file's slots.
    fn room(&self) -> u64
        ensures { result ≡ self.now.store.now.geometry.slots * self.now.store.now.geometry.block_size }
    {
        (self.store.geometry.slots * self.store.geometry.block_size) as u64
    }

    // Where a region of n bytes ends.
    fn region(&self, start: u64, n: u64) -> Result<u64, Status>
        ensures error { first_of result ≡ first (too_far start n ∷ too_big (geometry_of self.now.store.now.geometry) start n ∷ []) }
        ensures failed { IfErr result (λ e. 0 < number_of e) }
        ensures end { IfOk result (λ end. end ≡ start + n) }
    {
        let end = start.checked_add(n).ok_or(Status::Inval)?;
        ensure(n == 0 || end <= self.room(), Status::FBig)?;
        Ok(end)
    }

    // The current file, where the stateid passes for reading it.
    fn readable(&self, stateid: Span) -> Result<usize, Status>
        ensures err { IfErr result (λ e. (k : ℕ) → number_of e ≡ first_reads self.now stateid k) }
        ensures failed { IfErr result (λ e. 0 < number_of e) }
        ensures ok { IfOk result (λ f. (self.now.handles.current ≡ Some f) × (read_stateid (part_of self.now.request.now stateid) ≡ true)) }
    {
        let file = self.current()?;
        ensure(read_stateid(self.request, stateid), Status::BadStateid)?;
        Ok(file)
    }

    // The current file, where the stateid passes for an edit of it.
    fn editable(&self, stateid: Span) -> Result<usize, Status>
        ensures err { IfErr result (λ e. (k : ℕ) → number_of e ≡ first_edits self.now stateid k) }
        ensures failed { IfErr result (λ e. 0 < number_of e) }
        ensures ok { IfOk result (λ f. (self.now.handles.current ≡ Some f) × (zero_stateid (part_of self.now.request.now stateid) ≡ true)) }
    {
        let target = self.current()?;
        ensure(zero_stateid(self.request, stateid), Status::BadStateid)?;
        Ok(target)
    }

    #[tactic(auto, unfolding(rules::specs::Run::errors, rules::specs::Run::does))]
    fn put_fh(&self, handle: Span) -> Result<Does<'r>, Status>
        ensures { Checked self.now (meaning self.now.request.now (Operation.PutFh handle)) result }
    {
        let file = handle_file(xdr::part(self.request, handle)).ok_or(Status::BadHandle)?;
        ensure(file < self.store.geometry.files, Status::Stale)?;
        Ok(Does::Sets(Handles {
            current: Some(file),
            saved: self.handles.saved,
        }))
    }

    fn seek(&self, args: ReadArgs) -> Result<Does<'r>, Status>
        ensures { Checked self.now (meaning self.now.request.now (Operation.Seek args)) result }
    {
        let file = self.readable(args.stateid)?;
        ensure(args.count <= 1, Status::UnionNotSupported)?;
        ensure(args.offset <= self.store.sizes[file], Status::NxIo)?;
        Ok(Does::Shows(file, View::Seek(args)))
    }

    #[tactic(auto, unfolding(rules::specs::Run::errors, rules::specs::Run::does))]
    fn write(&self, args: WriteArgs) -> Result<Does<'r>, Status>
        ensures { Checked self.now (meaning self.now.request.now (Operation.Write args)) result }
    {
        let file = self.editable(args.stateid)?;
        let data = xdr::part(self.request, args.data);
        let end = self.region(args.offset, data.len() as u64)?;
        let edit = Edit {
            file,
            off: args.offset as usize,
            end: end as usize,
            act: Act::Write(data),
        };
        Ok(Does::Edits(edit))
    }

    #[tactic(auto, unfolding(rules::specs::Run::errors, rules::specs::Run::does))]
    fn allocate(&self, args: RegionArgs) -> Result<Does<'r>, Status>
        ensures { Checked self.now (meaning self.now.request.now (Operation.Allocate args)) result }
    {
        let file = self.editable(args.stateid)?;
        let end = args.offset.checked_add(args.length).ok_or(Status::Inval)?;
        ensure(args.length != 0, Status::Inval)?;
        ensure(end <= self.room(), Status::FBig)?;
        let edit = Edit {
            file,
            off: args.offset as usize,
            end: end as usize,
            act: Act::Allocate,
        };
        Ok(Does::Edits(edit))
    }

    // The region is cut at the size.
    #[tactic(auto, unfolding(rules::specs::Run::errors, rules::specs::Run::does))]
    fn deallocate(&self, args: RegionArgs) -> Result<Does<'r>, Status>
        ensures { Checked self.now (meaning self.now.request.now (Operation.Deallocate args)) result }
    {
        let file = self.editable(args.stateid)?;
        let end = args.offset.checked_add(args.length).ok_or(Status::Inval)?;
        ensure(args.length != 0, Status::Inval)?;
        let edit = Edit {
            file,
            off: args.offset as usize,
            end: end.min(self.store.sizes[file]) as usize,
            act: Act::Deallocate,
        };
        Ok(Does::Edits(edit))
    }

    // The saved and the current file, where the stateids pass for a source and for an edit.
    fn pair(&self, args: CloneArgs) -> Result<(usize, usize), Status>
        ensures err { IfErr result (λ e. (k : ℕ) → number_of e ≡ first_pair self.now args k) }
        ensures failed { IfErr result (λ e. 0 < number_of e) }
        ensures ok { IfOk result (λ p. Paired self.now args p.0 p.1) }
    {
        let pair = (self.saved()?, self.current()?);
        ensure(read_stateid(self.request, args.source), Status::BadStateid)?;
        ensure(zero_stateid(self.request, args.target), Status::BadStateid)?;
        Ok(pair)
    }

    // How many bytes of a source are meant: a count of 0 means to its end.
    fn meant(&self, source: usize, from: u64, count: u64) -> Result<u64, Status>
        requires { source < self.now.store.now.geometry.files }
        ensures err { IfErr result (λ e. (e ≡ Status.Inval) × (past_source (store_in self.now) source from count ≡ true)) }
        ensures ok { IfOk result (λ n. (n ≡ source_count (store_in self.now) source from count) × (past_source (store_in self.now) source from count ≡ false)) }
        ensures inside { IfOk result (λ n. from + n ≤ size_of (store_in self.now) source) }
    {
        let size = self.store.sizes[source];
        let end = from.checked_add(count).ok_or(Status::Inval)?;
        ensure(end <= size, Status::Inval)?;
        Ok(if count == 0 { size - from } else { count })
    }

    #[tactic(auto, unfolding(rules::specs::Run::errors, rules::specs::Run::does))]
    fn copy(&self, args: CopyArgs) -> Result<Does<'r>, Status>
        ensures { Checked self.now (meaning self.now.request.now (Operation.Copy args)) result }
    {
        let pair = args.clone;
        let (source, file) = self.pair(pair)?;
        ensure(source != file, Status::Inval)?;
        let n = self.meant(source, pair.from, pair.count)?;
        let end = self.region(pair.to, n)?;
        let edit = Edit {
            file,
            off: pair.to as usize,
            end: end as usize,
            act: Act::Copy(Source {
                file: source,
                off: pair.from as usize,
            }),
        };
        Ok(Does::Edits(edit))
    }

    #[tactic(auto, unfolding(rules::specs::Run::errors, rules::specs::Run::does))]
    fn clone(&self, args: CloneArgs) -> Result<Does<'r>, Status>
        ensures { Checked self.now (meaning self.now.request.now (Operation.Clone args)) result }
    {
        let (source, file) = self.pair(args)?;
        let n = self.meant(source, args.from, args.count)?;
        ensure(
            source != file || !overlapping(args.from, args.to, n),
            Status::Inval,
        )?;
        ensure(self.even(source, args.from, args.to, n), Status::Inval)?;
        let end = self.region(args.to, n)?;
        let edit = Edit {
            file,
            off: args.to as usize,
            end: end as usize,
            act: Act::Clone(Source {
                file: source,
                off: args.from as usize,
            }),
        };
        Ok(Does::Edits(edit))
    }

    // Whether both offsets are multiples of the block size, and n is one or ends at the source's size.
    fn even(&self, source: usize, from: u64, to: u64, n: u64) -> bool
        requires source { source < self.now.store.now.geometry.files }
        requires sum { from + n ≤ size_of (store_in self.now) source }
        ensures { result ≡ not (uneven (geometry_of self.now.store.now.geometry) (store_in self.now) source from to n) }
    {
        let block = self.store.geometry.block_size as u64;
        from % block == 0
            && to % block == 0
            && (n % block == 0 || self.store.sizes[source] - from == n)
    }

    /// The first error of an operation that was read, NOSPC aside; or what it does.
    #[tactic(auto, unfolding(rules::specs::Run::errors, rules::specs::Run::does))]
    pub fn check(&self, operation: Operation) -> Result<Does<'r>, Status>
        ensures { Checked self.now (meaning self.now.request.now operation) result }
    {
        match operation {
            Operation::GetAttr(words) => {
                let asked = asked_in(self.request, words);
                Ok(Does::Shows(self.current()?, View::Attrs(asked)))
            }
            Operation::GetFh => Ok(Does::Shows(self.current()?, View::Handle)),
            Operation::PutFh(handle) => self.put_fh(handle),
            Operation::Read(args) => {
                Ok(Does::Shows(self.readable(args.stateid)?, View::Read(args)))
            }
            Operation::RestoreFh => {
                let saved = Some(self.saved()?);
                Ok(Does::Sets(Handles {
                    current: saved,
                    saved,
                }))
            }
            Operation::SaveFh => {
                let current = Some(self.current()?);
                Ok(Does::Sets(Handles {
                    current,
                    saved: current,
                }))
            }
            Operation::Write(args) => self.write(args),
            Operation::Allocate(args) => self.allocate(args),
            Operation::Copy(args) => self.copy(args),
            Operation::Deallocate(args) => self.deallocate(args),
            Operation::ReadPlus(args) => {
                Ok(Does::Shows(self.readable(args.stateid)?, View::ReadPlus(args)))
            }
            Operation::Seek(args) => self.seek(args),
            Operation::Clone(args) => self.clone(args),
        }
    }
}
