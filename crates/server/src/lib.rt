// The calls for a front end: server.h has their C declarations. Each hands its arguments to the call below it.
#![tactic(auto)]

ghost use Rattle.std.specs.Prelude.{◌≡◌};
ghost use Rattle.tables.specs.Lent.{dimensions_of, tables};
ghost use Rattle.rules.specs.Run.{config};
ghost use Rattle.rules.specs.Calls.{MakePromise};
ghost use Rattle.compound.specs.Runner.{call, place_told};
ghost use Rattle.server.specs.Exports.{SurveyedPromise, ShownPromise, ServePromise};

use tables::{Dimensions, Lent, Seen};

// The place that is told where there is none.
const NOWHERE: u64 = u32::MAX as u64;

fn dimensions(files: u64, slots: u64, blocks: u64, block_size: u64) -> Dimensions
    ensures { dimensions_of result ≡ record { F = files; S = slots; N = blocks; B = block_size } }
{
    Dimensions {
        files: files as usize,
        slots: slots as usize,
        blocks: blocks as usize,
        block_size: block_size as usize,
    }
}

fn told_place(place: Option<usize>) -> u64
    ensures { result ≡ place_told place }
{
    match place {
        Some(place) => place as u64,
        None => NOWHERE,
    }
}

/// Zeroes every table: 0, or refusal 1 or 2.
#[unsafe(no_mangle)]
pub extern "C" fn store_make_empty(
    files: u64,
    slots: u64,
    blocks: u64,
    block_size: u64,
    sizes: &mut [u64],
    words: &mut [u32],
    mem: &mut [u8],
) -> u32
    ensures { MakePromise (record { F = files; S = slots; N = blocks; B = block_size })
        (tables sizes.old words.old mem.old) result
        (tables sizes.new words.new mem.new) }
{
    let dimensions = dimensions(files, slots, blocks, block_size);
    let mut lent = Lent {
        sizes,
        words,
        memory: mem,
    };
    match tables::make_empty(dimensions, &mut lent) {
        Ok(()) => 0,
        Err(refusal) => refusal.number(),
    }
}

/// Whether the store is sound, with its used and owed blocks: 0, or refusal 1, 2 or 3 and zero counts.
#[unsafe(no_mangle)]
pub extern "C" fn store_survey(
    files: u64,
    slots: u64,
    blocks: u64,
    block_size: u64,
    sizes: &[u64],
    words: &[u32],
    mem: &[u8],
    counts: &mut [u64; 2],
) -> u32
    ensures { SurveyedPromise (record { F = files; S = slots; N = blocks; B = block_size })
        (tables sizes.now words.now mem.now) result counts.new }
{
    let dimensions = dimensions(files, slots, blocks, block_size);
    let seen = Seen {
        sizes,
        words,
        memory: mem,
    };
    match tables::survey(dimensions, seen) {
        Ok(survey) => {
            *counts = [survey.used as u64, survey.owed as u64];
            0
        }
        Err(refusal) => {
            *counts = [0, 0];
            refusal.number()
        }
    }
}

/// Shows a slot: 0, or refusal 1, 2, 3 or 8. `shown` gets the slice that has the slot's part, 0 for the memory and 1 for the page,
/// where the part starts there, and its length.
#[unsafe(no_mangle)]
pub extern "C" fn store_slot_view<'a>(
    files: u64,
    slots: u64,
    blocks: u64,
    block_size: u64,
    sizes: &[u64],
    words: &[u32],
    mem: &'a [u8],
    page: &'a [u8],
    file: u64,
    slot: u64,
    shown: &mut [u64; 3],
) -> u32
    ensures { ShownPromise (record { F = files; S = slots; N = blocks; B = block_size })
        (tables sizes.now words.now mem.now) page.now file slot result shown.new }
{
    let dimensions = dimensions(files, slots, blocks, block_size);
    let seen = Seen {
        sizes,
        words,
        memory: mem,
    };
    let file = file as usize;
    let slot = slot as usize;
    let view = tables::slot_view(dimensions, seen, page, file, slot);
    let (number, hole, start) = match tables::slot_place(dimensions, seen, page, file, slot) {
        Ok(place) => (0, place.hole, place.start),
        Err(refusal) => (refusal.number(), true, 0),
    };
    *shown = [u64::from(hole), start as u64, view.len() as u64];
    number
}

/// Serves a compound: 0, or refusal 1 to 6. `told` gets the bytes read and written, zero on a refusal, and the place where the
/// request went wrong.
#[unsafe(no_mangle)]
pub extern "C" fn compound_serve(
    files: u64,
    slots: u64,
    blocks: u64,
    block_size: u64,
    sizes: &mut [u64],
    words: &mut [u32],
    mem: &mut [u8],
    verifier: &[u8],
    request: &[u8],
    reply: &mut [u8],
    told: &mut [u64; 3],
) -> u32
    ensures { ServePromise
        (call (config (record { F = files; S = slots; N = blocks; B = block_size }) verifier.now) request.now reply.old)
        (tables sizes.old words.old mem.old)
        result told.new reply.new
        (tables sizes.new words.new mem.new) }
{
    let dimensions = dimensions(files, slots, blocks, block_size);
    let mut lent = Lent {
        sizes,
        words,
        memory: mem,
    };
    match compound::serve(dimensions, &mut lent, verifier, request, reply) {
        Ok(served) => {
            let place = told_place(served.place);
            *told = [served.read as u64, served.written as u64, place];
            0
        }
        Err(refused) => {
            *told = [0, 0, told_place(refused.place())];
            refused.number()
        }
    }
}
