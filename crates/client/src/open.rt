// A reply opened: all of it is read once before a result is handed out.
ghost use Rattle.std.specs.Prelude.{◌≡◌, []};
ghost use Rattle.xdr.specs.Reading.{parsed};
ghost use Rattle.rules.specs.Calls.{reply_head};
ghost use Rattle.rules.specs.Client.{not_opened};
ghost use Rattle.client.specs.Read.{of_head, results_good, OpenPromise};

use crate::result::read_result;
use wire::Operation;
use xdr::{Reader, Span};

/// The status of a reply that is one to the request, and the place of its first result.
#[derive(Clone, Copy, Debug, PartialEq, Eq)]
pub struct Opened {
    pub status: u32,
    pub first: usize,
}

/// The reply is not one to the request.
#[derive(Clone, Copy, Debug, PartialEq, Eq)]
pub struct NotOpened;

impl NotOpened {
    pub fn number(self) -> u32
        ensures { result ≡ (not_opened []).number }
    {
        10
    }
}

/// Status, tag and number of results.
#[derive(Clone, Copy, Debug, PartialEq, Eq)]
pub struct Head {
    pub status: u32,
    pub tag: Span,
    pub count: u32,
}

#[tactic(auto, unfolding(xdr::specs::Decode::opaque_up_to))]
fn read_head(r: &mut Reader<'_>) -> Option<Head>
    ensures value { parsed (of_head r.old.bytes.now) result r.new.at ≡ reply_head.read r.old.bytes.now r.old.at }
    ensures bytes { r.new.bytes ≡ r.old.bytes }
{
    let status = r.u32()?;
    let tag = r.opaque(Operation::MAX_TAG)?;
    let count = r.u32()?;
    Some(Head { status, tag, count })
}

// Whether so many results follow to the end of the reply, with these numbers and these statuses: the last one's is the reply's, and those
// before it are OK.
#[tactic(auto, using(crate::proofs::OpenLaws::too_many, crate::proofs::OpenLaws::good_step, crate::proofs::OpenLaws::good_end))]
fn results_good(r: &mut Reader<'_>, count: u32, status: u32, numbers: &[u32]) -> bool
    ensures { result ≡ results_good r.old.bytes.now r.old.at count status numbers.now }
{
    let count = count as usize;
    if numbers.len() < count {
        return false;
    }
    for i in 0..count {
        let wanted = if i + 1 == count { status } else { 0 };
        let Some(result) = read_result(r) else {
            return false;
        };
        if result.number != numbers[i] || result.status != wanted {
            return false;
        }
    }
    if r.at != r.bytes.len() {
        return false;
    }
    status != 0 || count == numbers.len()
}

/// Opens the reply to a request with this tag and these operation numbers.
#[tactic(auto, using(crate::proofs::OpenLaws::opened_is, crate::proofs::OpenLaws::same_tag))]
pub fn open_reply(tag: &[u8], numbers: &[u32], reply: &[u8]) -> Result<Opened, NotOpened>
    ensures { OpenPromise tag.now numbers.now reply.now result }
{
    let mut r = Reader::new(reply);
    let head = read_head(&mut r).ok_or(NotOpened)?;
    let first = r.at;
    if xdr::part(reply, head.tag) != tag {
        return Err(NotOpened);
    }
    if !results_good(&mut r, head.count, head.status, numbers) {
        return Err(NotOpened);
    }
    Ok(Opened {
        status: head.status,
        first,
    })
}
