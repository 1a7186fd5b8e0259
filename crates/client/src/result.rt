// Results, one at a time.
ghost use Rattle.std.specs.Prelude.{◌≡◌, None, Ok};
ghost use Rattle.xdr.specs.Reading.{parsed};
ghost use Rattle.rules.specs.Client.{result as result_at, step};
ghost use Rattle.client.specs.Read.{of_result, of_step};

use crate::body::ok_body;
use crate::reply::{Body, Fault, OpResult};
use xdr::Reader;

/// The result at the reader's place. Where its status is not OK, its body is empty.
// Inlined: by memory, its two numbers would be stored one by one and then loaded as one, which waits.
#[inline(always)]
#[tactic(auto, unfolding(rules::specs::Client::result))]
pub fn read_result(r: &mut Reader<'_>) -> Option<OpResult>
    ensures value { parsed (of_result r.old.bytes.now) result r.new.at ≡ result_at r.old.bytes.now r.old.at }
    ensures bytes { r.new.bytes ≡ r.old.bytes }
{
    let number = r.u32()?;
    let status = r.u32()?;
    let body = if status == 0 {
        ok_body(r, number)?
    } else {
        Body::Empty
    };
    Some(OpResult {
        number,
        status,
        body,
    })
}

/// What is handed out at the reader's place: a result, behind which the reader then stands; or nothing more.
#[tactic(auto, unfolding(rules::specs::Client::step))]
pub fn step(r: &mut Reader<'_>) -> Result<Option<OpResult>, Fault>
    ensures value { of_step r.old.bytes.now result r.new.at ≡ step r.old.bytes.now r.old.at }
    ensures done { result ≡ Ok None → r.new.at ≡ r.old.at }
    ensures bytes { r.new.bytes ≡ r.old.bytes }
{
    if r.bytes.len() <= r.at {
        return Ok(None);
    }
    let result = read_result(r).ok_or(Fault)?;
    Ok(Some(result))
}
