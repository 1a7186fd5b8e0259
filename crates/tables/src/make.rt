// Making an empty store.
ghost use Rattle.rules.specs.Calls.{MakePromise};
ghost use Rattle.tables.specs.Lent.{dimensions_of};
ghost use Rattle.tables.specs.Loans.{lent_store, KeepsLoan, refusal_told};

use crate::geometry::Dimensions;
use crate::lent::Lent;
use crate::refusal::Refusal;

/// Zeroes every table, or answers a refusal and leaves them as they are.
#[tactic(auto, unfolding(rules::specs::Calls::made_store, rules::specs::Store::empty_store, rules::specs::Store::good_lengths))]
pub fn make_empty(dimensions: Dimensions, lent: &mut Lent<'_>) -> Result<(), Refusal>
    ensures made { MakePromise (dimensions_of dimensions) (lent_store lent.old) (refusal_told result) (lent_store lent.new) }
    ensures lent { KeepsLoan lent.old lent.new }
{
    lent.seen().view(dimensions)?;
    lent.sizes.fill(0);
    lent.words.fill(0);
    lent.memory.fill(0);
    Ok(())
}
