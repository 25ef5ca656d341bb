//! The laws of one step of a bid, as one value that the lemmas of the line take.

ghost use Rattle.bsc_line_model.specs.BidLaws.{BidLaws};

use bsc_bid::laws::each_step;

/// States what each single step of a bid keeps.
pub(crate) fn bid_laws()
    ensures { BidLaws }
{
    each_step();
}
