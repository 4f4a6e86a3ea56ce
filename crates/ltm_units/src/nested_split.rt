//! The laws of the nested split of an amount over parts.
//!
//! 5 over 3, 3, 4 gives 1, 1, 3: the first part takes `floor(5*3/10)`, the second `floor(4*3/7)` of what is left, and
//! the last takes the rest. Who splits takes `share_of` for each part in turn.
ghost use Rattle.ltm_units.specs.Nested.{SharesMakeTheAmount, SharesRise, WholeSplits};

/// The shares of a split sum to the amount, where some part is above 0 or the amount is 0.
pub fn shares_make_the_amount()
    ensures { SharesMakeTheAmount }
{}

/// No share falls as the amount rises.
pub fn shares_rise()
    ensures { SharesRise }
{}

/// The split of the sum of the parts is the parts.
pub fn whole_splits()
    ensures { WholeSplits }
{}
