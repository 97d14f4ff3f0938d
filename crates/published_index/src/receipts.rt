//! Receipts, which mergers give and gates learn.
use crate::marks::Mark;
use std::marker::Model;

/// The list of batches that was published when the receipt was made, for a gate to learn. Only contracts know the list:
/// when the program runs, a receipt is a single number.
#[derive(Drop)]
pub struct Receipt {
    pub(crate) mark: Mark,
}

impl Model for Receipt {
    ghost use Rattle.published_index.specs.Marks.{successes};
    ghost use Rattle.published_index.specs.Passes.{opening_of};
    ghost use Rattle.published_index.specs.Views.{ReceiptView};
    ghost use Rattle.std.specs.Coded.{codes};
    ghost use Rattle.memento_index.specs.contracts.merge.Merge as merge;

    ghost Value = { ReceiptView };

    ghost coded = { Prim.hlevel (codes, merge.the_row.coded) };

    ghost view = { λ r. record { opening = opening_of r.mark.seen.book; batches = successes r.mark.seen.log } };
}
