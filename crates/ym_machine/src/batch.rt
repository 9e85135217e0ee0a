//! What the laws leave open of a batch.

/// A kind of batch: what block 0 of each of its files carries. The laws ask nothing of it, so they
/// hold for any header; who cites one names its own, by a type that implements this trait.
pub trait Batch {
    /// The type of the headers, in the words of contracts.
    ghost Header: { Type 0 };
}
