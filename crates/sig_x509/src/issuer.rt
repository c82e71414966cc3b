//! What issued a certificate: a trust anchor, or an intermediate.

/// A certificate that may have issued another, by its index.
#[derive(Clone, Copy, Debug, PartialEq, Eq)]
pub enum Issuer {
    /// The trust anchor at this index of the pool.
    Anchor(usize),
    /// The intermediate at this index: those of the pool, then those that come with the leaf.
    Intermediate(usize),
}
