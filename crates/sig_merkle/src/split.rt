//! Where a tree is cut in two.
ghost use Rattle.std.specs.Prelude.{◌<◌};
ghost use Rattle.sig_merkle.specs.Split.{IsSplit};

/// Returns the largest power of two below the size (RFC 6962 section 2.1).
pub(crate) fn split_point(size: u64) -> u64
    requires { 1 < size }
    ensures { IsSplit size result }
{
    1 << (size - 1).ilog2()
}
