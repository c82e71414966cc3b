//! The order in which a table of accepted rows is searched. The last bytes of signature, message and key come first:
//! they tell most rows apart at once. Then come the parts, from the operation on. The message comes last, since it may
//! be long: it is compared only where all else is equal. For a certificate the key comes last, and its ending does not
//! count, so that all keys of one signature are side by side.
ghost use Rattle.std.specs.Prelude.{◌≡◌, Some, IfOk, slice_get, IsPermutation};
ghost use Rattle.std.specs.Option.{option_cmp};
ghost use Rattle.sig_base.specs.Checker.{operation_code};
ghost use Rattle.sig_base.specs.RowOrder.{ending, key_ending, leading, following, ending_order, group_order, row_order};
ghost use Rattle.sig_base.specs.RowOrder.{order_at, Ascends, IsOrderOf, IsGroupOf};

use crate::checker::{AcceptedRow, Operation};
use crate::memory::OutOfMemory;
use std::alloc::Global;
use std::cmp::Ordering;
use std::marker::Model;

/// The five parts of a row, borrowed. Contracts see the row.
#[derive(Drop)]
pub struct RowParts<'a> {
    pub(crate) operation: Operation,
    pub(crate) scheme: &'a [u8],
    pub(crate) key: &'a [u8],
    pub(crate) message: &'a [u8],
    pub(crate) signature: &'a [u8],
}

impl<'a> Model for RowParts<'a> {
    ghost use Rattle.sig_base.specs.declared.checker.AcceptedRow.{AcceptedRow};

    ghost Value = { AcceptedRow };

    ghost view = { λ p. record {
      operation = p.operation;
      scheme = p.scheme.now;
      key = p.key.now;
      message = p.message.now;
      signature = p.signature.now;
    } };
}

impl Operation {
    /// Returns the index of the operation among the four.
    #[inline(always)]
    fn code(self) -> u8
        ensures { result ≡ operation_code self }
    {
        match self {
            Operation::Message => 0,
            Operation::Prehash => 1,
            Operation::Point => 2,
            Operation::Certificate => 3,
        }
    }
}

impl<'a> RowParts<'a> {
    /// Returns the parts of a row.
    #[inline(always)]
    fn of(row: &'a AcceptedRow) -> RowParts<'a>
        ensures { result ≡ row.now }
    {
        RowParts {
            operation: row.operation,
            scheme: row.scheme.as_slice(),
            key: row.key.as_slice(),
            message: row.message.as_slice(),
            signature: row.signature.as_slice(),
        }
    }

    /// Compares two rows: by all parts except the following one, then by that one.
    #[tactic(auto, using(crate::proofs::Orderings::steps), unfolding(crate::specs::RowOrder::row_order))]
    #[inline(always)]
    fn order(&self, other: &RowParts<'_>) -> Ordering
        ensures { result ≡ row_order self.now other.now }
    {
        match self.group_order(other) {
            Ordering::Equal => self.following().cmp(other.following()),
            unequal => unequal,
        }
    }

    /// Compares two rows by all parts except the following one: the endings, operation, signature, scheme, the leading
    /// part.
    #[tactic(auto, using(crate::proofs::Orderings::steps), unfolding(crate::specs::RowOrder::group_order))]
    #[inline(always)]
    fn group_order(&self, other: &RowParts<'_>) -> Ordering
        ensures { result ≡ group_order self.now other.now }
    {
        match self.ending_order(other) {
            Ordering::Equal => {}
            unequal => return unequal,
        }
        match self.operation.code().cmp(&other.operation.code()) {
            Ordering::Equal => {}
            unequal => return unequal,
        }
        match self.signature.cmp(other.signature) {
            Ordering::Equal => {}
            unequal => return unequal,
        }
        match self.scheme.cmp(other.scheme) {
            Ordering::Equal => {}
            unequal => return unequal,
        }
        self.leading().cmp(other.leading())
    }

    /// Compares two rows by the endings of signature, message, key.
    #[tactic(auto, using(crate::proofs::Orderings::steps), unfolding(crate::specs::RowOrder::ending_order))]
    #[inline(always)]
    fn ending_order(&self, other: &RowParts<'_>) -> Ordering
        ensures { result ≡ ending_order self.now other.now }
    {
        match ending(self.signature).cmp(&ending(other.signature)) {
            Ordering::Equal => {}
            unequal => return unequal,
        }
        match ending(self.message).cmp(&ending(other.message)) {
            Ordering::Equal => {}
            unequal => return unequal,
        }
        self.key_ending().cmp(&other.key_ending())
    }

    /// Returns the ending of the key, 0 for a certificate, so that it does not separate the keys of one signature.
    #[tactic(auto, unfolding(crate::specs::RowOrder::key_ending))]
    #[inline(always)]
    fn key_ending(&self) -> u64
        ensures { result ≡ key_ending self.now.operation self.now.key }
    {
        match self.operation {
            Operation::Certificate => 0,
            Operation::Message | Operation::Prehash | Operation::Point => ending(self.key),
        }
    }

    /// Returns the one of message and key that is compared first: the message of a certificate, else the key.
    #[tactic(auto, unfolding(crate::specs::RowOrder::leading))]
    #[inline(always)]
    fn leading(&self) -> &[u8]
        ensures { result.now ≡ leading self.now }
    {
        match self.operation {
            Operation::Certificate => self.message,
            Operation::Message | Operation::Prehash | Operation::Point => self.key,
        }
    }

    /// Returns the other one of message and key.
    #[tactic(auto, unfolding(crate::specs::RowOrder::following))]
    #[inline(always)]
    fn following(&self) -> &[u8]
        ensures { result.now ≡ following self.now }
    {
        match self.operation {
            Operation::Certificate => self.key,
            Operation::Message | Operation::Prehash | Operation::Point => self.message,
        }
    }
}

/// The last four bytes as a number, 0 if there are fewer.
#[tactic(auto, unfolding(crate::specs::RowOrder::ending))]
#[inline(always)]
fn ending(bytes: &[u8]) -> u64
    ensures { result ≡ ending bytes.now }
{
    let length = bytes.len();
    if length < 4 {
        return 0;
    }
    let high = bytes[length - 4] as u64 * 256 + bytes[length - 3] as u64;
    (high * 256 + bytes[length - 2] as u64) * 256 + bytes[length - 1] as u64
}

/// Compares the row at an index with another row. An index that no row has comes first.
#[inline(always)]
pub fn order_to(rows: &[AcceptedRow], index: usize, other: &RowParts<'_>) -> Ordering
    ensures { result ≡ option_cmp row_order (slice_get rows.now index) (Some other.now) }
{
    match rows.get(index) {
        Some(row) => RowParts::of(row).order(other),
        None => Ordering::Less,
    }
}

/// Returns the indices whose rows tie with another row in all parts except the following one: for a certificate's row,
/// the rows that differ from it at most in the key. Two binary searches in the order of the rows.
pub fn group_of<'a>(rows: &[AcceptedRow], order: &'a [usize], other: &RowParts<'_>) -> &'a [usize]
    requires { IsOrderOf rows.now order.now }
    ensures { IsGroupOf rows.now order.now other.now result.now }
{
    let first = order.partition_point(|index| group_to(rows, *index, other).is_lt());
    let end = order.partition_point(|index| group_to(rows, *index, other).is_le());
    &order[first..end]
}

/// Compares the row at an index with another row by all parts except the following one. An index that no row has comes
/// first.
#[inline(always)]
fn group_to(rows: &[AcceptedRow], index: usize, other: &RowParts<'_>) -> Ordering
    ensures { result ≡ option_cmp group_order (slice_get rows.now index) (Some other.now) }
{
    match rows.get(index) {
        Some(row) => RowParts::of(row).group_order(other),
        None => Ordering::Less,
    }
}

/// Sorts indices by their rows.
pub fn put_in_order(rows: &[AcceptedRow], order: &mut Vec<usize>)
    ensures moved { IsPermutation order.old.items order.new.items }
    ensures ascends { Ascends rows.now order.new.items }
{
    order.sort_unstable_by(|one, other| order_between(rows, *one, *other));
}

/// Compares the rows at two indices. An index that no row has comes first.
#[inline(always)]
fn order_between(rows: &[AcceptedRow], one: usize, other: usize) -> Ordering
    ensures { result ≡ order_at rows.now one other }
{
    match rows.get(other) {
        Some(other) => order_to(rows, one, &RowParts::of(other)),
        None => match rows.get(one) {
            Some(_) => Ordering::Greater,
            None => Ordering::Equal,
        },
    }
}

/// Returns the indices of all rows in the order of the rows. Fails only if out of memory.
pub fn order_of(alloc: Global, rows: &[AcceptedRow]) -> Result<Vec<usize>, OutOfMemory>
    ensures { IfOk result (λ order. IsOrderOf rows.now order.items) }
{
    let mut order = Vec::new(alloc);
    for index in 0..rows.len() {
        order.push(index)?;
    }
    put_in_order(rows, &mut order);
    Ok(order)
}
