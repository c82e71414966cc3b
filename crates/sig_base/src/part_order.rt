//! Accepted rows in the order of one of their parts: so a binary search finds whether some row has it.
ghost use Rattle.std.specs.Prelude.{◌≡◌, IfOk, IsPermutation, Some};
ghost use Rattle.std.specs.Option.{option_cmp};
ghost use Rattle.sig_base.specs.PartOrder.{AreOrders, Ascends, IsOrderBy, bytes_cmp, has_part, order_at, part_at, part_of};

use crate::checker::AcceptedRow;
use crate::memory::OutOfMemory;
use std::alloc::Global;
use std::cmp::Ordering;

/// A part of an accepted row.
#[derive(Clone, Copy)]
pub enum RowPart {
    /// The key, or the point.
    Key,
    /// The message, or its digest.
    Message,
    /// The signature.
    Signature,
}

/// The indices of all rows in the order of each of their parts.
#[derive(Drop)]
pub struct PartOrders {
    keys: Vec<usize>,
    messages: Vec<usize>,
    signatures: Vec<usize>,
}

impl PartOrders {
    /// Returns the orders of these rows. Fails only if out of memory.
    pub fn of(alloc: Global, rows: &[AcceptedRow]) -> Result<PartOrders, OutOfMemory>
        ensures { IfOk result (AreOrders rows.now) }
    {
        Ok(PartOrders {
            keys: order_by(alloc, rows, RowPart::Key)?,
            messages: order_by(alloc, rows, RowPart::Message)?,
            signatures: order_by(alloc, rows, RowPart::Signature)?,
        })
    }

    /// Whether some row has these bytes as this part.
    pub fn has(&self, rows: &[AcceptedRow], part: RowPart, bytes: &[u8]) -> bool
        requires { AreOrders rows.now self.now }
        ensures { result ≡ has_part part rows.now bytes.now }
    {
        match part {
            RowPart::Key => is_found(rows, self.keys.as_slice(), RowPart::Key, bytes),
            RowPart::Message => is_found(rows, self.messages.as_slice(), RowPart::Message, bytes),
            RowPart::Signature => {
                is_found(rows, self.signatures.as_slice(), RowPart::Signature, bytes)
            }
        }
    }
}

/// Whether some row has these bytes as this part: the same, row by row.
pub fn some_row_has(rows: &[AcceptedRow], part: RowPart, bytes: &[u8]) -> bool
    ensures { result ≡ has_part part rows.now bytes.now }
{
    rows.iter().any(|row| part_of(row, part) == bytes)
}

#[inline(always)]
fn part_of(row: &AcceptedRow, part: RowPart) -> &[u8]
    ensures { result.now ≡ part_of part row.now }
{
    match part {
        RowPart::Key => row.key.as_slice(),
        RowPart::Message => row.message.as_slice(),
        RowPart::Signature => row.signature.as_slice(),
    }
}

/// Returns the indices of all rows in the order of a part. Fails only if out of memory.
fn order_by(alloc: Global, rows: &[AcceptedRow], part: RowPart) -> Result<Vec<usize>, OutOfMemory>
    ensures { IfOk result (λ order. IsOrderBy part rows.now order.items) }
{
    let mut order = Vec::new(alloc);
    for index in 0..rows.len() {
        order.push(index)?;
    }
    put_in_order(rows, part, &mut order);
    Ok(order)
}

/// Sorts indices by a part of their rows.
fn put_in_order(rows: &[AcceptedRow], part: RowPart, order: &mut Vec<usize>)
    ensures moved { IsPermutation order.old.items order.new.items }
    ensures ascends { Ascends part rows.now order.new.items }
{
    order.sort_unstable_by(|one, other| order_between(rows, part, *one, *other));
}

/// Compares a part of the rows at two indices. An index that no row has comes first.
#[inline(always)]
fn order_between(rows: &[AcceptedRow], part: RowPart, one: usize, other: usize) -> Ordering
    ensures { result ≡ order_at part rows.now one other }
{
    match rows.get(other) {
        Some(other) => order_to(rows, part, one, part_of(other, part)),
        None => match rows.get(one) {
            Some(_) => Ordering::Greater,
            None => Ordering::Equal,
        },
    }
}

/// Compares a part of the row at an index with bytes. An index that no row has comes first.
#[inline(always)]
fn order_to(rows: &[AcceptedRow], part: RowPart, index: usize, bytes: &[u8]) -> Ordering
    ensures { result ≡ option_cmp bytes_cmp (part_at part rows.now index) (Some bytes.now) }
{
    match rows.get(index) {
        Some(row) => part_of(row, part).cmp(bytes),
        None => Ordering::Less,
    }
}

/// Whether some row has these bytes as this part: a binary search in the order of the part.
fn is_found(rows: &[AcceptedRow], order: &[usize], part: RowPart, bytes: &[u8]) -> bool
    requires { IsOrderBy part rows.now order.now }
    ensures { result ≡ has_part part rows.now bytes.now }
{
    order
        .binary_search_by(|index| order_to(rows, part, *index, bytes))
        .is_ok()
}
