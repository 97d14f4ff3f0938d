//! Looks at sixteen bytes of a text at a time.
ghost use Rattle.std.specs.Prelude.{◌≡◌, ◌↔◌, ◌≤◌, All, IsTrue, length, take};
ghost use Rattle.std.specs.Cmp.Lexicographic.{slice_cmp};
ghost use Rattle.std.specs.Ordering.{nat_cmp};
ghost use Rattle.memento_time.specs.Text.{IsCleanByte};

use std::cmp::Ordering;
use std::simd::prelude::*;

/// The bytes of a block.
pub(crate) const LANES: usize = 16;

/// Whether both texts begin with the same block.
#[inline(always)]
fn are_same_blocks(left: &[u8], right: &[u8]) -> bool
    requires left { LANES ≤ length left.now }
    requires right { LANES ≤ length right.now }
    ensures { IsTrue result ↔ (take LANES left.now ≡ take LANES right.now) }
{
    let differ = u8x16::from_slice(left).simd_ne(u8x16::from_slice(right));
    differ.to_bitmask() == 0
}

/// Whether two texts of one length are the same. The last block reaches back into the one before, so that no byte has
/// to be compared alone.
#[inline]
pub(crate) fn are_same_long(left: &[u8], right: &[u8]) -> bool
    requires long { LANES ≤ length left.now }
    requires same_length { length left.now ≡ length right.now }
    ensures { IsTrue result ↔ (left.now ≡ right.now) }
{
    let last = left.len() - LANES;
    let mut start = 0;
    while start < last {
        if !are_same_blocks(&left[start..], &right[start..]) {
            return false;
        }
        start += LANES;
    }
    are_same_blocks(&left[last..], &right[last..])
}

/// The order of the first sixteen bytes of two texts: that of the first bytes that differ.
#[inline(always)]
fn compare_blocks(left: &[u8], right: &[u8]) -> Ordering
    requires left { LANES ≤ length left.now }
    requires right { LANES ≤ length right.now }
    ensures { result ≡ slice_cmp nat_cmp (take LANES left.now) (take LANES right.now) }
{
    let differ = u8x16::from_slice(left).simd_ne(u8x16::from_slice(right));
    let mask = differ.to_bitmask();
    if mask == 0 {
        return Ordering::Equal;
    }
    let lane = mask.trailing_zeros() as usize;
    if left[lane] < right[lane] {
        Ordering::Less
    } else {
        Ordering::Greater
    }
}

/// The order of two texts of which neither is too short for a block. The last block reaches back into the one before,
/// so that no byte has to be compared alone.
#[inline]
fn compare_long(left: &[u8], right: &[u8]) -> Ordering
    requires left { LANES ≤ length left.now }
    requires right { LANES ≤ length right.now }
    ensures { result ≡ slice_cmp nat_cmp left.now right.now }
{
    let last = left.len().min(right.len()) - LANES;
    let mut start = 0;
    while start < last {
        let order = compare_blocks(&left[start..], &right[start..]);
        if order.is_ne() {
            return order;
        }
        start += LANES;
    }
    let order = compare_blocks(&left[last..], &right[last..]);
    order.then(left.len().cmp(&right.len()))
}

/// The order of two texts by their bytes.
#[inline]
pub(crate) fn compare(left: &[u8], right: &[u8]) -> Ordering
    ensures { result ≡ slice_cmp nat_cmp left.now right.now }
{
    if left.len() < LANES || right.len() < LANES {
        left.cmp(right)
    } else {
        compare_long(left, right)
    }
}

/// Whether the first sixteen bytes are clean.
#[inline(always)]
fn is_clean_block(text: &[u8]) -> bool
    requires { LANES ≤ length text.now }
    ensures { IsTrue result ↔ All IsCleanByte (take LANES text.now) }
{
    let block = u8x16::from_slice(text);
    let unclean = block.simd_lt(u8x16::splat(0x21))
        | block.simd_gt(u8x16::splat(0x7E))
        | block.simd_eq(u8x16::splat(b'"'))
        | block.simd_eq(u8x16::splat(b'<'))
        | block.simd_eq(u8x16::splat(b'>'));
    unclean.to_bitmask() == 0
}

/// Whether each byte is clean. The last block reaches back into the one before, so that no byte has to be tested alone.
#[inline]
pub(crate) fn are_clean_blocks(text: &[u8]) -> bool
    requires { LANES ≤ length text.now }
    ensures { IsTrue result ↔ All IsCleanByte text.now }
{
    let last = text.len() - LANES;
    let mut start = 0;
    while start < last {
        if !is_clean_block(&text[start..]) {
            return false;
        }
        start += LANES;
    }
    is_clean_block(&text[last..])
}
