//! Skips usual bytes, which make up most of a text, sixteen at a time.
ghost use Rattle.std.specs.Prelude.{◌≡◌, ◌<◌, ◌≤◌, ℕ, length, slice_index, true};
ghost use Rattle.link_format.specs.Bytes.{is_plain, is_target_byte, is_usual};
ghost use Rattle.link_format.specs.Scan.{first_lane, past};

use std::simd::prelude::*;

const LANES: usize = 16;

/// The lane of the lowest set bit, or the number of lanes if no bit is set.
#[inline(always)]
fn first_lane(mask: u64) -> usize
    ensures { result ≡ first_lane mask }
{
    if mask == 0 {
        LANES
    } else {
        mask.trailing_zeros() as usize
    }
}

/// How many of the first sixteen bytes come before the first that isn't usual.
#[inline(always)]
fn usual_run(text: &[u8]) -> usize
    requires { LANES ≤ length text.now }
    ensures within { result ≤ LANES }
    ensures usual { (k : ℕ) → k < result → is_usual (slice_index text.now k) ≡ true }
{
    let block = u8x16::from_slice(text);
    let unusual = block.simd_lt(u8x16::splat(b' '))
        | block.simd_eq(u8x16::splat(0x7f))
        | block.simd_eq(u8x16::splat(b'>'))
        | block.simd_eq(u8x16::splat(b'"'))
        | block.simd_eq(u8x16::splat(b'\\'));
    first_lane(unusual.to_bitmask())
}

/// Cuts usual bytes from the front, perhaps not all of them. The cut doesn't change what comes after the target bytes
/// at the front, nor what comes after the plain bytes at the front.
#[inline]
pub(crate) fn skip_usual(text: &[u8]) -> &[u8]
    ensures target { past is_target_byte result.now ≡ past is_target_byte text.now }
    ensures plain { past is_plain result.now ≡ past is_plain text.now }
{
    let mut rest = text;
    'usual: while rest.len() >= LANES {
        let run = usual_run(rest);
        let (_, after) = rest.split_at(run);
        rest = after;
        if run < LANES {
            break;
        }
    }
    rest
}
