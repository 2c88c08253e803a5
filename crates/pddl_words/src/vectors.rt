//! All code with vectors: what is to be known of 8 to 32 bytes, by a few operations on all of them together.
//!
//! Only this module names `std::simd`. Its functions take slices, and their contracts speak of bytes.
ghost use Rattle.std.specs.Prelude.{◌≡◌, ◌≤◌, ◌<◌, ℕ, length, map, slice_index, take, if◌then◌else◌};
ghost use Rattle.std.specs.Int.{bit_at};
ghost use Rattle.std.specs.List.{prefix_len};
ghost use Rattle.std.specs.Simd.Lanes.{mask_l, zip2};
ghost use Rattle.pddl_words.specs.JoinedBytes.{joined};
ghost use Rattle.pddl_words.specs.Pairs.{GoesOnTo, stops};
ghost use Rattle.pddl_words.specs.SpacedWords.{is_in_word};
ghost use Rattle.pddl_words.specs.SpecialBytes.{is_special};

use std::simd::prelude::*;

/// How many letters there are.
const LETTERS: u8 = 26;

/// How many of the 32 bytes behind the first go on as names, up to the first that does not. If each does, the answer is 64.
#[inline(always)]
pub fn names_len(list: &[u8]) -> usize
    requires { 32 < length list.now }
    ensures { GoesOnTo list.now result }
{
    let bytes = u8x32::from_slice(&list[1..]);
    let before = u8x32::from_slice(list);
    stops(before, bytes).trailing_zeros() as usize
}

/// Which bytes do not go on as names behind the bytes before them, by one bit each.
#[inline(always)]
fn stops(before: u8x32, bytes: u8x32) -> u64
    ensures { result ≡ mask_l (zip2 stops before bytes) }
{
    let letter = ((bytes | u8x32::splat(0x20)) - u8x32::splat(b'a')).simd_lt(u8x32::splat(LETTERS));
    let digit = (bytes - u8x32::splat(b'0')).simd_lt(u8x32::splat(10));
    let mark = bytes.simd_eq(u8x32::splat(b'-')) | bytes.simd_eq(u8x32::splat(b'_'));
    let space = bytes.simd_eq(u8x32::splat(b' '));
    let begins = before.simd_eq(u8x32::splat(b' ')) | before.simd_eq(u8x32::splat(b'('));
    let fine = letter | ((digit | mark | space) & !begins);
    (!fine).to_bitmask()
}

/// Which of the first 32 bytes are special, by one bit each.
#[inline(always)]
pub fn special_bits(bytes: &[u8]) -> u64
    requires { 32 ≤ length bytes.now }
    ensures bits { (k : ℕ) → k < 32 → bit_at result k ≡ (if is_special (slice_index bytes.now k) then 1 else 0) }
    ensures within { (k : ℕ) → bit_at result k ≡ 1 → k < 32 }
{
    special_lanes(u8x32::from_slice(bytes))
}

/// Which bytes are special, by one bit each.
#[inline(always)]
fn special_lanes(bytes: u8x32) -> u64
    ensures { result ≡ mask_l (map is_special bytes) }
{
    // `(` and `)` differ in their lowest bit alone.
    let parentheses = (bytes & u8x32::splat(0xfe)).simd_eq(u8x32::splat(b'('));
    let semicolons = bytes.simd_eq(u8x32::splat(b';'));
    // The bytes from the space to `~` are moved to 0 to 94.
    let unprinted = (bytes - u8x32::splat(b' ')).simd_gt(u8x32::splat(94));
    let line_ends = bytes.simd_eq(u8x32::splat(b'\n'));
    (parentheses | semicolons | (unprinted & !line_ends)).to_bitmask()
}

/// How many of the first 16 bytes there are before a space.
#[inline(always)]
pub(crate) fn front_of_16(row: &[u8]) -> usize
    requires { 16 ≤ length row.now }
    ensures run { result ≤ prefix_len is_in_word row.now }
    ensures within { result ≤ 16 }
{
    let spaces = u8x16::from_slice(row)
        .simd_eq(u8x16::splat(b' '))
        .to_bitmask();
    if spaces == 0 {
        16
    } else {
        spaces.trailing_zeros() as usize
    }
}

/// How many of the first 8 bytes there are before a space.
#[inline(always)]
pub(crate) fn front_of_8(row: &[u8]) -> usize
    requires { 8 ≤ length row.now }
    ensures run { result ≤ prefix_len is_in_word row.now }
    ensures within { result ≤ 8 }
{
    let spaces = u8x8::from_slice(row)
        .simd_eq(u8x8::splat(b' '))
        .to_bitmask();
    if spaces == 0 {
        8
    } else {
        spaces.trailing_zeros() as usize
    }
}

/// The number whose digits to the base 256 are the first eight bytes, the lowest first.
#[inline(always)]
pub(crate) fn eight(bytes: &[u8]) -> u64
    requires { 8 ≤ length bytes.now }
    ensures { result ≡ joined (take 8 bytes.now) }
{
    u64::from_le_bytes(u8x8::from_slice(bytes).to_array())
}
