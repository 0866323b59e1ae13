//! Finds the bytes that a JSON string contains without escapes.
ghost use Rattle.std.specs.Prelude.{◌≡◌, ◌≤◌, length, drop, map};
ghost use Rattle.std.specs.List.{list_all};
ghost use Rattle.std.specs.Simd.Lanes.{mask_l};
ghost use Rattle.json.specs.Run.{is_stop};
ghost use Rattle.drf_lines.specs.Written.{is_plain_byte, ArePlainFrom};

use std::simd::prelude::*;

/// Returns a bit mask of the bytes that need an escape, for 16 bytes.
#[inline(always)]
fn stops_16(bytes: u8x16) -> u64
    ensures { result ≡ mask_l (map is_stop bytes) }
{
    (bytes.simd_eq(u8x16::splat(b'"'))
        | bytes.simd_eq(u8x16::splat(b'\\'))
        | bytes.simd_lt(u8x16::splat(32))).to_bitmask()
}

/// Returns the same mask for 8 bytes.
#[inline(always)]
fn stops_8(bytes: u8x8) -> u64
    ensures { result ≡ mask_l (map is_stop bytes) }
{
    (bytes.simd_eq(u8x8::splat(b'"'))
        | bytes.simd_eq(u8x8::splat(b'\\'))
        | bytes.simd_lt(u8x8::splat(32))).to_bitmask()
}

#[inline(always)]
fn is_plain_byte(byte: u8) -> bool
    ensures { result ≡ is_plain_byte byte }
{
    (byte >= 32) & ((byte != b'"') & (byte != b'\\'))
}

/// Returns whether no byte from `from` on needs an escape; it tests byte by byte.
fn is_plain_slowly(bytes: &[u8], from: usize) -> bool
    requires { from ≤ length bytes.now }
    ensures { result ≡ list_all is_plain_byte (drop from bytes.now) }
{
    let mut i = from;
    while i < bytes.len() {
        if !is_plain_byte(bytes[i]) {
            return false;
        }
        i += 1;
    }
    true
}

/// Returns the same as `is_plain_slowly`, for fewer than 16 bytes.
fn is_plain_end(bytes: &[u8], from: usize) -> bool
    requires { from ≤ length bytes.now }
    ensures { result ≡ list_all is_plain_byte (drop from bytes.now) }
{
    if bytes.len() - from < 8 {
        return is_plain_slowly(bytes, from);
    }
    if stops_8(u8x8::from_slice(&bytes[from..])) != 0 {
        return false;
    }
    is_plain_slowly(bytes, from + 8)
}

/// Returns whether a JSON string contains the text without escapes.
pub fn is_plain(text: &str) -> bool
    ensures { result ≡ list_all is_plain_byte text.now }
{
    let bytes = text.as_bytes();
    let mut i = 0;
    while bytes.len() - i >= 16 {
        if stops_16(u8x16::from_slice(&bytes[i..])) != 0 {
            return false;
        }
        i += 16;
    }
    is_plain_end(bytes, i)
}

/// Returns the end of the bytes from `from` on that need no escape; it tests byte by byte.
fn plain_end_slowly(bytes: &[u8], from: usize) -> usize
    requires { from ≤ length bytes.now }
    ensures bound { (from ≤ result) × (result ≤ length bytes.now) }
    ensures plain { ArePlainFrom bytes.now from result }
{
    let mut i = from;
    while i < bytes.len() && is_plain_byte(bytes[i]) {
        i += 1;
    }
    i
}

/// Returns the same as `plain_end_slowly`, but tests 16 bytes at once.
#[inline(always)]
pub fn plain_end(bytes: &[u8], from: usize) -> usize
    requires { from ≤ length bytes.now }
    ensures bound { (from ≤ result) × (result ≤ length bytes.now) }
    ensures plain { ArePlainFrom bytes.now from result }
{
    let mut i = from;
    while bytes.len() - i >= 16 {
        let found = stops_16(u8x16::from_slice(&bytes[i..]));
        if found != 0 {
            return i + found.trailing_zeros() as usize;
        }
        i += 16;
    }
    plain_end_slowly(bytes, i)
}
