// The key test: 01's "Keys" and 02's §2 and §11, in both modes. Cost: for the table a walk over the values, and for each float that counts
// as an integer one search by halving; 5 KiB of stack for the 512 numbers and where the values start. A test looks into the table at most twice.
ghost use Rattle.std.specs.Prelude.{◌≡◌, ◌+◌, ◌<◌, ◌≤◌, min, get_or};
ghost use Rattle.std.proofs.Math.Option.{some};
ghost use Rattle.tree.specs.Bytes.{bytes_from, value_count};
ghost use Rattle.tree.specs.Values.{magnitude, value_from};
ghost use Rattle.tree.specs.Keys.{whole, counted};
ghost use Rattle.tree.specs.Table.{table_of};
ghost use Rattle.tree.specs.code.Halving.{halved};
ghost use Rattle.tree.specs.code.Numbers.{side_of, placed, short_of, lead, key_number, OwnNumbers, KeyNumbers, valued, Fit, Starts, like_by};

use crate::bytes::{byte_at, u16_at, u64_at};
use crate::floats::{Spelled, counts_in, float_of};
use crate::kinds::ValueKind;
use crate::lookup::{few_values, starts};
use crate::{Likeness, Mode};
use std::cmp::Ordering;

// The magnitude of the k bytes from o on, high byte first, where it is at most x; else x + 1.
fn leading(t: &[u8], k: usize, o: usize, x: usize) -> usize
    requires { (k < 65536) × (o < 4400000000) × (x < 1152921504606846976) }
    ensures { result ≡ min (magnitude (bytes_from k t.now o)) (x + 1) }
{
    let mut a = 0;
    for i in 0..k {
        if x / 256 < a {
            return x + 1;
        }
        a = a * 256 + byte_at(t, o + i);
    }
    a.min(x + 1)
}

// The magnitude of the k bytes from o on against w, byte by byte.
pub(crate) fn bytes_side(t: &[u8], k: usize, o: usize, w: Spelled) -> Ordering
    requires { (k < 65536) × (o < 4300000003) × Fit w }
    ensures { result ≡ side_of (valued w) (magnitude (bytes_from k t.now o)) }
{
    if k < w.zeros {
        return Ordering::Less;
    }
    let first = k - w.zeros;
    match leading(t, first, o, w.head).cmp(&w.head) {
        Ordering::Equal => leading(t, w.zeros, o + first, 0).cmp(&0),
        unlike => unlike,
    }
}

// The value at o against w: other kinds stand before the integers, or behind them.
fn value_side(t: &[u8], o: usize, w: Spelled) -> Ordering
    requires { (o < 4300000000) × Fit w }
    ensures { result ≡ placed (valued w) (value_from t.now o) }
{
    let kind = byte_at(t, o);
    if kind == ValueKind::Integer as usize {
        bytes_side(t, u16_at(t, o + 1), o + 3, w)
    } else {
        kind.cmp(&(ValueKind::Integer as usize))
    }
}

// By halving: the first of the n values that isn't below w; n where there is none.
// Kept: a `while`, and that n: its contract's `halved` is this search, step by step.
fn place(t: &[u8], starts: &[usize; 512], n: usize, w: Spelled) -> usize
    requires { Starts t.now starts.now × (n ≤ 512) × (n ≤ value_count t.now) × Fit w }
    ensures { (result ≡ halved n (short_of (table_of t.now) (valued w))) × (result ≤ n) }
{
    let mut lo = 0;
    let mut left = n;
    while 0 < left {
        let half = left / 2;
        if value_side(t, starts[lo + half], w).is_lt() {
            lo += half + 1;
            left -= half + 1;
        } else {
            left = half;
        }
    }
    lo
}

// The integer w among the values before v; v where there is none, which then stands for itself.
fn integer_number(t: &[u8], starts: &[usize; 512], v: usize, w: Spelled) -> usize
    requires { Starts t.now starts.now × (v < 512) × (v < value_count t.now) × Fit w }
    ensures { (result ≡ lead (table_of t.now) v (some (valued w))) × (result < 65536) }
{
    let p = place(t, starts, v, w);
    if value_side(t, starts[p], w).is_eq() {
        p
    } else {
        v
    }
}

// What stands for the float of these 64 bits, value v.
fn float_key(t: &[u8], starts: &[usize; 512], mode: Mode, v: usize, b: usize) -> usize
    requires { Starts t.now starts.now × (v < 512) × (v < value_count t.now) }
    ensures { (result ≡ lead (table_of t.now) v (counted mode (whole b))) × (result < 65536) }
{
    match float_of(b) {
        Some(w) if counts_in(mode, w) => integer_number(t, starts, v, w),
        _ => v,
    }
}

// What stands for value v.
fn key_at(t: &[u8], starts: &[usize; 512], mode: Mode, v: usize) -> usize
    requires { Starts t.now starts.now × (v < 512) × (v < value_count t.now) }
    ensures { (result ≡ key_number mode (table_of t.now) v) × (result < 65536) }
{
    let o = starts[v];
    if byte_at(t, o) == ValueKind::Float as usize && u16_at(t, o + 1) == 8 {
        float_key(t, starts, mode, v, u64_at(t, o + 3))
    } else {
        v
    }
}

// Each value number below 512, standing for itself.
fn own_numbers() -> [u16; 512]
    ensures { OwnNumbers result }
{
    let mut keys = [0u16; 512];
    for v in 0..512 {
        keys[v] = v as u16;
    }
    keys
}

// For each value number below 512 the number that stands for its key.
pub fn key_numbers(t: &[u8], mode: Mode) -> [u16; 512]
    ensures { KeyNumbers t.now mode result }
{
    let mut keys = own_numbers();
    let starts = starts(t);
    for v in 0..few_values(t) {
        keys[v] = key_at(t, &starts, mode, v) as u16;
    }
    keys
}

// The table's number for value v; 0 past its end. Equal keys have one number, whatever their forms.
pub fn entry_of(numbers: &[u16], v: usize) -> usize
    ensures { result ≡ get_or numbers.now v 0 }
{
    match numbers.get(v) {
        Some(number) => usize::from(*number),
        None => 0,
    }
}

// The key test of values a and b, by the table of key_numbers: a valid file has no value twice, so the same form is one value number.
pub fn like(numbers: &[u16], a: usize, b: usize) -> Likeness
    ensures { result ≡ like_by numbers.now a b }
{
    if a == b {
        Likeness::SameForm
    } else if entry_of(numbers, a) == entry_of(numbers, b) {
        Likeness::SameNumber
    } else {
        Likeness::Different
    }
}
