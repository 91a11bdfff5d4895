// The table of values: refusal 5.
ghost use Rattle.std.specs.Prelude.{◌≡◌, ◌+◌, ◌*◌, ◌<◌, ◌≤◌};
ghost use Rattle.tree.specs.Values.{offset};
ghost use Rattle.tree.specs.declared.Refusal.TheVariants.{Value};
ghost use Rattle.tree.specs.code.Stages.{bad5, names_of, Judges};
ghost use Rattle.tree.specs.code.Offsets.{formed_at, bytes_less, ordered_at, integer_ok, float_ok};

use crate::Refusal;
use crate::bytes::{byte_at, u16_at, u64_at};
use crate::kinds::ValueKind;

// The bits of an infinity: no float but the NaNs is above it, by its bits.
const INFINITY: usize = 0x7ff0_0000_0000_0000;

// 5: form and order.
fn integer_ok(t: &[u8], o: usize) -> bool
    requires { o < 34000000 }
    ensures { result ≡ integer_ok t.now o }
{
    let len = u16_at(t, o + 1);
    len <= 64 && (len == 0 || byte_at(t, o + 3) != 0)
}

fn float_ok(t: &[u8], o: usize) -> bool
    requires { o < 34000000 }
    ensures { result ≡ float_ok t.now o }
{
    u16_at(t, o + 1) == 8 && u64_at(t, o + 3) <= INFINITY
}

#[tactic(auto, unfolding(crate::specs::code::Offsets::formed_at))]
fn formed_at(t: &[u8], o: usize) -> bool
    requires { o < 34000000 }
    ensures { result ≡ formed_at t.now o }
{
    let len = u16_at(t, o + 1);
    let kind = byte_at(t, o);
    if len > 255 {
        false
    } else if kind == ValueKind::Name as usize {
        1 <= len
    } else if kind == ValueKind::Integer as usize {
        integer_ok(t, o)
    } else if kind == ValueKind::Float as usize {
        float_ok(t, o)
    } else {
        kind <= ValueKind::Bytes as usize
    }
}

fn bytes_less(t: &[u8], k: usize, a: usize, b: usize) -> bool
    requires { (k < 65536) × (a < 34000009) × (b < 34000009) }
    ensures { result ≡ bytes_less k t.now a b }
{
    for i in 0..k {
        let x = byte_at(t, a + i);
        let y = byte_at(t, b + i);
        if x != y {
            return x < y;
        }
    }
    false
}

#[tactic(auto, unfolding(crate::specs::code::Offsets::ordered_at))]
fn in_order(t: &[u8], a: usize, b: usize) -> bool
    requires { (a < 34000000) × (b < 34000000) }
    ensures { result ≡ ordered_at t.now a b }
{
    let ka = byte_at(t, a);
    let kb = byte_at(t, b);
    if ka != kb {
        return ka < kb;
    }
    let la = u16_at(t, a + 1);
    let lb = u16_at(t, b + 1);
    if la != lb {
        return la < lb;
    }
    bytes_less(t, la, a + 3, b + 3)
}

// Where value v starts; where the values end, if v is their number.
pub(crate) fn offset_of(t: &[u8], n: usize, v: usize) -> usize
    requires { (n < 65536) × (v < 65536) }
    ensures { (result ≡ offset t.now n v) × (result ≤ 11 + 16 * n + 65538 * v) }
{
    let mut at = 11 + 16 * n;
    for _i in 0..v {
        at += 3 + u16_at(t, at + 1);
    }
    at
}

// The first value whose form or order is wrong is refused.
pub(crate) fn check_values(t: &[u8], n: usize, nv: usize) -> Result<(), Refusal>
    requires { (n ≤ 1024) × (nv ≤ 512) }
    ensures { Judges Value nv (bad5 t.now n) result }
{
    let mut before = 0;
    let mut at = 11 + 16 * n;
    for i in 0..nv {
        if !formed_at(t, at) || 0 < i && !in_order(t, before, at) {
            return Err(Refusal::Value(i));
        }
        before = at;
        at += 3 + u16_at(t, at + 1);
    }
    Ok(())
}

// How many names the values begin with.
pub(crate) fn count_names(t: &[u8], n: usize, nv: usize) -> usize
    requires { (n ≤ 1024) × (nv ≤ 512) }
    ensures { result ≡ names_of t.now n nv }
{
    let mut at = 11 + 16 * n;
    for i in 0..nv {
        if byte_at(t, at) != ValueKind::Name as usize {
            return i;
        }
        at += 3 + u16_at(t, at + 1);
    }
    nv
}
