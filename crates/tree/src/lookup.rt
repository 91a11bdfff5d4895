// The table of values as it is looked into: fixed names by their number, traits of a value, where it starts, globals.
// Cost: a walk over the values or the globals a call; the table of strings is 512 bytes, that of where values start 4 KiB, each filled once and
// read by value number.
ghost use Rattle.std.specs.Prelude.{◌≡◌, not, ◌<◌, ◌≤◌, min, eqb};
ghost use Rattle.tree.specs.Bytes.{node_count, value_count, global_count};
ghost use Rattle.tree.specs.Values.{value_from, offset};
ghost use Rattle.tree.specs.Table.{listed, table_of, named_so, underscored, a_string, is_global};
ghost use Rattle.tree.specs.code.Numbers.{number_named, Traits, Starts};

use crate::bytes::{byte_at, bytes_are, global_count, node_count, u16_at, value_count};
use crate::kinds::ValueKind;
use crate::values::offset_of;

// The count of globals that says that they are not given.
pub(crate) const NOT_GIVEN: usize = 65535;

// The value at o is the name of these bytes.
fn spelled_at(t: &[u8], o: usize, name: &[u8]) -> bool
    requires { o < 4300000000 }
    ensures { result ≡ named_so name.now (value_from t.now o) }
{
    byte_at(t, o) == ValueKind::Name as usize
        && u16_at(t, o + 1) == name.len()
        && bytes_are(t, o + 3, name)
}

// The number of the name of these bytes; 65536, which is no value's number, where the file has no such name.
// Kept: that number, and no Option: its contract's number_named has it, and so have the promises of the crates above.
pub fn number_of(t: &[u8], name: &[u8]) -> usize
    ensures { result ≡ number_named t.now name.now }
{
    let mut at = 11 + 16 * node_count(t);
    for v in 0..value_count(t) {
        if spelled_at(t, at, name) {
            return v;
        }
        at += 3 + u16_at(t, at + 1);
    }
    65536
}

// How many of the file's values a table of 512 holds.
pub(crate) fn few_values(t: &[u8]) -> usize
    ensures { result ≡ min (value_count t.now) 512 }
{
    value_count(t).min(512)
}

// Where each value starts; 0 past the last.
pub fn starts(t: &[u8]) -> [usize; 512]
    ensures { Starts t.now result }
{
    let mut table = [0usize; 512];
    let mut at = 11 + 16 * node_count(t);
    for v in 0..few_values(t) {
        table[v] = at;
        at += 3 + u16_at(t, at + 1);
    }
    table
}

// Value v is a name that begins with an underscore.
pub fn begins_underscore(t: &[u8], v: usize) -> bool
    ensures { result ≡ underscored (table_of t.now) v }
{
    if value_count(t) <= v {
        return false;
    }
    let o = offset_of(t, node_count(t), v);
    byte_at(t, o) == ValueKind::Name as usize
        && 1 <= u16_at(t, o + 1)
        && byte_at(t, o + 3) == usize::from(b'_')
}

// Value v, which starts at o, is a string.
fn string_at(t: &[u8], v: usize, o: usize) -> bool
    requires { (o < 4300000000) × (o ≡ offset t.now (node_count t.now) v) }
    ensures { result ≡ a_string (table_of t.now) v }
{
    v < value_count(t) && byte_at(t, o) == ValueKind::String as usize
}

// Which of the values below 512 are strings.
pub fn strings(t: &[u8]) -> [bool; 512]
    ensures { Traits (a_string (table_of t.now)) result }
{
    let mut table = [false; 512];
    let mut at = 11 + 16 * node_count(t);
    for v in 0..512 {
        table[v] = string_at(t, v, at);
        at += 3 + u16_at(t, at + 1);
    }
    table
}

pub fn globals_given(t: &[u8]) -> bool
    ensures { result ≡ not (eqb (global_count t.now) 65535) }
{
    global_count(t) != NOT_GIVEN
}

// How many globals a file lists, whose header has this number of them.
pub(crate) fn listed_of(g: usize) -> usize
    ensures { (result ≡ listed g) × (result ≤ g) }
{
    if g == NOT_GIVEN { 0 } else { g }
}

pub fn is_global(t: &[u8], v: usize) -> bool
    ensures { result ≡ is_global t.now v }
{
    let count = listed_of(global_count(t));
    let from = offset_of(t, node_count(t), value_count(t));
    for i in 0..count {
        if u16_at(t, from + 2 * i) == v {
            return true;
        }
    }
    false
}
