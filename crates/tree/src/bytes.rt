// Numbers and fields, read out of bytes: 0 past the end, so no reader asks anything of its caller.
ghost use Rattle.std.specs.Prelude.{◌≡◌, ◌+◌, ◌<◌, ◌≤◌, length, get_or};
ghost use Rattle.tree.specs.Bytes.{stands_at, u16_at, u32_at, version_of, node_count, value_count, global_count, node_at, kind_at, role_at, size_at, begin_at, end_at, value_at, last_at};
ghost use Rattle.tree.specs.code.Offsets.{u64_at, Place};

// A byte; 0 past the end.
pub fn byte_at(s: &[u8], at: usize) -> usize
    ensures { (result ≡ get_or s.now at 0) × (result < 256) }
{
    match s.get(at) {
        Some(byte) => usize::from(*byte),
        None => 0,
    }
}

// The bytes from o on are these: the mark of a file and fixed names are compared alike.
pub(crate) fn bytes_are(t: &[u8], o: usize, name: &[u8]) -> bool
    requires { (length name.now < 65536) × (o < 4400000000) }
    ensures { result ≡ stands_at t.now o name.now }
{
    for (i, byte) in name.iter().enumerate() {
        if byte_at(t, o + i) != usize::from(*byte) {
            return false;
        }
    }
    true
}

// Kept: a reader for each size: each is one line over the next smaller one, and a loop over a size parameter would owe a law for each.
pub fn u16_at(s: &[u8], at: usize) -> usize
    ensures { (result ≡ u16_at s.now at) × (result < 65536) }
{
    if s.len() <= at {
        return 0;
    }
    byte_at(s, at) + 256 * byte_at(s, at + 1)
}

pub fn u32_at(s: &[u8], at: usize) -> usize
    ensures { (result ≡ u32_at s.now at) × (result < 4294967296) }
{
    if s.len() <= at {
        return 0;
    }
    u16_at(s, at) + 65536 * u16_at(s, at + 2)
}

pub(crate) fn u64_at(s: &[u8], at: usize) -> usize
    requires { at < 4300000009 }
    ensures { result ≡ u64_at s.now at }
{
    u32_at(s, at) + 4294967296 * u32_at(s, at + 4)
}

// The header's version and counts.
pub fn version_of(t: &[u8]) -> usize
    ensures { (result ≡ version_of t.now) × (result < 65536) }
{
    u16_at(t, 3)
}

pub fn node_count(t: &[u8]) -> usize
    ensures { (result ≡ node_count t.now) × (result < 65536) }
{
    u16_at(t, 5)
}

pub fn value_count(t: &[u8]) -> usize
    ensures { (result ≡ value_count t.now) × (result < 65536) }
{
    u16_at(t, 7)
}

pub fn global_count(t: &[u8]) -> usize
    ensures { (result ≡ global_count t.now) × (result < 65536) }
{
    u16_at(t, 9)
}

// Where node i starts; a place past the end, where the bytes end before it.
fn start_of(t: &[u8], i: usize) -> usize
    ensures { Place t.now (node_at i) result × (result ≤ length t.now + 27) }
{
    11 + 16 * i.min(t.len() / 16 + 1)
}

// Fields of node i.
pub fn kind_at(t: &[u8], i: usize) -> usize
    ensures { (result ≡ kind_at t.now i) × (result < 256) }
{
    byte_at(t, start_of(t, i))
}

pub fn role_at(t: &[u8], i: usize) -> usize
    ensures { (result ≡ role_at t.now i) × (result < 256) }
{
    byte_at(t, start_of(t, i) + 1)
}

pub fn size_at(t: &[u8], i: usize) -> usize
    ensures { (result ≡ size_at t.now i) × (result < 65536) }
{
    u16_at(t, start_of(t, i) + 2)
}

pub fn begin_at(t: &[u8], i: usize) -> usize
    ensures { (result ≡ begin_at t.now i) × (result < 4294967296) }
{
    u32_at(t, start_of(t, i) + 4)
}

pub fn end_at(t: &[u8], i: usize) -> usize
    ensures { (result ≡ end_at t.now i) × (result < 4294967296) }
{
    u32_at(t, start_of(t, i) + 8)
}

pub fn value_at(t: &[u8], i: usize) -> usize
    ensures { (result ≡ value_at t.now i) × (result < 65536) }
{
    u16_at(t, start_of(t, i) + 12)
}

pub(crate) fn last_at(t: &[u8], i: usize) -> usize
    ensures { (result ≡ last_at t.now i) × (result < 65536) }
{
    u16_at(t, start_of(t, i) + 14)
}

pub fn widen(x: u16) -> usize
    ensures { (result ≡ x) × (result < 65536) }
{
    usize::from(x)
}
