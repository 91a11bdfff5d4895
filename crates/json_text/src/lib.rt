// JSON's text, written after what a writer holds: every function is total, as the writer's are.
#![tactic(auto)]

ghost use Rattle.std.specs.Prelude.{◌≡◌, ◌∷◌, ◌++◌, ◌+◌, ◌*◌, ◌<◌, length, suc, unwrap_or, option_map};
ghost use Rattle.page.specs.Page.{Added};
ghost use Rattle.json_text.specs.Text.{quoted as quoted_text};
ghost use Rattle.json_text.specs.Utf8.{low as least, high as greatest, second as second_fits, tail as tail_fits, front as front_char};
ghost use Rattle.json_text.specs.Escape.{must as must_escape, hex_digit as digit_of, hex as hex_of, six as six_of, ascii_byte as ascii_of};
ghost use Rattle.json_text.specs.Escape.{escape as escape_from, hexes as hexes_of, first as first_of, left as left_of};

use page::Writer;

fn hex_digit(d: u8) -> u8
    requires { d < 16 }
    ensures { result ≡ digit_of d }
{
    if d < 10 { b'0' + d } else { b'a' + (d - 10) }
}

// A byte in two digits.
fn hex(w: &mut Writer<'_>, b: u8)
    ensures { Added w.old w.new 2 (λ rest. hex_of b ++ rest) }
{
    w.put(hex_digit(b / 16));
    w.put(hex_digit(b % 16));
}

// Bytes in hexadecimal.
pub fn hexes(w: &mut Writer<'_>, s: &[u8])
    ensures { Added w.old w.new (2 * length s.now) (λ rest. hexes_of s.now ++ rest) }
{
    for &b in s {
        hex(w, b);
    }
}

fn low(a: u8) -> u8
    ensures { result ≡ least a }
{
    match a {
        0xE0 => 0xA0,
        0xF0 => 0x90,
        _ => 0x80,
    }
}

fn high(a: u8) -> u8
    ensures { result ≡ greatest a }
{
    match a {
        0xED => 0x9F,
        0xF4 => 0x8F,
        _ => 0xBF,
    }
}

fn second(a: u8, b: u8) -> bool
    ensures { result ≡ second_fits a b }
{
    (low(a)..=high(a)).contains(&b)
}

fn tail(b: u8) -> bool
    ensures { result ≡ tail_fits b }
{
    matches!(b, 0x80..=0xBF)
}

// How many bytes follow the first in the character of UTF-8 that the text begins with; None where none does.
#[tactic(auto, using(crate::proofs::Leading::fronts))]
fn front(s: &[u8]) -> Option<usize>
    ensures { unwrap_or (option_map suc result) 0 ≡ front_char s.now }
{
    match s {
        &[0x00..=0x7F, ..] => Some(0),
        &[a @ 0xC2..=0xDF, b, ..] if second(a, b) => Some(1),
        &[a @ 0xE0..=0xEF, b, c, ..] if second(a, b) && tail(c) => Some(2),
        &[a @ 0xF0..=0xF4, b, c, d, ..] if second(a, b) && tail(c) && tail(d) => Some(3),
        _ => None,
    }
}

// The characters that RFC 8259 has escaped.
fn must(b: u8) -> bool
    ensures { result ≡ must_escape b }
{
    matches!(b, 0x00..=0x1F | b'"' | b'\\')
}

fn six(w: &mut Writer<'_>, b: u8)
    ensures { Added w.old w.new 6 (λ rest. six_of b ++ rest) }
{
    w.raw(b"\\u00");
    hex(w, b);
}

fn ascii_byte(w: &mut Writer<'_>, b: u8)
    ensures { Added w.old w.new 6 (λ rest. ascii_of b ++ rest) }
{
    if must(b) {
        six(w, b);
    } else {
        w.put(b);
    }
}

// The first byte of s, where so many bytes of a character are still to be kept; how many there are after it.
fn step(w: &mut Writer<'_>, s: &[u8], left: usize) -> usize
    requires { 0 < length s.now }
    ensures written { Added w.old w.new 6 (λ rest. first_of left s.now ++ rest) }
    ensures after { result ≡ left_of left s.now }
{
    if left > 0 {
        w.put(s[0]);
        return left - 1;
    }
    match front(s) {
        None => {
            w.raw(b"\xef\xbf\xbd");
            0
        }
        Some(0) => {
            ascii_byte(w, s[0]);
            0
        }
        Some(k) => {
            w.put(s[0]);
            k
        }
    }
}

// A string's text, without the marks around it: of any bytes.
pub fn escaped(w: &mut Writer<'_>, s: &[u8])
    ensures { Added w.old w.new (6 * length s.now) (λ rest. escape_from 0 s.now ++ rest) }
{
    let mut left = 0;
    for i in 0..s.len() {
        left = step(w, &s[i..], left);
    }
}

// A string's text with the marks around it.
pub fn string(w: &mut Writer<'_>, s: &[u8])
    ensures { Added w.old w.new (2 + 6 * length s.now) (quoted_text s.now) }
{
    w.put(b'"');
    escaped(w, s);
    w.put(b'"');
}
