// What a float is as a number (02, §2), exactly and within 64 bits.
ghost use Rattle.std.specs.Prelude.{◌≡◌, ◌*◌, ◌/◌, ◌%◌, ◌<◌, ◌≤◌, ◌^◌, eqb};
ghost use Rattle.std.proofs.Math.Option.{some};
ghost use Rattle.tree.specs.declared.Mode.TheVariants.{Ordinary};
ghost use Rattle.tree.specs.Keys.{only_if, whole, counts};
ghost use Rattle.tree.specs.code.Numbers.{valued, meant, Fit, Fits};

use crate::Mode;

// A whole number of any size, as its bytes are: the first of them as one number, then so many zero bytes.
#[derive(Clone, Copy)]
pub(crate) struct Spelled {
    pub(crate) head: usize,
    pub(crate) zeros: usize,
}

// The bit above a float's 52 written digits, which is not written.
const LEADING: usize = 0x10_0000_0000_0000;

// The float of these digits with the point before the last s of them, if it is whole.
fn pointed(digits: usize, s: usize) -> Option<Spelled>
    requires { (digits < 9007199254740992) × (s ≤ 52) }
    ensures { (meant result ≡ only_if (eqb (digits % 2 ^ s) 0) (digits / 2 ^ s)) × Fits result }
{
    let point = 1 << s;
    if digits % point == 0 {
        Some(Spelled {
            head: digits / point,
            zeros: 0,
        })
    } else {
        None
    }
}

// The float of these digits with s zero digits after them: 8 of them are a byte.
fn shifted(digits: usize, s: usize) -> Spelled
    requires { (4503599627370496 ≤ digits) × (digits < 9007199254740992) × (s < 1000) }
    ensures { (valued result ≡ digits * 2 ^ s) × Fit result }
{
    Spelled {
        head: digits << (s % 8),
        zeros: s / 8,
    }
}

// The float of these 64 bits, if it is a whole number. The exponent's field is 1023 for 1.0, 1075 where no digit stands behind the point,
// 2047 for an infinity.
pub(crate) fn float_of(b: usize) -> Option<Spelled>
    ensures { (meant result ≡ whole b) × Fits result }
{
    if b == 0 {
        return Some(Spelled { head: 0, zeros: 0 });
    }
    let field = b / LEADING;
    if field < 1023 || 2046 < field {
        return None;
    }
    let digits = LEADING + b % LEADING;
    if field <= 1075 {
        pointed(digits, 1075 - field)
    } else {
        Some(shifted(digits, field - 1075))
    }
}

fn is_i32(w: Spelled) -> bool
    requires { Fit w }
    ensures { result ≡ counts Ordinary (valued w) }
{
    w.zeros == 0 && w.head < 2147483648
}

// A float that is this whole number counts as the integer.
pub(crate) fn counts_in(mode: Mode, w: Spelled) -> bool
    requires { Fit w }
    ensures { result ≡ counts mode (valued w) }
{
    match mode {
        Mode::Ordinary => is_i32(w),
        Mode::Strict => true,
    }
}
