// Numbers and bits of a message, and the sizes that the coding fixes. The `_in` forms require that the bytes are there and
// test nothing; the others read 0 past the end.
#![tactic(auto)]

ghost use Rattle.std.specs.Prelude.{◌≡◌, ◌+◌, ◌*◌, ◌/◌, ◌%◌, ◌^◌, ◌≤◌, ◌<◌, length, get_or, eqb};
ghost use Rattle.std.proofs.lemmas.List.Edits.{sets};
ghost use Rattle.coding.specs.Bytes as B;
ghost use Rattle.wire.specs.Numbers.{Number};
ghost use Rattle.wire.specs.Sizes.{HasOffset, Width};

// ---- sizes of the coding
// The width of an offset and of a length, in bytes: `o` in what follows. The coding of 48 bits, and the older one of 32.
pub const U48: usize = 6;

pub const U32: usize = 4;

// The width under the coding that a number names, 48 or 32. Any other number names none: no schema is lawful under its width, so
// that every answer is the refusal 1.
// Kept: the contracts of the exports name the width by `B.width_of`, which is 0 there.
pub fn width_of(coding: u32) -> usize
    ensures { result ≡ B.width_of coding }
{
    match coding {
        48 => U48,
        32 => U32,
        _ => 0,
    }
}

// The bytes of a magic.
pub const MAGIC: usize = 4;

// The bytes of a union's choice.
pub const CHOICE: usize = 2;

// The bytes of a union: its choice, and an offset or a length.
pub fn union_size(o: usize) -> usize
    requires { Width o }
    ensures { result ≡ 2 + o }
{
    CHOICE + o
}

// The bytes of the message's start: its magic, and the root's offset. No offset is less.
pub fn start_size(o: usize) -> usize
    requires { Width o }
    ensures { result ≡ 4 + o }
{
    MAGIC + o
}

// The bytes of the largest message, and of the largest sheet.
pub const LARGEST: usize = 16777215;

// ---- answers
// The member of an answer that is about none.
// Kept: the C interface has this number for none.
pub const NO_MEMBER: u32 = 4294967295;

// ---- bytes
pub fn byte(m: &[u8], at: usize) -> u8
    ensures { result ≡ get_or m.now at 0 }
{
    m.get(at).copied().unwrap_or(0)
}

pub fn byte_in(m: &[u8], at: usize) -> u8
    requires { at < length m.now }
    ensures { result ≡ get_or m.now at 0 }
{
    m[at]
}

pub fn wide(x: u8) -> u64
    ensures { (result ≡ x) × (result < 256) }
{
    u64::from(x)
}

pub fn index(x: u8) -> usize
    ensures { (result ≡ x) × (result < 256) }
{
    usize::from(x)
}

// ---- numbers whose bytes are there
// The number of W bytes.
pub fn number_in<const W: usize>(m: &[u8], at: usize) -> u64
    requires few { W ≤ 8 }
    requires inside { at + W ≤ length m.now }
    ensures { Number m.now at W result }
{
    let mut bytes = [0; 8];
    bytes[..W].copy_from_slice(&m[at..at + W]);
    u64::from_le_bytes(bytes)
}

pub fn u16_in(m: &[u8], at: usize) -> u64
    requires { at + 2 ≤ length m.now }
    ensures { Number m.now at 2 result }
{
    number_in::<2>(m, at)
}

pub fn u32_in(m: &[u8], at: usize) -> u64
    requires { at + 4 ≤ length m.now }
    ensures { Number m.now at 4 result }
{
    number_in::<4>(m, at)
}

pub fn u64_in(m: &[u8], at: usize) -> u64
    requires { at + 8 ≤ length m.now }
    ensures { Number m.now at 8 result }
{
    number_in::<8>(m, at)
}

// An offset or a length whose bytes are there.
pub fn offset_in(m: &[u8], at: usize, o: usize) -> usize
    requires { (Width o) × HasOffset o m.now at }
    ensures { (result ≡ B.le m.now at o) × (result < 2 ^ 48) }
{
    if o == U48 {
        return number_in::<U48>(m, at) as usize;
    }
    number_in::<U32>(m, at) as usize
}

// ---- numbers of any width up to 8 bytes, wherever they stand
fn bytes_of(m: &[u8], at: usize, w: usize) -> u64
    requires { (w ≤ 8) × (at + 8 < 18446744073709551616) }
    ensures { Number m.now at w result }
{
    let mut v: u64 = 0;
    for i in (0..w).rev() {
        v = v << 8 | u64::from(byte(m, at + i));
    }
    v
}

pub fn number(m: &[u8], at: usize, w: usize) -> u64
    requires { (w ≤ 8) × (at + 8 < 18446744073709551616) }
    ensures { Number m.now at w result }
{
    if m.len() < at + w {
        return bytes_of(m, at, w);
    }
    match w {
        8 => number_in::<8>(m, at),
        4 => number_in::<4>(m, at),
        2 => number_in::<2>(m, at),
        1 => number_in::<1>(m, at),
        _ => bytes_of(m, at, w),
    }
}

// ---- floats
// Whether the bits of a float of w bytes, 4 or 8, are a NaN.
pub fn is_nan(w: u8, x: u64) -> bool
    ensures { result ≡ B.is_nan w x }
{
    if w == 4 {
        return 0x7F80_0000 < x % 0x8000_0000;
    }
    0x7FF0_0000_0000_0000 < x % 0x8000_0000_0000_0000
}

// ---- bits, the lowest being 0
pub fn bit_value(x: u8, k: usize) -> u64
    requires { k < 8 }
    ensures { (result ≡ x / 2 ^ k % 2) × (result < 2) }
{
    u64::from(x) >> k & 1
}

pub fn bit_in(m: &[u8], at: usize, k: usize) -> bool
    requires { (at < length m.now) × (k < 8) }
    ensures { result ≡ eqb (B.bit_at m.now at k) 1 }
{
    bit_value(m[at], k) == 1
}

pub fn bit(m: &[u8], at: usize, k: usize) -> bool
    requires { k < 8 }
    ensures { result ≡ eqb (B.bit_at m.now at k) 1 }
{
    bit_value(byte(m, at), k) == 1
}

// The byte and the bit of a bool by its number.
pub fn eighth(i: usize) -> usize
    ensures { result ≡ i / 8 }
{
    i / 8
}

pub fn low_three(i: usize) -> usize
    ensures { (result ≡ i % 8) × (result < 8) }
{
    i % 8
}

// ---- stores
// The four lowest bytes of a number, lowest first, where there is room for them.
pub fn put_u32_in(out: &mut [u8], at: usize, x: usize)
    requires { (at < 2 ^ 62) × (at + 4 ≤ length out.old) }
    ensures { out.new ≡ sets out.old at (B.le_bytes 4 x) }
{
    let bytes = x.to_le_bytes();
    out[at..at + 4].copy_from_slice(&[bytes[0], bytes[1], bytes[2], bytes[3]]);
}
