// The sheet's bit cursor: numbers and whole bytes at any bit position of a list of bytes, most significant bit first. A
// position counts bits from the highest bit of the first byte.
#![tactic(auto)]

ghost use Rattle.std.specs.Prelude.{◌≡◌, ◌++◌, ◌+◌, ◌-◌, ◌*◌, ◌/◌, ◌%◌, ◌^◌, ◌≤◌, ◌<◌, length, take, drop, get_or, set};
ghost use Rattle.coding.specs.Bits.{bits_of, bits, value, pack};
ghost use Rattle.coding.specs.Sheet.{blob_bits};
ghost use Rattle.bitio.specs.Splice.{splice};
ghost use Rattle.bitio.specs.Puts.{Room, Puts};
ghost use Rattle.bitio.specs.Taken.{Run, TakenNumber, TakenBytes};

// ---- numbers got

// The eight bytes from i on, the highest first.
pub fn word(s: &[u8], i: usize) -> u64
    requires { i + 8 ≤ length s.now }
    ensures { Run s.now (8 * i) 64 result }
{
    u64::from_be_bytes(s[i..i + 8].try_into().unwrap())
}

// Bits of fewer than eight bytes: all of these as one number, out of which they are cut. It stands out of line, so that what reads
// by words stays small.
#[inline(never)]
fn get_few(s: &[u8], pos: usize, width: usize) -> u64
    requires width_bound { pos + width ≤ 8 * length s.now }
    requires few { length s.now < 8 }
    ensures { Run s.now pos width result }
{
    let mut v: u64 = 0;
    for b in s {
        v = v << 8 | u64::from(*b);
    }
    bits::low(v >> (8 * s.len() - pos - width), width)
}

// Up to 32 bits, by one word: the eight bytes from that of pos on, or the last eight.
fn get_short(s: &[u8], pos: usize, width: usize) -> u64
    requires width_bound { width ≤ 32 }
    requires width_bound_2 { pos + width ≤ 8 * length s.now }
    requires s_bound { (8 ≤ length s.now) × (8 * length s.now < 2 ^ 64) }
    ensures { Run s.now pos width result }
{
    if width == 0 {
        return 0;
    }
    let i = (pos >> 3).min(s.len() - 8);
    let k = 8 * (i + 8) - pos - width;
    bits::low(word(s, i) >> k, width)
}

// The number of `width` bits from pos on.
pub fn get(s: &[u8], pos: usize, width: usize) -> u64
    requires width_bound { width ≤ 64 }
    requires width_bound_2 { pos + width ≤ 8 * length s.now }
    requires s_bound { 8 * length s.now < 2 ^ 64 }
    ensures { Run s.now pos width result }
{
    if s.len() < 8 {
        return get_few(s, pos, width);
    }
    if width <= 32 {
        return get_short(s, pos, width);
    }
    let first = width - 32;
    get_short(s, pos, first) << 32 | get_short(s, pos + first, 32)
}

// A number taken at the cursor, and where the cursor goes on.
#[derive(Clone, Copy)]
pub struct Number {
    pub value: u64,
    pub next: usize,
}

// The number of `width` bits at the cursor; none where the bits are not left.
pub fn take_number(s: &[u8], pos: usize, width: usize) -> Option<Number>
    requires width_bound { width ≤ 64 }
    requires pos_bound { pos ≤ 8 * length s.now }
    requires s_bound { 8 * length s.now < 2 ^ 64 }
    ensures { TakenNumber s.now pos width result }
{
    if 8 * s.len() - pos < width {
        return None;
    }
    Some(Number {
        value: get(s, pos, width),
        next: pos + width,
    })
}

// ---- whole bytes got

// From a byte on.
// Kept: with `copy_from_slice` the archive would call `memmove`, and README says that it calls only `memcpy` and `memset`.
fn get_aligned(s: &[u8], i: usize, dst: &mut [u8])
    requires { i + length dst.old ≤ length s.now }
    ensures { dst.new ≡ pack (length dst.old) (drop (8 * i) (bits s.now)) }
{
    for (j, b) in dst.iter_mut().enumerate() {
        *b = s[i + j];
    }
}

// From within a byte on: a byte of two neighbours a turn.
fn get_across(s: &[u8], pos: usize, dst: &mut [u8])
    requires dst_bound { pos + 8 * length dst.old ≤ 8 * length s.now }
    requires nonzero { 0 < pos % 8 }
    ensures { dst.new ≡ pack (length dst.old) (drop pos (bits s.now)) }
{
    let k = 8 - bits::offset(pos);
    let first = pos >> 3;
    for (j, b) in dst.iter_mut().enumerate() {
        *b = bits::across(s[first + j], s[first + j + 1], k);
    }
}

// The bytes from pos on, as many as dst has.
pub fn get_bytes(s: &[u8], pos: usize, dst: &mut [u8])
    requires { pos + 8 * length dst.old ≤ 8 * length s.now }
    ensures { dst.new ≡ pack (length dst.old) (drop pos (bits s.now)) }
{
    if bits::offset(pos) == 0 {
        get_aligned(s, pos >> 3, dst);
        return;
    }
    get_across(s, pos, dst);
}

// n bytes at the cursor, passed over: where the cursor goes on; none where the bytes are not left.
pub fn skip_bytes(s: &[u8], pos: usize, n: usize) -> Option<usize>
    requires pos_bound { pos ≤ 8 * length s.now }
    requires s_bound { 8 * length s.now < 2 ^ 64 }
    ensures { TakenBytes s.now pos n result }
{
    if (8 * s.len() - pos) >> 3 < n {
        return None;
    }
    Some(pos + 8 * n)
}

// ---- numbers put

// n bits that lie in one byte.
fn put_in(out: &mut [u8], pos: usize, n: usize, x: u64)
    requires n_bound { pos + n ≤ 8 * length out.old }
    requires n_bound_2 { pos % 8 + n ≤ 8 }
    requires n_nonzero { 0 < n }
    requires x_bound { x < 2 ^ n }
    ensures { bits out.new ≡ splice (bits out.old) pos (bits_of n x) }
{
    let i = pos >> 3;
    let k = 8 - bits::offset(pos) - n;
    out[i] = bits::merge(u64::from(out[i]), n, k, x) as u8;
}

// The `width` low bits of v from a byte on; a byte a turn, and what is left.
fn put_aligned(out: &mut [u8], start: usize, width: usize, v: u64)
    requires width_bound { width < 64 }
    requires width_bound_2 { 8 * start + width ≤ 8 * length out.old }
    requires out_bound { 8 * length out.old < 2 ^ 64 }
    ensures { bits out.new ≡ splice (bits out.old) (8 * start) (bits_of width v) }
{
    let end = start + (width >> 3);
    let mut left = width;
    for i in start..end {
        left -= 8;
        out[i] = bits::last_byte(v >> left);
    }
    if 0 < left {
        put_in(out, 8 * end, left, bits::low(v, left));
    }
}

// Eight bytes of a number, the highest first.
fn put_word(out: &mut [u8], i: usize, v: u64)
    requires { i + 8 ≤ length out.old }
    ensures { bits out.new ≡ splice (bits out.old) (8 * i) (bits_of 64 v) }
{
    out[i..i + 8].copy_from_slice(&v.to_be_bytes());
}

// The n low bits of x behind the a high bits of a byte b.
fn behind(b: u64, a: usize, n: usize, x: u64) -> u64
    requires { (b < 2 ^ 8) × (a < 8) × (n < 64) × (a + n ≤ 64) }
    ensures { bits_of (a + n) result ≡ bits_of a (b / 2 ^ (8 - a)) ++ bits_of n x }
{
    b >> (8 - a) << n | bits::low(x, n)
}

// The same for any number of bits.
fn joined(b: u64, a: usize, n: usize, x: u64) -> u64
    requires { (b < 2 ^ 8) × (a < 8) × (a + n ≤ 64) }
    ensures { bits_of (a + n) result ≡ bits_of a (b / 2 ^ (8 - a)) ++ bits_of n x }
{
    if a == 0 {
        return x;
    }
    behind(b, a, n, x)
}

// The `width` low bits of v from pos on, where eight bytes at least end among them: the first of these by one store.
fn put_long(out: &mut [u8], pos: usize, width: usize, v: u64)
    requires width_bound { (width ≤ 64) × (64 ≤ pos % 8 + width) }
    requires width_bound_2 { pos + width ≤ 8 * length out.old }
    requires out_bound { 8 * length out.old < 2 ^ 64 }
    ensures { bits out.new ≡ splice (bits out.old) pos (bits_of width v) }
{
    let a = bits::offset(pos);
    let i = pos >> 3;
    let left = a + width - 64;
    let w = joined(u64::from(out[i]), a, 64 - a, v >> left);
    put_word(out, i, w);
    if 0 < left {
        put_in(out, 8 * (i + 8), left, bits::low(v, left));
    }
}

// All 64 bits of v from pos on.
pub fn put_eight(out: &mut [u8], pos: usize, v: u64)
    requires pos_bound { pos + 64 ≤ 8 * length out.old }
    requires out_bound { 8 * length out.old < 2 ^ 64 }
    ensures { bits out.new ≡ splice (bits out.old) pos (bits_of 64 v) }
{
    put_long(out, pos, 64, v);
}

// Fewer bits, by one store of the eight bytes from that of pos on; what stands behind them there is made 0. Of what was
// stored before only one byte is loaded: a load of all eight would wait for the last store.
fn put_zeroed(out: &mut [u8], pos: usize, width: usize, v: u64)
    requires { (0 < width) × (pos % 8 + width < 64) × (pos / 8 + 8 ≤ length out.old) }
    ensures { bits out.new ≡ splice (bits out.old) pos (bits_of width v ++ bits_of (64 - pos % 8 - width) 0) }
{
    let i = pos >> 3;
    let a = bits::offset(pos);
    let x = behind(u64::from(out[i]), a, width, v);
    put_word(out, i, x << (64 - a - width));
}

// The same in the last bytes, by the byte; nothing else is changed.
fn put_short(out: &mut [u8], pos: usize, width: usize, v: u64)
    requires width_bound { width ≤ 64 }
    requires width_bound_2 { pos + width ≤ 8 * length out.old }
    requires out_bound { 8 * length out.old < 2 ^ 64 }
    ensures { bits out.new ≡ splice (bits out.old) pos (bits_of width v) }
{
    if 0 < width {
        let n = bits::chunk(pos, width);
        let left = width - n;
        put_in(out, pos, n, bits::low(v >> left, n));
        if 0 < left {
            put_aligned(out, (pos >> 3) + 1, left, v);
        }
    }
}

// The `width` low bits of v from pos on.
fn put(out: &mut [u8], pos: usize, width: usize, v: u64)
    requires width_bound { width ≤ 64 }
    requires width_bound_2 { pos + width ≤ 8 * length out.old }
    requires out_bound { 8 * length out.old < 2 ^ 64 }
    ensures { bits out.new ≡ splice (bits out.old) pos (bits_of width v) }
{
    if 64 <= bits::offset(pos) + width {
        put_long(out, pos, width, v);
        return;
    }
    put_short(out, pos, width, v);
}

// ---- whole bytes put

// From a byte on.
// Kept: with `copy_from_slice` the archive would call `memmove`, as in `get_aligned`.
fn put_bytes_aligned(out: &mut [u8], start: usize, m: &[u8])
    requires { start + length m.now ≤ length out.old }
    ensures { bits out.new ≡ splice (bits out.old) (8 * start) (bits m.now) }
{
    for (j, &x) in m.iter().enumerate() {
        out[start + j] = x;
    }
}

// From within a byte on: the byte before and this one make a byte a turn, and the last one's low bits are left.
fn put_bytes_across(out: &mut [u8], pos: usize, m: &[u8])
    requires m_bound { pos + 8 * length m.now ≤ 8 * length out.old }
    requires nonzero { 0 < pos % 8 }
    requires out_bound { 8 * length out.old < 2 ^ 64 }
    ensures { bits out.new ≡ splice (bits out.old) pos (bits m.now) }
{
    let a = bits::offset(pos);
    let start = pos >> 3;
    let mut before = out[start] >> (8 - a);
    for (j, &x) in m.iter().enumerate() {
        out[start + j] = bits::across(before, x, a);
        before = x;
    }
    put_in(
        out,
        8 * (start + m.len()),
        a,
        bits::low(u64::from(before), a),
    );
}

// The bytes m from pos on.
pub fn put_bytes(out: &mut [u8], pos: usize, m: &[u8])
    requires m_bound { pos + 8 * length m.now ≤ 8 * length out.old }
    requires out_bound { 8 * length out.old < 2 ^ 64 }
    ensures { bits out.new ≡ splice (bits out.old) pos (bits m.now) }
{
    if bits::offset(pos) == 0 {
        put_bytes_aligned(out, pos >> 3, m);
        return;
    }
    put_bytes_across(out, pos, m);
}

// The last byte made 0, before a sheet's bits are put into a buffer that is as long as the sheet.
pub fn clear_last(out: &mut [u8])
    ensures { out.new ≡ set out.old (length out.old - 1) 0 }
{
    if let Some(last) = out.last_mut() {
        *last = 0;
    }
}

// ---- counted always, and stored where there is room
// The bits of the longest sheet, of 16,777,215 bytes. Where more would be written, a writer gives one more.
// Kept: `Puts`, by which all counting writers compose, says where the bits end as one count that saturates there.
const MOST: usize = 134217720;

// The w low bits of v; gives where the bits end.
pub fn write(out: &mut [u8], pos: usize, w: usize, v: u64) -> usize
    requires room { Room out.old pos }
    requires w_bound { w ≤ 64 }
    ensures { Puts out.old pos (bits_of w v) out.new result }
{
    if (pos >> 3) + 8 <= out.len() && bits::offset(pos) + w < 64 && 0 < w {
        put_zeroed(out, pos, w, v);
        return pos + w;
    }
    write_wide(out, pos, w, v)
}

// The same, for what is as wide as a word or stands in the last bytes.
pub fn write_wide(out: &mut [u8], pos: usize, w: usize, v: u64) -> usize
    requires room { Room out.old pos }
    requires w_bound { w ≤ 64 }
    ensures { Puts out.old pos (bits_of w v) out.new result }
{
    let end = pos + w;
    if MOST < end {
        return MOST + 1;
    }
    if end <= 8 * out.len() {
        put(out, pos, w, v);
    }
    end
}

// Whole bytes.
pub fn write_bytes(out: &mut [u8], pos: usize, s: &[u8]) -> usize
    requires { Room out.old pos }
    ensures { Puts out.old pos (bits s.now) out.new result }
{
    if MOST / 8 < s.len() {
        return MOST + 1;
    }
    let end = pos + 8 * s.len();
    if MOST < end {
        return MOST + 1;
    }
    if end <= 8 * out.len() {
        put_bytes(out, pos, s);
    }
    end
}

// A text or bytes: what of the n bytes from `at` the message has.
pub fn write_blob(m: &[u8], out: &mut [u8], pos: usize, at: usize, n: usize) -> usize
    requires { Room out.old pos }
    ensures { Puts out.old pos (blob_bits (take n (drop at m.now))) out.new result }
{
    let a = at.min(m.len());
    let k = n.min(m.len() - a);
    let p = write(out, pos, 32, k as u64);
    write_bytes(out, p, &m[a..a + k])
}
