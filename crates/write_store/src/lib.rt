// Stores into a message, and the places where it goes on.
#![tactic(auto)]

ghost use Rattle.std.specs.Prelude.{◌≡◌, ℕ, ◌+◌, ◌-◌, ◌*◌, ◌%◌, ◌<◌, ◌≤◌, ◌^◌, length, take, drop, set, replicate};
ghost use Rattle.std.proofs.lemmas.List.Edits.{sets};
ghost use Rattle.coding.specs.Bytes as B;
ghost use Rattle.coding.specs.Bits.{bits, value, pack};
ghost use Rattle.coding.specs.Message as M;
ghost use Rattle.wire.specs.Sizes.{Width};
ghost use Rattle.write_store.specs.State as St;
ghost use Rattle.write_store.specs.Storing as Sg;
ghost use Rattle.write_store.specs.Storing.{state_of, HeldOk, BitPut, Stood};

// Where the message goes on: the next byte of the present sequence; its last bool byte, how many bits are free there, and
// what the byte holds so far; where the next content in place starts, and where the next object does.
#[derive(Clone, Copy)]
pub struct Places {
    pub at: usize,
    pub last: usize,
    pub free: usize,
    pub held: usize,
    pub tail: usize,
    pub next: usize,
}

// ---- stores into the message; what lies past the buffer is not stored
// One byte.
fn store_byte(out: &mut [u8], i: usize, x: u8)
    ensures { out.new ≡ set out.old i x }
{
    if i < out.len() {
        out[i] = x;
    }
}

// What of the w bytes of a number lies in the buffer, lowest first. Out of line, so that loops over numbers keep their registers.
#[cold]
#[inline(never)]
fn store_cut(out: &mut [u8], at: usize, w: usize, x: u64)
    requires { (at < 2 ^ 61) × (w ≤ 8) }
    ensures { out.new ≡ sets out.old at (B.le_bytes w x) }
{
    let end = out.len().min(at + w);
    if at < end {
        out[at..end].copy_from_slice(&x.to_le_bytes()[..end - at]);
    }
}

// The W bytes of a number, lowest first, that all stand in the buffer. The width is a constant, so that the compiler makes one
// store of them, or two of six.
fn store_whole<const W: usize>(out: &mut [u8], at: usize, x: u64)
    requires { (W ≤ 8) × (at < 2 ^ 61) × (at + W ≤ length out.old) }
    ensures { out.new ≡ sets out.old at (B.le_bytes W x) }
{
    out[at..at + W].copy_from_slice(&x.to_le_bytes()[..W]);
}

// The w bytes of a number, lowest first.
pub fn store_number(out: &mut [u8], at: usize, w: usize, x: u64)
    requires { (at < 2 ^ 61) × (w ≤ 8) }
    ensures { out.new ≡ sets out.old at (B.le_bytes w x) }
{
    if out.len() < at + w {
        store_cut(out, at, w, x);
        return;
    }
    match w {
        8 => store_whole::<8>(out, at, x),
        6 => store_whole::<6>(out, at, x),
        4 => store_whole::<4>(out, at, x),
        2 => store_whole::<2>(out, at, x),
        1 => store_whole::<1>(out, at, x),
        _ => store_cut(out, at, w, x),
    }
}

// The o bytes of an offset, lowest first. It says what `store_number` says, and tests nothing but the two widths, for speed.
fn store_offset(out: &mut [u8], at: usize, o: usize, x: u64)
    requires { (Width o) × (at < 2 ^ 61) }
    ensures { out.new ≡ sets out.old at (B.le_bytes o x) }
{
    if out.len() < at + o {
        store_cut(out, at, o, x);
        return;
    }
    if o == wire::U48 {
        store_whole::<6>(out, at, x);
        return;
    }
    store_whole::<4>(out, at, x);
}

// Zero bytes, as many as dst has.
fn clear(dst: &mut [u8])
    ensures { dst.new ≡ replicate (length dst.old) 0 }
{
    for byte in dst.iter_mut() {
        *byte = 0;
    }
}

// n zero bytes.
fn store_zeros(out: &mut [u8], at: usize, n: usize)
    requires { (at < 2 ^ 61) × (n < 2 ^ 40) }
    ensures { out.new ≡ sets out.old at (replicate n 0) }
{
    let end = out.len().min(at + n);
    if at < end {
        clear(&mut out[at..end]);
    }
}

// n bytes of the sheet.
pub fn store_copy(s: &[u8], pos: usize, out: &mut [u8], at: usize, n: usize)
    requires { (length s.now ≤ 16777215) × (pos + 8 * n ≤ 8 * length s.now) × (at < 2 ^ 61) }
    ensures { out.new ≡ sets out.old at (pack n (drop pos (bits s.now))) }
{
    let end = out.len().min(at + n);
    if at < end {
        bitio::get_bytes(s, pos, &mut out[at..end]);
    }
}

// The bit x at place k of a bool byte.
fn bit_at(x: usize, k: usize) -> usize
    requires { (x < 2) × (k < 8) }
    ensures { (result ≡ x * 2 ^ k) × (result ≤ 2 ^ k) }
{
    x << k
}

// A bit into a new byte, or into the last bool byte.
// Kept: a bit is the number 0 or 1 and no bool, as in `St.put_bit` and in the sheet that it comes from.
pub fn put_bit(out: &mut [u8], c: Places, x: usize) -> Places
    requires { (x < 2) × HeldOk c × (c.at < 2 ^ 61) }
    ensures { BitPut (St.put_bit x (state_of c out.old)) (state_of result out.new) c result }
{
    if c.free == 0 {
        store_byte(out, c.at, x as u8);
        return Places {
            at: c.at + 1,
            last: c.at,
            free: 7,
            held: x,
            ..c
        };
    }
    let held = c.held + bit_at(x, 8 - c.free);
    store_byte(out, c.last, held as u8);
    Places {
        free: c.free - 1,
        held,
        ..c
    }
}

// Eight bools that fill a new byte.
pub fn put_octet(out: &mut [u8], c: Places, y: u8) -> Places
    requires { c.at < 2 ^ 61 }
    ensures { BitPut (St.put_octet y (state_of c out.old)) (state_of result out.new) c result }
{
    store_byte(out, c.at, y);
    Places {
        at: c.at + 1,
        last: c.at,
        free: 0,
        held: usize::from(y),
        ..c
    }
}

// ---- moves of the places
// Behind n bytes more of the present sequence.
#[tactic(auto, unfolding(crate::specs::Storing::forward))]
pub fn forward(c: Places, n: usize) -> Places
    requires { c.at + n < 2 ^ 64 }
    ensures { result ≡ Sg.forward n c }
{
    Places { at: c.at + n, ..c }
}

// The same places, field by field: so the compiler keeps them in registers, where a copy as a whole goes through memory.
pub fn copied(c: Places) -> Places
    ensures { (result ≡ c) × (result.at ≡ c.at) }
{
    Places { at: c.at, ..c }
}

// At the start of the next object: of w bytes, with `chain` bytes in place behind it.
#[tactic(auto, unfolding(crate::specs::Storing::entered_object))]
pub fn enter_object(c: Places, w: usize, chain: usize) -> Places
    requires { (c.next ≤ 16777216) × (w < 2 ^ 55) × (chain ≤ 16777216) }
    ensures { result ≡ Sg.entered_object w chain c }
{
    let end = c.next + w;
    Places {
        at: c.next,
        last: 0,
        free: 0,
        held: 0,
        tail: write_measure::capped(end),
        next: write_measure::capped(end + chain),
    }
}

// At the start of the next content in place, of w bytes.
#[tactic(auto, unfolding(crate::specs::Storing::entered_content))]
pub fn enter_content(c: Places, w: usize) -> Places
    requires { (c.tail ≤ 16777216) × (w < 2 ^ 55) }
    ensures { result ≡ Sg.entered_content w c }
{
    Places {
        at: c.tail,
        last: 0,
        free: 0,
        held: 0,
        tail: write_measure::capped(c.tail + w),
        ..c
    }
}

// Back from an object that was stored: c is behind its offset.
#[tactic(auto, unfolding(crate::specs::Storing::left_object))]
pub fn leave_object(c: Places, inner: Places) -> Places
    ensures { result ≡ Sg.left_object c inner }
{
    Places {
        next: inner.next,
        ..c
    }
}

// Back from a content in place: c is behind its length.
#[tactic(auto, unfolding(crate::specs::Storing::left_content))]
pub fn leave_content(c: Places, inner: Places) -> Places
    ensures { result ≡ Sg.left_content c inner }
{
    Places {
        tail: inner.tail,
        next: inner.next,
        ..c
    }
}

// At the start of a part that stands here, with bool bytes of its own.
#[tactic(auto, unfolding(crate::specs::Storing::entered_part))]
pub fn enter_part(c: Places) -> Places
    ensures { result ≡ Sg.entered_part c }
{
    Places {
        last: 0,
        free: 0,
        held: 0,
        ..c
    }
}

// Behind such a part: c is where it stands.
#[tactic(auto, unfolding(crate::specs::Storing::left_part))]
pub fn leave_part(c: Places, inner: Places) -> Places
    ensures { result ≡ Sg.left_part c inner }
{
    Places {
        at: inner.at,
        tail: inner.tail,
        next: inner.next,
        ..c
    }
}

// ---- what is put behind the places
// The w bytes of a number.
pub fn put_number(out: &mut [u8], c: Places, w: usize, x: u64) -> Places
    requires { (c.at < 2 ^ 61) × (w ≤ 8) }
    ensures { Stood w (St.put_number w x (state_of c out.old)) (state_of result out.new) c result }
{
    store_number(out, c.at, w, x);
    forward(c, w)
}

// An offset, or the length that stands in its place: as wide as an offset.
pub fn put_offset(out: &mut [u8], c: Places, x: u64, o: usize) -> Places
    requires { (Width o) × (c.at < 2 ^ 61) }
    ensures { Stood o (St.put_number o x (state_of c out.old)) (state_of result out.new) c result }
{
    store_offset(out, c.at, o, x);
    forward(c, o)
}

// One byte.
pub fn put_byte(out: &mut [u8], c: Places, x: u8) -> Places
    requires { c.at < 2 ^ 61 }
    ensures { Stood 1 (St.put_byte x (state_of c out.old)) (state_of result out.new) c result }
{
    store_byte(out, c.at, x);
    forward(c, 1)
}

// n zero bytes.
pub fn put_zeros(out: &mut [u8], c: Places, n: usize) -> Places
    requires { (c.at < 2 ^ 61) × (n ≤ 4096) }
    ensures { Stood n (St.put_bytes (M.zeros n) (state_of c out.old)) (state_of result out.new) c result }
{
    store_zeros(out, c.at, n);
    forward(c, n)
}
