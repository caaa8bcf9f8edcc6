// The elements of a list that lead to no object: numbers and bools without a mark, floats and enums with one each. Counted
// always, and stored where there is room.
#![tactic(auto)]

ghost use Rattle.std.specs.Prelude.{◌≡◌, Bool, true, ◌⊎◌, ℕ, ◌+◌, ◌-◌, ◌*◌, ◌/◌, ◌<◌, ◌≤◌, ◌^◌, length, count_by, eqb};
ghost use Rattle.coding.specs.Bits.{bits_of};
ghost use Rattle.bitio.specs.Puts.{Room, Puts};
ghost use Rattle.sheet_values.specs.Marks as Marks;
ghost use Rattle.sheet_lists.specs.Elements as Elements;

// The bits of n numbers of w bytes.
fn numbers_size(w: usize, n: usize) -> usize
    requires { (w ≤ 8) × (n < 2 ^ 48) }
    ensures { (result ≡ 8 * w * n) × (result ≤ 64 * 2 ^ 48) }
{
    8 * w * n
}

// The eight bytes from `at` as numbers of W bytes, the first one highest.
fn word_of<const W: usize>(m: &[u8], at: usize) -> u64
    requires { ((W ≡ 8) ⊎ ((W ≡ 4) ⊎ (W ≡ 2))) × (at < 2 ^ 60) }
    ensures { bits_of 64 result ≡ Elements.numbers_at m.now W (8 / W) at }
{
    if W == 8 {
        return wire::number(m, at, 8);
    }
    if W == 4 {
        return wire::number(m, at, 8).rotate_left(32);
    }
    let hi = bits::pair(wire::number(m, at, 2), wire::number(m, at + 2, 2), 16);
    let lo = bits::pair(wire::number(m, at + 4, 2), wire::number(m, at + 6, 2), 16);
    bits::pair(hi, lo, 32)
}

// The n words from `at` that have numbers of W bytes, for which there is room.
fn store_words<const W: usize>(m: &[u8], out: &mut [u8], pos: usize, at: usize, n: usize) -> usize
    requires room { (Room out.old pos) × (pos + 64 * n ≤ 8 * length out.old) }
    requires width { ((W ≡ 8) ⊎ ((W ≡ 4) ⊎ (W ≡ 2))) × (at < 2 ^ 58) × (n < 2 ^ 48) }
    ensures { Puts out.old pos (Elements.numbers_at m.now W (n * (8 / W)) at) out.new result }
{
    for i in 0..n {
        bitio::put_eight(out, pos + 64 * i, word_of::<W>(m, at + 8 * i));
    }
    pos + 64 * n
}

// The n numbers of w bytes from `at`, one after the other.
fn store_each(m: &[u8], out: &mut [u8], pos: usize, w: usize, at: usize, n: usize) -> usize
    requires room { Room out.old pos }
    requires w_bound { (w ≤ 8) × (at < 2 ^ 59) × (n < 2 ^ 48) }
    ensures { Puts out.old pos (Elements.numbers_at m.now w n at) out.new result }
{
    let mut p = pos;
    for i in 0..n {
        p = sheet_values::put_number(m, out, p, w, at + w * i);
    }
    p
}

// The n numbers of W bytes from `at`, for which there is room: by the word, and then those that are left over.
fn store_numbers<const W: usize>(m: &[u8], out: &mut [u8], pos: usize, at: usize, n: usize) -> usize
    requires room { (Room out.old pos) × (pos + 8 * W * n ≤ 8 * length out.old) }
    requires width { ((W ≡ 8) ⊎ ((W ≡ 4) ⊎ (W ≡ 2))) × (at < 2 ^ 58) × (n < 2 ^ 48) }
    ensures { Puts out.old pos (Elements.numbers_at m.now W n at) out.new result }
{
    let words = n / (8 / W);
    let p = store_words::<W>(m, out, pos, at, words);
    store_each(m, out, p, W, at + 8 * words, n % (8 / W))
}

// The n numbers of w bytes from `at`: counted at once where there is no room, and put by the word where w is 2, 4 or 8.
pub fn put_numbers(m: &[u8], out: &mut [u8], pos: usize, w: usize, at: usize, n: usize) -> usize
    requires room { Room out.old pos }
    requires w_bound { (w ≤ 8) × (at < 2 ^ 58) × (n < 2 ^ 48) }
    ensures { Puts out.old pos (Elements.numbers_at m.now w n at) out.new result }
{
    let size = numbers_size(w, n);
    if 8 * out.len() < pos + size {
        return sheet_values::counted(pos, size);
    }
    match w {
        8 => store_numbers::<8>(m, out, pos, at, n),
        4 => store_numbers::<4>(m, out, pos, at, n),
        2 => store_numbers::<2>(m, out, pos, at, n),
        _ => store_each(m, out, pos, w, at, n),
    }
}

// The bools of the eight bytes from `at`, the first one highest.
// Kept: tried `reverse_bits` of the 64 bits; std's loop over them takes 1.6 times as long.
fn bools_word(m: &[u8], at: usize) -> u64
    requires { at < 2 ^ 60 }
    ensures { bits_of 64 result ≡ Elements.bools_at m.now at 64 0 }
{
    let mut v: u64 = 0;
    for i in 0..8 {
        v = v << 8 | u64::from(bits::reversed(wire::byte(m, at + i)));
    }
    v
}

// The 64 * n bools of the bytes from `at`, for which there is room.
// Kept: a loop of its own beside that of store_words. One for both takes the word's function as a parameter, and a law of what
// its words spell, which is longer than this.
fn store_bools(m: &[u8], out: &mut [u8], pos: usize, at: usize, n: usize) -> usize
    requires room { (Room out.old pos) × (pos + 64 * n ≤ 8 * length out.old) }
    requires at_bound { at < 2 ^ 59 }
    ensures { Puts out.old pos (Elements.bools_at m.now at (64 * n) 0) out.new result }
{
    for i in 0..n {
        bitio::put_eight(out, pos + 64 * i, bools_word(m, at + 8 * i));
    }
    pos + 64 * n
}

// The n bools of the bytes from `start`: counted at once where there is no room.
pub fn put_bools(m: &[u8], out: &mut [u8], pos: usize, start: usize, n: usize) -> usize
    requires room { Room out.old pos }
    requires start_bound { (start < 2 ^ 59) × (n < 2 ^ 48) }
    ensures { Puts out.old pos (Elements.bools_at m.now start n 0) out.new result }
{
    if 8 * out.len() < pos + n {
        return sheet_values::counted(pos, n);
    }
    let words = n / 64;
    let rest = n % 64;
    let p = store_bools(m, out, pos, start, words);
    if rest == 0 {
        return p;
    }
    let last = bools_word(m, start + 8 * words) >> (64 - rest);
    bitio::write(out, p, rest, last)
}

// The bits of the n floats of W bytes from `at`. The width is a constant, so that the compiler makes a loop for each.
fn floats_size<const W: u8>(m: &[u8], at: usize, n: usize) -> usize
    requires { (W ≤ 8) × (at < 2 ^ 58) × (n < 2 ^ 48) }
    ensures { (length (Elements.floats_at m.now W n at) ≡ result) × (result ≤ 66 * 2 ^ 48) }
{
    let w = usize::from(W);
    let mut values: usize = 0;
    for i in 0..n {
        values += usize::from(!wire::is_nan(W, wire::number(m, at + w * i, w)));
    }
    2 * n + numbers_size(w, values)
}

// A float of 4 or 8 bytes with its mark, for which there is room; a NaN is no value.
fn store_float<const W: u8>(out: &mut [u8], pos: usize, x: u64) -> usize
    requires room { (Room out.old pos) × (pos + length (Marks.float_at true W x) ≤ 8 * length out.old) }
    requires width { (W ≡ 4) ⊎ (W ≡ 8) }
    ensures { Puts out.old pos (Marks.float_at true W x) out.new result }
{
    if wire::is_nan(W, x) {
        return bitio::write(out, pos, 2, 0);
    }
    if W == 4 {
        return bitio::write(out, pos, 34, bits::append(1, 32, x));
    }
    let p = bitio::write(out, pos, 2, 1);
    bitio::put_eight(out, p, x);
    p + 64
}

// The n floats of W bytes from `at`, for which there is room.
fn store_floats<const W: u8>(m: &[u8], out: &mut [u8], pos: usize, at: usize, n: usize) -> usize
    requires room { (Room out.old pos) × (pos + length (Elements.floats_at m.now W n at) ≤ 8 * length out.old) }
    requires width { ((W ≡ 4) ⊎ (W ≡ 8)) × (at < 2 ^ 58) × (n < 2 ^ 48) }
    ensures { Puts out.old pos (Elements.floats_at m.now W n at) out.new result }
{
    let w = usize::from(W);
    let mut p = pos;
    for i in 0..n {
        p = store_float::<W>(out, p, wire::number(m, at + w * i, w));
    }
    p
}

// The n floats of W bytes from `at`: counted first.
fn put_floats_of<const W: u8>(m: &[u8], out: &mut [u8], pos: usize, at: usize, n: usize) -> usize
    requires room { Room out.old pos }
    requires width { ((W ≡ 4) ⊎ (W ≡ 8)) × (at < 2 ^ 58) × (n < 2 ^ 48) }
    ensures { Puts out.old pos (Elements.floats_at m.now W n at) out.new result }
{
    let size = floats_size::<W>(m, at, n);
    if 8 * out.len() < pos + size {
        return sheet_values::counted(pos, size);
    }
    store_floats::<W>(m, out, pos, at, n)
}

// The n floats of 4 or 8 bytes from `at`, elements of a list, in which a NaN is no value.
pub fn put_floats(m: &[u8], out: &mut [u8], pos: usize, w: u8, at: usize, n: usize) -> usize
    requires room { Room out.old pos }
    requires fact { ((w ≡ 4) ⊎ (w ≡ 8)) × (at < 2 ^ 58) × (n < 2 ^ 48) }
    ensures { Puts out.old pos (Elements.floats_at m.now w n at) out.new result }
{
    if w == 4 {
        return put_floats_of::<4>(m, out, pos, at, n);
    }
    put_floats_of::<8>(m, out, pos, at, n)
}

// 1 for an enum that is a value, 0 for 255.
fn enum_value(x: u8) -> usize
    ensures { (2 + 8 * result ≡ Elements.enum_width x) × (result ≤ 1) }
{
    usize::from(x != 255)
}

// How many of some enums are no value: 255.
fn absent(enums: &[u8]) -> usize
    ensures { result ≡ count_by (λ x. eqb x 255) enums.now }
{
    let mut count: usize = 0;
    for x in enums {
        count += usize::from(*x == 255);
    }
    count
}

// The bits of the n enums from `at`, of any number of values. Past the message's end an enum is 0, a value.
fn enums_size(m: &[u8], at: usize, n: usize) -> usize
    requires { (at < 2 ^ 58) × (n < 2 ^ 48) }
    ensures { ((k : ℕ) → length (Elements.enums_at m.now k n at) ≡ result) × (result ≤ 10 * 2 ^ 48) }
{
    let end = m.len().min(at + n);
    10 * n - 8 * absent(&m[at.min(end)..end])
}

// An enum of k values with its mark, as a number.
fn enum_number(k: u8, x: u8) -> u64
    ensures { (bits_of (Elements.enum_width x) result ≡ Marks.enum_at k x) × (result < 2 ^ Elements.enum_width x) }
{
    if x == 255 {
        return 0;
    }
    if x < k {
        return bits::append(1, 8, u64::from(x));
    }
    bits::append(2, 8, u64::from(x))
}

// Some bits, as a number of that width.
#[derive(Clone, Copy)]
struct BitRun {
    width: usize,
    value: u64,
}

// The bits of up to five enums of k values from `at`, the first one's highest.
fn gather_enums(m: &[u8], k: u8, at: usize, n: usize) -> BitRun
    requires { (n ≤ 5) × (at < 2 ^ 59) }
    ensures { (bits_of result.width result.value ≡ Elements.enums_at m.now k n at) × (result.width ≤ 50) }
{
    let mut value: u64 = 0;
    let mut width: usize = 0;
    for i in 0..n {
        let x = wire::byte(m, at + i);
        let more = 2 + 8 * enum_value(x);
        value = value << more | enum_number(k, x);
        width += more;
    }
    BitRun { width, value }
}

// The n enums of k values from `at`, elements of a list: counted first, and stored five at a time.
pub fn put_enums(m: &[u8], out: &mut [u8], pos: usize, k: u8, at: usize, n: usize) -> usize
    requires room { Room out.old pos }
    requires at_bound { (at < 2 ^ 58) × (n < 2 ^ 48) }
    ensures { Puts out.old pos (Elements.enums_at m.now k n at) out.new result }
{
    let size = enums_size(m, at, n);
    if 8 * out.len() < pos + size {
        return sheet_values::counted(pos, size);
    }
    let mut p = pos;
    for i in (0..n).step_by(5) {
        let run = gather_enums(m, k, at + i, (n - i).min(5));
        p = bitio::write(out, p, run.width, run.value);
    }
    p
}
