// One value of a sheet: a mark and what follows it, or a struct's number without one. Counted always, and stored where there
// is room.
// Kept: `out` and `pos` as two parameters. A struct of both is as fast, but no plainer here: bitio's writers and the walk of
// sheet_walk take them as two, so that it would be made and taken apart at each call.
#![tactic(auto)]

ghost use Rattle.std.specs.Prelude.{◌≡◌, ◌+◌, ◌*◌, ◌<◌, ◌≤◌, ◌^◌, length};
ghost use Rattle.coding.specs.Bytes as B;
ghost use Rattle.coding.specs.Bits.{bits_of};
ghost use Rattle.bitio.specs.Puts.{Room, Puts, saturated};
ghost use Rattle.sheet_values.specs.Marks as Marks;

// The most bits of a sheet, and the count of more than that.
pub const MOST: usize = 134217720;

pub const OVER: usize = 134217721;

// A count as a number.
// Kept: no plainer form, since a usize has no `u64::from`, in Rust neither.
pub fn number64(x: usize) -> u64
    ensures { result ≡ x }
{
    x as u64
}

// Where k bits end for which there is no room.
pub fn counted(pos: usize, k: usize) -> usize
    requires { pos + k < 2 ^ 64 }
    ensures { result ≡ saturated (pos + k) }
{
    OVER.min(pos + k)
}

// A mark (0 absent, 1 present, 2 unknown) and the w low bits of x.
// Kept: the mark is a number and no enum, since this promises `Marks.marked` for every number of two bits.
pub fn put_marked(out: &mut [u8], pos: usize, mark: u64, w: usize, x: u64) -> usize
    requires room { Room out.old pos }
    requires w_bound { (w ≤ 64) × (mark < 4) }
    ensures { Puts out.old pos (Marks.marked mark w x) out.new result }
{
    if 8 * out.len() < pos + (2 + w) {
        return counted(pos, 2 + w);
    }
    if w <= 62 {
        return bitio::write(out, pos, 2 + w, bits::append(mark, w, x));
    }
    let p = bitio::write(out, pos, 2 + (w - 32), bits::append(mark, w - 32, x >> 32));
    bitio::write(out, p, 32, x)
}

// An enum of n values with its mark.
pub fn put_enum(out: &mut [u8], pos: usize, n: u8, x: u8) -> usize
    requires { Room out.old pos }
    ensures { Puts out.old pos (Marks.enum_at n x) out.new result }
{
    if x == 255 {
        return bitio::write(out, pos, 2, 0);
    }
    if x < n {
        return put_marked(out, pos, 1, 8, u64::from(x));
    }
    put_marked(out, pos, 2, 8, u64::from(x))
}

// A number of w bytes.
pub fn put_number(m: &[u8], out: &mut [u8], pos: usize, w: usize, at: usize) -> usize
    requires room { Room out.old pos }
    requires w_bound { (w ≤ 8) × (at < 2 ^ 60) }
    ensures { Puts out.old pos (bits_of (8 * w) (B.le m.now at w)) out.new result }
{
    if w < 8 {
        return bitio::write(out, pos, 8 * w, wire::number(m, at, w));
    }
    bitio::write_wide(out, pos, 8 * w, wire::number(m, at, w))
}

// A float with its mark; with `none` a NaN is no value.
pub fn put_float(out: &mut [u8], pos: usize, none: bool, w: u8, x: u64) -> usize
    requires room { Room out.old pos }
    requires w_bound { w ≤ 8 }
    ensures { Puts out.old pos (Marks.float_at none w x) out.new result }
{
    if none && wire::is_nan(w, x) {
        return bitio::write(out, pos, 2, 0);
    }
    put_marked(out, pos, 1, 8 * usize::from(w), x)
}

// A text or bytes with its mark: the n bytes from `at`.
pub fn put_blob(m: &[u8], out: &mut [u8], pos: usize, at: usize, n: usize) -> usize
    requires room { Room out.old pos }
    requires n_in_bounds { (at + n ≤ length m.now) × (length m.now ≤ 16777215) }
    ensures { Puts out.old pos (Marks.blob_at m.now at n) out.new result }
{
    let p = put_marked(out, pos, 1, 32, number64(n));
    bitio::write_bytes(out, p, &m[at..at + n])
}

// A number of w bytes with its mark, at byte `end` of a fixed part that has n bytes from `start`.
pub fn put_plain(
    m: &[u8],
    out: &mut [u8],
    w: usize,
    start: usize,
    n: usize,
    end: usize,
    pos: usize,
) -> usize
    requires room { Room out.old pos }
    requires w_bound { (w ≤ 8) × (start < 2 ^ 58) × (end < 2 ^ 58) }
    ensures { Puts out.old pos (Marks.plain_at m.now w start n end) out.new result }
{
    if n < end + w {
        return bitio::write(out, pos, 2, 0);
    }
    if 8 * out.len() < pos + (2 + 8 * w) {
        return counted(pos, 2 + 8 * w);
    }
    let at = start + end;
    if w < 8 && at + 8 <= m.len() {
        let x = wire::u64_in(m, at);
        return bitio::write(out, pos, 2 + 8 * w, bits::append(1, 8 * w, x));
    }
    put_marked(out, pos, 1, 8 * w, wire::number(m, at, w))
}
