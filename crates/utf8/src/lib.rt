// Whether bytes are text by RFC 3629: short texts and runs of ASCII are told by words and by blocks, all else goes through a table.
#![tactic(auto)]

ghost use Rattle.std.specs.Prelude.{◌≡◌, true, ◌+◌, ◌≤◌, length, take, drop};
ghost use Rattle.coding.specs.Utf8.{may_end, is_text};
ghost use Rattle.utf8.specs.Steps.{state_in, HoldsState, StateAfter, Onward, Skips, Ascii};

// ---- the table
// The words of the sorts of bytes: the six bits from bit 6 * q are 6 times the number of the state after such a byte in state q.

// ASCII.
const ASCII: u64 = 13725256007224320;

// Tails: 80 to 8F, 90 to 9F, A0 to BF.
const TAIL_80: u64 = 13566881226055728;

const TAIL_90: u64 = 13722736999292976;

const TAIL_A0: u64 = 13722781391806512;

// Bytes that no text has: C0, C1, F5 to FF.
const NEVER: u64 = 13725256007224368;

// First bytes of two, three and four; those behind which not every tail may follow have a word each.
const FIRST_2: u64 = 13725256007224326;

const FIRST_E0: u64 = 13725256007224344;

const FIRST_3: u64 = 13725256007224332;

const FIRST_ED: u64 = 13725256007224350;

const FIRST_F0: u64 = 13725256007224356;

const FIRST_4: u64 = 13725256007224338;

const FIRST_F4: u64 = 13725256007224362;

// The table's words by byte, in read-only memory.
static WORDS: [u64; 256] = [
    ASCII, ASCII, ASCII, ASCII, ASCII, ASCII, ASCII, ASCII, // 00
    ASCII, ASCII, ASCII, ASCII, ASCII, ASCII, ASCII, ASCII, // 08
    ASCII, ASCII, ASCII, ASCII, ASCII, ASCII, ASCII, ASCII, // 10
    ASCII, ASCII, ASCII, ASCII, ASCII, ASCII, ASCII, ASCII, // 18
    ASCII, ASCII, ASCII, ASCII, ASCII, ASCII, ASCII, ASCII, // 20
    ASCII, ASCII, ASCII, ASCII, ASCII, ASCII, ASCII, ASCII, // 28
    ASCII, ASCII, ASCII, ASCII, ASCII, ASCII, ASCII, ASCII, // 30
    ASCII, ASCII, ASCII, ASCII, ASCII, ASCII, ASCII, ASCII, // 38
    ASCII, ASCII, ASCII, ASCII, ASCII, ASCII, ASCII, ASCII, // 40
    ASCII, ASCII, ASCII, ASCII, ASCII, ASCII, ASCII, ASCII, // 48
    ASCII, ASCII, ASCII, ASCII, ASCII, ASCII, ASCII, ASCII, // 50
    ASCII, ASCII, ASCII, ASCII, ASCII, ASCII, ASCII, ASCII, // 58
    ASCII, ASCII, ASCII, ASCII, ASCII, ASCII, ASCII, ASCII, // 60
    ASCII, ASCII, ASCII, ASCII, ASCII, ASCII, ASCII, ASCII, // 68
    ASCII, ASCII, ASCII, ASCII, ASCII, ASCII, ASCII, ASCII, // 70
    ASCII, ASCII, ASCII, ASCII, ASCII, ASCII, ASCII, ASCII, // 78
    TAIL_80, TAIL_80, TAIL_80, TAIL_80, TAIL_80, TAIL_80, TAIL_80, TAIL_80, // 80
    TAIL_80, TAIL_80, TAIL_80, TAIL_80, TAIL_80, TAIL_80, TAIL_80, TAIL_80, // 88
    TAIL_90, TAIL_90, TAIL_90, TAIL_90, TAIL_90, TAIL_90, TAIL_90, TAIL_90, // 90
    TAIL_90, TAIL_90, TAIL_90, TAIL_90, TAIL_90, TAIL_90, TAIL_90, TAIL_90, // 98
    TAIL_A0, TAIL_A0, TAIL_A0, TAIL_A0, TAIL_A0, TAIL_A0, TAIL_A0, TAIL_A0, // A0
    TAIL_A0, TAIL_A0, TAIL_A0, TAIL_A0, TAIL_A0, TAIL_A0, TAIL_A0, TAIL_A0, // A8
    TAIL_A0, TAIL_A0, TAIL_A0, TAIL_A0, TAIL_A0, TAIL_A0, TAIL_A0, TAIL_A0, // B0
    TAIL_A0, TAIL_A0, TAIL_A0, TAIL_A0, TAIL_A0, TAIL_A0, TAIL_A0, TAIL_A0, // B8
    NEVER, NEVER, FIRST_2, FIRST_2, FIRST_2, FIRST_2, FIRST_2, FIRST_2, // C0
    FIRST_2, FIRST_2, FIRST_2, FIRST_2, FIRST_2, FIRST_2, FIRST_2, FIRST_2, // C8
    FIRST_2, FIRST_2, FIRST_2, FIRST_2, FIRST_2, FIRST_2, FIRST_2, FIRST_2, // D0
    FIRST_2, FIRST_2, FIRST_2, FIRST_2, FIRST_2, FIRST_2, FIRST_2, FIRST_2, // D8
    FIRST_E0, FIRST_3, FIRST_3, FIRST_3, FIRST_3, FIRST_3, FIRST_3, FIRST_3, // E0
    FIRST_3, FIRST_3, FIRST_3, FIRST_3, FIRST_3, FIRST_ED, FIRST_3, FIRST_3, // E8
    FIRST_F0, FIRST_4, FIRST_4, FIRST_4, FIRST_F4, NEVER, NEVER, NEVER, // F0
    NEVER, NEVER, NEVER, NEVER, NEVER, NEVER, NEVER, NEVER, // F8
];

// The word after a byte: the last six bits of a word are 6 times its state's number, so they say how far to shift.
fn after_byte(w: u64, b: u8) -> u64
    requires { HoldsState w }
    ensures { StateAfter w b result }
{
    WORDS[usize::from(b)] >> (w % 64)
}

// The word after the k bytes from i.
fn after_bytes(s: &[u8], i: usize, k: usize, w: u64) -> u64
    requires { HoldsState w × (i + k ≤ length s.now) }
    ensures { Onward s.now i (i + k) w result }
{
    let mut x = w;
    for b in &s[i..i + k] {
        x = after_byte(x, *b);
    }
    x
}

// The word where a text begins.
pub const BEGIN: u64 = 0;

// The last six bits of a word in the state that nothing leaves.
const NO_TEXT: u64 = 48;

// Whether a text may end where a word stands: there a character may begin too.
pub fn may_end(x: u64) -> bool
    requires { HoldsState x }
    ensures { result ≡ may_end (state_in x) }
{
    x % 64 == 0
}

// ---- runs of ASCII
// Whether the k bytes from i are ASCII. With k known at the call the loop becomes one test of many bytes.
// Kept: with `s[i..i + k].is_ascii()` short texts that are not ASCII take a tenth to a fifth longer.
fn is_ascii(s: &[u8], i: usize, k: usize) -> bool
    requires { i + k ≤ length s.now }
    ensures { result ≡ true → Skips s.now i (i + k) }
{
    let mut joined = 0;
    for b in &s[i..i + k] {
        joined |= *b;
    }
    joined < 128
}

// ---- both together
// The word after the k bytes from i, which are skipped if they are ASCII where a character may begin.
pub fn after_block(s: &[u8], i: usize, k: usize, w: u64) -> u64
    requires { HoldsState w × (i + k ≤ length s.now) }
    ensures { Onward s.now i (i + k) w result }
{
    if may_end(w) && is_ascii(s, i, k) {
        return w;
    }
    after_bytes(s, i, k, w)
}

// The place from which bytes are taken one by one: behind the ASCII from i by eights where a character may begin, else i.
fn past_eights(s: &[u8], i: usize, w: u64) -> usize
    requires { HoldsState w × (i ≤ length s.now) }
    ensures { (result ≤ length s.now) × Onward s.now i result w w }
{
    if !may_end(w) {
        return i;
    }
    let eights = (s.len() - i) / 8;
    for j in 0..eights {
        if !is_ascii(s, i + 8 * j, 8) {
            return i + 8 * j;
        }
    }
    i + 8 * eights
}

// Whether all of s is text.
fn is_all_text(s: &[u8]) -> bool
    ensures { result ≡ is_text s.now }
{
    let blocks = s.len() / 64;
    let mut w = BEGIN;
    for j in 0..blocks {
        w = after_block(s, 64 * j, 64, w);
        if w % 64 == NO_TEXT {
            return false;
        }
    }
    let i = past_eights(s, 64 * blocks, w);
    after_bytes(s, i, s.len() - i, w) % 64 == BEGIN
}

// Whether the n bytes of m from start are text, by blocks and through the table. It stands out of line, so that what tells short
// texts stays small.
#[inline(never)]
fn is_text_within(m: &[u8], start: usize, n: usize) -> bool
    requires { start + n ≤ length m.now }
    ensures { result ≡ is_text (take n (drop start m.now)) }
{
    let end = start + n;
    is_all_text(&m[start..end])
}

// ---- short texts
// The high bits of eight bytes, which ASCII has not.
const HIGH: u64 = 0x8080_8080_8080_8080;

// Whether the n bytes from start, 16 at most, are ASCII, without a branch: the first eight and the last eight. Of less than eight bytes
// both are the eight that end with them, and the bytes before them are shifted out in two halves, since no shift is by 64 bits.
fn two_ascii(m: &[u8], start: usize, n: usize) -> bool
    requires { (n ≤ 16) × (8 ≤ start + n) × (start + n ≤ length m.now) }
    ensures { result ≡ true → Ascii m.now start n }
{
    let last = start + n - 8;
    let half = 32 - 4 * n.min(8);
    let first = wire::number_in::<8>(m, start.min(last));
    (first | wire::number_in::<8>(m, last)) >> half >> half & HIGH == 0
}

// The same of 16 to 32 bytes: the first 16 and the last 16.
fn four_ascii(m: &[u8], start: usize, n: usize) -> bool
    requires { (16 ≤ n) × (n ≤ 32) × (start + n ≤ length m.now) }
    ensures { result ≡ true → Ascii m.now start n }
{
    let end = start + n;
    let first = wire::number_in::<8>(m, start) | wire::number_in::<8>(m, start + 8);
    let last = wire::number_in::<8>(m, end - 16) | wire::number_in::<8>(m, end - 8);
    (first | last) & HIGH == 0
}

// Whether the n bytes of m from start are seen to be a short text of ASCII. Within the first eight bytes, where no text of a message
// ends, nothing is seen.
fn is_short_ascii(m: &[u8], start: usize, n: usize) -> bool
    requires { start + n ≤ length m.now }
    ensures { result ≡ true → true ≡ is_text (take n (drop start m.now)) }
{
    if 32 < n || start + n < 8 {
        return false;
    }
    if n <= 16 {
        return two_ascii(m, start, n);
    }
    four_ascii(m, start, n)
}

// Whether the n bytes of m from start are text.
pub fn is_text(m: &[u8], start: usize, n: usize) -> bool
    requires { start + n ≤ length m.now }
    ensures { result ≡ is_text (take n (drop start m.now)) }
{
    is_short_ascii(m, start, n) || is_text_within(m, start, n)
}
