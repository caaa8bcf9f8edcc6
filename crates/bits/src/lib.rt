// Numbers by their bits: masks, fields replaced, and how far a run of bits goes in a byte.
#![tactic(auto)]

ghost use Rattle.std.specs.Prelude.{◌≡◌, ◌+◌, ◌-◌, ◌*◌, ◌/◌, ◌%◌, ◌^◌, ◌≤◌, ◌<◌};
ghost use Rattle.bits.specs.Chunk.{Chunk, merged};
ghost use Rattle.bits.specs.Reversed.{reversed};

// Where in its byte a bit stands.
pub fn offset(pos: usize) -> usize
    ensures { result ≡ pos % 8 }
{
    pos % 8
}

// The n low bits of v.
pub fn low(v: u64, n: usize) -> u64
    requires { n < 64 }
    ensures { result ≡ v % 2 ^ n }
{
    v & ((1 << n) - 1)
}

// h, and behind it the n low bits of x.
pub fn append(h: u64, n: usize, x: u64) -> u64
    requires { (h < 4) × (n ≤ 62) }
    ensures { result ≡ h * 2 ^ n + x % 2 ^ n }
{
    h << n | low(x, n)
}

// Two numbers of n bits as one, the first one higher.
pub fn pair(hi: u64, lo: u64, n: usize) -> u64
    requires { (n ≤ 32) × (hi < 2 ^ n) × (lo < 2 ^ n) }
    ensures { (result ≡ hi * 2 ^ n + lo) × (result < 2 ^ (n + n)) }
{
    hi << n | lo
}

// The two halves of 64 bits, the lower one made the higher.
pub fn exchanged(x: u64) -> u64
    ensures { result ≡ x % 2 ^ 32 * 2 ^ 32 + x / 2 ^ 32 }
{
    x.rotate_left(32)
}

// The eight low bits of v.
pub fn last_byte(v: u64) -> u8
    ensures { result ≡ v % 2 ^ 8 }
{
    (v % 256) as u8
}

// The byte that lies across p and x, a bits before the end of x. It is made in 16 bits: in 64 the loops over it were ten
// times slower.
// Kept: with `u16::from_be_bytes([p, x])` the loops over it are three to six times slower, as no byte of them is made beside another.
pub fn across(p: u8, x: u8, a: usize) -> u8
    requires { a < 8 }
    ensures { result ≡ (p * 2 ^ 8 + x) / 2 ^ a % 2 ^ 8 }
{
    (((u16::from(p) << 8 | u16::from(x)) >> a) % 256) as u8
}

// b with its n bits above the k low ones replaced by x.
pub fn merge(b: u64, n: usize, k: usize, x: u64) -> u64
    requires k_bound { (n + k ≤ 64) × (n < 64) × (k < 64) }
    requires x_bound { x < 2 ^ n }
    ensures { result ≡ merged b n k x }
{
    let t = b >> k;
    (t >> n << n | x) << k | b & ((1 << k) - 1)
}

// How many of `left` bits from `at` on lie in the byte of `at`.
pub fn chunk(at: usize, left: usize) -> usize
    requires { 0 < left }
    ensures { Chunk at left result }
{
    left.min(8 - offset(at))
}

// Eight bits, the lowest of them made the highest: bools stand in a message from the lowest bit on, in a sheet from the highest.
pub fn reversed(x: u8) -> u8
    ensures { result ≡ reversed x }
{
    x.reverse_bits()
}
