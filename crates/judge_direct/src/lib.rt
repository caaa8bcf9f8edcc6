// Direct lists of which every element only counts: none of its members can be refused or lead on. A list of them takes the
// time of one element, however many there are.
#![tactic(auto)]

ghost use Rattle.std.specs.Prelude.{◌≡◌, true, ◌+◌, ◌-◌, ◌*◌, ◌<◌, ◌≤◌, ◌^◌, length};
ghost use Rattle.coding.specs.Packed as P;
ghost use Rattle.coding.specs.Schema as Sc;
ghost use Rattle.coding.specs.Walk as W;
ghost use Rattle.laws.specs.Sound.{ObjectSound, KindSound, MemberSound};
ghost use Rattle.message_layout.specs.Bounds.{Laid};
ghost use Rattle.outcome.specs.Answers as As;
ghost use Rattle.judge_direct.specs.Direct as Ds;
ghost use Rattle.wire.specs.Sizes.{WithinSize};
ghost use Rattle.schema.specs.Parsed.{parsed, bytes_of};

use coding::{Cursor, Flat, Kind, Member, Object, Slot};
use outcome::{Content, Outcome};
use schema::{Reading, Schema};

// ---- whether they only count
// Whether a value of the kind leads nowhere and is not refused, whatever stands there: a number, a float, an enum, a bool, or a
// struct without a bool.
fn is_harmless(schema: &Schema, k: Kind) -> bool
    requires { KindSound (parsed schema.now) k }
    ensures { result ≡ true → Ds.Harmless (parsed schema.now) k }
{
    match k {
        Kind::OfFlat(f) => match f {
            Flat::Boolean => true,
            Flat::Integer(_, _) => true,
            Flat::Float(_) => true,
            Flat::Enumerated(_) => true,
            Flat::Struct(i) => schema.representative(wire::index(i)) == schema::NO_BOOL,
        },
        Kind::OfObject(_) | Kind::OfUnion(_) => false,
    }
}

// Whether a slot ends within w bytes, or starts past them.
fn is_uncut(w: usize, slot: Slot) -> bool
    requires { (slot.at < 2 ^ 60) × (slot.size ≤ 4096) }
    ensures { result ≡ Ds.uncut w slot }
{
    w <= slot.at || slot.at + slot.size <= w
}

// Whether a member in that slot of a fixed part of w bytes leads nowhere, whatever stands there: it has no flag and is not cut.
fn is_quiet(schema: &Schema, r: Member, w: usize, slot: Slot) -> bool
    requires { (MemberSound (parsed schema.now) r) × (slot.at < 2 ^ 60) × (slot.size ≤ 4096) }
    ensures { result ≡ true → Ds.Quiet (parsed schema.now) r w slot }
{
    !message_layout::has_flag(r) && is_harmless(schema, r.kind) && is_uncut(w, slot)
}

// The cursor behind member j of table t, before which the cursor c stands, if the member leads nowhere in a fixed part of w bytes,
// whatever stands there.
fn behind_quiet(schema: &Schema, t: usize, j: usize, w: usize, c: Cursor) -> Option<Cursor>
    requires { (t < P.table_count (bytes_of schema.now)) × (j < length (Sc.table_of (parsed schema.now) t).members) × (j < 256) × (Laid (4097 * j) c) }
    ensures { Ds.Led schema.now.width (bytes_of schema.now) t j w c result }
{
    let r = schema.packed.member(t, j);
    let p = message_layout::place_member(schema, r, c);
    if is_quiet(schema, r, w, p.placement.value) {
        Some(p.next)
    } else {
        None
    }
}

// Whether the members of table t go on in any fixed part of w bytes.
fn is_silent(schema: &Schema, t: usize, w: usize) -> bool
    requires { t < P.table_count (bytes_of schema.now) }
    ensures { result ≡ true → Ds.Silent schema.now.width (bytes_of schema.now) t w }
{
    let count = schema.packed.member_count(t);
    let mut c = message_layout::begin();
    for j in 0..count {
        if w <= message_layout::bit_byte(c) {
            return true;
        }
        match behind_quiet(schema, t, j, w, c) {
            Some(next) => c = next,
            None => return false,
        }
    }
    true
}

// Whether each of n elements of table t, of w bytes, only counts. One alone is walked in the time that it takes to tell.
pub fn only_count(schema: &Schema, t: u8, w: usize, n: usize) -> bool
    requires { ObjectSound (parsed schema.now) (Object.Table t) }
    ensures { result ≡ true → Ds.Silent schema.now.width (bytes_of schema.now) t w }
{
    2 <= n && is_silent(schema, wire::index(t), w)
}

// ---- then each takes a visit and its bytes of content
// How many of n elements of w bytes each the content has room for.
fn affordable(w: usize, n: usize, content: u64) -> usize
    ensures { Ds.Afforded w n content result }
{
    if w == 0 {
        return n;
    }
    let q = content / w as u64;
    if q < n as u64 {
        return q as usize;
    }
    n
}

// The k elements of w bytes each before the one that has too much content.
fn exceed(at: usize, w: usize, k: usize, visits: u32, content: u64) -> Outcome
    requires { (at + w * k < 2 ^ 60) × (w * k ≤ content) × (k < visits) }
    ensures { As.walked_of result ≡ W.refuse 17 (at + w * k) (W.spending (visits - k - 1) (content - w * k)) }
{
    let size = w * k;
    outcome::refuse(
        outcome::TOO_MUCH,
        at + size,
        visits - k as u32 - 1,
        outcome::rest(size, content),
    )
}

// n elements of w bytes each, the first at `at`, within the depth: all of them, or those before the first for which no visit or
// too little content is left.
fn settle(at: usize, w: usize, n: usize, visits: u32, content: u64) -> Outcome
    requires { at + w * n < 2 ^ 60 }
    ensures { As.walked_of result ≡ Ds.passes w n at (W.spending visits content) }
{
    let k = affordable(w, n, content);
    let v = visits as usize;
    if v < n {
        if v <= k {
            let size = w * v;
            return outcome::refuse(4, at + size, 0, outcome::rest(size, content));
        }
        return exceed(at, w, k, visits, content);
    }
    if k < n {
        return exceed(at, w, k, visits, content);
    }
    outcome::going(visits - n as u32, outcome::rest(w * n, content))
}

// The elements of a direct list of table t, of w bytes each, which only count.
pub fn count(
    reading: &Reading,
    depth: usize,
    t: u8,
    w: usize,
    x: Content,
    visits: u32,
    content: u64,
) -> Outcome
    requires { (x.start + w * x.length ≤ length reading.now.message.now) × (Ds.Silent reading.now.schema.width (bytes_of reading.now.schema) t w) }
    ensures { As.walked_of result ≡ As.directs_by reading.now.schema.width (bytes_of reading.now.schema) reading.now.message.now depth t w x (W.spending visits content) }
{
    if x.length == 0 {
        return outcome::going(visits, content);
    }
    if depth == 0 {
        return outcome::charge(depth, x.start, visits, content);
    }
    settle(x.start, w, x.length, visits, content)
}
