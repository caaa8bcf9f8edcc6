// The fixed part of a table: where its members stand.
#![tactic(auto)]

ghost use Rattle.std.specs.Prelude.{◌≡◌, ℕ, ◌+◌, ◌-◌, ◌*◌, ◌<◌, ◌≤◌, ◌^◌, length, get_or};
ghost use Rattle.coding.specs.Layout as L;
ghost use Rattle.coding.specs.Lists.{pick};
ghost use Rattle.coding.specs.Packed as P;
ghost use Rattle.coding.specs.Step as T;
ghost use Rattle.coding.specs.Structs as S;
ghost use Rattle.laws.specs.Sound.{FlatSound, KindSound, MemberSound};
ghost use Rattle.message_layout.specs.Bounds.{Laid, Stands};
ghost use Rattle.schema.specs.Parsed.{parsed, bytes_of};

use coding::{Cursor, Flat, Kind, Member, Placement, Slot};
use schema::Schema;

// Nothing laid out yet.
#[tactic(auto, unfolding(coding::specs::Layout::begin))]
pub fn begin() -> Cursor
    ensures { (result ≡ L.begin) × Laid 0 result }
{
    Cursor {
        end: 0,
        byte: 0,
        bit: 8,
    }
}

// The byte that the next bool takes.
#[tactic(auto, unfolding(coding::specs::Layout::bit_byte))]
pub fn bit_byte(c: Cursor) -> usize
    requires { c.byte ≤ c.end }
    ensures { (result ≡ L.bit_byte c) × (result ≤ c.end) }
{
    if c.bit < 8 { c.byte } else { c.end }
}

// The bit of that byte that the next bool takes.
#[tactic(auto, unfolding(coding::specs::Layout::bit_index))]
pub fn bit_index(c: Cursor) -> usize
    ensures { (result ≡ L.bit_index c) × (result < 8) }
{
    if c.bit < 8 { c.bit } else { 0 }
}

// Where the next bool stands, or the next flag.
#[tactic(auto, unfolding(coding::specs::Layout::bit_slot))]
pub fn bit_slot(c: Cursor) -> Slot
    requires { c.byte ≤ c.end }
    ensures { (result ≡ L.bit_slot c) × (result.at ≤ c.end) × (result.bit < 8) × (result.size ≡ 1) }
{
    Slot {
        at: bit_byte(c),
        bit: bit_index(c),
        size: 1,
    }
}

// Behind the next bool.
#[tactic(auto, unfolding(coding::specs::Layout::after_bit))]
pub fn after_bit(c: Cursor) -> Cursor
    requires { (c.byte ≤ c.end) × (c.bit ≤ 8) × (c.end < 2 ^ 60) }
    ensures { (result ≡ L.after_bit c) × Laid (c.end + 1) result }
{
    if c.bit < 8 {
        return Cursor {
            bit: c.bit + 1,
            ..c
        };
    }
    Cursor {
        end: c.end + 1,
        byte: c.end,
        bit: 1,
    }
}

// Behind w bytes more; the last bool byte stays the same.
#[tactic(auto, unfolding(coding::specs::Layout::after_bytes))]
pub fn after_bytes(c: Cursor, w: usize) -> Cursor
    requires { (c.byte ≤ c.end) × (c.bit ≤ 8) × (c.end < 2 ^ 60) × (w ≤ 4096) }
    ensures { (result ≡ L.after_bytes w c) × Laid (c.end + w) result }
{
    Cursor {
        end: c.end + w,
        ..c
    }
}

// Whether the kind is a bool, which takes a bit and no bytes of its own.
#[tactic(auto, unfolding(coding::specs::Layout::is_bool, coding::specs::Layout::flat_is_bool))]
pub fn is_bool(k: Kind) -> bool
    ensures { result ≡ L.is_bool k }
{
    matches!(k, Kind::OfFlat(Flat::Boolean))
}

// Whether an optional member of the kind has a flag.
#[tactic(auto, unfolding(coding::specs::Layout::takes_flag, coding::specs::Layout::flat_takes_flag))]
fn takes_flag(k: Kind) -> bool
    ensures { result ≡ L.takes_flag k }
{
    matches!(
        k,
        Kind::OfFlat(Flat::Boolean | Flat::Integer(_, _) | Flat::Struct(_))
    )
}

// Whether a flag stands before the member's value.
#[tactic(auto, unfolding(coding::specs::Layout::has_flag))]
pub fn has_flag(r: Member) -> bool
    ensures { result ≡ L.has_flag r }
{
    r.optional && takes_flag(r.kind)
}

// ---- sizes
// The bytes of a flat value.
#[tactic(auto, unfolding(coding::specs::Structs::flat_width))]
pub fn flat_width(schema: &Schema, k: Flat) -> usize
    requires { FlatSound (length (parsed schema.now).structs) k }
    ensures { (result ≡ S.flat_width (S.struct_size (parsed schema.now)) k) × (0 < result) × (result ≤ 4096) }
{
    match k {
        Flat::Boolean | Flat::Enumerated(_) => 1,
        Flat::Integer(_, w) | Flat::Float(w) => usize::from(w),
        Flat::Struct(i) => schema.stored_size(usize::from(i)),
    }
}

// The bytes of a member or an element.
#[tactic(auto, unfolding(coding::specs::Layout::width))]
pub fn width(schema: &Schema, k: Kind) -> usize
    requires { KindSound (parsed schema.now) k }
    ensures { (result ≡ L.width schema.now.width (parsed schema.now) k) × (0 < result) × (result ≤ 4096) }
{
    match k {
        Kind::OfFlat(f) => flat_width(schema, f),
        Kind::OfObject(_) => schema.width,
        Kind::OfUnion(_) => wire::union_size(schema.width),
    }
}

// The bytes of n values of w bytes each.
pub fn times(w: usize, n: usize) -> usize
    requires { (w ≤ 4096) × (n < 2 ^ 48) }
    ensures { (result ≡ w * n) × (result ≤ 4096 * n) }
{
    w * n
}

// The bytes of a list's n elements of kind k.
#[tactic(auto, unfolding(coding::specs::Step::elements_size))]
pub fn elements_size(schema: &Schema, k: Kind, n: usize) -> usize
    requires { (KindSound (parsed schema.now) k) × (n < 2 ^ 48) }
    ensures { (result ≡ T.elements_size schema.now.width (parsed schema.now) k n) × (result ≤ 4096 * n) }
{
    if is_bool(k) {
        return n.div_ceil(8);
    }
    times(width(schema, k), n)
}

// ---- members
// Where a member stands in its fixed part, and the cursor behind it.
// Kept: a pair, or one generic with a step and its cursor, would not name what stands before the cursor.
#[derive(Clone, Copy)]
pub struct Placed {
    pub placement: Placement,
    pub next: Cursor,
}

// Behind the member's flag, if it has one.
pub fn after_flag(flag: bool, c: Cursor) -> Cursor
    requires { (c.byte ≤ c.end) × (c.bit ≤ 8) × (c.end < 2 ^ 60) }
    ensures { (result ≡ pick flag (L.after_bit c) c) × Laid (c.end + 1) result }
{
    if flag { after_bit(c) } else { c }
}

// Where the value that comes next stands, and the cursor behind it.
#[tactic(auto, unfolding(coding::specs::Layout::slot_of, coding::specs::Layout::after_value))]
fn place_value(schema: &Schema, k: Kind, c: Cursor) -> (Slot, Cursor)
    requires sound { KindSound (parsed schema.now) k }
    requires byte_le_end { (c.byte ≤ c.end) × (c.bit ≤ 8) × (c.end < 2 ^ 59) }
    ensures { Stands (L.slot_of schema.now.width (parsed schema.now) k c) (L.after_value schema.now.width (parsed schema.now) k c) c.end result.0 result.1 }
{
    if is_bool(k) {
        return (bit_slot(c), after_bit(c));
    }
    let size = width(schema, k);
    let slot = Slot {
        at: c.end,
        bit: 0,
        size,
    };
    (slot, after_bytes(c, size))
}

// The member that comes next: its flag, if it has one, and then its value.
pub fn place_member(schema: &Schema, r: Member, c: Cursor) -> Placed
    requires sound { MemberSound (parsed schema.now) r }
    requires byte_le_end { (c.byte ≤ c.end) × (c.bit ≤ 8) × (c.end < 2 ^ 58) }
    ensures { (result.placement ≡ L.placement_of schema.now.width (parsed schema.now) r c) × (Stands (L.member_slot schema.now.width (parsed schema.now) r c) (L.after_member schema.now.width (parsed schema.now) r c) (c.end + 1) result.placement.value result.next) × (result.placement.flag.at ≤ c.end) × (result.placement.flag.bit < 8) }
{
    let flag = bit_slot(c);
    let (value, next) = place_value(schema, r.kind, after_flag(has_flag(r), c));
    let placement = Placement { value, flag };
    Placed { placement, next }
}

// ---- struct booleans, by recursion on the struct index, which falls at every inner struct
// Whether each bool of a struct's member at a place is a byte 0 or 1.
#[cycle(booleans)]
#[tactic(auto, unfolding(coding::specs::Structs::flat_ok))]
fn field_ok(schema: &Schema, m: &[u8], i: usize, k: Flat, at: usize) -> bool
    requires sound { (FlatSound i k) × (i < P.struct_count (bytes_of schema.now)) }
    requires k_in_bounds { at + S.flat_width (S.struct_size (parsed schema.now)) k ≤ length m.now }
    ensures { result ≡ S.flat_ok (S.struct_ok (parsed schema.now) m.now) m.now k at }
{
    match k {
        Flat::Boolean => wire::byte_in(m, at) <= 1,
        Flat::Integer(_, _) | Flat::Float(_) | Flat::Enumerated(_) => true,
        Flat::Struct(a) => struct_ok(schema, m, usize::from(a), at),
    }
}

// Whether each bool of the struct i at a place is a byte 0 or 1. It goes over the members of the struct's representative,
// which are two or more or one that is no struct: the calls are no more than about twice the bytes, however deep the structs.
#[cycle(booleans)]
pub fn struct_ok(schema: &Schema, m: &[u8], i: usize, at: usize) -> bool
    requires { (i < P.struct_count (bytes_of schema.now)) × (at + S.struct_size (parsed schema.now) i ≤ length m.now) }
    ensures { result ≡ S.struct_ok (parsed schema.now) m.now i at }
{
    let s = schema.representative(i);
    if s == schema::NO_BOOL {
        return true;
    }
    let n = schema.packed.field_count(s);
    let mut pos = at;
    for j in 0..n {
        let k = schema.packed.field(s, j);
        if !field_ok(schema, m, s, k, pos) {
            return false;
        }
        pos += flat_width(schema, k);
    }
    true
}
