// Members by the first byte of their record, and where a member leads.
#![tactic(auto)]

ghost use Rattle.std.specs.Prelude.{◌≡◌, true, ℕ, ◌+◌, ◌*◌, ◌<◌, ◌≤◌, ◌^◌, length, get_or, eqb};
ghost use Rattle.coding.specs.Packed as P;
ghost use Rattle.coding.specs.Schema as Sc;
ghost use Rattle.laws.specs.Sound.{ObjectSound};
ghost use Rattle.message_layout.specs.Bounds.{Laid};
ghost use Rattle.judge_member.specs.Records as Rs;
ghost use Rattle.wire.specs.Sizes.{Width};
ghost use Rattle.schema.specs.Parsed.{parsed, bytes_of};

use coding::{Cursor, Object, Step};
use message_step::SteppedMember;
use outcome::Content;
use schema::{Reading, Schema};

// ---- a record's first byte
// It is eight times the kind, and flags that are 0 where the member is neither optional nor in place.
// The first byte of the record of a text by its offset.
const TEXT_BY_OFFSET: usize = 104;

// Whether a kind is a number, a float or an enum.
fn is_number_kind(k: usize) -> bool
    ensures { result ≡ true → (0 < k) × (k < 12) }
{
    k != schema::KIND_BOOL && k < schema::KIND_STRUCT
}

// Whether the byte says a number, a float or an enum, neither optional nor in place.
fn is_plain(h: usize) -> bool
    ensures { result ≡ true → Rs.Plain h }
{
    wire::low_three(h) == 0 && is_number_kind(wire::eighth(h))
}

// Whether the byte says a text by its offset, neither optional nor in place.
pub fn is_text_reference(h: usize) -> bool
    ensures { result ≡ Rs.is_text_reference h }
{
    h == TEXT_BY_OFFSET
}

// Whether the record at `at` says an object by its offset, neither optional nor in place.
pub fn refers(b: &[u8], at: usize) -> bool
    requires { at < length b.now }
    ensures { result ≡ true → Rs.Refers (get_or b.now at 0) }
{
    let h = wire::index(wire::byte_in(b, at));
    wire::low_three(h) == 0 && schema::is_object_kind(wire::eighth(h))
}

// ---- numbers, floats and enums, neither optional nor in place
// The bytes of a number, a float or an enum by its kind.
fn plain_width(k: usize) -> usize
    requires { k < 12 }
    ensures { (result ≡ Rs.plain_width k) × (result < 256) }
{
    if k == schema::KIND_ENUM {
        return 1;
    }
    wire::index(schema::width_of(k))
}

// The number, float or enum of the record at `at`, whose first byte is h: it leads nowhere, but may be cut,
// whatever the width of an offset.
fn lead_number(b: &[u8], m: &[u8], at: usize, x: Content, c: Cursor, h: usize) -> SteppedMember
    requires h_value { (h ≡ get_or b.now at 0) × (Rs.Plain h) }
    requires byte_le_end { (c.byte ≤ c.end) × (c.bit ≤ 8) × (c.end < 2 ^ 58) }
    ensures { (o : ℕ) → Rs.LedAt o b.now m.now at x c result.step result.next }
{
    let w = plain_width(wire::eighth(h));
    let next = message_layout::after_bytes(c, w);
    if x.length <= c.end || next.end <= x.length {
        return SteppedMember {
            step: Step::Absent,
            next,
        };
    }
    SteppedMember {
        step: Step::Refused(8),
        next,
    }
}

// ---- row tables, whose members are numbers, floats, enums and texts by their offset, none optional
// A row table: its index and id, where its block stands in the schema, and how many members it has.
#[derive(Clone, Copy)]
pub struct Rows {
    pub table: u8,
    pub id: u64,
    pub first: usize,
    pub count: usize,
}

// Whether a record's first byte says a member that a row table may have.
fn is_row_member(h: usize) -> bool
    ensures { result ≡ true → Rs.RowMember h }
{
    is_text_reference(h) || is_plain(h)
}

// The bytes of a row table's member, by the first byte of its record.
pub fn row_width(h: usize, o: usize) -> usize
    requires { (Rs.RowMember h) × (Width o) }
    ensures { (result ≡ Rs.row_width o h) × (result < 256) }
{
    if is_text_reference(h) {
        return o;
    }
    plain_width(wire::eighth(h))
}

// Whether a row table may have every one of the first `count` members of the table whose block stands at `first`.
fn all_row_members(b: &[u8], first: usize, count: usize) -> bool
    requires { (first < 65536) × (count < 256) × (first + 4 + 1 + 2 * count ≤ length b.now) }
    ensures { result ≡ true → Rs.RowMembers b.now first count }
{
    for j in 0..count {
        let at = schema::record_place(schema::TABLE_HEAD, first, j);
        if !is_row_member(wire::index(wire::byte_in(b, at))) {
            return false;
        }
    }
    true
}

// Whether the object is a row table.
pub fn is_row_table(schema: &Schema, ob: Object) -> bool
    requires { ObjectSound (parsed schema.now) ob }
    ensures { result ≡ true → Rs.RowObject (bytes_of schema.now) ob }
{
    match ob {
        Object::Table(t) => {
            let first = schema.packed.table_place(wire::index(t));
            all_row_members(
                schema.packed.bytes,
                first,
                schema::records(schema.packed.bytes, 4, first),
            )
        }
        Object::Text | Object::Bytes | Object::List(_) | Object::DirectList(_) => false,
    }
}

// Row table t, looked up once for all the tables of a list.
pub fn rows_of(schema: &Schema, t: u8) -> Rows
    requires { (ObjectSound (parsed schema.now) (Object.Table t)) × (Rs.RowObject (bytes_of schema.now) (Object.Table t)) }
    ensures { (result.table ≡ t) × Rs.RowTable (bytes_of schema.now) result }
{
    let i = wire::index(t);
    let first = schema.packed.table_place(i);
    Rows {
        table: t,
        id: schema.packed.table_id(i),
        first,
        count: schema::records(schema.packed.bytes, 4, first),
    }
}

// ---- any member
// Member j of table t, before which the cursor stands: where it leads, and the cursor behind it.
pub fn lead_member(reading: &Reading, t: usize, j: usize, x: Content, c: Cursor) -> SteppedMember
    requires in_bounds { (t < P.table_count (bytes_of reading.now.schema)) × (j < length (Sc.table_of (parsed reading.now.schema) t).members) × (j < 256) }
    requires length_in_bounds { (x.start + x.length ≤ length reading.now.message.now) × (Laid (4097 * j) c) }
    ensures { Rs.Led reading.now.schema.width (parsed reading.now.schema) reading.now.message.now t j x c result.step result.next }
{
    let at = schema::record_place(4, reading.schema.packed.table_place(t), j);
    let h = wire::index(wire::byte_in(reading.schema.packed.bytes, at));
    if is_plain(h) {
        return lead_number(reading.schema.packed.bytes, reading.message, at, x, c, h);
    }
    let r = reading.schema.packed.member(t, j);
    let part = coding::Content {
        start: x.start,
        length: x.length,
    };
    message_step::member_step::<{ message_step::LEAD }>(reading, part, c, r)
}
