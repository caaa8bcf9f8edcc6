// A sheet's entries: one walk over an accepted message counts their bits and, where there is room, stores them.
#![tactic(auto)]

ghost use Rattle.std.specs.Prelude.{◌≡◌, true, false, ◌+◌, ◌*◌, ◌<◌, ◌≤◌, ◌^◌, length, MatchOption};
ghost use Rattle.coding.specs.Packed as P;
ghost use Rattle.coding.specs.Layout as L;
ghost use Rattle.coding.specs.Schema as Sc;
ghost use Rattle.coding.specs.Structs as S;
ghost use Rattle.coding.specs.Walk as W;
ghost use Rattle.laws.specs.Sound.{FlatSound, KindSound};
ghost use Rattle.message_layout.specs.Bounds.{Laid};
ghost use Rattle.message_step.specs.Lead.{Sits};
ghost use Rattle.bitio.specs.Puts.{Room, Puts};
ghost use Rattle.sheet_values.specs.Marks as Marks;
ghost use Rattle.sheet_walk.specs.MessageBits as Bt;
ghost use Rattle.sheet_walk.specs.Readable as D;
ghost use Rattle.sheet_walk.specs.Clauses as C;
ghost use Rattle.sheet_walk.specs.Stepping.{Coded, Small, behind, IsHere};
ghost use Rattle.wire.specs.Sizes.{Width, HasOffsets, HasUnions};
ghost use Rattle.schema.specs.Parsed.{parsed, bytes_of};

use coding::{Content, Cursor, Flat, Kind, Member, Object, Place, Placement};
use message_step::Reach;
use schema::Reading;

pub mod fixed;

pub use fixed::FixedPart;

// ---- structs, by recursion on the struct index, which falls at every inner struct
// A member of struct i, which stands at `at`.
#[cycle(structs)]
#[tactic(auto, unfolding(crate::specs::MessageBits::field_at, crate::specs::MessageBits::struct_at, coding::specs::Sheet::field_bits, coding::specs::Sheet::flat_bits, coding::specs::Sheet::mark_bits, coding::specs::Read::step_read, coding::specs::Step::field_step, coding::specs::Step::enum_step, coding::specs::Value::as_number, coding::specs::Structs::flat_width, sheet_values::specs::Marks::enum_at, sheet_values::specs::Marks::marked))]
fn put_field(reading: &Reading, out: &mut [u8], i: usize, k: Flat, at: usize, pos: usize) -> usize
    requires room { Room out.old pos }
    requires sound { (FlatSound i k) × (i < P.struct_count (bytes_of reading.now.schema)) }
    requires k_in_bounds { at + S.flat_width (S.struct_size (parsed reading.now.schema)) k ≤ length reading.now.message.now }
    ensures { Puts out.old pos (C.field_bits (bytes_of reading.now.schema) reading.now.message.now k at) out.new result }
{
    match k {
        Flat::Boolean => bitio::write(out, pos, 1, u64::from(reading.message[at])),
        Flat::Integer(_, w) | Flat::Float(w) => {
            sheet_values::put_number(reading.message, out, pos, usize::from(w), at)
        }
        Flat::Enumerated(n) => sheet_values::put_enum(out, pos, n, reading.message[at]),
        Flat::Struct(a) => put_struct(reading, out, usize::from(a), at, pos),
    }
}

// The members of struct i, which stands at `at`, without a mark.
#[cycle(structs)]
fn put_struct(reading: &Reading, out: &mut [u8], i: usize, at: usize, pos: usize) -> usize
    requires room { Room out.old pos }
    requires in_bounds { i < P.struct_count (bytes_of reading.now.schema) }
    requires i_in_bounds { at + S.struct_size (parsed reading.now.schema) i ≤ length reading.now.message.now }
    ensures { Puts out.old pos (C.struct_bits (bytes_of reading.now.schema) reading.now.message.now i at) out.new result }
{
    let mut p = pos;
    let mut from = at;
    for j in 0..reading.schema.packed.field_count(i) {
        let k = reading.schema.packed.field(i, j);
        p = put_field(reading, out, i, k, from, p);
        from += message_layout::flat_width(&reading.schema, k);
    }
    p
}

// ---- objects
// The bytes of an object's header.
#[tactic(auto, unfolding(coding::specs::Walk::header_size))]
fn header_size(ob: Object, o: usize) -> usize
    requires { Width o }
    ensures { result ≡ W.header_size o ob }
{
    match ob {
        Object::Text => message_header::TextObject::header_size(o),
        Object::Bytes => message_header::BytesObject::header_size(o),
        Object::List(_) => message_header::ListObject::header_size(o),
        Object::Table(_) => message_header::TableObject::header_size(o),
        Object::DirectList(_) => message_header::DirectObject::header_size(o),
    }
}

// The content of an object at its place: where it starts, and the length that its header or its holder gives, which counts the
// elements of a list and the bytes of anything else.
#[tactic(auto, unfolding(crate::specs::Readable::start_of, crate::specs::Readable::length_of, crate::specs::Readable::HeaderInside, coding::specs::Walk::header_size))]
fn content_of(reading: &Reading, ob: Object, p: Place) -> Content
    requires { D.HeaderInside reading.now.schema.width reading.now.message.now ob p }
    ensures { (result.start ≡ D.start_of reading.now.schema.width ob p) × (result.length ≡ D.length_of reading.now.schema.width reading.now.message.now p) }
{
    match p {
        Place::ByOffset(x) => Content {
            start: x + header_size(ob, reading.schema.width),
            length: wire::offset_in(reading.message, x + wire::MAGIC, reading.schema.width),
        },
        Place::InPlace(start, length) => Content { start, length },
    }
}

// ---- values that lead to no object
// Struct i with its mark; its booleans are 0 or 1 in an accepted message.
#[tactic(auto, using(bitio::specs::PutsLaws::puts_then), unfolding(crate::specs::MessageBits::whole_at))]
fn put_whole(reading: &Reading, out: &mut [u8], i: usize, at: usize, pos: usize) -> usize
    requires room { Room out.old pos }
    requires in_bounds { i < P.struct_count (bytes_of reading.now.schema) }
    requires i_in_bounds { at + S.struct_size (parsed reading.now.schema) i ≤ length reading.now.message.now }
    requires at_value { S.struct_ok (parsed reading.now.schema) reading.now.message.now i at ≡ true }
    ensures { Puts out.old pos (C.whole_bits (bytes_of reading.now.schema) reading.now.message.now i at) out.new result }
{
    let p = bitio::write(out, pos, 2, 1);
    put_struct(reading, out, i, at, p)
}

// A value that stands at `at`, and a bool at its bit there: its mark, and what follows it. With `none` a NaN is no value.
#[tactic(auto, unfolding(crate::specs::MessageBits::flat_at, crate::specs::Readable::FlatReadable, coding::specs::Structs::flat_width, coding::specs::Bytes::bit_at))]
fn put_flat(
    reading: &Reading,
    out: &mut [u8],
    k: Flat,
    none: bool,
    at: usize,
    bit: usize,
    pos: usize,
) -> usize
    requires room { Room out.old pos }
    requires sound { FlatSound (length (parsed reading.now.schema).structs) k }
    requires k_in_bounds { (at + S.flat_width (S.struct_size (parsed reading.now.schema)) k ≤ length reading.now.message.now) × (bit < 8) × (at < 2 ^ 60) }
    requires flat_readable { D.FlatReadable (parsed reading.now.schema) reading.now.message.now k at }
    ensures { Puts out.old pos (C.flat_bits (bytes_of reading.now.schema) reading.now.message.now k none at bit) out.new result }
{
    let m = reading.message;
    match k {
        Flat::Boolean => sheet_values::put_marked(out, pos, 1, 1, wire::bit_value(m[at], bit)),
        Flat::Integer(_, w) => sheet_values::put_marked(
            out,
            pos,
            1,
            8 * usize::from(w),
            wire::number(m, at, usize::from(w)),
        ),
        Flat::Float(w) => sheet_values::put_float(
            out,
            pos,
            none,
            w,
            wire::number(m, at, usize::from(w)),
        ),
        Flat::Enumerated(n) => sheet_values::put_enum(out, pos, n, m[at]),
        Flat::Struct(i) => put_whole(reading, out, usize::from(i), at, pos),
    }
}

// The n elements of a list that lead to no object, which start at `at`. No list has structs.
#[tactic(auto, unfolding(crate::specs::MessageBits::flats_at))]
fn put_flats(m: &[u8], out: &mut [u8], f: Flat, at: usize, n: usize, pos: usize) -> usize
    requires room { Room out.old pos }
    requires flat_sound { (FlatSound 0 f) × (at < 2 ^ 58) × (n < 2 ^ 48) }
    ensures { Puts out.old pos (Bt.flats_at m.now f n at) out.new result }
{
    match f {
        Flat::Boolean => sheet_lists::put_bools(m, out, pos, at, n),
        Flat::Integer(_, w) => sheet_lists::put_numbers(m, out, pos, usize::from(w), at, n),
        Flat::Float(w) => sheet_lists::put_floats(m, out, pos, w, at, n),
        Flat::Enumerated(k) => sheet_lists::put_enums(m, out, pos, k, at, n),
        Flat::Struct(_) => pos,
    }
}

// A member that leads to no object, by its placement: its mark and what follows it, if its value is there.
#[tactic(auto, using(bitio::specs::PutsLaws::puts_none), unfolding(crate::specs::MessageBits::placed_at, crate::specs::MessageBits::member_at, crate::specs::MessageBits::value_at, crate::specs::Readable::ValueReadable, coding::specs::Layout::width))]
fn put_placed(fixed: &FixedPart, out: &mut [u8], r: Member, p: Placement, pos: usize) -> usize
    requires room { Room out.old pos }
    requires sound { KindSound (parsed fixed.now.reading.now.schema) r.kind }
    requires sits { Sits (L.width fixed.now.reading.now.schema.width (parsed fixed.now.reading.now.schema) r.kind) p }
    requires value_readable { IsHere fixed.now.reading.now.message.now fixed.now.part.start fixed.now.part.length p r → D.ValueReadable (parsed fixed.now.reading.now.schema) fixed.now.reading.now.message.now r.kind (fixed.now.part.start + p.value.at) }
    ensures { Puts out.old pos (C.placed_bits (bytes_of fixed.now.reading.now.schema) fixed.now.reading.now.message.now fixed.now.part.start fixed.now.part.length p r) out.new result }
{
    let part = fixed.part;
    let flagged = message_layout::has_flag(r);
    match message_step::reach_of(fixed.reading.message, part, p, flagged) {
        Reach::Here => match r.kind {
            Kind::OfFlat(f) => put_flat(
                fixed.reading,
                out,
                f,
                r.optional,
                part.start + p.value.at,
                p.value.bit,
                pos,
            ),
            Kind::OfObject(_) | Kind::OfUnion(_) => pos,
        },
        Reach::Cut | Reach::Past => bitio::write(out, pos, 2, 0),
    }
}

// ---- members by their records
// How a member is written by its record alone: a number of so many bytes, an integer behind its flag or what is not optional; a bool
// that is not optional; an optional float of so many bytes; an enum of so many values.
#[derive(Clone, Copy)]
pub enum Code {
    Number(bool, u8),
    Boolean,
    Float(u8),
    Enumerated(u8),
}

// The code of the member whose record stands at `at`, if its record alone is enough.
fn code_at(b: &[u8], at: usize) -> Option<Code>
    requires { at + 1 < length b.now }
    ensures { MatchOption result (Unit {0}) (λ q. Coded (P.member_at b.now at) q × Small q) }
{
    let k = schema::kind_at(b, at);
    if k == schema::KIND_ENUM {
        return Some(Code::Enumerated(schema::argument_at(b, at)));
    }
    if schema::KIND_ENUM <= k {
        return None;
    }
    if schema::optional_at(b, at) {
        return optional_code(k);
    }
    if k == schema::KIND_BOOL {
        return Some(Code::Boolean);
    }
    Some(Code::Number(false, schema::width_of(k)))
}

// The code of an optional bool, integer or float of kind k. A bool has none.
#[tactic(auto, unfolding(crate::specs::MessageBits::optional_code))]
fn optional_code(k: usize) -> Option<Code>
    requires { k < 11 }
    ensures { result ≡ Bt.optional_code k }
{
    if k == schema::KIND_BOOL {
        return None;
    }
    if k < schema::KIND_FLOAT {
        return Some(Code::Number(true, schema::width_of(k)));
    }
    Some(Code::Float(schema::width_of(k)))
}

// Where a number stands in the fixed part: an optional one behind its flag, and at the end if the flag says that there is none.
#[tactic(auto, unfolding(crate::specs::MessageBits::number_end, crate::specs::MessageBits::optional_end))]
fn number_end(fixed: &FixedPart, flagged: bool, c: Cursor) -> usize
    requires { Laid (2 ^ 57) c }
    ensures { (result ≡ Bt.number_end fixed.now.reading.now.message.now flagged fixed.now.part.start fixed.now.part.length c) × (result < 2 ^ 58) }
{
    if !flagged {
        return c.end;
    }
    let part = fixed.part;
    let at = message_layout::bit_byte(c);
    if at < part.length
        && wire::bit_in(
            fixed.reading.message,
            part.start + at,
            message_layout::bit_index(c),
        )
    {
        let next = message_layout::after_bit(c);
        return next.end;
    }
    part.length
}

// A bool that is not optional, where the cursor stands.
#[tactic(auto, unfolding(crate::specs::MessageBits::bool_at, coding::specs::Bytes::bit_at))]
fn put_bool(fixed: &FixedPart, out: &mut [u8], c: Cursor, pos: usize) -> usize
    requires room { Room out.old pos }
    requires laid { Laid (2 ^ 57) c }
    ensures { Puts out.old pos (Bt.bool_at fixed.now.reading.now.message.now fixed.now.part.start fixed.now.part.length c) out.new result }
{
    let part = fixed.part;
    let at = message_layout::bit_byte(c);
    if part.length <= at {
        return bitio::write(out, pos, 2, 0);
    }
    let m = fixed.reading.message;
    let x = wire::bit_value(m[part.start + at], message_layout::bit_index(c));
    sheet_values::put_marked(out, pos, 1, 1, x)
}

// An optional float of w bytes, where the cursor stands.
#[tactic(auto, unfolding(crate::specs::MessageBits::optional_float_at))]
fn put_optional_float(fixed: &FixedPart, out: &mut [u8], w: u8, c: Cursor, pos: usize) -> usize
    requires room { Room out.old pos }
    requires laid { Laid (2 ^ 57) c × (w ≤ 8) }
    ensures { Puts out.old pos (Bt.optional_float_at fixed.now.reading.now.message.now w fixed.now.part.start fixed.now.part.length c) out.new result }
{
    let part = fixed.part;
    let width = usize::from(w);
    if part.length < c.end + width {
        return bitio::write(out, pos, 2, 0);
    }
    let x = wire::number(fixed.reading.message, part.start + c.end, width);
    sheet_values::put_float(out, pos, true, w, x)
}

// An enum of n values, where the cursor stands.
#[tactic(auto, unfolding(crate::specs::MessageBits::enumerated_at))]
fn put_enumerated(fixed: &FixedPart, out: &mut [u8], n: u8, c: Cursor, pos: usize) -> usize
    requires room { Room out.old pos }
    requires laid { Laid (2 ^ 57) c }
    ensures { Puts out.old pos (Bt.enumerated_at fixed.now.reading.now.message.now n fixed.now.part.start fixed.now.part.length c) out.new result }
{
    let part = fixed.part;
    if part.length <= c.end {
        return bitio::write(out, pos, 2, 0);
    }
    let m = fixed.reading.message;
    sheet_values::put_enum(out, pos, n, m[part.start + c.end])
}

// A member by its code, where the cursor stands.
#[tactic(auto, unfolding(crate::specs::MessageBits::coded_at))]
fn put_coded(fixed: &FixedPart, out: &mut [u8], code: Code, c: Cursor, pos: usize) -> usize
    requires room { Room out.old pos }
    requires laid { Laid (2 ^ 57) c × Small code }
    ensures { Puts out.old pos (Bt.coded_at fixed.now.reading.now.message.now code fixed.now.part.start fixed.now.part.length c) out.new result }
{
    match code {
        Code::Number(flagged, w) => {
            let part = fixed.part;
            let end = number_end(fixed, flagged, c);
            sheet_values::put_plain(
                fixed.reading.message,
                out,
                usize::from(w),
                part.start,
                part.length,
                end,
                pos,
            )
        }
        Code::Boolean => put_bool(fixed, out, c, pos),
        Code::Float(w) => put_optional_float(fixed, out, w, c, pos),
        Code::Enumerated(n) => put_enumerated(fixed, out, n, c, pos),
    }
}

// The cursor behind a member by its code.
#[tactic(auto, unfolding(crate::specs::Stepping::behind))]
fn behind_coded(c: Cursor, code: Code) -> Cursor
    requires { Laid (2 ^ 57) c }
    ensures { result ≡ behind code c }
{
    match code {
        Code::Number(flagged, w) => {
            message_layout::after_bytes(message_layout::after_flag(flagged, c), usize::from(w))
        }
        Code::Boolean => message_layout::after_bit(c),
        Code::Float(w) => message_layout::after_bytes(c, usize::from(w)),
        Code::Enumerated(_) => message_layout::after_bytes(c, 1),
    }
}

// The bytes of a member that leads to an object, by its kind.
#[tactic(auto, unfolding(crate::specs::MessageBits::lead_width))]
fn lead_width(k: usize, o: usize) -> usize
    requires { Width o }
    ensures { (result ≡ Bt.lead_width o k) × (0 < result) × (result ≤ 8) }
{
    if schema::is_union_kind(k) {
        wire::union_size(o)
    } else {
        o
    }
}

// The object or the choice that the member of the record at `at` leads to, where the cursor stands.
#[cycle(walk)]
fn put_lead(fixed: &FixedPart, out: &mut [u8], d: usize, at: usize, c: Cursor, pos: usize) -> usize
    requires room { Room out.old pos }
    requires sound { (at + 1 < length (bytes_of fixed.now.reading.now.schema)) × (KindSound (parsed fixed.now.reading.now.schema) (P.member_at (bytes_of fixed.now.reading.now.schema) at).kind) }
    requires length_in_bounds { (12 < P.kind_at (bytes_of fixed.now.reading.now.schema) at) × (c.end < 2 ^ 58) }
    requires lead_readable { C.LeadReadable fixed.now.reading.now.schema.width d (bytes_of fixed.now.reading.now.schema) fixed.now.reading.now.message.now at fixed.now.part.start fixed.now.part.length c }
    ensures { Puts out.old pos (C.lead_bits fixed.now.reading.now.schema.width d (bytes_of fixed.now.reading.now.schema) fixed.now.reading.now.message.now at fixed.now.part.start fixed.now.part.length c) out.new result }
{
    let reading = fixed.reading;
    let part = fixed.part;
    let b = reading.schema.packed.bytes;
    let k = schema::kind_at(b, at);
    if part.length < c.end + lead_width(k, reading.schema.width) {
        return bitio::write(out, pos, 2, 0);
    }
    let inplace = schema::inplace_at(b, at);
    let tail = part.start + part.length;
    let from = part.start + c.end;
    if schema::is_union_kind(k) {
        let u = usize::from(schema::argument_at(b, at));
        let i = wire::u16_in(reading.message, from) as usize;
        let x = wire::offset_in(reading.message, from + wire::CHOICE, reading.schema.width);
        return put_union(
            reading,
            out,
            d,
            u,
            i,
            message_step::place_of(inplace, tail, x),
            pos,
        );
    }
    let x = wire::offset_in(reading.message, from, reading.schema.width);
    if x == 0 {
        return bitio::write(out, pos, 2, 0);
    }
    let ob = schema::object_at(b, at);
    let place = message_step::place_of(inplace, tail, x);
    if schema::is_blob(ob) {
        let blob = content_of(reading, ob, place);
        return sheet_values::put_blob(reading.message, out, pos, blob.start, blob.length);
    }
    put_present(reading, out, d, ob, place, pos)
}

// ---- objects by their places
// The object at a place, with its mark.
#[cycle(walk)]
fn put_present(
    reading: &Reading,
    out: &mut [u8],
    d: usize,
    ob: Object,
    place: Place,
    pos: usize,
) -> usize
    requires room { Room out.old pos }
    requires object_readable { C.ObjectReadable reading.now.schema.width d (bytes_of reading.now.schema) reading.now.message.now ob place }
    ensures { Puts out.old pos (C.present_bits reading.now.schema.width d (bytes_of reading.now.schema) reading.now.message.now ob place) out.new result }
{
    let p = bitio::write(out, pos, 2, 1);
    put_object(reading, out, d, ob, place, p)
}

// What choice c of union u leads to, which stands at a place, with its mark.
#[cycle(walk)]
fn put_union(
    reading: &Reading,
    out: &mut [u8],
    d: usize,
    u: usize,
    c: usize,
    place: Place,
    pos: usize,
) -> usize
    requires room { Room out.old pos }
    requires in_bounds { u < P.union_count (bytes_of reading.now.schema) }
    requires step_readable { C.StepReadable reading.now.schema.width d (bytes_of reading.now.schema) reading.now.message.now (Bt.choice_step (Sc.cases_of (parsed reading.now.schema) u) c place) }
    ensures { Puts out.old pos (C.choice_bits reading.now.schema.width d (bytes_of reading.now.schema) reading.now.message.now u c place) out.new result }
{
    if c == 0 {
        return bitio::write(out, pos, 2, 0);
    }
    if reading.schema.packed.case_count(u) < c {
        return sheet_values::put_marked(out, pos, 2, 16, sheet_values::number64(c));
    }
    let ob = reading.schema.packed.union_case(u, c);
    let p = sheet_values::put_marked(out, pos, 1, 16, sheet_values::number64(c));
    put_object(reading, out, d, ob, place, p)
}

// The object at a place, with d objects of depth left, this one counted.
#[cycle(walk)]
fn put_object(
    reading: &Reading,
    out: &mut [u8],
    d: usize,
    ob: Object,
    place: Place,
    pos: usize,
) -> usize
    requires room { Room out.old pos }
    requires object_readable { C.ObjectReadable reading.now.schema.width d (bytes_of reading.now.schema) reading.now.message.now ob place }
    ensures { Puts out.old pos (C.object_bits reading.now.schema.width d (bytes_of reading.now.schema) reading.now.message.now ob place) out.new result }
{
    if d == 0 {
        return pos;
    }
    let at = message_object::placed(place);
    let part = content_of(reading, ob, place);
    put_content(reading, out, d - 1, ob, at, part, pos)
}

// The content of the object at `at`; d objects of depth are left below it.
#[cycle(walk)]
fn put_content(
    reading: &Reading,
    out: &mut [u8],
    d: usize,
    ob: Object,
    at: usize,
    part: Content,
    pos: usize,
) -> usize
    requires room { Room out.old pos }
    requires in_bounds { at < 2 ^ 60 }
    requires content_readable { C.ContentReadable reading.now.schema.width d (bytes_of reading.now.schema) reading.now.message.now ob at part.start part.length }
    ensures { Puts out.old pos (C.content_bits reading.now.schema.width d (bytes_of reading.now.schema) reading.now.message.now ob at part.start part.length) out.new result }
{
    match ob {
        Object::Text | Object::Bytes => bitio::write_blob(
            reading.message,
            out,
            pos,
            part.start,
            part.length,
        ),
        Object::List(i) => put_list(reading, out, d, usize::from(i), part, pos),
        Object::Table(t) => put_table(reading, out, d, usize::from(t), part, pos),
        Object::DirectList(t) => {
            let w = message_header::element_size(reading.message, at, reading.schema.width);
            put_directs(reading, out, d, t, w, part, pos)
        }
    }
}

// The members of table t, which has this fixed part.
#[cycle(walk)]
fn put_table(
    reading: &Reading,
    out: &mut [u8],
    d: usize,
    t: usize,
    part: Content,
    pos: usize,
) -> usize
    requires room { Room out.old pos }
    requires in_bounds { (t < P.table_count (bytes_of reading.now.schema)) × (part.start + part.length ≤ length reading.now.message.now) }
    requires table_readable { C.TableReadable reading.now.schema.width d (bytes_of reading.now.schema) reading.now.message.now t part.start part.length }
    ensures { Puts out.old pos (C.table_bits reading.now.schema.width d (bytes_of reading.now.schema) reading.now.message.now t part.start part.length) out.new result }
{
    let fixed = FixedPart { reading, part };
    let b = reading.schema.packed.bytes;
    let first = reading.schema.packed.table_place(t);
    let mut c = message_layout::begin();
    let mut p = pos;
    for j in 0..reading.schema.packed.member_count(t) {
        if sheet_values::MOST < p {
            return p;
        }
        let at = schema::record_place(schema::TABLE_HEAD, first, j);
        if let Some(code) = code_at(b, at) {
            p = put_coded(&fixed, out, code, c, p);
            c = behind_coded(c, code);
            continue;
        }
        let k = schema::kind_at(b, at);
        if !schema::is_flat_kind(k) {
            p = put_lead(&fixed, out, d, at, c, p);
            c = message_layout::after_bytes(c, lead_width(k, reading.schema.width));
            continue;
        }
        let r = schema::member_at(b, at);
        let placed = message_layout::place_member(&reading.schema, r, c);
        p = put_placed(&fixed, out, r, placed.placement, p);
        c = placed.next;
    }
    p
}

// The elements of a direct list of table t, each of w bytes, behind their count. Their table has a member, so that each takes bits, and
// the loop ends soon past the limit, however many they are.
#[cycle(walk)]
fn put_directs(
    reading: &Reading,
    out: &mut [u8],
    d: usize,
    t: u8,
    w: usize,
    part: Content,
    pos: usize,
) -> usize
    requires room { Room out.old pos }
    requires in_bounds { part.start + w * part.length ≤ length reading.now.message.now }
    requires directs_readable { C.DirectsReadable reading.now.schema.width d (bytes_of reading.now.schema) reading.now.message.now t w part.length part.start }
    ensures { Puts out.old pos (C.direct_bits reading.now.schema.width d (bytes_of reading.now.schema) reading.now.message.now t w part.length part.start) out.new result }
{
    let mut p = bitio::write(out, pos, 32, sheet_values::number64(part.length));
    for j in 0..part.length {
        if sheet_values::MOST < p {
            return p;
        }
        let place = Place::InPlace(part.start + w * j, w);
        p = put_object(reading, out, d, Object::Table(t), place, p);
    }
    p
}

// The elements of list i, behind their count.
#[cycle(walk)]
fn put_list(
    reading: &Reading,
    out: &mut [u8],
    d: usize,
    i: usize,
    part: Content,
    pos: usize,
) -> usize
    requires room { Room out.old pos }
    requires in_bounds { i < P.list_count (bytes_of reading.now.schema) }
    requires list_inside { C.ListInside reading.now.schema.width (bytes_of reading.now.schema) reading.now.message.now i part.start part.length }
    requires list_readable { C.ListReadable reading.now.schema.width d (bytes_of reading.now.schema) reading.now.message.now i part.start part.length }
    ensures { Puts out.old pos (C.list_bits reading.now.schema.width d (bytes_of reading.now.schema) reading.now.message.now i part.start part.length) out.new result }
{
    let m = reading.message;
    let k = reading.schema.packed.element(i);
    if let Kind::OfFlat(Flat::Integer(_, 1)) = k {
        return bitio::write_blob(m, out, pos, part.start, part.length);
    }
    let p = bitio::write(out, pos, 32, sheet_values::number64(part.length));
    match k {
        Kind::OfFlat(f) => put_flats(m, out, f, part.start, part.length, p),
        Kind::OfObject(ob) => put_references(reading, out, d, ob, part, p),
        Kind::OfUnion(u) => put_choices(reading, out, d, usize::from(u), part, p),
    }
}

// The objects of a list, by their offsets.
#[cycle(walk)]
fn put_references(
    reading: &Reading,
    out: &mut [u8],
    d: usize,
    ob: Object,
    part: Content,
    pos: usize,
) -> usize
    requires room { Room out.old pos }
    requires given { HasOffsets reading.now.schema.width reading.now.message.now part.start part.length }
    requires elements_readable { C.ElementsReadable reading.now.schema.width d (bytes_of reading.now.schema) reading.now.message.now (Kind.OfObject ob) part.start part.length }
    ensures { Puts out.old pos (C.elements_bits reading.now.schema.width d (bytes_of reading.now.schema) reading.now.message.now (Kind.OfObject ob) part.start part.length) out.new result }
{
    let w = reading.schema.width;
    let mut p = pos;
    for j in 0..part.length {
        if sheet_values::MOST < p {
            return p;
        }
        let x = wire::offset_in(reading.message, part.start + w * j, w);
        if x == 0 {
            p = bitio::write(out, p, 2, 0);
            continue;
        }
        p = put_present(reading, out, d, ob, Place::ByOffset(x), p);
    }
    p
}

// The choices of a list of union u.
#[cycle(walk)]
fn put_choices(
    reading: &Reading,
    out: &mut [u8],
    d: usize,
    u: usize,
    part: Content,
    pos: usize,
) -> usize
    requires room { Room out.old pos }
    requires in_bounds { (u < P.union_count (bytes_of reading.now.schema)) × (HasUnions reading.now.schema.width reading.now.message.now part.start part.length) }
    requires elements_readable { C.ElementsReadable reading.now.schema.width d (bytes_of reading.now.schema) reading.now.message.now (Kind.OfUnion u) part.start part.length }
    ensures { Puts out.old pos (C.elements_bits reading.now.schema.width d (bytes_of reading.now.schema) reading.now.message.now (Kind.OfUnion u) part.start part.length) out.new result }
{
    let m = reading.message;
    let w = wire::union_size(reading.schema.width);
    let mut p = pos;
    for j in 0..part.length {
        if sheet_values::MOST < p {
            return p;
        }
        let at = part.start + w * j;
        let c = wire::u16_in(m, at) as usize;
        let x = wire::offset_in(m, at + wire::CHOICE, reading.schema.width);
        p = put_union(reading, out, d, u, c, Place::ByOffset(x), p);
    }
    p
}

// ---- the whole sheet
// The root's bits, where there is room, and where they end.
pub fn put_root(reading: &Reading, out: &mut [u8]) -> usize
    requires room { Room out.old 0 }
    requires readable { C.MessageReadable reading.now.schema.width (bytes_of reading.now.schema) reading.now.message.now }
    ensures { Puts out.old 0 (C.root_bits reading.now.schema.width (bytes_of reading.now.schema) reading.now.message.now) out.new result }
{
    let ob = message_start::root_object(&reading.schema);
    let p = message_start::root_place(reading.message, reading.schema.width);
    put_object(reading, out, 32, ob, p, 0)
}
