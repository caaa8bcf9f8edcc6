// The pass that stores a message from a value sheet.
#![tactic(auto)]

ghost use Rattle.std.specs.Prelude.{◌≡◌, [], ◌∷◌, Bool, true, false, ◌&&◌, not, ℕ, ◌+◌, ◌-◌, ◌*◌, ◌%◌, ◌<◌, ◌≤◌, ◌^◌, length, drop};
ghost use Rattle.coding.specs.Bytes as B;
ghost use Rattle.coding.specs.Bits.{bits};
ghost use Rattle.coding.specs.Lists.{pick};
ghost use Rattle.coding.specs.Packed as P;
ghost use Rattle.coding.specs.Schema as Sc;
ghost use Rattle.coding.specs.Sheet as Sh;
ghost use Rattle.coding.specs.Walk as W;
ghost use Rattle.laws.specs.Sound.{FlatSound, ObjectSound, KindSound, FlatScalar, NoStruct};
ghost use Rattle.write_measure.specs.Survey as Sv;
ghost use Rattle.write_measure.specs.Surveyed.{Small};
ghost use Rattle.write_store.specs.State as St;
ghost use Rattle.write_store.specs.Storing.{state_of, HeldOk, BitPut, Stood};
ghost use Rattle.write_pass.specs.EmitSheet as Es;
ghost use Rattle.write_pass.specs.Measure.{MeasuredAt, MeasuredContent, any_in_place, KnownSize};
ghost use Rattle.write_pass.specs.EmitRun.{emit_run, emit_unmarked, emit_flats};
ghost use Rattle.schema.specs.Kinds.{is_blob};
ghost use Rattle.write_measure.specs.SurveyBy.{Inside};
ghost use Rattle.write_pass.specs.EmitBy as By;
ghost use Rattle.write_pass.specs.Emitting as Eg;
ghost use Rattle.write_pass.specs.Emitting.{Room, EmittedAt};
ghost use Rattle.wire.specs.Sizes.{WithinSize, Width};
ghost use Rattle.schema.specs.Parsed.{parsed, bytes_of};

use coding::{Flat, Kind, Member, Object};
use message_header::{BytesObject, DirectObject, ListObject, TableObject, TextObject};
use schema::Schema;
use write_measure::{Extent, Mark};
use write_store::Places;

// ---- flat values: bools, numbers, enums and structs, which lead to no object
// Where the message goes on behind what was stored of it, and where the sheet does.
#[derive(Clone, Copy)]
pub struct Emitted {
    pub places: Places,
    pub next: usize,
}

// Behind what was stored, field by field, for speed: the message goes on at c, the sheet at `next`.
fn behind(c: Places, next: usize) -> Emitted
    ensures { result ≡ record { places = c; next = next } }
{
    Emitted {
        places: write_store::copied(c),
        next,
    }
}

// The same, field by field, for speed.
fn kept(x: Emitted) -> Emitted
    ensures { result ≡ x }
{
    behind(x.places, x.next)
}

// A number of w bytes.
fn emit_number(s: &[u8], out: &mut [u8], w: usize, from: Emitted) -> Option<Emitted>
    requires w_bound { w ≤ 8 }
    requires room { Room s.now from }
    ensures { By.Emits s.now from (Es.emit_number (8 * w) (St.put_number w)) out.old 0 result out.new }
{
    let x = bitio::take_number(s, from.next, 8 * w)?;
    let p = write_store::put_number(out, from.places, w, x.value);
    Some(behind(p, x.next))
}

// A bool into the next free bit.
fn emit_bit(s: &[u8], out: &mut [u8], from: Emitted) -> Option<Emitted>
    requires { Room s.now from }
    ensures { By.Emits s.now from (Es.emit_number 1 St.put_bit) out.old 0 result out.new }
{
    let x = bitio::take_number(s, from.next, 1)?;
    let p = write_store::put_bit(out, from.places, x.value as usize);
    Some(behind(p, x.next))
}

// A struct's bool: a byte.
fn emit_bool(s: &[u8], out: &mut [u8], from: Emitted) -> Option<Emitted>
    requires { Room s.now from }
    ensures { By.Emits s.now from (Es.emit_number 1 St.put_byte) out.old 0 result out.new }
{
    let x = bitio::take_number(s, from.next, 1)?;
    let p = write_store::put_byte(out, from.places, x.value as u8);
    Some(behind(p, x.next))
}

// An enum's number below its count.
#[inline(always)]
fn emit_enum(s: &[u8], out: &mut [u8], n: u8, from: Emitted) -> Option<Emitted>
    requires { Room s.now from }
    ensures { By.Emits s.now from (Es.emit_if 8 (Sv.below_count n) St.put_byte) out.old 0 result out.new }
{
    let x = bitio::take_number(s, from.next, 8)?;
    let v = x.value;
    if v < u64::from(n) {
        let p = write_store::put_byte(out, from.places, v as u8);
        return Some(behind(p, x.next));
    }
    None
}

// An enum's unknown number, passed over.
#[inline(always)]
fn pass_enum(s: &[u8], out: &mut [u8], n: u8, from: Emitted) -> Option<Emitted>
    requires { Room s.now from }
    ensures { By.Emits s.now from (Es.emit_if 8 (Sh.unknown_enum n) Es.put_nothing) out.old 0 result out.new }
{
    let x = bitio::take_number(s, from.next, 8)?;
    if write_measure::is_unknown_enum(n, x.value) {
        return Some(behind(from.places, x.next));
    }
    None
}

// An enum of a struct or of a list: its mark, and its number; 255 where there is no known one.
#[inline(always)]
fn emit_marked_enum(s: &[u8], out: &mut [u8], n: u8, from: Emitted) -> Option<Emitted>
    requires { Room s.now from }
    ensures { By.Emits s.now from (Eg.emit_marked_enum n) out.old 0 result out.new }
{
    let m = write_measure::take_mark(s, from.next)?;
    match m.mark {
        Mark::Absent => {
            let p = write_store::put_byte(out, from.places, 255);
            Some(behind(p, m.next))
        }
        Mark::Present => emit_enum(s, out, n, behind(from.places, m.next)),
        Mark::Unknown => {
            let p = write_store::put_byte(out, from.places, 255);
            pass_enum(s, out, n, behind(p, m.next))
        }
    }
}

// ---- structs, by recursion on the struct index, which falls at every inner struct
// A member of struct i, of kind k.
#[cycle(structs)]
fn emit_field(
    schema: &Schema,
    s: &[u8],
    out: &mut [u8],
    i: usize,
    k: Flat,
    from: Emitted,
) -> Option<Emitted>
    requires sound { (FlatSound i k) × (i < P.struct_count (bytes_of schema.now)) }
    requires room { Room s.now from }
    ensures { By.Emits s.now from (By.field (bytes_of schema.now) k) out.old 0 result out.new }
{
    match k {
        Flat::Boolean => emit_bool(s, out, from),
        Flat::Integer(_, w) => emit_number(s, out, usize::from(w), from),
        Flat::Float(w) => emit_number(s, out, usize::from(w), from),
        Flat::Enumerated(n) => emit_marked_enum(s, out, n, from),
        Flat::Struct(a) => emit_struct(schema, s, out, usize::from(a), from),
    }
}

// Struct i: its members joined.
#[cycle(structs)]
fn emit_struct(
    schema: &Schema,
    s: &[u8],
    out: &mut [u8],
    i: usize,
    from: Emitted,
) -> Option<Emitted>
    requires in_bounds { i < P.struct_count (bytes_of schema.now) }
    requires room { Room s.now from }
    ensures { By.Emits s.now from (By.struct (bytes_of schema.now) i) out.old 0 result out.new }
{
    let n = schema.packed.field_count(i);
    let mut at = from;
    for j in 0..n {
        let k = schema.packed.field(i, j);
        at = kept(emit_field(schema, s, out, i, k, at)?);
    }
    Some(kept(at))
}

// A flat value of a member or an element, present, behind its mark.
fn emit_flat(schema: &Schema, s: &[u8], out: &mut [u8], k: Flat, from: Emitted) -> Option<Emitted>
    requires sound { FlatSound (length (parsed schema.now).structs) k }
    requires room { Room s.now from }
    ensures { By.Emits s.now from (By.flat (bytes_of schema.now) k) out.old 0 result out.new }
{
    match k {
        Flat::Boolean => emit_bit(s, out, from),
        Flat::Integer(_, w) => emit_number(s, out, usize::from(w), from),
        Flat::Float(w) => emit_number(s, out, usize::from(w), from),
        Flat::Enumerated(n) => emit_enum(s, out, n, from),
        Flat::Struct(a) => emit_struct(schema, s, out, usize::from(a), from),
    }
}

// ---- no value
// The bits of an absent float.
fn no_float(w: u8) -> u64
    ensures { result ≡ B.no_float w }
{
    if w == 4 {
        return 0x7FC0_0000;
    }
    0x7FF8_0000_0000_0000
}

// What stands for a flat value that is absent: 255 for an enum, a NaN for a float, else zeros.
fn lack_flat(schema: &Schema, out: &mut [u8], k: Flat, c: Places) -> Places
    requires { (FlatSound (length (parsed schema.now).structs) k) × HeldOk c × (c.at < 2 ^ 61) }
    ensures { Eg.Lacks (Es.lack_flat (parsed schema.now) k (state_of c out.old)) (state_of result out.new) c result }
{
    match k {
        Flat::Boolean => write_store::put_bit(out, c, 0),
        Flat::Integer(_, w) => write_store::put_number(out, c, usize::from(w), 0),
        Flat::Float(w) => write_store::put_number(out, c, usize::from(w), no_float(w)),
        Flat::Enumerated(_) => write_store::put_byte(out, c, 255),
        Flat::Struct(a) => write_store::put_zeros(out, c, schema.stored_size(usize::from(a))),
    }
}

// What stands for a member or an element that is absent.
fn lack(schema: &Schema, out: &mut [u8], k: Kind, c: Places) -> Places
    requires { (KindSound (parsed schema.now) k) × HeldOk c × (c.at < 2 ^ 61) }
    ensures { Eg.Lacks (Es.lack schema.now.width (parsed schema.now) k (state_of c out.old)) (state_of result out.new) c result }
{
    match k {
        Kind::OfFlat(f) => lack_flat(schema, out, f, c),
        Kind::OfObject(_) => write_store::put_offset(out, c, 0, schema.width),
        Kind::OfUnion(_) => write_store::put_number(out, c, wire::union_size(schema.width), 0),
    }
}

// The unknown number of a flat value, which only an enum can have, passed over.
fn pass_flat(s: &[u8], out: &mut [u8], k: Flat, from: Emitted) -> Option<Emitted>
    requires { Room s.now from }
    ensures { By.Emits s.now from (Es.pass_flat k) out.old 0 result out.new }
{
    match k {
        Flat::Enumerated(n) => pass_enum(s, out, n, from),
        _ => None,
    }
}

// The unknown choice of union u, passed over.
fn pass_choice(
    schema: &Schema,
    s: &[u8],
    out: &mut [u8],
    u: usize,
    from: Emitted,
) -> Option<Emitted>
    requires in_bounds { u < P.union_count (bytes_of schema.now) }
    requires room { Room s.now from }
    ensures { By.Emits s.now from (By.unknown_choice (bytes_of schema.now) u) out.old 0 result out.new }
{
    let n = schema.packed.case_count(u);
    let x = bitio::take_number(s, from.next, 16)?;
    if (n as u64) < x.value {
        return Some(behind(from.places, x.next));
    }
    None
}

// The unknown number of a member or an element, passed over: an enum's, or a union's choice.
fn pass(schema: &Schema, s: &[u8], out: &mut [u8], k: Kind, from: Emitted) -> Option<Emitted>
    requires sound { KindSound (parsed schema.now) k }
    requires room { Room s.now from }
    ensures { By.Emits s.now from (By.unknown (bytes_of schema.now) k) out.old 0 result out.new }
{
    match k {
        Kind::OfFlat(f) => pass_flat(s, out, f, from),
        Kind::OfObject(_) => None,
        Kind::OfUnion(u) => pass_choice(schema, s, out, usize::from(u), from),
    }
}

// ---- elements with a mark that lead to no object
// A list's float of w bytes: its mark, and its number; a NaN where there is none.
#[inline(always)]
fn emit_marked_float(s: &[u8], out: &mut [u8], w: u8, from: Emitted) -> Option<Emitted>
    requires w_bound { w ≤ 8 }
    requires room { Room s.now from }
    ensures { By.Emits s.now from (Eg.emit_marked_float w) out.old 0 result out.new }
{
    let m = write_measure::take_mark(s, from.next)?;
    match m.mark {
        Mark::Absent => {
            let p = write_store::put_number(out, from.places, usize::from(w), no_float(w));
            Some(behind(p, m.next))
        }
        Mark::Present => emit_number(s, out, usize::from(w), behind(from.places, m.next)),
        Mark::Unknown => None,
    }
}

// An element that is a float or an enum, with its mark: no other flat element has one.
#[inline(always)]
fn emit_marked_flat(
    schema: &Schema,
    s: &[u8],
    out: &mut [u8],
    k: Flat,
    from: Emitted,
) -> Option<Emitted>
    requires flat_sound { (FlatSound (length (parsed schema.now).structs) k) × (FlatScalar k) × (Sh.flat_unmarked k ≡ false) }
    requires room { Room s.now from }
    ensures { By.Emits s.now from (Eg.emit_marked_flat (parsed schema.now) k) out.old 0 result out.new }
{
    match k {
        Flat::Float(w) => emit_marked_float(s, out, w, from),
        Flat::Enumerated(n) => emit_marked_enum(s, out, n, from),
        _ => None,
    }
}

// n elements that are floats or enums, with their marks.
fn emit_flats(
    schema: &Schema,
    s: &[u8],
    out: &mut [u8],
    k: Flat,
    n: usize,
    from: Emitted,
) -> Option<Emitted>
    requires flat_sound { (FlatSound (length (parsed schema.now).structs) k) × (FlatScalar k) × (Sh.flat_unmarked k ≡ false) }
    requires room { Room s.now from }
    ensures { By.Emits s.now from (emit_flats (parsed schema.now) k n) out.old 0 result out.new }
{
    let mut at = from;
    for _j in 0..n {
        at = kept(emit_marked_flat(schema, s, out, k, at)?);
    }
    Some(kept(at))
}

// ---- elements without a mark
// n numbers of w bytes each.
fn emit_run(s: &[u8], out: &mut [u8], w: usize, n: usize, from: Emitted) -> Option<Emitted>
    requires w_bound { w ≤ 8 }
    requires room { Room s.now from }
    ensures { By.Emits s.now from (emit_run (8 * w) (St.put_number w) n) out.old 0 result out.new }
{
    let mut done: usize = 0;
    let mut next = from.next;
    for _j in 0..n {
        let x = bitio::take_number(s, next, 8 * w)?;
        write_store::store_number(out, from.places.at + done, w, x.value);
        next = x.next;
        done += w;
    }
    Some(behind(write_store::forward(from.places, done), next))
}

// n bools, each into the next free bit; eight at once where they fill a byte.
fn emit_bits(s: &[u8], out: &mut [u8], n: usize, from: Emitted) -> Option<Emitted>
    requires { Room s.now from }
    ensures { By.Emits s.now from (emit_run 1 St.put_bit n) out.old 0 result out.new }
{
    let mut at = from;
    let mut left = n;
    // Kept: a turn takes one bool or eight, which no range counts.
    while 0 < left {
        if 8 <= left && at.places.free == 0 {
            let y = bitio::take_number(s, at.next, 8)?;
            let p = write_store::put_octet(out, at.places, bits::reversed(y.value as u8));
            at = behind(p, y.next);
            left -= 8;
            continue;
        }
        let x = bitio::take_number(s, at.next, 1)?;
        let p = write_store::put_bit(out, at.places, x.value as usize);
        at = behind(p, x.next);
        left -= 1;
    }
    Some(kept(at))
}

// n integers of w bytes, or n bools where w is 0. Each width is named for speed: the compiler makes a loop for each.
fn emit_unmarked(s: &[u8], out: &mut [u8], w: usize, n: usize, from: Emitted) -> Option<Emitted>
    requires w_bound { w ≤ 8 }
    requires room { Room s.now from }
    ensures { By.Emits s.now from (emit_unmarked w n) out.old 0 result out.new }
{
    match w {
        0 => emit_bits(s, out, n, from),
        8 => emit_run(s, out, 8, n, from),
        4 => emit_run(s, out, 4, n, from),
        2 => emit_run(s, out, 2, n, from),
        _ => emit_run(s, out, w, n, from),
    }
}

// ---- what an object needs around its content
// What was copied of a text or bytes: how many bytes, and where the sheet goes on.
#[derive(Clone, Copy)]
pub struct Copied {
    pub length: usize,
    pub next: usize,
}

// The length of a text or bytes, and its own bytes, which are stored from `to` on.
fn copy_blob(s: &[u8], out: &mut [u8], to: usize, pos: usize) -> Option<Copied>
    requires { (Inside s.now pos) × (to < 2 ^ 61) }
    ensures { Eg.CopiedAt s.now out.old pos to result out.new }
{
    let x = bitio::take_number(s, pos, 32)?;
    let length = x.value as usize;
    let next = bitio::skip_bytes(s, x.next, length)?;
    write_store::store_copy(s, x.next, out, to, length);
    Some(Copied { length, next })
}

// The content of bytes.
fn emit_bytes(s: &[u8], out: &mut [u8], from: Emitted) -> Option<Emitted>
    requires { Room s.now from }
    ensures { By.Emits s.now from (Es.emit_blob []) out.old 0 result out.new }
{
    let x = copy_blob(s, out, from.places.at, from.next)?;
    Some(behind(write_store::forward(from.places, x.length), x.next))
}

// The content of a text, which has a zero byte behind its own.
fn emit_text(s: &[u8], out: &mut [u8], from: Emitted) -> Option<Emitted>
    requires { Room s.now from }
    ensures { By.Emits s.now from (Es.emit_blob (0 ∷ [])) out.old 0 result out.new }
{
    let x = copy_blob(s, out, from.places.at, from.next)?;
    let p = write_store::forward(from.places, x.length);
    let q = write_store::put_byte(out, p, 0);
    Some(behind(q, x.next))
}

// The flag x of a member, if it has a flag.
fn flag(out: &mut [u8], r: Member, x: usize, c: Places) -> Places
    requires { (x < 2) × HeldOk c × (c.at < 2 ^ 61) }
    ensures { BitPut (Es.flagged r x (state_of c out.old)) (state_of result out.new) c result }
{
    if message_layout::has_flag(r) {
        return write_store::put_bit(out, c, x);
    }
    c
}

// The magic of an object.
fn object_magic(schema: &Schema, ob: Object) -> u64
    requires { ObjectSound (parsed schema.now) ob }
    ensures { result ≡ W.magic (parsed schema.now) ob }
{
    match ob {
        Object::Text => TextObject::MAGIC,
        Object::Bytes => BytesObject::MAGIC,
        Object::List(_) => ListObject::MAGIC,
        Object::Table(t) => schema.packed.table_id(usize::from(t)),
        Object::DirectList(_) => DirectObject::MAGIC,
    }
}

// The number that refers to an object: its offset, or its length in place.
fn reference(inplace: bool, e: Extent, c: Places) -> usize
    ensures { result ≡ pick inplace e.length c.next }
{
    if inplace { e.length } else { c.next }
}

// What refers to an object.
fn put_reference(out: &mut [u8], inplace: bool, e: Extent, c: Places, o: usize) -> Places
    requires { (Width o) × (c.at < 2 ^ 61) }
    ensures { Stood o (Eg.referred o inplace e (state_of c out.old)) (state_of result out.new) c result }
{
    let x = reference(inplace, e, c);
    write_store::put_offset(out, c, x as u64, o)
}

// A header at the next object's place, by the object's magic and extent; behind it the content goes on. All headers begin with a
// magic and a length, as a table's does; what that of a direct list says more is stored with its content.
fn put_header(out: &mut [u8], magic: u64, e: Extent, c: Places, o: usize) -> Places
    requires { (Width o) × (Small e) × (c.next ≤ 16777216) }
    ensures { Eg.Opens o (Eg.headed o magic e (state_of c out.old)) (state_of result out.new) result }
{
    let q = write_store::enter_object(c, TableObject::header_size(o) + e.width, e.chain);
    let h = write_store::put_number(out, q, 4, magic);
    write_store::put_offset(out, h, e.length as u64, o)
}

// An object's header, at the next object's place; behind it the content goes on.
fn open_object(schema: &Schema, out: &mut [u8], ob: Object, e: Extent, c: Places) -> Places
    requires { (ObjectSound (parsed schema.now) ob) × (Small e) × (c.next ≤ 16777216) }
    ensures { Eg.Opens schema.now.width (Es.open_object schema.now.width (parsed schema.now) ob e (state_of c out.old)) (state_of result out.new) result }
{
    put_header(out, object_magic(schema, ob), e, c, schema.width)
}

// What the header of a direct list of table t says of its elements: the table's id, and its full size.
fn put_direct(schema: &Schema, out: &mut [u8], t: usize, c: Places) -> Places
    requires { (t < P.table_count (bytes_of schema.now)) × (c.at < 2 ^ 60) }
    ensures { Stood 8 (Es.direct_head schema.now.width (parsed schema.now) t (state_of c out.old)) (state_of result out.new) c result }
{
    let size = write_measure::fixed_size(schema, t);
    let p = write_store::put_number(out, c, 4, schema.packed.table_id(t));
    write_store::put_number(out, p, 4, size as u64)
}

// Where the content is stored: c is behind what refers to it.
fn open(schema: &Schema, out: &mut [u8], ob: Object, inplace: bool, e: Extent, c: Places) -> Places
    requires { (ObjectSound (parsed schema.now) ob) × (Small e) × (c.next ≤ 16777216) × (c.tail ≤ 16777216) }
    ensures { Eg.Opens schema.now.width (Eg.opened schema.now.width (parsed schema.now) ob inplace e (state_of c out.old)) (state_of result out.new) result }
{
    if inplace {
        return write_store::enter_content(c, e.width);
    }
    open_object(schema, out, ob, e, c)
}

// Back from the content: c is behind what refers to it.
fn close(inplace: bool, c: Places, inner: Places) -> Places
    ensures { result ≡ Eg.closed inplace c inner }
{
    if inplace {
        return write_store::leave_content(c, inner);
    }
    write_store::leave_object(c, inner)
}

// ---- what an object takes, without a survey of what stands in it where none is needed
// Whether a table has an in-place member.
fn any_in_place(schema: &Schema, t: usize) -> bool
    requires { t < P.table_count (bytes_of schema.now) }
    ensures { result ≡ any_in_place (Sc.table_of (parsed schema.now) t).members }
{
    let n = schema.packed.member_count(t);
    for j in 0..n {
        let r = schema.packed.member(t, j);
        if r.inplace {
            return true;
        }
    }
    false
}

// Whether bytes may stand in place behind a table that is referred to.
fn chained(schema: &Schema, t: usize, inplace: bool) -> bool
    requires { t < P.table_count (bytes_of schema.now) }
    ensures { result ≡ (not inplace && any_in_place (Sc.table_of (parsed schema.now) t).members) }
{
    !inplace && any_in_place(schema, t)
}

// The extent of a text or bytes, with `more` bytes behind its own: 1 of a text, 0 of bytes.
fn measure_blob(s: &[u8], pos: usize, more: usize) -> Option<Extent>
    requires { (Inside s.now pos) × (more ≤ 1) }
    ensures { MeasuredAt false (Sv.survey_blob more (drop pos (bits s.now))) result }
{
    let x = bitio::take_number(s, pos, 32)?;
    let n = x.value as usize;
    Some(write_measure::opened(n, n + more))
}

// The extent of list i.
fn measure_list(schema: &Schema, s: &[u8], i: usize, pos: usize) -> Option<Extent>
    requires { (i < P.list_count (bytes_of schema.now)) × Inside s.now pos }
    ensures { MeasuredContent schema.now.width (parsed schema.now) (Object.List i) (drop pos (bits s.now)) result }
{
    let x = bitio::take_number(s, pos, 32)?;
    let n = x.value as usize;
    let k = schema.packed.element(i);
    Some(write_measure::opened(n, message_layout::elements_size(schema, k, n)))
}

// The extent of table t. Only where something may stand in place behind it is its content surveyed.
fn measure_table(
    schema: &Schema,
    s: &[u8],
    d: usize,
    t: u8,
    inplace: bool,
    pos: usize,
) -> Option<Extent>
    requires { (ObjectSound (parsed schema.now) (Object.Table t)) × Inside s.now pos }
    ensures { By.Measures schema.now.width d (bytes_of schema.now) inplace (Object.Table t) s.now pos result }
{
    let i = usize::from(t);
    if chained(schema, i, inplace) {
        let x = write_measure::object(schema, s, d, Object::Table(t), pos)?;
        return Some(x.extent);
    }
    let n = write_measure::fixed_size(schema, i);
    Some(write_measure::opened(n, n))
}

// The extent of a direct list of table t, which has no in-place member.
fn measure_direct(
    schema: &Schema,
    s: &[u8],
    d: usize,
    t: u8,
    inplace: bool,
    pos: usize,
) -> Option<Extent>
    requires { (ObjectSound (parsed schema.now) (Object.DirectList t)) × Inside s.now pos }
    ensures { By.Measures schema.now.width d (bytes_of schema.now) inplace (Object.DirectList t) s.now pos result }
{
    let x = bitio::take_number(s, pos, 32)?;
    let n = x.value as usize;
    let size = write_measure::fixed_size(schema, usize::from(t));
    Some(write_measure::opened(n, write_measure::direct_size(size, n)))
}

// The length and the width of an object, and what stands in place behind it unless it stands in place itself. They are right
// where the sheet is lawful; the pass finds out where it is not.
fn measure(
    schema: &Schema,
    s: &[u8],
    d: usize,
    ob: Object,
    inplace: bool,
    pos: usize,
) -> Option<Extent>
    requires { (ObjectSound (parsed schema.now) ob) × Inside s.now pos }
    ensures { By.Measures schema.now.width d (bytes_of schema.now) inplace ob s.now pos result }
{
    match ob {
        Object::Text => measure_blob(s, pos, 1),
        Object::Bytes => measure_blob(s, pos, 0),
        Object::List(i) => measure_list(schema, s, usize::from(i), pos),
        Object::Table(t) => measure_table(schema, s, d, t, inplace, pos),
        Object::DirectList(t) => measure_direct(schema, s, d, t, inplace, pos),
    }
}

// ---- the size of an object's content where it is known before its sheet: that of a table behind which nothing stands in place
// The size of table t, if it is known.
fn known_table(schema: &Schema, t: usize) -> Option<usize>
    requires { t < P.table_count (bytes_of schema.now) }
    ensures { KnownSize schema.now.width (parsed schema.now) (Object.Table t) result }
{
    if any_in_place(schema, t) {
        return None;
    }
    Some(write_measure::fixed_size(schema, t))
}

// The size of an object, if it is known.
fn known_size(schema: &Schema, ob: Object) -> Option<usize>
    requires { ObjectSound (parsed schema.now) ob }
    ensures { KnownSize schema.now.width (parsed schema.now) ob result }
{
    match ob {
        Object::Table(t) => known_table(schema, usize::from(t)),
        Object::Text | Object::Bytes | Object::List(_) | Object::DirectList(_) => None,
    }
}

// The extent of an object by its known size n, or measured where none is known.
fn measure_by(
    schema: &Schema,
    s: &[u8],
    d: usize,
    ob: Object,
    size: Option<usize>,
    pos: usize,
) -> Option<Extent>
    requires { (ObjectSound (parsed schema.now) ob) × (KnownSize schema.now.width (parsed schema.now) ob size) × Inside s.now pos }
    ensures { By.Measures schema.now.width d (bytes_of schema.now) false ob s.now pos result }
{
    match size {
        Some(n) => Some(write_measure::opened(n, n)),
        None => measure(schema, s, d, ob, false, pos),
    }
}

// ---- terminal members: a flat value, or a text or bytes by its offset. No other object stands below or in place behind them,
// so that they are stored outside the cycle, where the compiler keeps the places in registers.
// Whether an object that stands by its offset is a text or bytes.
fn by_offset(ob: Object, inplace: bool) -> bool
    ensures { result ≡ (not inplace && is_blob ob) }
{
    !inplace && schema::is_blob(ob)
}

// Whether a member is terminal.
fn is_terminal(k: Kind, inplace: bool) -> bool
    ensures { result ≡ Eg.is_terminal k inplace }
{
    match k {
        Kind::OfFlat(_) => true,
        Kind::OfObject(ob) => by_offset(ob, inplace),
        Kind::OfUnion(_) => false,
    }
}

// The content of a text or bytes, where d objects may stand below each other, this one counted.
fn terminal_content(
    schema: &Schema,
    s: &[u8],
    out: &mut [u8],
    d: usize,
    ob: Object,
    from: Emitted,
) -> Option<Emitted>
    requires ob_value { is_blob ob ≡ true }
    requires room { Room s.now from }
    ensures { By.Emits s.now from (By.object schema.now.width d (bytes_of schema.now) ob) out.old 0 result out.new }
{
    if d == 0 {
        return None;
    }
    match ob {
        Object::Text => emit_text(s, out, from),
        Object::Bytes => emit_bytes(s, out, from),
        _ => None,
    }
}

// A text or bytes by its offset: the offset, and the object at the next object's place.
fn refer_terminal(
    schema: &Schema,
    s: &[u8],
    out: &mut [u8],
    d: usize,
    ob: Object,
    from: Emitted,
) -> Option<Emitted>
    requires given { is_blob ob ≡ true }
    requires room { Room s.now from }
    ensures { By.Emits s.now from (By.held schema.now.width d (bytes_of schema.now) false ob) out.old schema.now.width result out.new }
{
    let e = measure(schema, s, d, ob, false, from.next)?;
    let p = put_reference(out, false, e, from.places, schema.width);
    let q = open_object(schema, out, ob, e, p);
    let y = terminal_content(schema, s, out, d, ob, behind(q, from.next))?;
    Some(behind(close(false, p, y.places), y.next))
}

// A terminal member, present, behind its mark and its flag.
fn terminal_body(
    schema: &Schema,
    s: &[u8],
    out: &mut [u8],
    d: usize,
    k: Kind,
    inplace: bool,
    from: Emitted,
) -> Option<Emitted>
    requires sound { (KindSound (parsed schema.now) k) × (Eg.is_terminal k inplace ≡ true) }
    requires room { Room s.now from }
    ensures { By.Emits s.now from (By.body schema.now.width d (bytes_of schema.now) k inplace) out.old (Eg.extra schema.now.width k) result out.new }
{
    match k {
        Kind::OfFlat(f) => emit_flat(schema, s, out, f, from),
        Kind::OfObject(ob) => refer_terminal(schema, s, out, d, ob, from),
        Kind::OfUnion(_) => None,
    }
}

// What stands for a member that is absent: its flag, if it has one, and what stands for its value.
fn absent(schema: &Schema, out: &mut [u8], r: Member, c: Places) -> Places
    requires { (KindSound (parsed schema.now) r.kind) × HeldOk c × (c.at < 2 ^ 60) }
    ensures { Eg.Absent (Es.lack schema.now.width (parsed schema.now) r.kind (Es.flagged r 0 (state_of c out.old))) (state_of result out.new) c result }
{
    let p = flag(out, r, 0, c);
    lack(schema, out, r.kind, p)
}

// A terminal member: its mark, its flag if it has one, and its value or what stands for none.
fn emit_terminal(
    schema: &Schema,
    s: &[u8],
    out: &mut [u8],
    d: usize,
    r: Member,
    from: Emitted,
) -> Option<Emitted>
    requires sound { (KindSound (parsed schema.now) r.kind) × (Eg.is_terminal r.kind r.inplace ≡ true) }
    requires room { Room s.now from }
    ensures { By.Emits s.now from (By.member schema.now.width d (bytes_of schema.now) r) out.old 0 result out.new }
{
    let m = write_measure::take_mark(s, from.next)?;
    match m.mark {
        Mark::Absent => {
            let p = absent(schema, out, r, from.places);
            Some(behind(p, m.next))
        }
        Mark::Present => {
            let p = flag(out, r, 1, from.places);
            terminal_body(schema, s, out, d, r.kind, r.inplace, behind(p, m.next))
        }
        Mark::Unknown => {
            let p = absent(schema, out, r, from.places);
            pass(schema, s, out, r.kind, behind(p, m.next))
        }
    }
}

// ---- members, elements and objects
// An object by its offset or in place: measured, and then what refers to it and the object itself.
#[cycle(walk)]
fn emit_refer(
    schema: &Schema,
    s: &[u8],
    out: &mut [u8],
    d: usize,
    ob: Object,
    inplace: bool,
    from: Emitted,
) -> Option<Emitted>
    requires sound { ObjectSound (parsed schema.now) ob }
    requires room { Room s.now from }
    ensures { By.Emits s.now from (By.held schema.now.width d (bytes_of schema.now) inplace ob) out.old schema.now.width result out.new }
{
    let e = measure(schema, s, d, ob, inplace, from.next)?;
    emit_measured(schema, s, out, d, ob, inplace, e, from)
}

// An object by its offset or in place, whose extent e is known.
#[cycle(walk)]
pub fn emit_measured(
    schema: &Schema,
    s: &[u8],
    out: &mut [u8],
    d: usize,
    ob: Object,
    inplace: bool,
    e: Extent,
    from: Emitted,
) -> Option<Emitted>
    requires sound { (ObjectSound (parsed schema.now) ob) × (By.HasSizes schema.now.width d (bytes_of schema.now) inplace ob s.now from.next e) }
    requires room { Room s.now from }
    ensures { By.Emits s.now from (By.held schema.now.width d (bytes_of schema.now) inplace ob) out.old schema.now.width result out.new }
{
    let p = put_reference(out, inplace, e, from.places, schema.width);
    let q = open(schema, out, ob, inplace, e, p);
    let y = emit_content(schema, s, out, d, ob, behind(q, from.next))?;
    Some(behind(close(inplace, p, y.places), y.next))
}

// The known choice of union u, and the object of that case.
#[cycle(walk)]
fn emit_choice(
    schema: &Schema,
    s: &[u8],
    out: &mut [u8],
    d: usize,
    u: usize,
    inplace: bool,
    from: Emitted,
) -> Option<Emitted>
    requires in_bounds { u < P.union_count (bytes_of schema.now) }
    requires room { Room s.now from }
    ensures { By.Emits s.now from (By.choice schema.now.width d (bytes_of schema.now) inplace u) out.old schema.now.width result out.new }
{
    let n = schema.packed.case_count(u);
    let x = bitio::take_number(s, from.next, 16)?;
    let k = x.value as usize;
    if k == 0 || n < k {
        return None;
    }
    let ob = schema.packed.union_case(u, k);
    let p = write_store::put_number(out, from.places, 2, x.value);
    emit_refer(schema, s, out, d, ob, inplace, behind(p, x.next))
}

// A member or an element that leads to an object, present, behind its mark.
#[cycle(walk)]
fn emit_body(
    schema: &Schema,
    s: &[u8],
    out: &mut [u8],
    d: usize,
    k: Kind,
    inplace: bool,
    from: Emitted,
) -> Option<Emitted>
    requires sound { (KindSound (parsed schema.now) k) × (Eg.refers k ≡ true) }
    requires room { Room s.now from }
    ensures { By.Emits s.now from (By.body schema.now.width d (bytes_of schema.now) k inplace) out.old (Eg.extra schema.now.width k) result out.new }
{
    match k {
        Kind::OfFlat(_) => None,
        Kind::OfObject(ob) => Some(kept(emit_refer(schema, s, out, d, ob, inplace, from)?)),
        Kind::OfUnion(u) => {
            let x = emit_choice(schema, s, out, d, usize::from(u), inplace, from)?;
            Some(kept(x))
        }
    }
}

// A member or an element that leads to an object: its mark, and what the mark says comes next.
#[cycle(walk)]
fn emit_part(
    schema: &Schema,
    s: &[u8],
    out: &mut [u8],
    d: usize,
    k: Kind,
    inplace: bool,
    from: Emitted,
) -> Option<Emitted>
    requires sound { (KindSound (parsed schema.now) k) × (Eg.refers k ≡ true) }
    requires room { Room s.now from }
    ensures { By.Emits s.now from (By.part schema.now.width d (bytes_of schema.now) k inplace) out.old 0 result out.new }
{
    let m = write_measure::take_mark(s, from.next)?;
    match m.mark {
        Mark::Absent => {
            let p = lack(schema, out, k, from.places);
            Some(behind(p, m.next))
        }
        Mark::Present => emit_body(schema, s, out, d, k, inplace, behind(from.places, m.next)),
        Mark::Unknown => {
            let p = lack(schema, out, k, from.places);
            pass(schema, s, out, k, behind(p, m.next))
        }
    }
}

// An element with its mark.
#[cycle(walk)]
fn emit_element(
    schema: &Schema,
    s: &[u8],
    out: &mut [u8],
    d: usize,
    k: Kind,
    from: Emitted,
) -> Option<Emitted>
    requires sound { (KindSound (parsed schema.now) k) × (NoStruct k) × (Sh.unmarked k ≡ false) }
    requires room { Room s.now from }
    ensures { By.Emits s.now from (By.element schema.now.width d (bytes_of schema.now) k) out.old 0 result out.new }
{
    match k {
        Kind::OfFlat(f) => emit_marked_flat(schema, s, out, f, from),
        Kind::OfObject(_) => emit_part(schema, s, out, d, k, false, from),
        Kind::OfUnion(_) => emit_part(schema, s, out, d, k, false, from),
    }
}

// The content of table t.
#[cycle(walk)]
fn emit_table(
    schema: &Schema,
    s: &[u8],
    out: &mut [u8],
    d: usize,
    t: usize,
    from: Emitted,
) -> Option<Emitted>
    requires in_bounds { t < P.table_count (bytes_of schema.now) }
    requires room { Room s.now from }
    ensures { By.Emits s.now from (By.content schema.now.width d (bytes_of schema.now) (Object.Table t)) out.old 0 result out.new }
{
    let n = schema.packed.member_count(t);
    let mut at = from;
    for j in 0..n {
        let r = schema.packed.member(t, j);
        if is_terminal(r.kind, r.inplace) {
            at = kept(emit_terminal(schema, s, out, d, r, at)?);
            continue;
        }
        at = kept(emit_part(schema, s, out, d, r.kind, r.inplace, at)?);
    }
    Some(kept(at))
}

// ---- lists
// An object that an element refers to, with its mark, by its size if that is known.
#[cycle(walk)]
fn emit_marked(
    schema: &Schema,
    s: &[u8],
    out: &mut [u8],
    d: usize,
    ob: Object,
    size: Option<usize>,
    from: Emitted,
) -> Option<Emitted>
    requires sound { (ObjectSound (parsed schema.now) ob) × (KnownSize schema.now.width (parsed schema.now) ob size) }
    requires room { Room s.now from }
    ensures { By.Emits s.now from (By.element schema.now.width d (bytes_of schema.now) (Kind.OfObject ob)) out.old 0 result out.new }
{
    let m = write_measure::take_mark(s, from.next)?;
    match m.mark {
        Mark::Absent => {
            let p = write_store::put_offset(out, from.places, 0, schema.width);
            Some(behind(p, m.next))
        }
        Mark::Present => {
            let e = measure_by(schema, s, d, ob, size, m.next)?;
            emit_measured(schema, s, out, d, ob, false, e, behind(from.places, m.next))
        }
        Mark::Unknown => None,
    }
}

// n elements that refer to objects.
#[cycle(walk)]
fn emit_objects(
    schema: &Schema,
    s: &[u8],
    out: &mut [u8],
    d: usize,
    ob: Object,
    n: usize,
    from: Emitted,
) -> Option<Emitted>
    requires sound { (ObjectSound (parsed schema.now) ob) × (n < 2 ^ 32) }
    requires room { Room s.now from }
    ensures { By.Emits s.now from (By.elements schema.now.width d (bytes_of schema.now) (Kind.OfObject ob) n) out.old 0 result out.new }
{
    let size = known_size(schema, ob);
    let mut at = from;
    for _j in 0..n {
        at = kept(emit_marked(schema, s, out, d, ob, size, at)?);
    }
    Some(kept(at))
}

// n elements with their marks.
#[cycle(walk)]
fn emit_elements(
    schema: &Schema,
    s: &[u8],
    out: &mut [u8],
    d: usize,
    k: Kind,
    n: usize,
    from: Emitted,
) -> Option<Emitted>
    requires sound { (KindSound (parsed schema.now) k) × (NoStruct k) × (Sh.unmarked k ≡ false) × (n < 2 ^ 32) }
    requires room { Room s.now from }
    ensures { By.Emits s.now from (By.elements schema.now.width d (bytes_of schema.now) k n) out.old 0 result out.new }
{
    let mut at = from;
    for _j in 0..n {
        at = kept(emit_element(schema, s, out, d, k, at)?);
    }
    Some(kept(at))
}

// The content of list i. Integers of one byte are stored as bytes are.
#[cycle(walk)]
fn emit_list(
    schema: &Schema,
    s: &[u8],
    out: &mut [u8],
    d: usize,
    i: usize,
    from: Emitted,
) -> Option<Emitted>
    requires in_bounds { i < P.list_count (bytes_of schema.now) }
    requires room { Room s.now from }
    ensures { By.Emits s.now from (By.content schema.now.width d (bytes_of schema.now) (Object.List i)) out.old 0 result out.new }
{
    let k = schema.packed.element(i);
    let w = schema::integer_width(k);
    if w == 1 {
        return emit_bytes(s, out, from);
    }
    let y = bitio::take_number(s, from.next, 32)?;
    let n = y.value as usize;
    let first = behind(from.places, y.next);
    if write_measure::unmarked(k) {
        return emit_unmarked(s, out, w, n, first);
    }
    match k {
        Kind::OfFlat(f) => emit_flats(schema, s, out, f, n, first),
        Kind::OfObject(ob) => emit_objects(schema, s, out, d, ob, n, first),
        Kind::OfUnion(_) => emit_elements(schema, s, out, d, k, n, first),
    }
}

// ---- direct lists
// An element of a direct list of table t: its members where it stands, its bools in bytes of its own.
#[cycle(walk)]
fn emit_direct(
    schema: &Schema,
    s: &[u8],
    out: &mut [u8],
    d: usize,
    t: usize,
    from: Emitted,
) -> Option<Emitted>
    requires in_bounds { t < P.table_count (bytes_of schema.now) }
    requires room { Room s.now from }
    ensures { By.Emits s.now from (By.direct schema.now.width d (bytes_of schema.now) t) out.old 0 result out.new }
{
    if d == 0 {
        return None;
    }
    let q = write_store::enter_part(from.places);
    let y = emit_table(schema, s, out, d - 1, t, behind(q, from.next))?;
    Some(behind(write_store::leave_part(from.places, y.places), y.next))
}

// n elements of a direct list of table t.
#[cycle(walk)]
fn emit_directs(
    schema: &Schema,
    s: &[u8],
    out: &mut [u8],
    d: usize,
    t: usize,
    n: usize,
    from: Emitted,
) -> Option<Emitted>
    requires in_bounds { (t < P.table_count (bytes_of schema.now)) × (n < 2 ^ 32) }
    requires room { Room s.now from }
    ensures { By.Emits s.now from (By.directs schema.now.width d (bytes_of schema.now) t n) out.old 0 result out.new }
{
    let mut at = from;
    for _j in 0..n {
        at = kept(emit_direct(schema, s, out, d, t, at)?);
    }
    Some(kept(at))
}

// The content of a direct list of table t.
#[cycle(walk)]
fn emit_direct_list(
    schema: &Schema,
    s: &[u8],
    out: &mut [u8],
    d: usize,
    t: usize,
    from: Emitted,
) -> Option<Emitted>
    requires in_bounds { t < P.table_count (bytes_of schema.now) }
    requires room { Room s.now from }
    ensures { By.Emits s.now from (By.content schema.now.width d (bytes_of schema.now) (Object.DirectList t)) out.old 0 result out.new }
{
    let y = bitio::take_number(s, from.next, 32)?;
    let p = put_direct(schema, out, t, from.places);
    emit_directs(schema, s, out, d, t, y.value as usize, behind(p, y.next))
}

// An object's content, where d objects may stand below each other, this one counted.
#[cycle(walk)]
fn emit_content(
    schema: &Schema,
    s: &[u8],
    out: &mut [u8],
    d: usize,
    ob: Object,
    from: Emitted,
) -> Option<Emitted>
    requires sound { ObjectSound (parsed schema.now) ob }
    requires room { Room s.now from }
    ensures { By.Emits s.now from (By.object schema.now.width d (bytes_of schema.now) ob) out.old 0 result out.new }
{
    if d == 0 {
        return None;
    }
    match ob {
        Object::Text => emit_text(s, out, from),
        Object::Bytes => emit_bytes(s, out, from),
        Object::List(i) => emit_list(schema, s, out, d - 1, usize::from(i), from),
        Object::Table(t) => emit_table(schema, s, out, d - 1, usize::from(t), from),
        Object::DirectList(t) => emit_direct_list(schema, s, out, d - 1, usize::from(t), from),
    }
}
