// A part of what a path has come to: a member of a struct or of a table, an element of a list. Only this part is judged.
#![tactic(auto)]

ghost use Rattle.std.specs.Prelude.{◌≡◌, ◌+◌, ◌*◌, ◌<◌, ◌≤◌, ◌^◌, length};
ghost use Rattle.coding.specs.Field as F;
ghost use Rattle.coding.specs.Layout as L;
ghost use Rattle.coding.specs.Packed as P;
ghost use Rattle.coding.specs.Schema as Sc;
ghost use Rattle.coding.specs.Step as T;
ghost use Rattle.coding.specs.Structs as S;
ghost use Rattle.coding.specs.Walk as W;
ghost use Rattle.laws.specs.Sound.{FlatSound, ObjectSound, MemberSound};
ghost use Rattle.message_step.specs.Lead.{Sits};
ghost use Rattle.field_arrival.specs.Within.{StepIn, FoundIn};
ghost use Rattle.field_arrival.specs.Parts.{object_part_by, part_by};
ghost use Rattle.field_part.specs.Before.{field_place};
ghost use Rattle.schema.specs.Parsed.{parsed, bytes_of};

use coding::{Content, Flat, Found, Kind, Member, Object, Place, Placement, Step};
use field_arrival::{Arrival, Part};
use schema::{Reading, Schema};

pub mod indexed;

pub use indexed::IndexedReading;

// ---- a struct's members
// Where a struct of an index stands.
#[derive(Clone, Copy)]
pub struct StructAt {
    pub index: usize,
    pub place: usize,
}

// What stands at a struct's member of kind k.
#[tactic(auto, unfolding(coding::specs::Step::field_step))]
fn field_step(reading: &Reading, k: Flat, at: usize) -> Step
    requires { (FlatSound (length (parsed reading.now.schema).structs) k) × (at < 2 ^ 60) }
    ensures { result ≡ T.field_step reading.now.message.now k at }
{
    match k {
        Flat::Boolean => Step::Value(u64::from(wire::byte(reading.message, at))),
        Flat::Integer(_, w) => Step::Value(wire::number(reading.message, at, usize::from(w))),
        Flat::Float(w) => Step::Value(wire::number(reading.message, at, usize::from(w))),
        Flat::Enumerated(n) => message_step::enum_step(n, wire::byte(reading.message, at)),
        Flat::Struct(i) => Step::Struct(i, at),
    }
}

// The bytes of the members before member j of struct s.
fn fields_size(schema: &Schema, s: usize, j: usize) -> usize
    requires { (s < P.struct_count (bytes_of schema.now)) × (j < length (Sc.struct_of (parsed schema.now) s)) × (j < 256) }
    ensures { (result ≡ field_place (bytes_of schema.now) s j) × (result ≤ 4096 * j) }
{
    let mut size: usize = 0;
    for i in 0..j {
        size += message_layout::flat_width(schema, schema.packed.field(s, i));
    }
    size
}

// What stands at member j, of kind k, of a struct.
fn field_at(reading: &Reading, s: StructAt, j: usize, k: Flat) -> Step
    requires in_bounds { (s.index < P.struct_count (bytes_of reading.now.schema)) × (s.place + S.struct_size (parsed reading.now.schema) s.index ≤ length reading.now.message.now) }
    requires j_in_bounds { (j < length (Sc.struct_of (parsed reading.now.schema) s.index)) × (j < 256) × (k ≡ Sc.field_of (parsed reading.now.schema) s.index j) }
    ensures { (result ≡ T.field_step reading.now.message.now k (s.place + field_place (bytes_of reading.now.schema) s.index j)) × StepIn reading.now result }
{
    let size = fields_size(&reading.schema, s.index, j);
    field_step(reading, k, s.place + size)
}

// Member j of a struct that is held by the object at `holder`.
#[tactic(auto, unfolding(coding::specs::Field::struct_part, coding::specs::Field::no_part))]
fn struct_part(reading: &Reading, s: StructAt, holder: usize, j: usize) -> Found
    requires { (s.index < P.struct_count (bytes_of reading.now.schema)) × (s.place + S.struct_size (parsed reading.now.schema) s.index ≤ length reading.now.message.now) }
    ensures { result ≡ F.struct_part reading.now.schema.width (parsed reading.now.schema) reading.now.message.now s.index s.place holder j }
{
    if reading.schema.packed.field_count(s.index) <= j {
        return field_arrival::refuse(15, holder);
    }
    let k = reading.schema.packed.field(s.index, j);
    let step = field_at(reading, s, j, k);
    let part = Part {
        holder,
        number: j as u32,
        kind: Kind::OfFlat(k),
        left: 0,
    };
    field_arrival::follow(reading, part, step)
}

// ---- members and elements
// What member r of a table holds, by its placement.
fn member_at(reading: &Reading, a: Arrival, p: Placement, r: Member) -> Step
    requires in_bounds { a.start + a.length ≤ length reading.now.message.now }
    requires member_sound { (MemberSound (parsed reading.now.schema) r) × Sits (L.width reading.now.schema.width (parsed reading.now.schema) r.kind) p }
    ensures { (result ≡ T.struct_tested (parsed reading.now.schema) reading.now.message.now (T.placed_step reading.now.schema.width (parsed reading.now.schema) reading.now.message.now a.start a.length p r)) × StepIn reading.now result }
{
    let part = Content {
        start: a.start,
        length: a.length,
    };
    let found = message_step::placed_step::<{ message_step::WHOLE }>(reading, part, p, r);
    message_step::struct_tested::<{ message_step::WHOLE }>(&reading.schema, reading.message, found)
}

// Member j of table t, by its row of the table of positions: the members before it are not looked at.
#[tactic(auto, unfolding(coding::specs::Field::object_part, coding::specs::Field::no_part))]
fn table_part(indexed: &IndexedReading, t: usize, a: Arrival, j: usize) -> Found
    requires { (t < P.table_count (bytes_of indexed.now.reading.schema)) × (a.start + a.length ≤ length indexed.now.reading.message.now) }
    ensures { result ≡ object_part_by indexed.now.reading (Object.Table t) a j }
{
    let schema = &indexed.reading.schema;
    if schema.packed.member_count(t) <= j {
        return field_arrival::refuse(15, a.place);
    }
    let r = schema.packed.member(t, j);
    let p = positions::placement_at(schema, indexed.rows, t, j);
    let step = member_at(&indexed.reading, a, p, r);
    let part = Part {
        holder: a.place,
        number: j as u32,
        kind: r.kind,
        left: a.left,
    };
    field_arrival::follow(&indexed.reading, part, step)
}

// Element j of a list that is of index i in the schema.
#[tactic(auto, unfolding(coding::specs::Field::object_part, coding::specs::Field::no_part))]
pub fn list_part(reading: &Reading, i: usize, a: Arrival, j: usize) -> Found
    requires in_bounds { i < P.list_count (bytes_of reading.now.schema) }
    requires length_in_bounds { a.start + T.elements_size reading.now.schema.width (parsed reading.now.schema) (Sc.element_of (parsed reading.now.schema) i) a.length ≤ length reading.now.message.now }
    ensures { result ≡ object_part_by reading.now (Object.List i) a j }
{
    if a.length <= j {
        return field_arrival::refuse(15, a.place);
    }
    let kind = reading.schema.packed.element(i);
    let list = Content {
        start: a.start,
        length: a.length,
    };
    let step = message_step::element_step(reading, kind, list, j);
    let number = j as u32;
    let part = Part {
        holder: a.place,
        number,
        kind,
        left: a.left,
    };
    field_arrival::follow(reading, part, step)
}

// Element j of a direct list of table t: a table in place, of as many bytes as the list's header gives.
#[tactic(auto, unfolding(coding::specs::Field::object_part, coding::specs::Field::no_part))]
pub fn direct_part(reading: &Reading, t: u8, a: Arrival, j: usize) -> Found
    requires sound { (ObjectSound (parsed reading.now.schema) (Object.Table t)) × (a.place < 2 ^ 60) }
    requires place_in_bounds { a.start + a.length * W.element_size reading.now.schema.width reading.now.message.now a.place ≤ length reading.now.message.now }
    ensures { result ≡ object_part_by reading.now (Object.DirectList t) a j }
{
    if a.length <= j {
        return field_arrival::refuse(15, a.place);
    }
    let w = message_header::element_size(reading.message, a.place, reading.schema.width);
    let p = Place::InPlace(a.start + w * j, w);
    field_arrival::arrive(reading, a.left, Object::Table(t), p)
}

// Part j of an object: a text and bytes have none.
#[tactic(auto, unfolding(coding::specs::Field::object_part, coding::specs::Field::no_part))]
fn object_part(indexed: &IndexedReading, ob: Object, a: Arrival, j: usize) -> Found
    requires sound { (ObjectSound (parsed indexed.now.reading.schema) ob) × (a.place < 2 ^ 60) }
    requires length_in_bounds { a.start + W.content_size indexed.now.reading.schema.width (parsed indexed.now.reading.schema) indexed.now.reading.message.now ob a.place a.length ≤ length indexed.now.reading.message.now }
    ensures { result ≡ object_part_by indexed.now.reading ob a j }
{
    match ob {
        Object::Text | Object::Bytes => field_arrival::refuse(15, a.place),
        Object::List(i) => list_part(&indexed.reading, usize::from(i), a, j),
        Object::Table(t) => table_part(indexed, usize::from(t), a, j),
        Object::DirectList(t) => direct_part(&indexed.reading, t, a, j),
    }
}

// ---- one number of a path
// What a path has come to with one number more, from what was found before.
#[tactic(auto, unfolding(coding::specs::Field::part_of, coding::specs::Field::no_part))]
pub fn part_of(indexed: &IndexedReading, f: Found, j: usize) -> Found
    requires { FoundIn indexed.now.reading f }
    ensures { result ≡ part_by indexed.now.reading f j }
{
    match f {
        Found::Refused(_) | Found::Absent | Found::Unknown(_) => f,
        Found::Value(_, _, holder) => field_arrival::refuse(15, holder),
        Found::Struct(i, place, holder) => {
            let s = StructAt {
                index: usize::from(i),
                place,
            };
            struct_part(&indexed.reading, s, holder, j)
        }
        Found::Object(ob, place, start, length, left) => {
            let a = Arrival {
                place,
                start,
                length,
                left,
            };
            object_part(indexed, ob, a, j)
        }
    }
}
