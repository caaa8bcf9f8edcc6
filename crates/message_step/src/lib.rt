// What one member or element holds, and where it leads.
#![tactic(auto)]

ghost use Rattle.std.specs.Prelude.{◌≡◌, Bool, true, false, ◌&&◌, ℕ, ◌+◌, ◌-◌, ◌*◌, ◌<◌, ◌≤◌, ◌^◌, length, get_or};
ghost use Rattle.coding.specs.Layout as L;
ghost use Rattle.coding.specs.Packed as P;
ghost use Rattle.coding.specs.Schema as Sc;
ghost use Rattle.coding.specs.Step as T;
ghost use Rattle.coding.specs.Structs as S;
ghost use Rattle.laws.specs.Sound.{FlatSound, ObjectSound, KindSound, MemberSound};
ghost use Rattle.message_step.specs.Lead as D;
ghost use Rattle.schema.specs.Parsed.{parsed, bytes_of};

use coding::{Content, Cursor, Flat, Kind, Member, Object, Place, Placement, Slot, Step};
use schema::{Reading, Schema};

// A step is told as a whole, or only by where it leads: judging needs no value, and reads none then.
pub const WHOLE: bool = true;

pub const LEAD: bool = false;

// ---- whether a value is there
// Cut by the end of the fixed part; past it, or without its flag; or here.
#[derive(Clone, Copy)]
pub enum Reach {
    Cut,
    Past,
    Here,
}

// A slot against a fixed part of n bytes: past its end, here, or cut.
#[tactic(auto, unfolding(crate::specs::Lead::reach_in))]
fn reach_in(n: usize, slot: Slot, past: Reach, here: Reach) -> Reach
    requires { (slot.at < 2 ^ 60) × (slot.size < 2 ^ 60) }
    ensures { result ≡ D.reach_in n slot past here }
{
    if n <= slot.at {
        return past;
    }
    if slot.at + slot.size <= n {
        return here;
    }
    Reach::Cut
}

// A value's slot in a fixed part, whose flag stands at another.
#[tactic(auto, unfolding(crate::specs::Lead::reach_flagged))]
fn reach_flagged(m: &[u8], part: Content, flag: Slot, slot: Slot) -> Reach
    requires { (part.start + part.length ≤ length m.now) × (slot.at < 2 ^ 60) × (slot.size < 2 ^ 60) × (flag.bit < 8) }
    ensures { result ≡ D.reach_flagged m.now part.start part.length flag slot }
{
    if part.length <= flag.at {
        return Reach::Past;
    }
    if wire::bit_in(m, part.start + flag.at, flag.bit) {
        return reach_in(part.length, slot, Reach::Cut, Reach::Here);
    }
    reach_in(part.length, slot, Reach::Past, Reach::Past)
}

// A member's placement against a fixed part; `flagged` says that the member has a flag.
#[tactic(auto, unfolding(crate::specs::Lead::reach_of))]
pub fn reach_of(m: &[u8], part: Content, p: Placement, flagged: bool) -> Reach
    requires { (part.start + part.length ≤ length m.now) × (p.value.at < 2 ^ 60) × (p.value.size < 2 ^ 60) × (p.flag.bit < 8) }
    ensures { result ≡ D.reach_of m.now part.start part.length p flagged }
{
    if flagged {
        return reach_flagged(m, part, p.flag, p.value);
    }
    reach_in(part.length, p.value, Reach::Past, Reach::Here)
}

// ---- references
// Where the object of a reference x stands, or in place that of a length x.
#[tactic(auto, unfolding(coding::specs::Step::place_of))]
pub fn place_of(inplace: bool, tail: usize, x: usize) -> Place
    ensures { result ≡ T.place_of inplace tail x }
{
    if inplace {
        return Place::InPlace(tail, x);
    }
    Place::ByOffset(x)
}

// A text, bytes, a list or a table.
#[tactic(auto, unfolding(coding::specs::Step::object_step, coding::specs::Step::place_of))]
fn object_step(schema: &Schema, ob: Object, inplace: bool, tail: usize, x: usize) -> Step
    requires { (ObjectSound (parsed schema.now) ob) × (tail < 2 ^ 48) × (x < 2 ^ 48) }
    ensures { (result ≡ T.object_step ob inplace tail x) × D.StepSmall (parsed schema.now) result }
{
    if x == 0 {
        return Step::Absent;
    }
    Step::Object(ob, place_of(inplace, tail, x))
}

// A union's choice c and its reference; where it leads, an unknown choice is none.
#[tactic(auto, unfolding(coding::specs::Step::union_step, crate::specs::Lead::without_value))]
fn union_step<const WHOLE: bool>(
    schema: &Schema,
    u: usize,
    inplace: bool,
    tail: usize,
    c: u16,
    x: usize,
) -> Step
    requires { (u < P.union_count (bytes_of schema.now)) × (tail < 2 ^ 48) × (x < 2 ^ 48) }
    ensures { (result ≡ D.seen WHOLE (T.union_step (Sc.cases_of (parsed schema.now) u) inplace tail c x)) × D.StepSmall (parsed schema.now) result }
{
    if c == 0 {
        return Step::Absent;
    }
    let n = usize::from(c);
    if n <= schema.packed.case_count(u) {
        let ob = schema.packed.union_case(u, n);
        return Step::Choice(c, ob, place_of(inplace, tail, x));
    }
    if WHOLE {
        Step::Unknown(c)
    } else {
        Step::Absent
    }
}

// ---- values
// An enum of n values whose byte is x.
#[tactic(auto, unfolding(coding::specs::Step::enum_step))]
pub fn enum_step(n: u8, x: u8) -> Step
    ensures { result ≡ T.enum_step n x }
{
    if x == 255 {
        return Step::Absent;
    }
    if x < n {
        return Step::Value(u64::from(x));
    }
    Step::Unknown(u16::from(x))
}

// A float of w bytes. `none`: a NaN is no value.
#[tactic(auto, unfolding(coding::specs::Step::float_step))]
fn float_step(none: bool, w: u8, x: u64) -> Step
    ensures { result ≡ T.float_step none w x }
{
    if none && wire::is_nan(w, x) {
        return Step::Absent;
    }
    Step::Value(x)
}

// What leads to no object. A struct is not tested.
#[tactic(auto, unfolding(coding::specs::Step::flat_step, coding::specs::Bytes::bit_at, coding::specs::Structs::flat_width))]
fn flat_step(reading: &Reading, k: Flat, none: bool, at: usize, bit: usize) -> Step
    requires flat_sound { FlatSound (length (parsed reading.now.schema).structs) k }
    requires k_in_bounds { (at + S.flat_width (S.struct_size (parsed reading.now.schema)) k ≤ length reading.now.message.now) × (bit < 8) × (at < 2 ^ 60) }
    ensures { result ≡ T.flat_step reading.now.message.now k none at bit }
{
    match k {
        Flat::Boolean => Step::Value(wire::bit_value(wire::byte_in(reading.message, at), bit)),
        Flat::Integer(_, w) => Step::Value(wire::number(reading.message, at, usize::from(w))),
        Flat::Float(w) => float_step(none, w, wire::number(reading.message, at, usize::from(w))),
        Flat::Enumerated(n) => enum_step(n, wire::byte_in(reading.message, at)),
        Flat::Struct(i) => Step::Struct(i, at),
    }
}

// Where that leads: to a struct at its place, or nowhere.
#[tactic(auto, unfolding(crate::specs::Lead::flat_lead))]
fn flat_lead(k: Flat, at: usize) -> Step
    ensures { result ≡ D.flat_lead k at }
{
    match k {
        Flat::Struct(i) => Step::Struct(i, at),
        _ => Step::Absent,
    }
}

// What stands at a place of the message (and a bit of it, for a bool). `none`: a NaN is no value. A struct is not tested.
#[tactic(auto, unfolding(coding::specs::Step::value_step, coding::specs::Layout::width))]
fn value_step<const WHOLE: bool>(
    reading: &Reading,
    k: Kind,
    none: bool,
    inplace: bool,
    tail: usize,
    at: usize,
    bit: usize,
) -> Step
    requires sound { (KindSound (parsed reading.now.schema) k) × (tail < 2 ^ 48) }
    requires k_in_bounds { (at + L.width reading.now.schema.width (parsed reading.now.schema) k ≤ length reading.now.message.now) × (bit < 8) × (at < 2 ^ 60) }
    ensures { (result ≡ D.seen WHOLE (T.value_step reading.now.schema.width (parsed reading.now.schema) reading.now.message.now k none inplace tail at bit)) × D.StepSmall (parsed reading.now.schema) result }
{
    let m = reading.message;
    let schema = &reading.schema;
    match k {
        Kind::OfFlat(f) => {
            if WHOLE {
                return flat_step(reading, f, none, at, bit);
            }
            flat_lead(f, at)
        }
        Kind::OfObject(ob) => {
            let x = wire::offset_in(m, at, schema.width);
            object_step(schema, ob, inplace, tail, x)
        }
        Kind::OfUnion(u) => {
            let c = wire::u16_in(m, at) as u16;
            let x = wire::offset_in(m, at + wire::CHOICE, schema.width);
            union_step::<WHOLE>(schema, usize::from(u), inplace, tail, c, x)
        }
    }
}

// ---- members by their placement
// What member r of a table with that fixed part holds; a struct is not tested.
pub fn placed_step<const WHOLE: bool>(
    reading: &Reading,
    part: Content,
    p: Placement,
    r: Member,
) -> Step
    requires sound { (MemberSound (parsed reading.now.schema) r) × (part.start + part.length ≤ length reading.now.message.now) }
    requires sits { D.Sits (L.width reading.now.schema.width (parsed reading.now.schema) r.kind) p }
    ensures { (result ≡ D.seen WHOLE (T.placed_step reading.now.schema.width (parsed reading.now.schema) reading.now.message.now part.start part.length p r)) × D.StepSmall (parsed reading.now.schema) result }
{
    match reach_of(reading.message, part, p, message_layout::has_flag(r)) {
        Reach::Cut => Step::Refused(8),
        Reach::Past => Step::Absent,
        Reach::Here => value_step::<WHOLE>(
            reading,
            r.kind,
            r.optional,
            r.inplace,
            part.start + part.length,
            part.start + p.value.at,
            p.value.bit,
        ),
    }
}

// ---- the test of a struct that a step has found
// A step whose struct, if it has found one, is tested. A struct that is right leads nowhere.
#[tactic(auto, unfolding(coding::specs::Step::struct_tested, crate::specs::Lead::lead_of))]
pub fn struct_tested<const WHOLE: bool>(schema: &Schema, m: &[u8], s: Step) -> Step
    requires { D.StructInside (bytes_of schema.now) m.now s }
    ensures { (result ≡ D.told WHOLE (T.struct_tested (parsed schema.now) m.now s)) × (D.StepSmall (parsed schema.now) s → D.StepSmall (parsed schema.now) result) }
{
    match s {
        Step::Struct(i, at) => {
            if !message_layout::struct_ok(schema, m, usize::from(i), at) {
                return Step::Refused(10);
            }
            if WHOLE { s } else { Step::Absent }
        }
        Step::Value(_) | Step::Unknown(_) => { if WHOLE { s } else { Step::Absent } }
        _ => s,
    }
}

// ---- members that come next, where the cursor stands
// A member's step, and the cursor behind the member.
// Kept: a pair, or one generic with a placement and its cursor, would not name what stands before the cursor.
#[derive(Clone, Copy)]
pub struct SteppedMember {
    pub step: Step,
    pub next: Cursor,
}

// What member r of a table with that fixed part holds.
pub fn member_step<const WHOLE: bool>(
    reading: &Reading,
    part: Content,
    c: Cursor,
    r: Member,
) -> SteppedMember
    requires sound { (MemberSound (parsed reading.now.schema) r) × (part.start + part.length ≤ length reading.now.message.now) }
    requires byte_le_end { (c.byte ≤ c.end) × (c.bit ≤ 8) × (c.end < 2 ^ 58) }
    ensures { (D.Stepped (D.told WHOLE (T.member_step reading.now.schema.width (parsed reading.now.schema) reading.now.message.now part.start part.length c r)) (L.after_member reading.now.schema.width (parsed reading.now.schema) r c) c.end result.step result.next) × D.StepSmall (parsed reading.now.schema) result.step }
{
    let placed = message_layout::place_member(&reading.schema, r, c);
    let found = placed_step::<WHOLE>(reading, part, placed.placement, r);
    let step = struct_tested::<WHOLE>(&reading.schema, reading.message, found);
    SteppedMember {
        step,
        next: placed.next,
    }
}

// ---- elements
// Where element i of a list stands whose elements start at `start`; for a bool the byte.
#[tactic(auto, unfolding(coding::specs::Step::element_place))]
fn element_place(schema: &Schema, k: Kind, start: usize, i: usize) -> usize
    requires { (KindSound (parsed schema.now) k) × (start < 2 ^ 59) × (i < 2 ^ 40) }
    ensures { result ≡ T.element_place schema.now.width (parsed schema.now) k start i }
{
    if message_layout::is_bool(k) {
        return start + wire::eighth(i);
    }
    start + message_layout::times(message_layout::width(schema, k), i)
}

// Element i of a list with that content.
pub fn element_step(reading: &Reading, k: Kind, list: Content, i: usize) -> Step
    requires sound { KindSound (parsed reading.now.schema) k }
    requires n_in_bounds { (list.start + T.elements_size reading.now.schema.width (parsed reading.now.schema) k list.length ≤ length reading.now.message.now) × (i < list.length) }
    ensures { result ≡ T.element_step reading.now.schema.width (parsed reading.now.schema) reading.now.message.now k list.start i }
{
    let at = element_place(&reading.schema, k, list.start, i);
    let found = value_step::<WHOLE>(reading, k, true, false, 0, at, wire::low_three(i));
    struct_tested::<WHOLE>(&reading.schema, reading.message, found)
}
