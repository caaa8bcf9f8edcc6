// The walkers of tables, lists and unions, which call each other in a cycle.
#![tactic(auto)]

ghost use Rattle.std.specs.Prelude.{◌≡◌, true, false, ◌+◌, ◌*◌, ◌<◌, ◌≤◌, ◌^◌, length, get_or};
ghost use Rattle.coding.specs.Bytes as B;
ghost use Rattle.coding.specs.Packed as P;
ghost use Rattle.coding.specs.Schema as Sc;
ghost use Rattle.coding.specs.Step as T;
ghost use Rattle.coding.specs.Walk as W;
ghost use Rattle.laws.specs.Sound.{ObjectSound};
ghost use Rattle.message_step.specs.Lead as D;
ghost use Rattle.outcome.specs.Answers as As;
ghost use Rattle.judge_member.specs.Records as Rs;
ghost use Rattle.wire.specs.Sizes.{HasUnion, HasOffsets, HasUnions};
ghost use Rattle.schema.specs.Parsed.{parsed, bytes_of};

use coding::{Cursor, Kind, Object, Place, Step};
use outcome::{Content, Outcome, Part};
use schema::Reading;

// Where the walk stands in a table: the number of the member that comes next, the place of its record in the schema, and the
// cursor before it.
#[derive(Clone, Copy)]
struct Standing {
    number: u32,
    record: usize,
    cursor: Cursor,
}

// Whether a step leads to no object and is no refusal.
fn leads_nowhere(step: Step) -> bool
    ensures { result ≡ true → step ≡ Step.Absent }
{
    match step {
        Step::Absent => true,
        Step::Refused(_)
        | Step::Value(_)
        | Step::Unknown(_)
        | Step::Struct(_, _)
        | Step::Object(_, _)
        | Step::Choice(_, _, _) => false,
    }
}

// An arrival at an object, with this one counted in the depth that is left.
#[cycle(walk)]
pub fn visit(
    reading: &Reading,
    depth: usize,
    ob: Object,
    p: Place,
    visits: u32,
    content: u64,
) -> Outcome
    requires { (ObjectSound (parsed reading.now.schema) ob) × D.PlaceSmall p }
    ensures { As.walked_of result ≡ As.visit_by reading.now.schema.width (bytes_of reading.now.schema) reading.now.message.now depth ob p (W.spending visits content) }
{
    let at = message_object::placed(p);
    let g = outcome::charge(depth, at, visits, content);
    if g.code != 0 {
        return g;
    }
    match message_object::fit_object(reading, ob, p) {
        Err(e) => outcome::refuse(e, at, g.visits, g.content),
        Ok(c) => {
            let x = Content {
                holder: at,
                start: c.start,
                length: c.length,
            };
            admit(reading, outcome::below(depth), ob, x, g.visits, g.content)
        }
    }
}

// An object's content, which fits: its charge, the test of its bytes, and its parts. Texts and bytes have none.
#[cycle(walk)]
fn admit(
    reading: &Reading,
    depth: usize,
    ob: Object,
    x: Content,
    visits: u32,
    content: u64,
) -> Outcome
    requires sound { ObjectSound (parsed reading.now.schema) ob }
    requires length_in_bounds { (x.start + W.content_size reading.now.schema.width (parsed reading.now.schema) reading.now.message.now ob x.holder x.length ≤ length reading.now.message.now) × (x.length < 2 ^ 48) × (x.holder < 2 ^ 60) }
    ensures { As.walked_of result ≡ As.content_by reading.now.schema.width (bytes_of reading.now.schema) reading.now.message.now depth ob x (W.spending visits content) }
{
    let n = message_header::content_length(&reading.schema, ob, x.length);
    if outcome::exceeds(n, content) {
        return outcome::refuse(outcome::TOO_MUCH, x.holder, visits, content);
    }
    let left = outcome::rest(n, content);
    match ob {
        Object::Text => judge_text::text_tested(reading.message, x, visits, left),
        Object::Bytes => outcome::going(visits, left),
        Object::List(i) => list(reading, depth, wire::index(i), x, visits, left),
        Object::Table(t) => table(reading, depth, wire::index(t), x, visits, left),
        Object::DirectList(t) => directs(reading, depth, t, x, visits, left),
    }
}

// The members of table t, whose fixed part is the content.
#[cycle(walk)]
#[inline(always)]
fn table(
    reading: &Reading,
    depth: usize,
    t: usize,
    x: Content,
    visits: u32,
    content: u64,
) -> Outcome
    requires { (t < P.table_count (bytes_of reading.now.schema)) × (x.start + x.length ≤ length reading.now.message.now) }
    ensures { As.walked_of result ≡ As.members_by reading.now.schema.width (bytes_of reading.now.schema) reading.now.message.now depth t x (W.spending visits content) }
{
    let count = reading.schema.packed.member_count(t);
    let first = reading.schema.packed.table_place(t);
    let mut c = message_layout::begin();
    let mut v = visits;
    let mut w = content;
    for j in 0..count {
        if x.length <= message_layout::bit_byte(c) {
            return outcome::going(v, w);
        }
        let at = schema::record_place(schema::TABLE_HEAD, first, j);
        if judge_member::refers(reading.schema.packed.bytes, at) {
            let k = Standing {
                number: j as u32,
                record: at,
                cursor: c,
            };
            let g = reference(reading, depth, x, k, v, w);
            if g.code != 0 {
                return g;
            }
            v = g.visits;
            w = g.content;
            c = message_layout::after_bytes(c, reading.schema.width);
            continue;
        }
        let q = judge_member::lead_member(reading, t, j, x, c);
        let step = q.step;
        if leads_nowhere(step) {
            c = q.next;
            continue;
        }
        let part = Part {
            holder: x.holder,
            number: j as u32,
        };
        let g = follow(reading, depth, part, step, v, w);
        if g.code != 0 {
            return g;
        }
        v = g.visits;
        w = g.content;
        c = q.next;
    }
    outcome::going(v, w)
}

// The object by its offset of the member that comes next.
#[cycle(walk)]
fn reference(
    reading: &Reading,
    depth: usize,
    x: Content,
    k: Standing,
    visits: u32,
    content: u64,
) -> Outcome
    requires in_bounds { (k.record + 1 < length (bytes_of reading.now.schema)) × (Rs.Refers (get_or (bytes_of reading.now.schema) k.record 0)) }
    requires object_sound { (ObjectSound (parsed reading.now.schema) (P.object_at (bytes_of reading.now.schema) k.record)) × (x.start + x.length ≤ length reading.now.message.now) × (k.cursor.end < 2 ^ 58) }
    ensures { As.walked_of result ≡ As.follow_by reading.now.schema.width (bytes_of reading.now.schema) reading.now.message.now depth (As.part_of x k.number) (As.member_by reading.now.schema.width (bytes_of reading.now.schema) reading.now.message.now x k.cursor (P.member_at (bytes_of reading.now.schema) k.record)) (W.spending visits content) }
{
    let c = k.cursor;
    let end = c.end;
    if x.length <= end {
        return outcome::going(visits, content);
    }
    if x.length < end + reading.schema.width {
        let part = Part {
            holder: x.holder,
            number: k.number,
        };
        return outcome::refuse_part(8, part, visits, content);
    }
    let y = wire::offset_in(reading.message, x.start + end, reading.schema.width);
    let ob = schema::object_at(reading.schema.packed.bytes, k.record);
    if judge_text::is_text(ob) {
        return judge_text::refer_text(reading, depth, y, visits, content);
    }
    refer(reading, depth, ob, y, visits, content)
}

// The elements of list i.
#[cycle(walk)]
#[inline(always)]
fn list(reading: &Reading, depth: usize, i: usize, x: Content, visits: u32, content: u64) -> Outcome
    requires in_bounds { i < P.list_count (bytes_of reading.now.schema) }
    requires length_in_bounds { x.start + T.elements_size reading.now.schema.width (parsed reading.now.schema) (Sc.element_of (parsed reading.now.schema) i) x.length ≤ length reading.now.message.now }
    ensures { As.walked_of result ≡ As.elements_by reading.now.schema.width (bytes_of reading.now.schema) reading.now.message.now depth (Sc.element_of (parsed reading.now.schema) i) x (W.spending visits content) }
{
    let at = reading.schema.packed.list_place(i);
    let k = schema::kind_at(reading.schema.packed.bytes, at);
    if schema::is_flat_kind(k) {
        return outcome::going(visits, content);
    }
    if schema::is_object_kind(k) {
        return references(
            reading,
            depth,
            schema::object_at(reading.schema.packed.bytes, at),
            x,
            visits,
            content,
        );
    }
    let u = wire::index(schema::argument_at(reading.schema.packed.bytes, at));
    choices(reading, depth, u, x, visits, content)
}

// The elements of a direct list of table t, by the size that its header gives.
#[cycle(walk)]
fn directs(reading: &Reading, depth: usize, t: u8, x: Content, visits: u32, content: u64) -> Outcome
    requires sound { (ObjectSound (parsed reading.now.schema) (Object.DirectList t)) × (x.holder < 2 ^ 60) }
    requires holder_in_bounds { x.start + x.length * W.element_size reading.now.schema.width reading.now.message.now x.holder ≤ length reading.now.message.now }
    ensures { As.walked_of result ≡ As.directs_by reading.now.schema.width (bytes_of reading.now.schema) reading.now.message.now depth t (W.element_size reading.now.schema.width reading.now.message.now x.holder) x (W.spending visits content) }
{
    let w = message_header::element_size(reading.message, x.holder, reading.schema.width);
    if judge_direct::only_count(&reading.schema, t, w, x.length) {
        return judge_direct::count(reading, depth, t, w, x, visits, content);
    }
    elements(reading, depth, t, w, x, visits, content)
}

// The elements of a direct list of table t, of w bytes each: an arrival at each, one behind the other.
#[cycle(walk)]
fn elements(
    reading: &Reading,
    depth: usize,
    t: u8,
    w: usize,
    x: Content,
    visits: u32,
    content: u64,
) -> Outcome
    requires { (ObjectSound (parsed reading.now.schema) (Object.Table t)) × (w < 2 ^ 32) × (x.start + w * x.length ≤ length reading.now.message.now) }
    ensures { As.walked_of result ≡ As.directs_by reading.now.schema.width (bytes_of reading.now.schema) reading.now.message.now depth t w x (W.spending visits content) }
{
    let mut v = visits;
    let mut c = content;
    let mut at = x.start;
    for j in 0..x.length {
        let p = Place::InPlace(at, w);
        let g = visit(reading, depth, Object::Table(t), p, v, c);
        if g.code != 0 {
            return g;
        }
        v = g.visits;
        c = g.content;
        at += w;
    }
    outcome::going(v, c)
}

// The objects of a list, by their offsets.
#[cycle(walk)]
#[inline(always)]
fn references(
    reading: &Reading,
    depth: usize,
    ob: Object,
    x: Content,
    visits: u32,
    content: u64,
) -> Outcome
    requires { (ObjectSound (parsed reading.now.schema) ob) × (HasOffsets reading.now.schema.width reading.now.message.now x.start x.length) }
    ensures { As.walked_of result ≡ As.elements_by reading.now.schema.width (bytes_of reading.now.schema) reading.now.message.now depth (Kind.OfObject ob) x (W.spending visits content) }
{
    if judge_text::is_text(ob) {
        return judge_text::texts(reading, depth, x, visits, content);
    }
    if judge_member::is_row_table(&reading.schema, ob) {
        return judge_rows::row_references(reading, depth, ob, x, visits, content);
    }
    let mut v = visits;
    let mut w = content;
    let mut at = x.start;
    for j in 0..x.length {
        let g = refer(
            reading,
            depth,
            ob,
            wire::offset_in(reading.message, at, reading.schema.width),
            v,
            w,
        );
        if g.code != 0 {
            return g;
        }
        v = g.visits;
        w = g.content;
        at += reading.schema.width;
    }
    outcome::going(v, w)
}

// What offset x leads to: nothing, or an arrival.
#[cycle(walk)]
fn refer(
    reading: &Reading,
    depth: usize,
    ob: Object,
    x: usize,
    visits: u32,
    content: u64,
) -> Outcome
    requires { (ObjectSound (parsed reading.now.schema) ob) × (x < 2 ^ 48) }
    ensures { As.walked_of result ≡ As.referred (As.visit_by reading.now.schema.width (bytes_of reading.now.schema) reading.now.message.now depth) ob x (W.spending visits content) }
{
    if x == 0 {
        return outcome::going(visits, content);
    }
    visit(reading, depth, ob, Place::ByOffset(x), visits, content)
}

// The choices of a list of union i.
#[cycle(walk)]
#[inline(always)]
fn choices(
    reading: &Reading,
    depth: usize,
    i: usize,
    x: Content,
    visits: u32,
    content: u64,
) -> Outcome
    requires { (i < P.union_count (bytes_of reading.now.schema)) × (HasUnions reading.now.schema.width reading.now.message.now x.start x.length) }
    ensures { As.walked_of result ≡ As.elements_by reading.now.schema.width (bytes_of reading.now.schema) reading.now.message.now depth (Kind.OfUnion i) x (W.spending visits content) }
{
    let size = wire::union_size(reading.schema.width);
    let mut v = visits;
    let mut w = content;
    let mut at = x.start;
    for j in 0..x.length {
        let part = Part {
            holder: x.holder,
            number: j as u32,
        };
        let g = choice(reading, depth, i, part, at, v, w);
        if g.code != 0 {
            return g;
        }
        v = g.visits;
        w = g.content;
        at += size;
    }
    outcome::going(v, w)
}

// What the choice of union i at `at` leads to, an element of a list.
#[cycle(walk)]
fn choice(
    reading: &Reading,
    depth: usize,
    i: usize,
    part: Part,
    at: usize,
    visits: u32,
    content: u64,
) -> Outcome
    requires { (i < P.union_count (bytes_of reading.now.schema)) × (HasUnion reading.now.schema.width reading.now.message.now at) }
    ensures { As.walked_of result ≡ As.follow_by reading.now.schema.width (bytes_of reading.now.schema) reading.now.message.now depth part (T.union_step (Sc.cases_of (parsed reading.now.schema) i) false 0 (B.le reading.now.message.now at 2) (B.le reading.now.message.now (at + 2) reading.now.schema.width)) (W.spending visits content) }
{
    let c = wire::u16_in(reading.message, at) as usize;
    if c == 0 {
        return outcome::going(visits, content);
    }
    if reading.schema.packed.case_count(i) < c {
        return outcome::going(visits, content);
    }
    let ob = reading.schema.packed.union_case(i, c);
    let x = wire::offset_in(reading.message, at + 2, reading.schema.width);
    union(
        reading,
        depth,
        part,
        ob,
        Place::ByOffset(x),
        visits,
        content,
    )
}

// What the step of a part leads to.
#[cycle(walk)]
fn follow(
    reading: &Reading,
    depth: usize,
    part: Part,
    step: Step,
    visits: u32,
    content: u64,
) -> Outcome
    requires { D.StepSmall (parsed reading.now.schema) step }
    ensures { As.walked_of result ≡ As.follow_by reading.now.schema.width (bytes_of reading.now.schema) reading.now.message.now depth part step (W.spending visits content) }
{
    match step {
        Step::Refused(e) => outcome::refuse_part(e, part, visits, content),
        Step::Absent => outcome::going(visits, content),
        Step::Value(_) => outcome::going(visits, content),
        Step::Unknown(_) => outcome::going(visits, content),
        Step::Struct(_, _) => outcome::going(visits, content),
        Step::Object(ob, p) => arrive(reading, depth, ob, p, visits, content),
        Step::Choice(_, ob, p) => union(reading, depth, part, ob, p, visits, content),
    }
}

// An arrival at an object, at a text by its offset without the walker.
#[cycle(walk)]
fn arrive(
    reading: &Reading,
    depth: usize,
    ob: Object,
    p: Place,
    visits: u32,
    content: u64,
) -> Outcome
    requires { (ObjectSound (parsed reading.now.schema) ob) × D.PlaceSmall p }
    ensures { As.walked_of result ≡ As.visit_by reading.now.schema.width (bytes_of reading.now.schema) reading.now.message.now depth ob p (W.spending visits content) }
{
    match p {
        Place::ByOffset(x) => {
            if judge_text::is_text(ob) {
                return judge_text::visit_text(reading, depth, x, visits, content);
            }
            visit(reading, depth, ob, Place::ByOffset(x), visits, content)
        }
        Place::InPlace(a, n) => visit(reading, depth, ob, Place::InPlace(a, n), visits, content),
    }
}

// The object of a union's known choice, a part of its holder.
#[cycle(walk)]
fn union(
    reading: &Reading,
    depth: usize,
    part: Part,
    ob: Object,
    p: Place,
    visits: u32,
    content: u64,
) -> Outcome
    requires { (ObjectSound (parsed reading.now.schema) ob) × D.PlaceSmall p }
    ensures { As.walked_of result ≡ As.choose_by reading.now.schema.width (bytes_of reading.now.schema) reading.now.message.now depth part ob p (W.spending visits content) }
{
    match p {
        Place::ByOffset(x) => {
            if x == 0 {
                return outcome::refuse_part(9, part, visits, content);
            }
            visit(reading, depth, ob, Place::ByOffset(x), visits, content)
        }
        Place::InPlace(a, n) => visit(reading, depth, ob, Place::InPlace(a, n), visits, content),
    }
}
