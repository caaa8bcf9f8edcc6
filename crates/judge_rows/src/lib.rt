// Row tables, which have only numbers, floats, enums and texts, none optional or in place: no walker needs them.
#![tactic(auto)]

ghost use Rattle.std.specs.Prelude.{◌≡◌, ◌+◌, ◌*◌, ◌<◌, ◌≤◌, ◌^◌, length, get_or};
ghost use Rattle.coding.specs.Packed as P;
ghost use Rattle.laws.specs.Sound.{ObjectSound};
ghost use Rattle.coding.specs.Walk as W;
ghost use Rattle.outcome.specs.Answers as As;
ghost use Rattle.judge_member.specs.Records as Rs;
ghost use Rattle.wire.specs.Sizes.{HasOffsets};
ghost use Rattle.schema.specs.Parsed.{parsed, bytes_of};

use coding::{Kind, Object, Place};
use judge_member::Rows;
use outcome::{Content, Outcome, Part};
use schema::Reading;

// Member j of a row table, of the record at `at`. The fixed part ends behind the member's first byte, which stands at `end`
// in it: the member may be cut, and a text is arrived at.
fn row_member(
    reading: &Reading,
    depth: usize,
    at: usize,
    j: u32,
    x: Content,
    end: usize,
    visits: u32,
    content: u64,
) -> Outcome
    requires width { (at < length (bytes_of reading.now.schema)) × (Rs.RowMember (get_or (bytes_of reading.now.schema) at 0)) }
    requires in_bounds { (x.start + x.length ≤ length reading.now.message.now) × (end < x.length) }
    ensures { As.walked_of result ≡ As.follow_by reading.now.schema.width (bytes_of reading.now.schema) reading.now.message.now depth (As.part_of x j) (As.member_by reading.now.schema.width (bytes_of reading.now.schema) reading.now.message.now x (Rs.no_bool end) (P.member_at (bytes_of reading.now.schema) at)) (W.spending visits content) }
{
    let h = wire::index(wire::byte_in(reading.schema.packed.bytes, at));
    if x.length < end + judge_member::row_width(h, reading.schema.width) {
        let part = Part {
            holder: x.holder,
            number: j,
        };
        return outcome::refuse_part(8, part, visits, content);
    }
    if judge_member::is_text_reference(h) {
        return judge_text::refer_text(
            reading,
            depth,
            wire::offset_in(reading.message, x.start + end, reading.schema.width),
            visits,
            content,
        );
    }
    outcome::going(visits, content)
}

// The members of a row table.
fn row_members(
    reading: &Reading,
    depth: usize,
    k: Rows,
    x: Content,
    visits: u32,
    content: u64,
) -> Outcome
    requires { (Rs.RowTable (bytes_of reading.now.schema) k) × (x.start + x.length ≤ length reading.now.message.now) }
    ensures { As.walked_of result ≡ As.members_by reading.now.schema.width (bytes_of reading.now.schema) reading.now.message.now depth k.table x (W.spending visits content) }
{
    let mut end: usize = 0;
    let mut v = visits;
    let mut w = content;
    for j in 0..k.count {
        if x.length <= end {
            return outcome::going(v, w);
        }
        let at = schema::record_place(4, k.first, j);
        let g = row_member(reading, depth, at, j as u32, x, end, v, w);
        if g.code != 0 {
            return g;
        }
        v = g.visits;
        w = g.content;
        end += judge_member::row_width(
            wire::index(wire::byte_in(reading.schema.packed.bytes, at)),
            reading.schema.width,
        );
    }
    outcome::going(v, w)
}

// An arrival at a row table at offset x.
fn visit_row(
    reading: &Reading,
    depth: usize,
    k: Rows,
    x: usize,
    visits: u32,
    content: u64,
) -> Outcome
    requires { (Rs.RowTable (bytes_of reading.now.schema) k) × (x < 2 ^ 48) }
    ensures { As.walked_of result ≡ As.visit_by reading.now.schema.width (bytes_of reading.now.schema) reading.now.message.now depth (Object.Table k.table) (Place.ByOffset x) (W.spending visits content) }
{
    let g = outcome::charge(depth, x, visits, content);
    if g.code != 0 {
        return g;
    }
    match message_object::fit_table(reading, k.table, k.id, x) {
        Err(e) => outcome::refuse(e, x, g.visits, g.content),
        Ok(c) => {
            if outcome::exceeds(c.length, g.content) {
                return outcome::refuse(outcome::TOO_MUCH, x, g.visits, g.content);
            }
            let y = Content {
                holder: x,
                start: c.start,
                length: c.length,
            };
            row_members(
                reading,
                outcome::below(depth),
                k,
                y,
                g.visits,
                outcome::rest(c.length, g.content),
            )
        }
    }
}

// What offset x leads to where a row table is meant: nothing, or an arrival.
fn refer_row(
    reading: &Reading,
    depth: usize,
    k: Rows,
    x: usize,
    visits: u32,
    content: u64,
) -> Outcome
    requires { (Rs.RowTable (bytes_of reading.now.schema) k) × (x < 2 ^ 48) }
    ensures { As.walked_of result ≡ As.referred (As.visit_by reading.now.schema.width (bytes_of reading.now.schema) reading.now.message.now depth) (Object.Table k.table) x (W.spending visits content) }
{
    if x == 0 {
        return outcome::going(visits, content);
    }
    visit_row(reading, depth, k, x, visits, content)
}

// The tables of a list of a row table, by their offsets.
fn row_tables(
    reading: &Reading,
    depth: usize,
    k: Rows,
    x: Content,
    visits: u32,
    content: u64,
) -> Outcome
    requires { (Rs.RowTable (bytes_of reading.now.schema) k) × (HasOffsets reading.now.schema.width reading.now.message.now x.start x.length) }
    ensures { As.walked_of result ≡ As.elements_by reading.now.schema.width (bytes_of reading.now.schema) reading.now.message.now depth (Kind.OfObject (Object.Table k.table)) x (W.spending visits content) }
{
    let mut v = visits;
    let mut w = content;
    let mut at = x.start;
    for j in 0..x.length {
        let g = refer_row(
            reading,
            depth,
            k,
            wire::offset_in(reading.message, at, reading.schema.width),
            v,
            w,
        );
        if g.code != 0 {
            return g;
        }
        v = g.visits;
        w = g.content;
        at += reading.schema.width;
    }
    outcome::going(v, w)
}

// The objects of a list, where they are row tables.
pub fn row_references(
    reading: &Reading,
    depth: usize,
    ob: Object,
    x: Content,
    visits: u32,
    content: u64,
) -> Outcome
    requires { (ObjectSound (parsed reading.now.schema) ob) × (HasOffsets reading.now.schema.width reading.now.message.now x.start x.length) × (Rs.RowObject (bytes_of reading.now.schema) ob) }
    ensures { As.walked_of result ≡ As.elements_by reading.now.schema.width (bytes_of reading.now.schema) reading.now.message.now depth (Kind.OfObject ob) x (W.spending visits content) }
{
    match ob {
        Object::Text => outcome::going(visits, content),
        Object::Bytes => outcome::going(visits, content),
        Object::List(_) => outcome::going(visits, content),
        Object::Table(t) => row_tables(
            reading,
            depth,
            judge_member::rows_of(&reading.schema, t),
            x,
            visits,
            content,
        ),
        Object::DirectList(_) => outcome::going(visits, content),
    }
}
