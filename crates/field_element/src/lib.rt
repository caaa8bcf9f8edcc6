// The list reader's start and one step of it: the list that a path leads to, and the answer at one of its elements.
#![tactic(auto)]

ghost use Rattle.std.specs.Prelude.{◌≡◌, ◌<◌, ◌^◌, length};
ghost use Rattle.coding.specs.Bytes as B;
ghost use Rattle.coding.specs.Field as F;
ghost use Rattle.coding.specs.Positions as Po;
ghost use Rattle.laws.specs.Sound.{ObjectSound};
ghost use Rattle.field_arrival.specs.Within.{FoundIn, FoundShort, FoundWithin};
ghost use Rattle.field_arrival.specs.Parts.{arrived_by, object_part_by};
ghost use Rattle.field_element.specs.Elements as E;
ghost use Rattle.field_element.specs.Listed.{OfMessage, Starts, object_found, found_of, gives, count, offset_gives};
ghost use Rattle.wire.specs.Sizes.{HasOffset};
ghost use Rattle.schema.specs.Parsed.{parsed, bytes_of};

use coding::{Answer, Found, Kind, Object, Place, Refusal};
use field_arrival::Arrival;
use positions::Indexed;
use schema::{Reading, Schema};

pub mod list;

pub use list::{Elements, ListAt};

// ---- the list
// Whether elements of a kind lead to objects.
#[tactic(auto, unfolding(coding::specs::Field::leads))]
fn leads(k: Kind) -> bool
    ensures { result ≡ F.leads k }
{
    match k {
        Kind::OfFlat(_) => false,
        Kind::OfObject(_) | Kind::OfUnion(_) => true,
    }
}

// The elements of an object, if it is a list whose elements lead to objects, or a direct list.
fn elements_of(schema: &Schema, ob: Object) -> Option<Elements>
    requires { ObjectSound (parsed schema.now) ob }
    ensures { result ≡ E.elements_of (parsed schema.now) ob }
{
    match ob {
        Object::List(i) => {
            if leads(schema.packed.element(usize::from(i))) {
                return Some(Elements::List(i));
            }
            None
        }
        Object::DirectList(t) => Some(Elements::Direct(t)),
        Object::Text | Object::Bytes | Object::Table(_) => None,
    }
}

// The list that an object is, if a reader goes over it; otherwise the refusal 15 at 0.
fn list_of<'a>(reading: &Reading<'a>, ob: Object, arrival: Arrival) -> Result<ListAt<'a>, Refusal>
    requires { FoundIn reading.now (object_found ob arrival) }
    ensures { (found_of result ≡ F.list_found (parsed reading.now.schema) ob arrival.place arrival.start arrival.length arrival.left) × OfMessage reading.now.schema.width (bytes_of reading.now.schema) reading.now.message.now result }
{
    match elements_of(&reading.schema, ob) {
        Some(elements) => Ok(ListAt {
            reading: *reading,
            elements,
            arrival,
        }),
        None => Err(field_arrival::refusal(15, 0)),
    }
}

// What a reader starts from, by what its path comes to: of no list, the path's own refusal, or 15 at 0.
#[tactic(auto, unfolding(coding::specs::Field::reader_of, coding::specs::Field::before))]
fn reader_of<'a>(schema: &Schema<'a>, m: &'a [u8], f: Found) -> Result<ListAt<'a>, Refusal>
    requires { FoundWithin schema.now.width (parsed schema.now) m.now f }
    ensures { (found_of result ≡ F.reader_of (parsed schema.now) f) × OfMessage schema.now.width (bytes_of schema.now) m.now result }
{
    match f {
        Found::Refused(why) => Err(why),
        Found::Absent | Found::Unknown(_) | Found::Value(_, _, _) | Found::Struct(_, _, _) => {
            Err(field_arrival::refusal(15, 0))
        }
        Found::Object(ob, place, start, length, left) => {
            let arrival = Arrival {
                place,
                start,
                length,
                left,
            };
            let reading = Reading {
                schema: *schema,
                message: m,
            };
            list_of(&reading, ob, arrival)
        }
    }
}

// The list that a reader goes over, or why there is none, by a schema with its table of positions.
fn reader_by<'a>(indexed: &Indexed<'a>, m: &'a [u8], path: &[u32]) -> Result<ListAt<'a>, Refusal>
    ensures { Starts indexed.now.schema.width (bytes_of indexed.now.schema) m.now path.now result }
{
    let found = field_path::found_by(indexed, m, path);
    reader_of(&indexed.schema, m, found)
}

// The same of any message by any schema with any table of positions. `directory` is the room for where everything in the schema
// stands.
pub fn reader_start<'a>(
    b: &'a [u8],
    rows: &'a [u8],
    m: &'a [u8],
    path: &[u32],
    directory: &'a mut [u16],
    o: usize,
) -> Result<ListAt<'a>, Refusal>
    requires { length directory.old ≡ 384 }
    ensures { Starts o (Po.with_table o b.now rows.now) m.now path.now result }
{
    match positions::judge_schema(b, rows, directory, o) {
        Some(indexed) => reader_by(&indexed, m, path),
        None => Err(field_arrival::refusal(1, 0)),
    }
}

// ---- the answer at an element
// What stands at element j of a list.
fn element_at(list: &ListAt, j: usize) -> Found
    ensures { (result ≡ object_part_by list.now.reading (E.object_of list.now.elements) list.now.arrival j) × FoundShort result }
{
    match list.elements {
        Elements::List(i) => field_part::list_part(&list.reading, usize::from(i), list.arrival, j),
        Elements::Direct(t) => field_part::direct_part(&list.reading, t, list.arrival, j),
    }
}

// The answer of an arrival at an object by its offset, with d objects of depth left, this one counted.
#[tactic(auto, unfolding(coding::specs::Field::arrived, coding::specs::Field::opened, coding::specs::Field::answer_of, coding::specs::Walk::placed))]
fn arrive_answer(reading: &Reading, d: usize, ob: Object, x: usize) -> Answer
    requires { (ObjectSound (parsed reading.now.schema) ob) × (x < 2 ^ 48) }
    ensures { result ≡ F.answer_of (arrived_by reading.now d ob (Place.ByOffset x)) }
{
    if d == 0 {
        return Answer::Refused(field_arrival::refusal(5, x));
    }
    match message_object::open_object(reading, ob, Place::ByOffset(x)) {
        Err(e) => Answer::Refused(field_arrival::refusal(e, x)),
        Ok(content) => Answer::Object(field::record_kind(ob), x, content.length),
    }
}

// The answer of an element that is the offset at a place of the message.
#[tactic(auto, unfolding(crate::specs::Listed::offset_gives))]
fn offset_answer(reading: &Reading, d: usize, ob: Object, at: usize) -> Answer
    requires { (ObjectSound (parsed reading.now.schema) ob) × HasOffset reading.now.schema.width reading.now.message.now at }
    ensures { result ≡ offset_gives d reading.now.schema.width (parsed reading.now.schema) reading.now.message.now ob (B.le reading.now.message.now at reading.now.schema.width) }
{
    let x = wire::offset_in(reading.message, at, reading.schema.width);
    if x == 0 {
        return Answer::Absent;
    }
    arrive_answer(reading, d, ob, x)
}

// The answer of element j, whatever its kind is.
fn part_answer(list: &ListAt, j: usize) -> Answer
    ensures { result ≡ F.answer_of (object_part_by list.now.reading (E.object_of list.now.elements) list.now.arrival j) }
{
    field::answer_of(element_at(list, j))
}

// The answer of element j of a list of index i in the schema; an offset is followed at once, for speed.
fn list_answer(list: &ListAt, i: usize, j: usize) -> Answer
    requires { list.now.elements ≡ Elements.List i }
    ensures { result ≡ F.answer_of (object_part_by list.now.reading (E.object_of list.now.elements) list.now.arrival j) }
{
    let reading = &list.reading;
    let a = list.arrival;
    if a.length <= j {
        return Answer::Refused(field_arrival::refusal(15, a.place));
    }
    match reading.schema.packed.element(i) {
        Kind::OfObject(ob) => {
            offset_answer(reading, a.left, ob, a.start + reading.schema.width * j)
        }
        Kind::OfFlat(_) | Kind::OfUnion(_) => part_answer(list, j),
    }
}

// The answer of element j.
fn element_answer(list: &ListAt, j: usize) -> Answer
    ensures { result ≡ F.answer_of (object_part_by list.now.reading (E.object_of list.now.elements) list.now.arrival j) }
{
    match list.elements {
        Elements::List(i) => list_answer(list, usize::from(i), j),
        Elements::Direct(_) => part_answer(list, j),
    }
}

// The answer of the step at element j of the list that a reader goes over, or the refusal that stands for it.
pub fn step_answer(list: &Result<ListAt, Refusal>, j: usize) -> Answer
    ensures { result ≡ gives list.now j }
{
    match list {
        Ok(list) => element_answer(list, j),
        Err(why) => Answer::Refused(*why),
    }
}

// ---- a step: the answer, and where the reader stands then
// A step of a list reader: its answer, and the element at which the next step answers.
#[derive(Clone, Copy)]
pub struct ListStep {
    pub answer: Answer,
    pub next: usize,
}

// How many elements a reader's list has; none where there is no list.
pub fn list_count(list: &Result<ListAt, Refusal>) -> usize
    ensures { result ≡ count list.now }
{
    match list {
        Ok(list) => list.arrival.length,
        Err(_) => 0,
    }
}

// Where the reader of a list of n elements stands after the step at element j: at the next element, or where it was if that
// step was after the last.
#[tactic(auto, unfolding(coding::specs::Field::reader_next))]
pub fn reader_next(n: usize, j: usize) -> usize
    ensures { result ≡ F.reader_next n j }
{
    if j < n { j + 1 } else { j }
}

// The step at element j of the list that a path leads to, of any message by any schema with any table of
// positions. The reader moves on, refused or not; after the last element, and where there is no list, it stays.
pub fn step(b: &[u8], rows: &[u8], m: &[u8], path: &[u32], j: usize, o: usize) -> ListStep
    ensures { (result.answer ≡ F.reader_gives o (Po.with_table o b.now rows.now) m.now path.now j) × (result.next ≡ F.reader_next (F.reader_count o (Po.with_table o b.now rows.now) m.now path.now) j) }
{
    let mut directory: [u16; schema::DIRECTORY] = [0; schema::DIRECTORY];
    let list = reader_start(b, rows, m, path, &mut directory, o);
    ListStep {
        answer: step_answer(&list, j),
        next: reader_next(list_count(&list), j),
    }
}
