// One field's answer at a path, its case number, and a text or bytes as a part of the message.
#![tactic(auto)]

ghost use Rattle.std.specs.Prelude.{◌≡◌, ◌+◌, ◌≤◌, length, IfSome};
ghost use Rattle.coding.specs.Field as F;
ghost use Rattle.coding.specs.Positions as Po;
ghost use Rattle.coding.specs.Walk as W;
ghost use Rattle.field_arrival.specs.Within.{FlatShort, KindShort, FoundShort};

use coding::{Answer, Case, Content, Flat, Found, Kind, Object, Refusal, Verdict};

// ---- the answer
// The answer of a value with bits x, of a kind that leads to no object.
#[tactic(auto, unfolding(coding::specs::Field::flat_answer))]
fn flat_answer(k: Flat, x: u64) -> Answer
    requires { FlatShort k }
    ensures { result ≡ F.flat_answer k x }
{
    match k {
        Flat::Boolean => Answer::Boolean(x == 1),
        Flat::Integer(s, w) => Answer::Number(x, 8 * w, s),
        Flat::Float(w) => Answer::Float(x, 8 * w),
        Flat::Enumerated(_) => Answer::Number(x, 8, false),
        Flat::Struct(_) => Answer::Absent,
    }
}

// The answer of a value with bits x, of any kind.
#[tactic(auto, unfolding(coding::specs::Field::value_answer))]
fn value_answer(k: Kind, x: u64) -> Answer
    requires { KindShort k }
    ensures { result ≡ F.value_answer k x }
{
    match k {
        Kind::OfFlat(f) => flat_answer(f, x),
        Kind::OfObject(_) | Kind::OfUnion(_) => Answer::Absent,
    }
}

// The record kind of an object, which an answer gives.
// Kept: the C interface: scalgo.h gives these numbers with SCALGO_CASE_OBJECT.
#[tactic(auto, unfolding(coding::specs::Field::record_kind))]
pub fn record_kind(ob: Object) -> u8
    ensures { result ≡ F.record_kind ob }
{
    match ob {
        Object::Text => 13,
        Object::Bytes => 14,
        Object::List(_) => 15,
        Object::Table(_) => 16,
        Object::DirectList(_) => 18,
    }
}

// The answer for what a path has come to.
#[tactic(auto, unfolding(coding::specs::Field::answer_of))]
pub fn answer_of(f: Found) -> Answer
    requires { FoundShort f }
    ensures { result ≡ F.answer_of f }
{
    match f {
        Found::Refused(x) => Answer::Refused(x),
        Found::Absent => Answer::Absent,
        Found::Unknown(x) => Answer::Unknown(x),
        Found::Value(k, x, _) => value_answer(k, x),
        Found::Struct(_, at, _) => Answer::Struct(at),
        Found::Object(ob, at, _, n, _) => Answer::Object(record_kind(ob), at, n),
    }
}

// One field's answer, of any message by any schema with any table of positions.
#[tactic(auto, unfolding(coding::specs::Field::field))]
pub fn field(b: &[u8], rows: &[u8], m: &[u8], path: &[u32], o: usize) -> Answer
    ensures { result ≡ F.field o (Po.with_table o b.now rows.now) m.now path.now }
{
    let found = field_path::field_found(b, rows, m, path, o);
    answer_of(found)
}

// ---- the answer's verdict
// A refusal with nothing spent: one field is read without budget.
#[tactic(auto, unfolding(coding::specs::Walk::nothing))]
fn unspent(why: Refusal) -> Verdict
    ensures { result ≡ W.verdict_at why W.nothing }
{
    Verdict {
        number: why.number,
        place: why.place,
        member: why.member,
        visits: 0,
        content: 0,
    }
}

// The verdict of a field's answer: 0 at 0, about no member, for what is no refusal.
#[tactic(auto, unfolding(coding::specs::Field::answer_verdict, coding::specs::Walk::early, coding::specs::Walk::at_zero))]
pub fn verdict_of(answer: Answer) -> Verdict
    ensures { result ≡ F.answer_verdict answer }
{
    match answer {
        Answer::Boolean(_)
        | Answer::Number(_, _, _)
        | Answer::Float(_, _)
        | Answer::Object(_, _, _)
        | Answer::Struct(_)
        | Answer::Absent
        | Answer::Unknown(_) => unspent(field_arrival::refusal(0, 0)),
        Answer::Refused(why) => unspent(why),
    }
}

// ---- the answer as a case number and three numbers
// A case of a number with its three values.
fn case_with(case: u32, a: u64, b: u64, c: u64) -> Case
    ensures { result ≡ record { case = case; a = a; b = b; c = c } }
{
    Case { case, a, b, c }
}

// The case number of an answer and its values, for those who cannot be given an enum.
// Kept: the C interface: the case numbers are those of SCALGO_CASE_*. `as` from a `usize` is no plainer otherwise: std has no `From<usize>` for `u64`.
#[tactic(auto, unfolding(coding::specs::Field::answer_case))]
pub fn case_of(answer: Answer) -> Case
    ensures { result ≡ F.answer_case answer }
{
    match answer {
        Answer::Boolean(x) => case_with(0, u64::from(x), 0, 0),
        Answer::Number(x, w, s) => case_with(1, x, u64::from(w), u64::from(s)),
        Answer::Float(x, w) => case_with(2, x, u64::from(w), 0),
        Answer::Object(k, at, n) => case_with(3, u64::from(k), at as u64, n as u64),
        Answer::Struct(at) => case_with(4, at as u64, 0, 0),
        Answer::Absent => case_with(5, 0, 0, 0),
        Answer::Unknown(x) => case_with(6, u64::from(x), 0, 0),
        Answer::Refused(why) => {
            let number = u64::from(why.number);
            case_with(7, number, why.place as u64, u64::from(why.member))
        }
    }
}

// ---- a text or bytes as a part of the message
// Where the text or the bytes stand that an object is.
#[tactic(auto, unfolding(coding::specs::Field::object_span))]
fn object_span(ob: Object, start: usize, length: usize) -> Option<Content>
    ensures { result ≡ F.object_span ob start length }
{
    match ob {
        Object::Text | Object::Bytes => Some(Content { start, length }),
        Object::List(_) | Object::Table(_) | Object::DirectList(_) => None,
    }
}

// Where the text or the bytes stand that a path has come to.
#[tactic(auto, unfolding(coding::specs::Field::found_span))]
fn span_of(f: Found) -> Option<Content>
    ensures { result ≡ F.found_span f }
{
    match f {
        Found::Refused(_)
        | Found::Absent
        | Found::Unknown(_)
        | Found::Value(_, _, _)
        | Found::Struct(_, _, _) => None,
        Found::Object(ob, _, start, n, _) => object_span(ob, start, n),
    }
}

// Where the text or the bytes stand that a path leads to, if it leads to such.
pub fn text_span(b: &[u8], rows: &[u8], m: &[u8], path: &[u32], o: usize) -> Option<Content>
    ensures { (result ≡ F.field_span o (Po.with_table o b.now rows.now) m.now path.now) × IfSome result (λ c. c.start + c.length ≤ length m.now) }
{
    let f = field_path::field_found(b, rows, m, path, o);
    span_of(f)
}

// The text or the bytes that a path leads to, as a part of the message.
pub fn field_text<'a>(b: &[u8], rows: &[u8], m: &'a [u8], path: &[u32], o: usize) -> &'a [u8]
    ensures { result.now ≡ F.field_text o (Po.with_table o b.now rows.now) m.now path.now }
{
    match text_span(b, rows, m, path, o) {
        Some(content) => &m[content.start..content.start + content.length],
        None => &[],
    }
}
