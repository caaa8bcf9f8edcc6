// Arrivals at texts, which no walker needs.
#![tactic(auto)]

ghost use Rattle.std.specs.Prelude.{◌≡◌, ◌+◌, ◌*◌, ◌<◌, ◌^◌, length};
ghost use Rattle.coding.specs.Walk as W;
ghost use Rattle.outcome.specs.Answers as As;
ghost use Rattle.judge_text.specs.Texts as Ts;
ghost use Rattle.wire.specs.Sizes.{HasOffsets};
ghost use Rattle.schema.specs.Parsed.{parsed, bytes_of};

use coding::{Kind, Object, Place};
use outcome::{Content, Outcome};
use schema::Reading;

// Whether an object is a text.
#[tactic(auto, unfolding(crate::specs::Texts::is_text))]
pub fn is_text(ob: Object) -> bool
    ensures { result ≡ Ts.is_text ob }
{
    match ob {
        Object::Text => true,
        Object::Bytes | Object::List(_) | Object::Table(_) | Object::DirectList(_) => false,
    }
}

// The test of a text's bytes, once its length was charged.
pub fn text_tested(m: &[u8], x: Content, visits: u32, content: u64) -> Outcome
    requires { x.start + x.length < length m.now }
    ensures { As.walked_of result ≡ As.text_tested m.now x.holder x.start x.length (W.spending visits content) }
{
    match message_object::test_bytes(m, Object::Text, x.start, x.length) {
        Ok(()) => outcome::going(visits, content),
        Err(e) => outcome::refuse(e, x.holder, visits, content),
    }
}

// An arrival at the text at offset x.
pub fn visit_text(reading: &Reading, depth: usize, x: usize, visits: u32, content: u64) -> Outcome
    requires { x < 2 ^ 48 }
    ensures { As.walked_of result ≡ As.visit_by reading.now.schema.width (bytes_of reading.now.schema) reading.now.message.now depth Object.Text (Place.ByOffset x) (W.spending visits content) }
{
    let g = outcome::charge(depth, x, visits, content);
    if g.code != 0 {
        return g;
    }
    match message_object::fit_text(reading, x) {
        Err(e) => outcome::refuse(e, x, g.visits, g.content),
        Ok(c) => {
            if outcome::exceeds(c.length, g.content) {
                return outcome::refuse(outcome::TOO_MUCH, x, g.visits, g.content);
            }
            let y = Content {
                holder: x,
                start: c.start,
                length: c.length,
            };
            text_tested(
                reading.message,
                y,
                g.visits,
                outcome::rest(c.length, g.content),
            )
        }
    }
}

// What offset x leads to where a text is meant: nothing, or an arrival.
pub fn refer_text(reading: &Reading, depth: usize, x: usize, visits: u32, content: u64) -> Outcome
    requires { x < 2 ^ 48 }
    ensures { As.walked_of result ≡ As.referred (As.visit_by reading.now.schema.width (bytes_of reading.now.schema) reading.now.message.now depth) Object.Text x (W.spending visits content) }
{
    if x == 0 {
        return outcome::going(visits, content);
    }
    visit_text(reading, depth, x, visits, content)
}

// The texts of a list, by their offsets.
pub fn texts(reading: &Reading, depth: usize, x: Content, visits: u32, content: u64) -> Outcome
    requires { HasOffsets reading.now.schema.width reading.now.message.now x.start x.length }
    ensures { As.walked_of result ≡ As.elements_by reading.now.schema.width (bytes_of reading.now.schema) reading.now.message.now depth (Kind.OfObject Object.Text) x (W.spending visits content) }
{
    let mut v = visits;
    let mut w = content;
    let mut at = x.start;
    for j in 0..x.length {
        let g = refer_text(
            reading,
            depth,
            wire::offset_in(reading.message, at, reading.schema.width),
            v,
            w,
        );
        if g.code != 0 {
            return g;
        }
        v = g.visits;
        w = g.content;
        at += reading.schema.width;
    }
    outcome::going(v, w)
}
