// Opening an object at its place: offset and header, magic and content fit; then the content's bytes are tested.
#![tactic(auto)]

ghost use Rattle.std.specs.Prelude.{◌≡◌, ◌<◌, ◌^◌};
ghost use Rattle.coding.specs.Packed as P;
ghost use Rattle.coding.specs.Schema as Sc;
ghost use Rattle.coding.specs.Walk as W;
ghost use Rattle.laws.specs.Sound.{ObjectSound};
ghost use Rattle.message_step.specs.Lead as D;
ghost use Rattle.message_header.specs.Headers as Hs;
ghost use Rattle.message_object.specs.Fit as Fs;
ghost use Rattle.schema.specs.Parsed.{parsed, bytes_of};

use coding::{Content, Object, Place};
use message_header::{BytesObject, DirectObject, ListObject, TableObject, TextObject};
use schema::Reading;

// ---- places
// Where an object stands.
#[tactic(auto, unfolding(coding::specs::Walk::placed))]
pub fn placed(p: Place) -> usize
    ensures { result ≡ W.placed p }
{
    match p {
        Place::ByOffset(x) => x,
        Place::InPlace(a, _) => a,
    }
}

// ---- what an object's header announces fits
// The header of the object at an offset.
#[tactic(auto, unfolding(coding::specs::Walk::fit_object, coding::specs::Walk::magic, coding::specs::Walk::header_size, coding::specs::Walk::header_tested, coding::specs::Walk::direct_header, message_header::specs::Headers::header_of, message_header::specs::Headers::direct_header_of))]
fn header_of(reading: &Reading, ob: Object, at: usize) -> Result<Content, u8>
    requires { (ObjectSound (parsed reading.now.schema) ob) × (at < 2 ^ 48) }
    ensures { (Fs.announced reading.now.schema.width (parsed reading.now.schema) reading.now.message.now ob at result ≡ W.fit_object reading.now.schema.width (parsed reading.now.schema) reading.now.message.now ob (Place.ByOffset at)) × Hs.Small result }
{
    let m = reading.message;
    let o = reading.schema.width;
    let packed = &reading.schema.packed;
    match ob {
        Object::Text => TextObject::header(m, at, o),
        Object::Bytes => BytesObject::header(m, at, o),
        Object::List(_) => ListObject::header(m, at, o),
        Object::Table(t) => TableObject::header(m, at, packed.table_id(usize::from(t)), o),
        Object::DirectList(t) => DirectObject::header(m, at, packed.table_id(usize::from(t)), o),
    }
}

// The content in place of an object: n from `a` on. A direct list never stands in place.
#[tactic(auto, unfolding(crate::specs::Fit::in_place, coding::specs::Walk::stands_in_place))]
fn in_place(ob: Object, a: usize, n: usize) -> Result<Content, u8>
    requires { (a < 2 ^ 48) × (n < 2 ^ 48) }
    ensures { (result ≡ Fs.in_place ob a n) × Hs.Small result }
{
    match ob {
        Object::DirectList(_) => Err(6),
        Object::Text | Object::Bytes | Object::List(_) | Object::Table(_) => Ok(Content {
            start: a,
            length: n,
        }),
    }
}

// Where the content of the object at a place starts, and its length: behind its header, or in place. Both ways meet here, so that
// the compiler makes one piece of what follows.
#[tactic(auto, unfolding(coding::specs::Walk::placed, coding::specs::Walk::fit_object, crate::specs::Fit::in_place))]
fn content_at(reading: &Reading, ob: Object, p: Place) -> Result<Content, u8>
    requires { (ObjectSound (parsed reading.now.schema) ob) × D.PlaceSmall p }
    ensures { (Fs.announced reading.now.schema.width (parsed reading.now.schema) reading.now.message.now ob (W.placed p) result ≡ W.fit_object reading.now.schema.width (parsed reading.now.schema) reading.now.message.now ob p) × Hs.Small result }
{
    match p {
        Place::ByOffset(x) => header_of(reading, ob, x),
        Place::InPlace(a, n) => in_place(ob, a, n),
    }
}

// An object at its place: offset and header, magic, content.
#[tactic(auto, unfolding(coding::specs::Walk::fit_content, coding::specs::Walk::placed))]
pub fn fit_object(reading: &Reading, ob: Object, p: Place) -> Result<Content, u8>
    requires { (ObjectSound (parsed reading.now.schema) ob) × D.PlaceSmall p }
    ensures { (result ≡ W.fit_object reading.now.schema.width (parsed reading.now.schema) reading.now.message.now ob p) × Fs.LengthSmall result }
{
    let c = content_at(reading, ob, p)?;
    message_header::fit_content(&reading.schema, reading.message, ob, placed(p), c)
}

// The text at an offset.
#[tactic(auto, unfolding(coding::specs::Walk::fit_object, coding::specs::Walk::fit_content, coding::specs::Walk::content_size, coding::specs::Walk::magic, coding::specs::Walk::header_size, coding::specs::Walk::header_tested, message_header::specs::Headers::header_of, message_header::specs::Headers::fitted))]
pub fn fit_text(reading: &Reading, x: usize) -> Result<Content, u8>
    requires { x < 2 ^ 48 }
    ensures { result ≡ W.fit_object reading.now.schema.width (parsed reading.now.schema) reading.now.message.now Object.Text (Place.ByOffset x) }
{
    let m = reading.message;
    let c = TextObject::header(m, x, reading.schema.width)?;
    message_header::fits(m, c, message_header::text_size(c.length))
}

// Table t with its id, at an offset.
#[tactic(auto, unfolding(coding::specs::Walk::fit_object, coding::specs::Walk::fit_content, coding::specs::Walk::content_size, coding::specs::Walk::magic, coding::specs::Walk::header_size, coding::specs::Walk::header_tested, message_header::specs::Headers::header_of, message_header::specs::Headers::fitted))]
pub fn fit_table(reading: &Reading, t: u8, id: u64, x: usize) -> Result<Content, u8>
    requires { (x < 2 ^ 48) × (id ≡ (Sc.table_of (parsed reading.now.schema) t).id) }
    ensures { result ≡ W.fit_object reading.now.schema.width (parsed reading.now.schema) reading.now.message.now (Object.Table t) (Place.ByOffset x) }
{
    let m = reading.message;
    let c = TableObject::header(m, x, id, reading.schema.width)?;
    message_header::fits(m, c, c.length)
}

// ---- then its bytes are tested
// Whether the content of length n at `start` is text, if the object is one; other content may be any bytes.
#[tactic(auto, unfolding(coding::specs::Walk::text_ok))]
fn text_ok(m: &[u8], ob: Object, start: usize, n: usize) -> bool
    requires { Hs.EndInside m.now ob start n }
    ensures { result ≡ W.text_ok m.now ob start n }
{
    match ob {
        Object::Text => utf8::is_text(m, start, n),
        Object::Bytes | Object::List(_) | Object::Table(_) | Object::DirectList(_) => true,
    }
}

// The test of an object's bytes, by a refusal's number: of a text first the end byte is tested, then the text.
#[tactic(auto, unfolding(crate::specs::Fit::test_bytes))]
pub fn test_bytes(m: &[u8], ob: Object, start: usize, n: usize) -> Result<(), u8>
    requires { Hs.EndInside m.now ob start n }
    ensures { result ≡ Fs.test_bytes m.now ob start n }
{
    if !message_header::end_ok(m, ob, start, n) {
        return Err(10);
    }
    if !text_ok(m, ob, start, n) {
        return Err(16);
    }
    Ok(())
}

// An object at its place, opened: content that fits, if its bytes are right.
#[tactic(auto, unfolding(coding::specs::Walk::open_object, coding::specs::Walk::bytes_tested, crate::specs::Fit::test_bytes))]
pub fn open_object(reading: &Reading, ob: Object, p: Place) -> Result<Content, u8>
    requires { (ObjectSound (parsed reading.now.schema) ob) × D.PlaceSmall p }
    ensures { result ≡ W.open_object reading.now.schema.width (parsed reading.now.schema) reading.now.message.now ob p }
{
    let c = fit_object(reading, ob, p)?;
    test_bytes(reading.message, ob, c.start, c.length)?;
    Ok(c)
}
