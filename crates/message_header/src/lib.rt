// The header of each object type: its magic, its size, and the length that it gives; the content that a header announces, and
// the test of its bytes.
#![tactic(auto)]

ghost use Rattle.std.specs.Prelude.{◌≡◌, ◌+◌, ◌*◌, ◌<◌, ◌≤◌, ◌^◌, length};
ghost use Rattle.coding.specs.Bytes as B;
ghost use Rattle.coding.specs.Packed as P;
ghost use Rattle.coding.specs.Schema as Sc;
ghost use Rattle.coding.specs.Step as T;
ghost use Rattle.coding.specs.Walk as W;
ghost use Rattle.laws.specs.Sound.{ObjectSound};
ghost use Rattle.wire.specs.Sizes.{Width};
ghost use Rattle.message_header.specs.Headers as Hs;
ghost use Rattle.schema.specs.Parsed.{parsed, bytes_of};

use coding::{Content, Object};
use schema::Schema;

// ---- headers
// The length in the header at `at`, behind its magic. Six bytes are the upper ones of the eight that end with them: one load.
fn length_in(m: &[u8], at: usize, o: usize) -> usize
    requires { (Width o) × (at < 2 ^ 48) × (at + (4 + o) ≤ length m.now) }
    ensures { (result ≡ B.le m.now (at + 4) o) × (result < 2 ^ 48) }
{
    if o == wire::U48 {
        return (wire::u64_in(m, at + 2) >> 16) as usize;
    }
    wire::offset_in(m, at + wire::MAGIC, o)
}

// What a header of `size` bytes gives, a magic and behind it a length: where the content starts and that length, or a refusal's number.
#[tactic(auto, unfolding(crate::specs::Headers::header_of, coding::specs::Walk::start_size))]
fn read_header(m: &[u8], at: usize, magic: u64, size: usize, o: usize) -> Result<Content, u8>
    requires { (Width o) × (at < 2 ^ 48) × (4 + o ≤ size) × (size < 2 ^ 16) }
    ensures { (result ≡ Hs.header_of o magic size m.now at) × Hs.Small result }
{
    if at < wire::start_size(o) || m.len() < at + size {
        return Err(6);
    }
    if wire::u32_in(m, at) != magic {
        return Err(7);
    }
    Ok(Content {
        start: at + size,
        length: length_in(m, at, o),
    })
}

// Kept: five types beside each other, since magic, header length and header reader are to be each object type's own
// (docs/DECISIONS.md, "Forms that paper 01 names"); what they share is `read_header`.
// Text: length bytes and one zero byte.
#[derive(Clone, Copy)]
pub struct TextObject;

impl TextObject {
    pub const MAGIC: u64 = 0xD812_C8F5;

    // The bytes of its header: its magic, and a length.
    pub fn header_size(o: usize) -> usize
        requires { Width o }
        ensures { result ≡ 4 + o }
    {
        wire::MAGIC + o
    }

    pub fn header(m: &[u8], at: usize, o: usize) -> Result<Content, u8>
        requires { (Width o) × (at < 2 ^ 48) }
        ensures { (result ≡ Hs.header_of o 0xD812C8F5 (4 + o) m.now at) × Hs.Small result }
    {
        read_header(m, at, TextObject::MAGIC, TextObject::header_size(o), o)
    }
}

// Bytes: length bytes.
#[derive(Clone, Copy)]
pub struct BytesObject;

impl BytesObject {
    pub const MAGIC: u64 = 0xDCDB_BE10;

    // The bytes of its header: its magic, and a length.
    pub fn header_size(o: usize) -> usize
        requires { Width o }
        ensures { result ≡ 4 + o }
    {
        wire::MAGIC + o
    }

    pub fn header(m: &[u8], at: usize, o: usize) -> Result<Content, u8>
        requires { (Width o) × (at < 2 ^ 48) }
        ensures { (result ≡ Hs.header_of o 0xDCDBBE10 (4 + o) m.now at) × Hs.Small result }
    {
        read_header(m, at, BytesObject::MAGIC, BytesObject::header_size(o), o)
    }
}

// List: length elements.
#[derive(Clone, Copy)]
pub struct ListObject;

impl ListObject {
    pub const MAGIC: u64 = 0x3400_BB46;

    // The bytes of its header: its magic, and a length.
    pub fn header_size(o: usize) -> usize
        requires { Width o }
        ensures { result ≡ 4 + o }
    {
        wire::MAGIC + o
    }

    pub fn header(m: &[u8], at: usize, o: usize) -> Result<Content, u8>
        requires { (Width o) × (at < 2 ^ 48) }
        ensures { (result ≡ Hs.header_of o 0x3400BB46 (4 + o) m.now at) × Hs.Small result }
    {
        read_header(m, at, ListObject::MAGIC, ListObject::header_size(o), o)
    }
}

// Table: length bytes of fixed part. Its magic is its id.
#[derive(Clone, Copy)]
pub struct TableObject;

impl TableObject {
    // The bytes of its header: its magic, and a length.
    pub fn header_size(o: usize) -> usize
        requires { Width o }
        ensures { result ≡ 4 + o }
    {
        wire::MAGIC + o
    }

    pub fn header(m: &[u8], at: usize, id: u64, o: usize) -> Result<Content, u8>
        requires { (Width o) × (at < 2 ^ 48) }
        ensures { (result ≡ Hs.header_of o id (4 + o) m.now at) × Hs.Small result }
    {
        read_header(m, at, id, TableObject::header_size(o), o)
    }
}

// Direct list: its elements stand behind each other without headers. The header says besides which table they are of, and the bytes of
// each.
#[derive(Clone, Copy)]
pub struct DirectObject;

impl DirectObject {
    pub const MAGIC: u64 = 0xE2C6_CC05;

    // The most elements.
    pub const MOST: usize = 4294967295;

    // The bytes of its header: its magic, a count, a table's id and a size.
    pub fn header_size(o: usize) -> usize
        requires { Width o }
        ensures { result ≡ 4 + o + 8 }
    {
        wire::MAGIC + o + 8
    }

    #[tactic(auto, unfolding(crate::specs::Headers::direct_header_of, crate::specs::Headers::header_of, coding::specs::Walk::element_id, coding::specs::Walk::most_elements))]
    pub fn header(m: &[u8], at: usize, id: u64, o: usize) -> Result<Content, u8>
        requires { (Width o) × (at < 2 ^ 48) }
        ensures { (result ≡ Hs.direct_header_of o id m.now at) × Hs.Small result }
    {
        let found = read_header(m, at, DirectObject::MAGIC, DirectObject::header_size(o), o)?;
        if wire::number(m, at + wire::MAGIC + o, 4) != id {
            return Err(7);
        }
        if DirectObject::MOST < found.length {
            return Err(6);
        }
        Ok(found)
    }
}

// The bytes of each element of the direct list at `at`.
#[tactic(auto, unfolding(coding::specs::Walk::element_size))]
pub fn element_size(m: &[u8], at: usize, o: usize) -> usize
    requires { (Width o) × (at < 2 ^ 60) }
    ensures { (result ≡ W.element_size o m.now at) × (result < 2 ^ 32) }
{
    wire::number(m, at + 8 + o, 4) as usize
}

// ---- content
// The bytes of a text's content: one zero byte stands behind it.
pub fn text_size(n: usize) -> usize
    requires { n < 2 ^ 48 }
    ensures { result ≡ n + 1 }
{
    n + 1
}

// The bytes of the n elements of list i.
pub fn list_size(schema: &Schema, i: usize, n: usize) -> usize
    requires { (i < P.list_count (bytes_of schema.now)) × (n < 2 ^ 48) }
    ensures { (result ≡ T.elements_size schema.now.width (parsed schema.now) (Sc.element_of (parsed schema.now) i) n) × (result < 2 ^ 61) }
{
    message_layout::elements_size(schema, schema.packed.element(i), n)
}

// What an object's content of length n adds to the content that is spent.
#[tactic(auto, unfolding(coding::specs::Walk::content_length))]
pub fn content_length(schema: &Schema, ob: Object, n: usize) -> usize
    requires { (ObjectSound (parsed schema.now) ob) × (n < 2 ^ 48) }
    ensures { result ≡ W.content_length schema.now.width (parsed schema.now) ob n }
{
    match ob {
        Object::Text => n,
        Object::Bytes => n,
        Object::List(i) => list_size(schema, usize::from(i), n),
        Object::Table(_) => n,
        Object::DirectList(_) => 0,
    }
}

// Content of `size` bytes, if it fits.
#[tactic(auto, unfolding(crate::specs::Headers::fitted))]
pub fn fits(m: &[u8], c: Content, size: usize) -> Result<Content, u8>
    requires { (c.start < 2 ^ 60) × (size < 2 ^ 61) }
    ensures { result ≡ Hs.fitted m.now c.start size c.length }
{
    if c.start + size <= m.len() {
        Ok(c)
    } else {
        Err(6)
    }
}

// The elements of a direct list, of w bytes each, if they fit. Their bytes together may be more than a number holds.
#[tactic(auto, unfolding(crate::specs::Headers::fitted))]
fn fit_elements(m: &[u8], c: Content, w: usize) -> Result<Content, u8>
    ensures { result ≡ Hs.fitted m.now c.start (c.length * w) c.length }
{
    if m.len() < c.start {
        return Err(6);
    }
    if w == 0 || c.length <= (m.len() - c.start) / w {
        return Ok(c);
    }
    Err(6)
}

// The content that the object at `at` announces, if it fits.
#[tactic(auto, unfolding(crate::specs::Headers::fitted, coding::specs::Walk::fit_content, coding::specs::Walk::content_size))]
pub fn fit_content(
    schema: &Schema,
    m: &[u8],
    ob: Object,
    at: usize,
    c: Content,
) -> Result<Content, u8>
    requires { (ObjectSound (parsed schema.now) ob) × (at < 2 ^ 60) × (c.start < 2 ^ 60) × (c.length < 2 ^ 48) }
    ensures { result ≡ W.fit_content schema.now.width (parsed schema.now) m.now ob at c.start c.length }
{
    let n = c.length;
    match ob {
        Object::Text => fits(m, c, text_size(n)),
        Object::Bytes | Object::Table(_) => fits(m, c, n),
        Object::List(i) => fits(m, c, list_size(schema, usize::from(i), n)),
        Object::DirectList(_) => fit_elements(m, c, element_size(m, at, schema.width)),
    }
}

// ---- the bytes of content that fits
// Whether the bytes of an object's content are right: a text ends with its zero byte.
#[tactic(auto, unfolding(coding::specs::Walk::end_ok))]
pub fn end_ok(m: &[u8], ob: Object, start: usize, n: usize) -> bool
    requires { Hs.EndInside m.now ob start n }
    ensures { result ≡ W.end_ok m.now ob start n }
{
    match ob {
        Object::Text => wire::byte_in(m, start + n) == 0,
        Object::Bytes | Object::List(_) | Object::Table(_) | Object::DirectList(_) => true,
    }
}
