// The survey of a value sheet, which the writer makes before it stores anything: whether the sheet is lawful, whether it can be
// written, and what each object takes.
#![tactic(auto)]

ghost use Rattle.std.specs.Prelude.{◌≡◌, true, false, ◌&&◌, ◌+◌, ◌*◌, ◌<◌, ◌≤◌, ◌^◌, length, drop, ltb, IfSome, MatchOption};
ghost use Rattle.coding.specs.Bits.{bits, pack};
ghost use Rattle.coding.specs.Packed as P;
ghost use Rattle.coding.specs.Sheet as Sh;
ghost use Rattle.coding.specs.Layout as L;
ghost use Rattle.coding.specs.Message as M;
ghost use Rattle.coding.specs.Lists.{pick};
ghost use Rattle.coding.specs.Schema as Sc;
ghost use Rattle.coding.specs.Step as T;
ghost use Rattle.laws.specs.Sound.{FlatSound, ObjectSound, KindSound, MemberSound, FlatScalar, NoStruct};
ghost use Rattle.message_layout.specs.Bounds.{Laid};
ghost use Rattle.schema.specs.Kinds.{is_blob};
ghost use Rattle.wire.specs.Sizes.{Width};
ghost use Rattle.write_text.specs.Texts as Tx;
ghost use Rattle.write_measure.specs.Survey as Sv;
ghost use Rattle.write_measure.specs.SurveyBy as By;
ghost use Rattle.write_measure.specs.UnmarkedElements.{unmarked_bits, passed};
ghost use Rattle.write_measure.specs.BlobReferred.{BlobEnd, blob_referred};
ghost use Rattle.write_measure.specs.Surveyed.{Small, Fits};
ghost use Rattle.write_measure.specs.SimpleMembers.{WholeBytes};
ghost use Rattle.write_measure.specs.SimpleElements.{is_simple};
ghost use Rattle.schema.specs.Parsed.{parsed, bytes_of};

use coding::{Cursor, Flat, Kind, Member, Object};
use message_header::TableObject;
use schema::Schema;

// What an object of the sheet takes: whether it can be written; the length that its header gives; the bytes of its content
// (width), of the contents in place behind it (chain), and of the objects that these refer to (below). The last two count to
// one past the size. The order of the fields is for speed: behind a bool's padding, or as a pair just stored, they are copied
// slowly.
#[derive(Clone, Copy)]
pub struct Extent {
    pub chain: usize,
    pub length: usize,
    pub below: usize,
    pub width: usize,
    pub writable: bool,
}

// ---- marks
// What a mark says of the value before which it stands: there is none, it comes next, or an unknown number comes next.
#[derive(Clone, Copy)]
pub enum Mark {
    Absent,
    Present,
    Unknown,
}

// A mark, and where the sheet goes on, in bits.
#[derive(Clone, Copy)]
pub struct Marked {
    pub next: usize,
    pub mark: Mark,
}

// The mark at the cursor, if a lawful one is there.
pub fn take_mark(s: &[u8], pos: usize) -> Option<Marked>
    requires { By.Inside s.now pos }
    ensures { By.Marks s.now pos result }
{
    let x = bitio::take_number(s, pos, 2)?;
    let mark = match x.value {
        0 => Mark::Absent,
        1 => Mark::Present,
        2 => Mark::Unknown,
        _ => return None,
    };
    Some(Marked { next: x.next, mark })
}

// ---- flat values: bools, numbers, enums and structs, which lead to no object
// Of a part of the sheet that is lawful: whether it can be written, and where the sheet goes on, in bits.
#[derive(Clone, Copy)]
pub struct Tested {
    pub next: usize,
    pub fine: bool,
}

// The answer for a number that must pass a test.
fn tested_if(ok: bool, fine: bool, next: usize) -> Option<Tested>
    ensures { MatchOption result (ok ≡ false) (λ t. (ok ≡ true) × (t.fine ≡ fine) × (t.next ≡ next)) }
{
    if ok {
        Some(Tested { next, fine })
    } else {
        None
    }
}

// Whether a float of w bytes can be written: where it is optional, a NaN cannot, for it means no value.
#[tactic(auto, unfolding(crate::specs::Survey::float_fine))]
fn float_fine(optional: bool, w: u8, x: u64) -> bool
    ensures { result ≡ Sv.float_fine optional w x }
{
    !(optional && wire::is_nan(w, x))
}

// Whether an enum of n values does not know x, and x does not mean that there is no value.
#[tactic(auto, unfolding(coding::specs::Sheet::unknown_enum))]
pub fn is_unknown_enum(n: u8, x: u64) -> bool
    ensures { result ≡ Sh.unknown_enum n x }
{
    u64::from(n) <= x && x != 255
}

// Any number of w bits, passed over.
fn any_number(s: &[u8], pos: usize, w: usize) -> Option<Tested>
    requires { (By.Inside s.now pos) × (w ≤ 64) }
    ensures { By.Tests s.now pos (Sv.test_number w Sv.any_number) result }
{
    if 8 * s.len() - pos < w {
        return None;
    }
    Some(Tested {
        next: pos + w,
        fine: true,
    })
}

// A float of w bytes.
fn float_number(s: &[u8], pos: usize, optional: bool, w: u8) -> Option<Tested>
    requires { (By.Inside s.now pos) × (w ≤ 8) }
    ensures { By.Tests s.now pos (Sv.test_number (8 * w) (Sv.float_fine optional w)) result }
{
    let x = bitio::take_number(s, pos, 8 * usize::from(w))?;
    Some(Tested {
        next: x.next,
        fine: float_fine(optional, w, x.value),
    })
}

// An enum's number below its count.
fn enum_known(s: &[u8], pos: usize, n: u8) -> Option<Tested>
    requires { By.Inside s.now pos }
    ensures { By.Tests s.now pos (Sv.test_if 8 (Sv.below_count n) true) result }
{
    let x = bitio::take_number(s, pos, 8)?;
    tested_if(x.value < u64::from(n), true, x.next)
}

// An enum's unknown number.
fn enum_unknown(s: &[u8], pos: usize, n: u8) -> Option<Tested>
    requires { By.Inside s.now pos }
    ensures { By.Tests s.now pos (Sv.test_if 8 (Sh.unknown_enum n) false) result }
{
    let x = bitio::take_number(s, pos, 8)?;
    tested_if(is_unknown_enum(n, x.value), false, x.next)
}

// A struct's enum: its mark, and its number if there is one.
fn enum_field(s: &[u8], pos: usize, n: u8) -> Option<Tested>
    requires { By.Inside s.now pos }
    ensures { By.Tests s.now pos (Sv.enum_field n) result }
{
    let m = take_mark(s, pos)?;
    match m.mark {
        Mark::Absent => Some(Tested {
            next: m.next,
            fine: true,
        }),
        Mark::Present => enum_known(s, m.next, n),
        Mark::Unknown => enum_unknown(s, m.next, n),
    }
}

// ---- structs, by recursion on the struct index, which falls at every inner struct
// A flat value of a member or an element, present, behind its mark.
#[cycle(structs)]
#[inline(always)]
fn flat_test(schema: &Schema, s: &[u8], pos: usize, optional: bool, k: Flat) -> Option<Tested>
    requires { (FlatSound (length (parsed schema.now).structs) k) × By.Inside s.now pos }
    ensures { By.Tests s.now pos (By.flat (bytes_of schema.now) optional k) result }
{
    match k {
        Flat::Boolean => any_number(s, pos, 1),
        Flat::Integer(_, w) => any_number(s, pos, 8 * usize::from(w)),
        Flat::Float(w) => float_number(s, pos, optional, w),
        Flat::Enumerated(n) => enum_known(s, pos, n),
        Flat::Struct(i) => struct_test(schema, s, usize::from(i), pos),
    }
}

// A member of a struct, of kind k: an enum has a mark there.
#[cycle(structs)]
fn field_test(schema: &Schema, s: &[u8], pos: usize, k: Flat) -> Option<Tested>
    requires { (FlatSound (length (parsed schema.now).structs) k) × By.Inside s.now pos }
    ensures { By.Tests s.now pos (By.field (bytes_of schema.now) k) result }
{
    match k {
        Flat::Enumerated(n) => enum_field(s, pos, n),
        _ => flat_test(schema, s, pos, false, k),
    }
}

// The members of struct i in turn. Only an unknown enum keeps a struct from being written.
#[cycle(structs)]
fn struct_test(schema: &Schema, s: &[u8], i: usize, at: usize) -> Option<Tested>
    requires { (i < P.struct_count (bytes_of schema.now)) × By.Inside s.now at }
    ensures { By.Tests s.now at (By.struct (bytes_of schema.now) i) result }
{
    let mut pos = at;
    let mut fine = true;
    for j in 0..schema.packed.field_count(i) {
        let t = field_test(schema, s, pos, schema.packed.field(i, j))?;
        fine &= t.fine;
        pos = t.next;
    }
    Some(Tested { next: pos, fine })
}

// The unknown number of a flat value, which only an enum can have.
fn flat_unknown(s: &[u8], pos: usize, k: Flat) -> Option<Tested>
    requires { By.Inside s.now pos }
    ensures { By.Tests s.now pos (Sv.survey_unknown_flat k) result }
{
    match k {
        Flat::Enumerated(n) => enum_unknown(s, pos, n),
        _ => None,
    }
}

// ---- a flat member by its record in the schema
// The bytes of an integer or a float by its kind.
fn number_width(k: usize) -> usize
    requires { k < 11 }
    ensures { (result ≡ P.width_of k) × (result ≤ 8) }
{
    usize::from(schema::width_of(k))
}

// Whether the flat member of the record at `at` may have no value: an optional one may, and any enum.
fn may_lack_at(b: &[u8], at: usize) -> bool
    requires { at + 1 < length b.now }
    ensures { result ≡ Sv.flat_may_lack (P.optional_at b.now at) (P.flat_at b.now at) }
{
    schema::kind_at(b, at) == schema::KIND_ENUM || schema::optional_at(b, at)
}

// A struct by its number. It is apart for speed: the slices are stored for the call only where there is a struct.
fn struct_at(schema: &Schema, s: &[u8], n: u8, pos: usize) -> Option<Tested>
    requires { (n < P.struct_count (bytes_of schema.now)) × By.Inside s.now pos }
    ensures { By.Tests s.now pos (By.struct (bytes_of schema.now) n) result }
{
    struct_test(schema, s, usize::from(n), pos)
}

// The flat member of the record at `at`, present, behind its mark.
fn flat_body(schema: &Schema, s: &[u8], at: usize, pos: usize) -> Option<Tested>
    requires { (at + 1 < length (bytes_of schema.now)) × (FlatSound (length (parsed schema.now).structs) (P.flat_at (bytes_of schema.now) at)) × By.Inside s.now pos }
    ensures { By.Tests s.now pos (By.flat_body (bytes_of schema.now) at) result }
{
    let k = schema::kind_at(schema.packed.bytes, at);
    if k == schema::KIND_BOOL {
        return any_number(s, pos, 1);
    }
    if k < schema::KIND_FLOAT {
        return any_number(s, pos, 8 * number_width(k));
    }
    if k < schema::KIND_ENUM {
        return float_number(
            s,
            pos,
            schema::optional_at(schema.packed.bytes, at),
            schema::width_of(k),
        );
    }
    let n = schema::argument_at(schema.packed.bytes, at);
    if k == schema::KIND_ENUM {
        return enum_known(s, pos, n);
    }
    struct_at(schema, s, n, pos)
}

// The flat member of the record at `at`: its mark, and what the mark says comes next.
fn flat_part(schema: &Schema, s: &[u8], at: usize, pos: usize) -> Option<Tested>
    requires { (at + 1 < length (bytes_of schema.now)) × (FlatSound (length (parsed schema.now).structs) (P.flat_at (bytes_of schema.now) at)) × By.Inside s.now pos }
    ensures { By.Tests s.now pos (By.flat_marked (bytes_of schema.now) at) result }
{
    let m = take_mark(s, pos)?;
    match m.mark {
        Mark::Absent => Some(Tested {
            next: m.next,
            fine: may_lack_at(schema.packed.bytes, at),
        }),
        Mark::Present => flat_body(schema, s, at, m.next),
        Mark::Unknown => flat_unknown(s, m.next, schema::flat_at(schema.packed.bytes, at)),
    }
}

// The unknown choice of union u: a number above its count of cases.
fn choice_unknown(schema: &Schema, s: &[u8], pos: usize, u: usize) -> Option<Tested>
    requires { (u < P.union_count (bytes_of schema.now)) × By.Inside s.now pos }
    ensures { By.Tests s.now pos (By.unknown_choice (bytes_of schema.now) u) result }
{
    let n = schema.packed.case_count(u);
    let x = bitio::take_number(s, pos, 16)?;
    tested_if((n as u64) < x.value, false, x.next)
}

// ---- extents
// Of a part of the sheet that is lawful: what it takes, and where the sheet goes on, in bits.
#[derive(Clone, Copy)]
pub struct Surveyed {
    pub extent: Extent,
    pub next: usize,
}

// The extent of a flat value, which adds nothing behind or below its table.
#[tactic(auto, unfolding(crate::specs::Survey::plain))]
fn plain(fine: bool) -> Extent
    ensures { Fits (Sv.plain fine) result }
{
    Extent {
        writable: fine,
        length: 0,
        width: 0,
        chain: 0,
        below: 0,
    }
}

// The extent of an object of length n and width w, before its parts are gone over.
#[tactic(auto, unfolding(crate::specs::Survey::opened))]
pub fn opened(n: usize, w: usize) -> Extent
    requires { (n < 2 ^ 40) × (w < 2 ^ 54) }
    ensures { Fits (Sv.opened n w) result }
{
    Extent {
        writable: true,
        length: n,
        width: w,
        chain: 0,
        below: 0,
    }
}

// The answer for a flat value.
fn plain_of(t: Tested) -> Surveyed
    ensures { (result.next ≡ t.next) × Fits (Sv.plain t.fine) result.extent }
{
    Surveyed {
        extent: plain(t.fine),
        next: t.next,
    }
}

// A count of bytes, to one past the size.
#[tactic(auto, unfolding(crate::specs::Survey::capped, coding::specs::Bytes::largest))]
pub fn capped(n: usize) -> usize
    ensures { (result ≡ Sv.capped n) × (result ≤ 16777216) }
{
    n.min(wire::LARGEST + 1)
}

// What stands before, and one part more.
#[tactic(auto, unfolding(crate::specs::Survey::joined))]
fn joined(a: Extent, e: Extent) -> Extent
    requires { Small a × Small e }
    ensures { Fits (Sv.joined a e) result }
{
    Extent {
        writable: a.writable && e.writable,
        chain: capped(a.chain + e.chain),
        below: capped(a.below + e.below),
        ..a
    }
}

// What stands before, and one flat value more: only whether it can be written may change.
fn joined_plain(a: Extent, fine: bool) -> Extent
    requires { Small a }
    ensures { Fits (Sv.joined a (Sv.plain fine)) result }
{
    Extent {
        writable: a.writable && fine,
        ..a
    }
}

// Whether a present union in place can be written: the 48-bit coding does not keep them.
#[tactic(auto, unfolding(coding::specs::Message::keeps_unions, coding::specs::Bytes::u48))]
fn keeps_unions(o: usize) -> bool
    ensures { result ≡ M.keeps_unions o }
{
    o != wire::U48
}

// Whether an object in place can be written: in a union if the coding keeps those, elsewhere if it has some length.
fn in_place_fine(union: bool, n: usize, fine: bool, o: usize) -> bool
    ensures { result ≡ (pick union (M.keeps_unions o) (ltb 0 n) && fine) }
{
    let kept = if union { keeps_unions(o) } else { 0 < n };
    kept && fine
}

// What an object adds to the one that refers to it, or in which it stands; `union`: it is a union's. All headers begin with a magic and a length, as a table's does;
// what that of a direct list says more is counted with its content.
fn referred(inplace: bool, union: bool, e: Extent, o: usize) -> Extent
    requires { (Width o) × Small e }
    ensures { Fits (Sv.referred o inplace union e) result }
{
    let size = e.width + e.chain;
    if inplace {
        return Extent {
            writable: in_place_fine(union, e.length, e.writable, o),
            length: 0,
            width: 0,
            chain: capped(size),
            below: e.below,
        };
    }
    Extent {
        writable: e.writable,
        length: 0,
        width: 0,
        chain: 0,
        below: capped(TableObject::header_size(o) + size + e.below),
    }
}

// ---- sizes
// The bytes of the member of the record at `at` where it takes no bit; none where it may take one, and of a struct.
fn whole_bytes(schema: &Schema, at: usize) -> Option<usize>
    requires { at + 1 < length (bytes_of schema.now) }
    ensures { IfSome result (λ w. (w < 256) × WholeBytes schema.now.width (parsed schema.now) (P.member_at (bytes_of schema.now) at) w) }
{
    let k = schema::kind_at(schema.packed.bytes, at);
    if k == schema::KIND_BOOL {
        return None;
    }
    if k < schema::KIND_FLOAT {
        if schema::optional_at(schema.packed.bytes, at) {
            return None;
        }
        return Some(number_width(k));
    }
    if k < schema::KIND_ENUM {
        return Some(number_width(k));
    }
    if k == schema::KIND_ENUM {
        return Some(1);
    }
    if k < schema::KIND_TEXT {
        return None;
    }
    if k == schema::KIND_UNION {
        return Some(wire::union_size(schema.width));
    }
    Some(schema.width)
}

// The cursor behind member j of table t.
fn behind(schema: &Schema, t: usize, j: usize, c: Cursor) -> Cursor
    requires { (t < P.table_count (bytes_of schema.now)) × (j < length (Sc.table_of (parsed schema.now) t).members) × (j < 256) × Laid (4097 * j) c }
    ensures { (result ≡ L.after_member schema.now.width (parsed schema.now) (Sc.member_of (parsed schema.now) t j) c) × Laid (4097 * (j + 1)) result }
{
    match whole_bytes(schema, schema.record_of(t, j)) {
        Some(w) => message_layout::after_bytes(c, w),
        None => message_layout::place_member(schema, schema.packed.member(t, j), c).next,
    }
}

// The size of table t's full fixed part.
pub fn fixed_size(schema: &Schema, t: usize) -> usize
    requires { t < P.table_count (bytes_of schema.now) }
    ensures { (result ≡ By.fixed schema.now.width (bytes_of schema.now) t) × (result < 2 ^ 21) }
{
    let mut c = message_layout::begin();
    for j in 0..schema.packed.member_count(t) {
        c = behind(schema, t, j, c);
    }
    c.end
}

// The bytes of n elements of a direct list, each of `size` bytes, and of what its header says of them: a table's id and that size.
pub fn direct_size(size: usize, n: usize) -> usize
    requires { (size < 2 ^ 21) × (n < 2 ^ 32) }
    ensures { (result ≡ 8 + n * size) × (result < 2 ^ 54) }
{
    8 + n * size
}

// ---- members, elements and objects
// Whether a member or an element may have no value.
#[tactic(auto, unfolding(crate::specs::Survey::may_lack, crate::specs::Survey::flat_may_lack))]
fn may_lack(optional: bool, k: Kind) -> bool
    ensures { result ≡ Sv.may_lack optional k }
{
    match k {
        Kind::OfFlat(f) => optional || matches!(f, Flat::Enumerated(_)),
        Kind::OfObject(_) => true,
        Kind::OfUnion(_) => true,
    }
}

// Whether elements of kind k stand in a sheet without a mark: bools and integers do.
#[tactic(auto, unfolding(coding::specs::Sheet::unmarked, coding::specs::Sheet::flat_unmarked))]
pub fn unmarked(k: Kind) -> bool
    ensures { result ≡ Sh.unmarked k }
{
    matches!(k, Kind::OfFlat(Flat::Boolean | Flat::Integer(_, _)))
}

// The bits of an element of kind k that has no mark; none of one that has.
#[tactic(auto, unfolding(coding::specs::Sheet::unmarked, coding::specs::Sheet::flat_unmarked, crate::specs::UnmarkedElements::unmarked_bits, crate::specs::UnmarkedElements::flat_unmarked_bits))]
fn unmarked_bits(k: Kind) -> Option<usize>
    ensures { MatchOption result (Sh.unmarked k ≡ false) (λ w. (Sh.unmarked k ≡ true) × (w ≡ unmarked_bits k) × (w ≤ 2040)) }
{
    match k {
        Kind::OfFlat(Flat::Boolean) => Some(1),
        Kind::OfFlat(Flat::Integer(_, w)) => Some(8 * usize::from(w)),
        _ => None,
    }
}

// n elements of w bits each, passed over: any number will do.
fn pass(s: &[u8], pos: usize, w: usize, n: usize, a: Extent) -> Option<Surveyed>
    requires { (By.Inside s.now pos) × (w ≤ 2040) × (n < 2 ^ 32) × Small a }
    ensures { By.Surveys s.now pos (passed (n * w) a) result }
{
    let size = message_layout::times(w, n);
    if 8 * s.len() - pos < size {
        return None;
    }
    Some(Surveyed {
        extent: a,
        next: pos + size,
    })
}

// A text or bytes whose n bytes stand from bit pos on, with `more` bytes behind them: 1 of a text, 0 of bytes.
fn blob_extent(s: &[u8], pos: usize, n: usize, more: usize) -> Extent
    requires { (Tx.Fits s.now pos n) × (n < 2 ^ 32) × (more ≤ 1) }
    ensures { Fits (Sv.blob_opened more n (pack n (drop pos (bits s.now)))) result }
{
    Extent {
        writable: write_text::blob_fine(s, pos, n, more),
        length: n,
        width: n + more,
        chain: 0,
        below: 0,
    }
}

// The content of a text or bytes, with `more` bytes behind its own.
fn blob(s: &[u8], pos: usize, more: usize) -> Option<Surveyed>
    requires { (By.Inside s.now pos) × (more ≤ 1) }
    ensures { By.Surveys s.now pos (Sv.survey_blob more) result }
{
    let x = bitio::take_number(s, pos, 32)?;
    let n = x.value as usize;
    let next = bitio::skip_bytes(s, x.next, n)?;
    Some(Surveyed {
        extent: blob_extent(s, x.next, n, more),
        next,
    })
}

// The bytes that an object has behind its own: 1 of a text, 0 of bytes; none where it is neither.
#[tactic(auto, unfolding(schema::specs::Kinds::is_blob), using(crate::proofs::PartCases::end_text, crate::proofs::PartCases::end_bytes))]
fn blob_end(ob: Object) -> Option<usize>
    ensures { MatchOption result (is_blob ob ≡ false) (λ more. BlobEnd ob more × (more < 2)) }
{
    match ob {
        Object::Text => Some(1),
        Object::Bytes => Some(0),
        Object::List(_) | Object::Table(_) | Object::DirectList(_) => None,
    }
}

// A text or bytes that is referred to, or stands in place.
fn refer_blob(
    s: &[u8],
    d: usize,
    more: usize,
    inplace: bool,
    union: bool,
    pos: usize,
    o: usize,
) -> Option<Surveyed>
    requires { (Width o) × (By.Inside s.now pos) × (more ≤ 1) }
    ensures { By.Surveys s.now pos (blob_referred d o inplace union more) result }
{
    if d == 0 {
        return None;
    }
    let x = blob(s, pos, more)?;
    Some(Surveyed {
        extent: referred(inplace, union, x.extent, o),
        next: x.next,
    })
}

// ---- simple members: flat values, texts and bytes. Nothing in them has parts, so that no walk to other objects is needed.
// The text or bytes of the record at `at`: its mark, and its content if it is present.
fn blob_part(schema: &Schema, s: &[u8], d: usize, at: usize, pos: usize) -> Option<Surveyed>
    requires { (at + 1 < length (bytes_of schema.now)) × (13 ≤ P.kind_at (bytes_of schema.now) at) × (P.kind_at (bytes_of schema.now) at < 15) × By.Inside s.now pos }
    ensures { By.Surveys s.now pos (By.blob_member schema.now.width d (bytes_of schema.now) at) result }
{
    let m = take_mark(s, pos)?;
    match m.mark {
        Mark::Absent => Some(Surveyed {
            extent: plain(true),
            next: m.next,
        }),
        Mark::Present => {
            let more = schema::KIND_BYTES - schema::kind_at(schema.packed.bytes, at);
            let inplace = schema::inplace_at(schema.packed.bytes, at);
            refer_blob(s, d, more, inplace, false, m.next, schema.width)
        }
        Mark::Unknown => None,
    }
}

// The simple member of the record at `at`, joined to the extent of what stands before it.
fn simple_member(
    schema: &Schema,
    s: &[u8],
    d: usize,
    at: usize,
    a: Extent,
    pos: usize,
) -> Option<Surveyed>
    requires { (at + 1 < length (bytes_of schema.now)) × (MemberSound (parsed schema.now) (P.member_at (bytes_of schema.now) at)) × (P.kind_at (bytes_of schema.now) at < 15) × (By.Inside s.now pos) × Small a }
    ensures { By.Surveys s.now pos (By.member schema.now.width d (bytes_of schema.now) at a) result }
{
    if schema::kind_at(schema.packed.bytes, at) < schema::KIND_TEXT {
        let t = flat_part(schema, s, at, pos)?;
        return Some(Surveyed {
            extent: joined_plain(a, t.fine),
            next: t.next,
        });
    }
    let x = blob_part(schema, s, d, at, pos)?;
    Some(Surveyed {
        extent: joined(a, x.extent),
        next: x.next,
    })
}

// Of members that are lawful and gone over up to `index`: what is there, and where the sheet goes on, in bits.
#[derive(Clone, Copy)]
pub struct Left {
    pub extent: Extent,
    pub next: usize,
    pub index: usize,
}

// The members of table t from `from` on, up to one that is not simple.
fn simple_members(
    schema: &Schema,
    s: &[u8],
    d: usize,
    t: usize,
    from: usize,
    e: Extent,
    at: usize,
) -> Option<Left>
    requires { (t < P.table_count (bytes_of schema.now)) × (from ≤ length (Sc.table_of (parsed schema.now) t).members) × (By.Inside s.now at) × Small e }
    ensures { By.Leaves schema.now.width d (bytes_of schema.now) t from e s.now at result }
{
    let count = schema.packed.member_count(t);
    let mut a = e;
    let mut pos = at;
    for j in from..count {
        let r = schema.record_of(t, j);
        if schema::KIND_LIST <= schema::kind_at(schema.packed.bytes, r) {
            return Some(Left {
                extent: a,
                next: pos,
                index: j,
            });
        }
        let x = simple_member(schema, s, d, r, a, pos)?;
        pos = x.next;
        a = x.extent;
    }
    Some(Left {
        extent: a,
        next: pos,
        index: count,
    })
}

// ---- simple elements: flat values, texts and bytes, which need no walk to other objects either.
// A list's float or enum, present, behind its mark; told outside the structs' cycle, for speed.
fn scalar_test(schema: &Schema, s: &[u8], pos: usize, k: Flat) -> Option<Tested>
    requires { (FlatSound (length (parsed schema.now).structs) k) × By.Inside s.now pos }
    ensures { By.Tests s.now pos (By.flat (bytes_of schema.now) true k) result }
{
    match k {
        Flat::Float(w) => float_number(s, pos, true, w),
        Flat::Enumerated(n) => enum_known(s, pos, n),
        Flat::Boolean | Flat::Integer(_, _) | Flat::Struct(_) => {
            flat_test(schema, s, pos, true, k)
        }
    }
}

// A list's float or enum, with its mark: no other flat element has one.
fn scalar_element(schema: &Schema, s: &[u8], k: Flat, pos: usize) -> Option<Tested>
    requires { (FlatSound (length (parsed schema.now).structs) k) × By.Inside s.now pos }
    ensures { By.Tests s.now pos (By.flat_element (bytes_of schema.now) k) result }
{
    let m = take_mark(s, pos)?;
    match m.mark {
        Mark::Absent => Some(Tested {
            next: m.next,
            fine: true,
        }),
        Mark::Present => scalar_test(schema, s, m.next, k),
        Mark::Unknown => flat_unknown(s, m.next, k),
    }
}

// n floats or enums of a list, with the extent of what stands before them.
fn scalar_elements(
    schema: &Schema,
    s: &[u8],
    d: usize,
    k: Flat,
    n: usize,
    e: Extent,
    at: usize,
) -> Option<Surveyed>
    requires { (FlatSound (length (parsed schema.now).structs) k) × (Sh.flat_unmarked k ≡ false) × (By.Inside s.now at) × Small e }
    ensures { By.Surveys s.now at (By.elements schema.now.width d (bytes_of schema.now) (Kind.OfFlat k) n e) result }
{
    let mut a = e;
    let mut pos = at;
    for _ in 0..n {
        let t = scalar_element(schema, s, k, pos)?;
        a = joined_plain(a, t.fine);
        pos = t.next;
    }
    Some(Surveyed {
        extent: a,
        next: pos,
    })
}

// An element that refers to a text or bytes, with `more` bytes behind its own: its mark, and its content if it is present.
fn blob_element(
    schema: &Schema,
    s: &[u8],
    d: usize,
    ob: Object,
    more: usize,
    pos: usize,
) -> Option<Surveyed>
    requires { (By.Inside s.now pos) × (BlobEnd ob more) × (more < 2) }
    ensures { By.Surveys s.now pos (By.part schema.now.width d (bytes_of schema.now) (Kind.OfObject ob) true false) result }
{
    let m = take_mark(s, pos)?;
    match m.mark {
        Mark::Absent => Some(Surveyed {
            extent: plain(true),
            next: m.next,
        }),
        Mark::Present => refer_blob(s, d, more, false, false, m.next, schema.width),
        Mark::Unknown => None,
    }
}

// n elements that refer to texts or bytes, with the extent of what stands before them.
fn blob_elements(
    schema: &Schema,
    s: &[u8],
    d: usize,
    ob: Object,
    n: usize,
    e: Extent,
    at: usize,
) -> Option<Surveyed>
    requires { (is_blob ob ≡ true) × (By.Inside s.now at) × Small e }
    ensures { By.Surveys s.now at (By.elements schema.now.width d (bytes_of schema.now) (Kind.OfObject ob) n e) result }
{
    let more = blob_end(ob)?;
    let mut a = e;
    let mut pos = at;
    for _ in 0..n {
        let x = blob_element(schema, s, d, ob, more, pos)?;
        a = joined(a, x.extent);
        pos = x.next;
    }
    Some(Surveyed {
        extent: a,
        next: pos,
    })
}

// Whether elements of kind k are simple.
#[tactic(auto, unfolding(crate::specs::SimpleElements::is_simple))]
fn is_simple(k: Kind) -> bool
    ensures { result ≡ is_simple k }
{
    match k {
        Kind::OfFlat(_) => true,
        Kind::OfObject(ob) => schema::is_blob(ob),
        Kind::OfUnion(_) => false,
    }
}

// The n elements of a list that are simple, and take `total` bytes in the list.
fn simple_elements(
    schema: &Schema,
    s: &[u8],
    d: usize,
    k: Kind,
    n: usize,
    total: usize,
    at: usize,
) -> Option<Surveyed>
    requires { (KindSound (parsed schema.now) k) × (is_simple k ≡ true) × (By.Inside s.now at) × (n < 2 ^ 32) × (total < 2 ^ 48) }
    ensures { By.Surveys s.now at (By.elements schema.now.width d (bytes_of schema.now) k n (Sv.opened n total)) result }
{
    let first = opened(n, total);
    if let Some(w) = unmarked_bits(k) {
        return pass(s, at, w, n, first);
    }
    match k {
        Kind::OfFlat(f) => scalar_elements(schema, s, d, f, n, first, at),
        Kind::OfObject(ob) => blob_elements(schema, s, d, ob, n, first, at),
        Kind::OfUnion(_) => None,
    }
}

// The unknown number of a member or an element: an enum's, or a union's choice.
fn unknown(schema: &Schema, s: &[u8], pos: usize, k: Kind) -> Option<Surveyed>
    requires { (KindSound (parsed schema.now) k) × By.Inside s.now pos }
    ensures { By.Surveys s.now pos (By.unknown (bytes_of schema.now) k) result }
{
    match k {
        Kind::OfFlat(f) => flat_unknown(s, pos, f).map(plain_of),
        Kind::OfObject(_) => None,
        Kind::OfUnion(u) => choice_unknown(schema, s, pos, usize::from(u)).map(plain_of),
    }
}

// An object that is referred to, or stands in place, with what it adds to its holder.
#[cycle(walk)]
fn refer(
    schema: &Schema,
    s: &[u8],
    d: usize,
    ob: Object,
    inplace: bool,
    union: bool,
    pos: usize,
) -> Option<Surveyed>
    requires { (ObjectSound (parsed schema.now) ob) × By.Inside s.now pos }
    ensures { By.Surveys s.now pos (By.held schema.now.width d (bytes_of schema.now) inplace union ob) result }
{
    if let Some(more) = blob_end(ob) {
        return refer_blob(s, d, more, inplace, union, pos, schema.width);
    }
    let x = object(schema, s, d, ob, pos)?;
    Some(Surveyed {
        extent: referred(inplace, union, x.extent, schema.width),
        next: x.next,
    })
}

// The known choice of union u, and the object of that case.
#[cycle(walk)]
fn choice(
    schema: &Schema,
    s: &[u8],
    d: usize,
    u: usize,
    inplace: bool,
    pos: usize,
) -> Option<Surveyed>
    requires { (u < P.union_count (bytes_of schema.now)) × By.Inside s.now pos }
    ensures { By.Surveys s.now pos (By.choice schema.now.width d (bytes_of schema.now) inplace u) result }
{
    let n = schema.packed.case_count(u);
    let x = bitio::take_number(s, pos, 16)?;
    let c = x.value as usize;
    if c == 0 || n < c {
        return None;
    }
    refer(
        schema,
        s,
        d,
        schema.packed.union_case(u, c),
        inplace,
        true,
        x.next,
    )
}

// A member or an element, present, behind its mark.
#[cycle(walk)]
fn body(
    schema: &Schema,
    s: &[u8],
    d: usize,
    k: Kind,
    optional: bool,
    inplace: bool,
    pos: usize,
) -> Option<Surveyed>
    requires { (KindSound (parsed schema.now) k) × By.Inside s.now pos }
    ensures { By.Surveys s.now pos (By.body schema.now.width d (bytes_of schema.now) k optional inplace) result }
{
    match k {
        Kind::OfFlat(f) => flat_test(schema, s, pos, optional, f).map(plain_of),
        Kind::OfObject(ob) => refer(schema, s, d, ob, inplace, false, pos),
        Kind::OfUnion(u) => choice(schema, s, d, usize::from(u), inplace, pos),
    }
}

// A member or an element: its mark, and what the mark says comes next.
#[cycle(walk)]
fn part(
    schema: &Schema,
    s: &[u8],
    d: usize,
    k: Kind,
    optional: bool,
    inplace: bool,
    pos: usize,
) -> Option<Surveyed>
    requires { (KindSound (parsed schema.now) k) × By.Inside s.now pos }
    ensures { By.Surveys s.now pos (By.part schema.now.width d (bytes_of schema.now) k optional inplace) result }
{
    let m = take_mark(s, pos)?;
    match m.mark {
        Mark::Absent => Some(Surveyed {
            extent: plain(may_lack(optional, k)),
            next: m.next,
        }),
        Mark::Present => body(schema, s, d, k, optional, inplace, m.next),
        Mark::Unknown => unknown(schema, s, m.next, k),
    }
}

// `part` of a table's member. It is apart for speed: a table's slices are stored for the call only where there is such a member.
#[cycle(walk)]
fn member_part(schema: &Schema, s: &[u8], d: usize, r: Member, pos: usize) -> Option<Surveyed>
    requires { (KindSound (parsed schema.now) r.kind) × By.Inside s.now pos }
    ensures { By.Surveys s.now pos (By.part schema.now.width d (bytes_of schema.now) r.kind r.optional r.inplace) result }
{
    part(schema, s, d, r.kind, r.optional, r.inplace, pos)
}

// The content of table t; `size` is that of its full fixed part.
#[cycle(walk)]
fn table(schema: &Schema, s: &[u8], d: usize, t: usize, size: usize, at: usize) -> Option<Surveyed>
    requires { (t < P.table_count (bytes_of schema.now)) × (By.Inside s.now at) × (size ≡ By.fixed schema.now.width (bytes_of schema.now) t) × (size < 2 ^ 21) }
    ensures { By.Surveys s.now at (By.content schema.now.width d (bytes_of schema.now) (Object.Table t)) result }
{
    let count = schema.packed.member_count(t);
    let mut a = opened(size, size);
    let mut pos = at;
    let mut j: usize = 0;
    // Kept: a `for` is no plainer, since j goes on behind the member at which `simple_members` stopped.
    while j < count {
        let g = simple_members(schema, s, d, t, j, a, pos)?;
        if count <= g.index {
            return Some(Surveyed {
                extent: g.extent,
                next: g.next,
            });
        }
        let x = member_part(schema, s, d, schema.packed.member(t, g.index), g.next)?;
        a = joined(g.extent, x.extent);
        pos = x.next;
        j = g.index + 1;
    }
    Some(Surveyed {
        extent: a,
        next: pos,
    })
}

// The content of table t, with the size of its fixed part found first.
#[cycle(walk)]
fn table_found(schema: &Schema, s: &[u8], d: usize, t: usize, at: usize) -> Option<Surveyed>
    requires { (t < P.table_count (bytes_of schema.now)) × By.Inside s.now at }
    ensures { By.Surveys s.now at (By.content schema.now.width d (bytes_of schema.now) (Object.Table t)) result }
{
    table(schema, s, d, t, fixed_size(schema, t), at)
}

// ---- a list of tables, whose fixed parts all have one size
// Table t that an element refers to; `size` is that of its full fixed part.
#[cycle(walk)]
fn row(schema: &Schema, s: &[u8], d: usize, t: usize, size: usize, pos: usize) -> Option<Surveyed>
    requires { (t < P.table_count (bytes_of schema.now)) × (By.Inside s.now pos) × (size ≡ By.fixed schema.now.width (bytes_of schema.now) t) × (size < 2 ^ 21) }
    ensures { By.Surveys s.now pos (By.held schema.now.width d (bytes_of schema.now) false false (Object.Table t)) result }
{
    if d == 0 {
        return None;
    }
    let x = table(schema, s, d - 1, t, size, pos)?;
    Some(Surveyed {
        extent: referred(false, false, x.extent, schema.width),
        next: x.next,
    })
}

// An element that refers to table t: its mark, and the table if it is present.
#[cycle(walk)]
fn marked_row(
    schema: &Schema,
    s: &[u8],
    d: usize,
    t: usize,
    size: usize,
    pos: usize,
) -> Option<Surveyed>
    requires { (t < P.table_count (bytes_of schema.now)) × (By.Inside s.now pos) × (size ≡ By.fixed schema.now.width (bytes_of schema.now) t) × (size < 2 ^ 21) }
    ensures { By.Surveys s.now pos (By.part schema.now.width d (bytes_of schema.now) (Kind.OfObject (Object.Table t)) true false) result }
{
    let m = take_mark(s, pos)?;
    match m.mark {
        Mark::Absent => Some(Surveyed {
            extent: plain(true),
            next: m.next,
        }),
        Mark::Present => row(schema, s, d, t, size, m.next),
        Mark::Unknown => None,
    }
}

// The n elements of a list that refer to table t, and take `total` bytes in the list.
#[cycle(walk)]
fn rows(
    schema: &Schema,
    s: &[u8],
    d: usize,
    t: usize,
    n: usize,
    total: usize,
    at: usize,
) -> Option<Surveyed>
    requires { (t < P.table_count (bytes_of schema.now)) × (By.Inside s.now at) × (n < 2 ^ 32) × (total < 2 ^ 48) }
    ensures { By.Surveys s.now at (By.elements schema.now.width d (bytes_of schema.now) (Kind.OfObject (Object.Table t)) n (Sv.opened n total)) result }
{
    let size = fixed_size(schema, t);
    let mut a = opened(n, total);
    let mut pos = at;
    for _ in 0..n {
        let x = marked_row(schema, s, d, t, size, pos)?;
        a = joined(a, x.extent);
        pos = x.next;
    }
    Some(Surveyed {
        extent: a,
        next: pos,
    })
}

// The content of list i.
#[cycle(walk)]
fn list(schema: &Schema, s: &[u8], d: usize, i: usize, at: usize) -> Option<Surveyed>
    requires { (i < P.list_count (bytes_of schema.now)) × By.Inside s.now at }
    ensures { By.Surveys s.now at (By.content schema.now.width d (bytes_of schema.now) (Object.List i)) result }
{
    let y = bitio::take_number(s, at, 32)?;
    let n = y.value as usize;
    let k = schema.packed.element(i);
    let total = message_layout::elements_size(schema, k, n);
    if let Kind::OfObject(Object::Table(t)) = k {
        return rows(schema, s, d, usize::from(t), n, total, y.next);
    }
    if is_simple(k) {
        return simple_elements(schema, s, d, k, n, total, y.next);
    }
    let mut a = opened(n, total);
    let mut pos = y.next;
    for _ in 0..n {
        let x = part(schema, s, d, k, true, false, pos)?;
        a = joined(a, x.extent);
        pos = x.next;
    }
    Some(Surveyed {
        extent: a,
        next: pos,
    })
}

// ---- direct lists, whose elements are tables without marks
// An element of a direct list of table t; `size` is that of its full fixed part.
#[cycle(walk)]
fn direct(
    schema: &Schema,
    s: &[u8],
    d: usize,
    t: usize,
    size: usize,
    pos: usize,
) -> Option<Surveyed>
    requires { (t < P.table_count (bytes_of schema.now)) × (By.Inside s.now pos) × (size ≡ By.fixed schema.now.width (bytes_of schema.now) t) × (size < 2 ^ 21) }
    ensures { By.Surveys s.now pos (By.object schema.now.width d (bytes_of schema.now) (Object.Table t)) result }
{
    if d == 0 {
        return None;
    }
    table(schema, s, d - 1, t, size, pos)
}

// The content of a direct list of table t.
#[cycle(walk)]
fn directs(schema: &Schema, s: &[u8], d: usize, t: usize, at: usize) -> Option<Surveyed>
    requires { (t < P.table_count (bytes_of schema.now)) × By.Inside s.now at }
    ensures { By.Surveys s.now at (By.content schema.now.width d (bytes_of schema.now) (Object.DirectList t)) result }
{
    let y = bitio::take_number(s, at, 32)?;
    let n = y.value as usize;
    let size = fixed_size(schema, t);
    let mut a = opened(n, direct_size(size, n));
    let mut pos = y.next;
    for _ in 0..n {
        let x = direct(schema, s, d, t, size, pos)?;
        a = joined(a, x.extent);
        pos = x.next;
    }
    Some(Surveyed {
        extent: a,
        next: pos,
    })
}

// An object's content, where d objects may stand below each other, this one counted.
#[cycle(walk)]
pub fn object(schema: &Schema, s: &[u8], d: usize, ob: Object, pos: usize) -> Option<Surveyed>
    requires { (ObjectSound (parsed schema.now) ob) × By.Inside s.now pos }
    ensures { By.Surveys s.now pos (By.object schema.now.width d (bytes_of schema.now) ob) result }
{
    if d == 0 {
        return None;
    }
    match ob {
        Object::Text => blob(s, pos, 1),
        Object::Bytes => blob(s, pos, 0),
        Object::List(i) => list(schema, s, d - 1, usize::from(i), pos),
        Object::Table(t) => table_found(schema, s, d - 1, usize::from(t), pos),
        Object::DirectList(t) => directs(schema, s, d - 1, usize::from(t), pos),
    }
}
