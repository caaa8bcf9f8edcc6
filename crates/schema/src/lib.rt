// The packed schema: where everything in it stands, and what stands there.
//
// The directory is an array of DIRECTORY numbers that the caller lends: where each struct stands, the first list, each union
// and each table; the size of each struct, and its representative. `Packed` holds both, `Schema` a well-formed schema under a coding,
// and `Reading` a message that is read by one.
#![tactic(auto)]

ghost use Rattle.std.specs.Prelude.{◌≡◌, ◌&&◌, not, ◌+◌, ◌*◌, ◌<◌, ◌≤◌, ◌^◌, eqb, ltb, length, get_or};
ghost use Rattle.coding.specs.Packed as P;
ghost use Rattle.schema.specs.Kinds.{is_blob, integer_width};

use coding::{Flat, Kind, Member, Object};

pub mod held;

pub use held::{Packed, Reading, Schema};

// ---- the schema's bytes
// Which byte counts the structs, the lists, the unions and the tables, and which is the root's number.
pub const STRUCTS: usize = 0;

pub const LISTS: usize = 1;

pub const UNIONS: usize = 2;

pub const TABLES: usize = 3;

pub const ROOT: usize = 4;

// Where the first struct stands.
pub const FIRST: usize = 5;

// The bytes before the record count of a table: its id. A struct and a union have none.
pub const TABLE_HEAD: usize = 4;

// ---- its limits
// The most structs, lists, unions and tables; and the most members of a table.
pub const MOST: usize = 64;

// The most members of a struct, and cases of a union.
pub const MOST_FIELDS: usize = 32;

// The bytes of the largest struct.
pub const LARGEST_STRUCT: usize = 4096;

// ---- the directory
pub const DIRECTORY: usize = 384;

// Where in it the structs' places stand, the first list's, the unions' and the tables'; the structs' sizes and representatives.
pub const STRUCT_PLACES: usize = 0;

pub const LIST_PLACE: usize = 64;

pub const UNION_PLACES: usize = 128;

pub const TABLE_PLACES: usize = 192;

pub const STRUCT_SIZES: usize = 256;

pub const REPRESENTATIVES: usize = 320;

// The representative of a struct without a bool.
// Kept: a number for none, since representatives stand in the directory, which is numbers in memory that the caller lends.
pub const NO_BOOL: usize = 65535;

// ---- the numbers of kinds in a record
// Kept: numbers and no enum, since the definitions (`Packed.kind_of`, `Lawful.argument_ok` and the like) are tests of a record's
// number by its order, also of the numbers from 19 on that are no kind.
pub const KIND_BOOL: usize = 0;

// Unsigned integers of 1, 2, 4 and 8 bytes stand from 1 on, signed ones from here.
pub const KIND_SIGNED: usize = 5;

// Floats of 4 and 8 bytes.
pub const KIND_FLOAT: usize = 9;

pub const KIND_ENUM: usize = 11;

pub const KIND_STRUCT: usize = 12;

pub const KIND_TEXT: usize = 13;

pub const KIND_BYTES: usize = 14;

pub const KIND_LIST: usize = 15;

pub const KIND_TABLE: usize = 16;

pub const KIND_UNION: usize = 17;

pub const KIND_DIRECT_LIST: usize = 18;

// Whether a kind leads to no object: a bool, an integer, a float, an enum or a struct.
pub fn is_flat_kind(k: usize) -> bool
    ensures { result ≡ ltb k 13 }
{
    k < KIND_TEXT
}

// Whether a kind is an object: a text, bytes, a list, a table or a direct list.
pub fn is_object_kind(k: usize) -> bool
    ensures { result ≡ (not (ltb k 13) && not (eqb k 17)) }
{
    !is_flat_kind(k) && k != KIND_UNION
}

// Whether a kind is a union.
pub fn is_union_kind(k: usize) -> bool
    ensures { result ≡ eqb k 17 }
{
    k == KIND_UNION
}

// ---- one record, at its place
// The number of its kind.
#[tactic(auto, unfolding(coding::specs::Packed::kind_at))]
pub fn kind_at(b: &[u8], at: usize) -> usize
    requires { at + 1 < length b.now }
    ensures { (result ≡ P.kind_at b.now at) × (result < 32) }
{
    usize::from(b[at]) >> 3
}

// Whether it says optional.
#[tactic(auto, unfolding(coding::specs::Packed::optional_at))]
pub fn optional_at(b: &[u8], at: usize) -> bool
    requires { at + 1 < length b.now }
    ensures { result ≡ P.optional_at b.now at }
{
    b[at] >> 2 & 1 == 1
}

// Whether it says in place.
#[tactic(auto, unfolding(coding::specs::Packed::inplace_at))]
pub fn inplace_at(b: &[u8], at: usize) -> bool
    requires { at + 1 < length b.now }
    ensures { result ≡ P.inplace_at b.now at }
{
    b[at] >> 1 & 1 == 1
}

// Whether the bit that must be 0 is.
#[tactic(auto, unfolding(coding::specs::Packed::zero_at))]
pub fn zero_at(b: &[u8], at: usize) -> bool
    requires { at + 1 < length b.now }
    ensures { result ≡ P.zero_at b.now at }
{
    b[at] & 1 == 0
}

// Its argument: an enum's count, or the index of a struct, a list, a table or a union.
#[tactic(auto, unfolding(coding::specs::Packed::argument_at))]
pub fn argument_at(b: &[u8], at: usize) -> u8
    requires { at + 1 < length b.now }
    ensures { result ≡ P.argument_at b.now at }
{
    b[at + 1]
}

// The bytes of a value of kind 0, 1 and so on.
static WIDTHS: [u8; 11] = [1, 1, 2, 4, 8, 1, 2, 4, 8, 4, 8];

// The bytes of a bool, an integer or a float by the number of its kind.
#[tactic(auto, unfolding(coding::specs::Packed::width_of))]
pub fn width_of(k: usize) -> u8
    requires { k < 11 }
    ensures { result ≡ P.width_of k }
{
    WIDTHS[k]
}

// What a kind's number and argument say, of a kind that leads to no object.
#[tactic(auto, unfolding(coding::specs::Packed::flat_of))]
fn flat_of(k: usize, a: u8) -> Flat
    ensures { result ≡ P.flat_of k a }
{
    match k {
        KIND_BOOL => Flat::Boolean,
        ..KIND_SIGNED => Flat::Integer(false, width_of(k)),
        ..KIND_FLOAT => Flat::Integer(true, width_of(k)),
        ..KIND_ENUM => Flat::Float(width_of(k)),
        KIND_ENUM => Flat::Enumerated(a),
        _ => Flat::Struct(a),
    }
}

// What a kind's number and argument say, of an object.
#[tactic(auto, unfolding(coding::specs::Packed::object_of))]
fn object_of(k: usize, a: u8) -> Object
    ensures { result ≡ P.object_of k a }
{
    match k {
        KIND_TEXT => Object::Text,
        KIND_BYTES => Object::Bytes,
        KIND_LIST => Object::List(a),
        KIND_DIRECT_LIST => Object::DirectList(a),
        _ => Object::Table(a),
    }
}

// What a kind's number and argument say.
#[tactic(auto, unfolding(coding::specs::Packed::kind_of))]
fn kind_of(k: usize, a: u8) -> Kind
    ensures { result ≡ P.kind_of k a }
{
    match k {
        ..KIND_TEXT => Kind::OfFlat(flat_of(k, a)),
        KIND_UNION => Kind::OfUnion(a),
        _ => Kind::OfObject(object_of(k, a)),
    }
}

// The record as a struct's member.
#[tactic(auto, unfolding(coding::specs::Packed::flat_at))]
pub fn flat_at(b: &[u8], at: usize) -> Flat
    requires { at + 1 < length b.now }
    ensures { result ≡ P.flat_at b.now at }
{
    flat_of(kind_at(b, at), argument_at(b, at))
}

// The record as a union's case.
#[tactic(auto, unfolding(coding::specs::Packed::object_at))]
pub fn object_at(b: &[u8], at: usize) -> Object
    requires { at + 1 < length b.now }
    ensures { result ≡ P.object_at b.now at }
{
    object_of(kind_at(b, at), argument_at(b, at))
}

// The record as a list's element.
#[tactic(auto, unfolding(coding::specs::Packed::element_at))]
pub fn element_at(b: &[u8], at: usize) -> Kind
    requires { at + 1 < length b.now }
    ensures { result ≡ P.element_at b.now at }
{
    kind_of(kind_at(b, at), argument_at(b, at))
}

// The record as a table's member.
#[tactic(auto, unfolding(coding::specs::Packed::member_at))]
pub fn member_at(b: &[u8], at: usize) -> Member
    requires { at + 1 < length b.now }
    ensures { result ≡ P.member_at b.now at }
{
    Member {
        kind: element_at(b, at),
        optional: optional_at(b, at),
        inplace: inplace_at(b, at),
    }
}

// ---- what a kind is
// Whether the object is a text or bytes.
#[tactic(auto, unfolding(crate::specs::Kinds::is_blob))]
pub fn is_blob(ob: Object) -> bool
    ensures { result ≡ is_blob ob }
{
    match ob {
        Object::Text | Object::Bytes => true,
        Object::List(_) | Object::Table(_) | Object::DirectList(_) => false,
    }
}

// The bytes of an integer; 0 for what is none.
// Kept: 0 for none, since that is what the definition `Kinds.integer_width` says.
#[tactic(auto, unfolding(crate::specs::Kinds::integer_width, crate::specs::Kinds::flat_integer))]
pub fn integer_width(k: Kind) -> usize
    ensures { result ≡ integer_width k }
{
    match k {
        Kind::OfFlat(Flat::Integer(_, w)) => usize::from(w),
        _ => 0,
    }
}

// ---- a block: how many records it has, and where each stands
// The records of the block at `at`, whose count stands behind `head` bytes.
#[tactic(auto, unfolding(coding::specs::Packed::records))]
pub fn records(b: &[u8], head: usize, at: usize) -> usize
    requires { (head ≤ 4) × (at < 65536) }
    ensures { (result ≡ P.records b.now head at) × (result < 256) }
{
    usize::from(wire::byte(b, at + head))
}

// Where record j of the block stands.
#[tactic(auto, unfolding(coding::specs::Packed::record_place))]
pub fn record_place(head: usize, at: usize, j: usize) -> usize
    requires { (head ≤ 4) × (at < 65536) × (j < 256) }
    ensures { (result ≡ P.record_place head at j) × (result ≡ at + head + 1 + 2 * j) }
{
    at + head + 1 + 2 * j
}

// The id of the table at `at`, "32-bit id".
#[tactic(auto, unfolding(coding::specs::Packed::id_at))]
pub fn id_at(b: &[u8], at: usize) -> u64
    requires { at + 4 < length b.now }
    ensures { (result ≡ P.id_at b.now at) × (result < 2 ^ 32) }
{
    u64::from(u32::from_be_bytes([b[at], b[at + 1], b[at + 2], b[at + 3]]))
}

// A count of the schema, by its byte.
pub fn count(b: &[u8], i: usize) -> usize
    ensures { (result ≡ get_or b.now i 0) × (result < 256) }
{
    usize::from(wire::byte(b, i))
}

// ---- the directory's entries
// Entry i of a part of the directory.
pub fn entry(dir: &[u16], base: usize, i: usize) -> usize
    requires { (base + i < length dir.now) × (base ≤ 320) × (i < 64) }
    ensures { (result ≡ get_or dir.now (base + i) 0) × (result < 65536) }
{
    usize::from(dir[base + i])
}

// The number of the root table.
#[tactic(auto, unfolding(coding::specs::Packed::parse))]
pub fn root(b: &[u8]) -> usize
    ensures { (result ≡ (P.parse b.now).root) × (result < 256) }
{
    count(b, ROOT)
}
