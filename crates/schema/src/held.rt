// A packed schema with its directory, a well-formed schema under a coding, and a message that is read by it: what those who read and
// write by a schema are lent.
#![tactic(auto)]

ghost use Rattle.std.specs.Prelude.{◌≡◌, ℕ, ◌+◌, ◌<◌, ◌≤◌, ◌^◌, length, get_or};
ghost use Rattle.coding.specs.Packed as P;
ghost use Rattle.coding.specs.Schema as Sc;
ghost use Rattle.coding.specs.Structs as S;
ghost use Rattle.laws.specs.Sound.{MemberSound};
ghost use Rattle.schema.specs.Directory.{Directory, Accepted, Block};
ghost use Rattle.schema.specs.Representatives.{Represents};
ghost use Rattle.wire.specs.Sizes.{WithinSize, Width};

use crate::{
    LIST_PLACE, REPRESENTATIVES, STRUCT_PLACES, STRUCT_SIZES, TABLE_HEAD, TABLE_PLACES,
    UNION_PLACES, element_at, entry, flat_at, id_at, member_at, object_at, record_place, records,
};
use coding::{Flat, Kind, Member, Object};

// The bytes of a schema, and the directory that says where everything in it stands.
#[derive(Clone, Copy)]
pub struct Packed<'a> {
    pub bytes: &'a [u8],
    pub directory: &'a [u16],
    pub ghost places: { Directory bytes.now directory.now },
}

// A well-formed schema, and a coding by the width of its offsets. The few who need that the schema is lawful under that coding ask for
// it in a clause.
#[derive(Clone, Copy)]
pub struct Schema<'a> {
    pub packed: Packed<'a>,
    pub width: usize,
    pub ghost accepted: { Accepted packed.bytes.now packed.directory.now },
    pub ghost coded: { Width width },
}

// A message that is read by a schema. It is no longer than a message may be.
#[derive(Clone, Copy)]
pub struct Reading<'a> {
    pub schema: Schema<'a>,
    pub message: &'a [u8],
    pub ghost within: { WithinSize message.now },
    pub ghost bytes: { (i : ℕ) → get_or message.now i 0 < 256 },
}

// ---- where things stand by the directory, and what stands there
impl<'a> Packed<'a> {
    // Where struct s stands.
    pub fn struct_place(&self, s: usize) -> usize
        requires { s < P.struct_count self.now.bytes.now }
        ensures { Block self.now.bytes.now 0 (P.struct_place self.now.bytes.now s) result }
    {
        entry(self.directory, STRUCT_PLACES, s)
    }

    // Where the record of list l stands.
    pub fn list_place(&self, l: usize) -> usize
        requires { l < P.list_count self.now.bytes.now }
        ensures { (result ≡ P.list_place self.now.bytes.now l) × (result + 1 < length self.now.bytes.now) }
    {
        entry(self.directory, LIST_PLACE, 0) + 2 * l
    }

    // Where union u stands.
    pub fn union_place(&self, u: usize) -> usize
        requires { u < P.union_count self.now.bytes.now }
        ensures { Block self.now.bytes.now 0 (P.union_place self.now.bytes.now u) result }
    {
        entry(self.directory, UNION_PLACES, u)
    }

    // Where table t stands.
    pub fn table_place(&self, t: usize) -> usize
        requires { t < P.table_count self.now.bytes.now }
        ensures { Block self.now.bytes.now 4 (P.table_place self.now.bytes.now t) result }
    {
        entry(self.directory, TABLE_PLACES, t)
    }

    // How many members struct s has.
    pub fn field_count(&self, s: usize) -> usize
        requires { s < P.struct_count self.now.bytes.now }
        ensures { (result ≡ length (Sc.struct_of (P.parse self.now.bytes.now) s)) × (result < 256) }
    {
        records(self.bytes, 0, self.struct_place(s))
    }

    // Member j of struct s.
    pub fn field(&self, s: usize, j: usize) -> Flat
        requires { (s < P.struct_count self.now.bytes.now) × (j < length (Sc.struct_of (P.parse self.now.bytes.now) s)) × (j < 256) }
        ensures { result ≡ Sc.field_of (P.parse self.now.bytes.now) s j }
    {
        flat_at(self.bytes, record_place(0, self.struct_place(s), j))
    }

    // The element of list l.
    pub fn element(&self, l: usize) -> Kind
        requires { l < P.list_count self.now.bytes.now }
        ensures { result ≡ Sc.element_of (P.parse self.now.bytes.now) l }
    {
        element_at(self.bytes, self.list_place(l))
    }

    // How many cases union u has.
    pub fn case_count(&self, u: usize) -> usize
        requires { u < P.union_count self.now.bytes.now }
        ensures { (result ≡ length (Sc.cases_of (P.parse self.now.bytes.now) u)) × (result < 256) }
    {
        records(self.bytes, 0, self.union_place(u))
    }

    // The object of a choice, "cases from 1".
    pub fn union_case(&self, u: usize, c: usize) -> Object
        requires { (u < P.union_count self.now.bytes.now) × (0 < c) × (c ≤ length (Sc.cases_of (P.parse self.now.bytes.now) u)) × (c < 256) }
        ensures { result ≡ Sc.case_of (Sc.cases_of (P.parse self.now.bytes.now) u) c }
    {
        object_at(self.bytes, record_place(0, self.union_place(u), c - 1))
    }

    // The id of table t.
    pub fn table_id(&self, t: usize) -> u64
        requires { t < P.table_count self.now.bytes.now }
        ensures { (result ≡ (Sc.table_of (P.parse self.now.bytes.now) t).id) × (result < 2 ^ 32) }
    {
        id_at(self.bytes, self.table_place(t))
    }

    // How many members table t has.
    pub fn member_count(&self, t: usize) -> usize
        requires { t < P.table_count self.now.bytes.now }
        ensures { (result ≡ length (Sc.table_of (P.parse self.now.bytes.now) t).members) × (result < 256) }
    {
        records(self.bytes, TABLE_HEAD, self.table_place(t))
    }

    // Member j of table t.
    pub fn member(&self, t: usize, j: usize) -> Member
        requires { (t < P.table_count self.now.bytes.now) × (j < length (Sc.table_of (P.parse self.now.bytes.now) t).members) × (j < 256) }
        ensures { result ≡ Sc.member_of (P.parse self.now.bytes.now) t j }
    {
        member_at(self.bytes, record_place(TABLE_HEAD, self.table_place(t), j))
    }
}

// ---- what else a well-formed schema has
impl<'a> Schema<'a> {
    ghost use Rattle.schema.specs.Parsed.{parsed, bytes_of};

    // Where the record of member j of table t stands.
    pub fn record_of(&self, t: usize, j: usize) -> usize
        requires { (t < P.table_count (bytes_of self.now)) × (j < length (Sc.table_of (parsed self.now) t).members) × (j < 256) }
        ensures { (result + 1 < length (bytes_of self.now)) × (P.member_at (bytes_of self.now) result ≡ Sc.member_of (parsed self.now) t j) × MemberSound (parsed self.now) (P.member_at (bytes_of self.now) result) }
    {
        record_place(TABLE_HEAD, self.packed.table_place(t), j)
    }

    // A struct's size, as it was stored.
    pub fn stored_size(&self, s: usize) -> usize
        requires { s < P.struct_count (bytes_of self.now) }
        ensures { (result ≡ S.struct_size (parsed self.now) s) × (result ≤ 4096) }
    {
        entry(self.packed.directory, STRUCT_SIZES, s)
    }

    // A struct's representative, as it was stored.
    pub fn representative(&self, s: usize) -> usize
        requires { s < P.struct_count (bytes_of self.now) }
        ensures { (Represents (parsed self.now) s result) × (result < 65536) }
    {
        entry(self.packed.directory, REPRESENTATIVES, s)
    }
}
