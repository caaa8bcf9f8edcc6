// Whether bytes are a lawful schema.
#![tactic(auto)]

ghost use Rattle.std.specs.Prelude.{◌≡◌, true, ◌+◌, ◌<◌, length};
ghost use Rattle.coding.specs.Packed as P;
ghost use Rattle.coding.specs.Lawful as L;
ghost use Rattle.schema.specs.Directory.{Accepted};
ghost use Rattle.schema.specs.Parsed.{Formed, Held};
ghost use Rattle.schema_lawful.specs.Parts as Pa;
ghost use Rattle.wire.specs.Sizes.{Width};

use schema::{Packed, Schema};

// ---- the rule of ids
// Whether no table before table i has its id.
fn id_ok(packed: &Packed, i: usize) -> bool
    requires { i < P.table_count packed.now.bytes.now }
    ensures { result ≡ L.id_lawful packed.now.bytes.now i }
{
    let id = schema::id_at(packed.bytes, packed.table_place(i));
    (0..i).all(|j| id != schema::id_at(packed.bytes, packed.table_place(j)))
}

// ---- what the older coding asks beyond the rules
// Whether the older coding has the table member whose record stands at `at`: a union is in place, a table is not, and there is
// no direct list.
#[tactic(auto, unfolding(coding::specs::Lawful::older_member))]
fn older_member(b: &[u8], at: usize) -> bool
    requires { at + 1 < length b.now }
    ensures { result ≡ L.older_member b.now at }
{
    match schema::kind_at(b, at) {
        schema::KIND_UNION => schema::inplace_at(b, at),
        schema::KIND_TABLE => !schema::inplace_at(b, at),
        k => k != schema::KIND_DIRECT_LIST,
    }
}

// Whether it has list i: the element is no union and no direct list.
#[tactic(auto, unfolding(coding::specs::Lawful::older_element))]
fn older_list(packed: &Packed, i: usize) -> bool
    requires { i < P.list_count packed.now.bytes.now }
    ensures { result ≡ L.older_element packed.now.bytes.now (P.list_place packed.now.bytes.now i) }
{
    !matches!(
        schema::kind_at(packed.bytes, packed.list_place(i)),
        schema::KIND_UNION | schema::KIND_DIRECT_LIST
    )
}

// Whether it has every case of union i: none is a direct list.
#[tactic(auto, unfolding(coding::specs::Lawful::older_union))]
fn older_union(packed: &Packed, i: usize) -> bool
    requires { i < P.union_count packed.now.bytes.now }
    ensures { result ≡ L.older_union packed.now.bytes.now i }
{
    schema_rules::held_union(packed.bytes, packed.union_place(i))
}

// Whether it has every member of table i.
fn older_table(packed: &Packed, i: usize) -> bool
    requires { i < P.table_count packed.now.bytes.now }
    ensures { result ≡ L.older_table packed.now.bytes.now i }
{
    let at = packed.table_place(i);
    (0..schema::records(packed.bytes, schema::TABLE_HEAD, at)).all(|j| {
        older_member(
            packed.bytes,
            schema::record_place(schema::TABLE_HEAD, at, j),
        )
    })
}

// ---- every list, union and table
// Whether all lists, unions, tables and ids are right.
fn rules(packed: &Packed) -> bool
    ensures { result ≡ Pa.rest_lawful packed.now.bytes.now }
{
    let lists = schema::count(packed.bytes, schema::LISTS);
    let unions = schema::count(packed.bytes, schema::UNIONS);
    let tables = schema::count(packed.bytes, schema::TABLES);
    (0..lists).all(|i| schema_rules::list_ok(packed, i))
        && (0..unions).all(|i| schema_rules::union_ok(packed, i))
        && (0..tables).all(|i| schema_rules::table_ok(packed, i))
        && (0..tables).all(|i| id_ok(packed, i))
}

// Whether the older coding has all lists, unions and tables.
fn older(packed: &Packed) -> bool
    ensures { result ≡ L.older_ok packed.now.bytes.now }
{
    let lists = schema::count(packed.bytes, schema::LISTS);
    let unions = schema::count(packed.bytes, schema::UNIONS);
    let tables = schema::count(packed.bytes, schema::TABLES);
    (0..lists).all(|i| older_list(packed, i))
        && (0..unions).all(|i| older_union(packed, i))
        && (0..tables).all(|i| older_table(packed, i))
}

// ---- the whole schema
// The schema with its directory, if the bytes are one by the rules that hold under both codings. `directory` is the room for where
// everything stands.
#[tactic(auto, unfolding(coding::specs::Lawful::well_formed, coding::specs::Lawful::rules_ok, crate::specs::Parts::rest_lawful))]
fn well_formed<'a>(b: &'a [u8], directory: &'a mut [u16]) -> Option<Packed<'a>>
    requires { length directory.old ≡ 384 }
    ensures { Formed b.now result }
{
    if !schema_shape::shape(b, directory) || !schema_structs::structs_ok(b, directory) {
        return None;
    }
    let packed = Packed {
        bytes: b,
        directory,
    };
    if !rules(&packed) {
        return None;
    }
    schema_structs::store_representatives(b, directory);
    Some(Packed {
        bytes: b,
        directory,
    })
}

// Whether the coding of width o has all of the schema. There is no coding of another width than the two.
#[tactic(auto, unfolding(coding::specs::Lawful::lawful, coding::specs::Bytes::width_known, coding::specs::Bytes::u32, coding::specs::Bytes::u48))]
fn coding_has(packed: &Packed, o: usize) -> bool
    requires { Accepted packed.now.bytes.now packed.now.directory.now }
    ensures { (result ≡ L.lawful o packed.now.bytes.now) × (result ≡ true → Width o) }
{
    if o == wire::U32 {
        return older(packed);
    }
    o == wire::U48
}

// The schema, if the bytes are a lawful one under the coding of width o. `directory` is the room for where everything stands.
#[tactic(auto, unfolding(coding::specs::Lawful::lawful))]
pub fn judge_schema<'a>(b: &'a [u8], directory: &'a mut [u16], o: usize) -> Option<Schema<'a>>
    requires { length directory.old ≡ 384 }
    ensures { Held o b.now result }
{
    let packed = well_formed(b, directory)?;
    if coding_has(&packed, o) {
        Some(Schema { packed, width: o })
    } else {
        None
    }
}
