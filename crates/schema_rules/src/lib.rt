// The rules of a record, of a block of records, and of a list, a union and a table.
#![tactic(auto)]

ghost use Rattle.std.specs.Prelude.{◌≡◌, true, ◌+◌, ◌*◌, ◌<◌, ◌≤◌, length};
ghost use Rattle.coding.specs.Packed as P;
ghost use Rattle.coding.specs.Lawful as L;

use coding::Role;
use schema::Packed;

// ---- the rules of a record
// Whether the argument a is right for the kind k.
#[tactic(auto, unfolding(coding::specs::Lawful::argument_ok))]
fn argument_ok(b: &[u8], k: usize, a: usize) -> bool
    ensures { result ≡ L.argument_ok b.now k a }
{
    match k {
        ..schema::KIND_ENUM => a == 0,
        schema::KIND_ENUM => 0 < a,
        schema::KIND_STRUCT => a < schema::count(b, schema::STRUCTS),
        ..schema::KIND_LIST => a == 0,
        schema::KIND_LIST => a < schema::count(b, schema::LISTS),
        schema::KIND_TABLE | schema::KIND_DIRECT_LIST => a < schema::count(b, schema::TABLES),
        schema::KIND_UNION => a < schema::count(b, schema::UNIONS),
        _ => false,
    }
}

// Whether the kind may stand there; a is its argument.
#[tactic(auto, unfolding(coding::specs::Lawful::kind_ok))]
fn kind_ok(role: Role, k: usize, a: usize) -> bool
    ensures { result ≡ L.kind_ok role k a }
{
    match role {
        Role::InStruct(i) => k < schema::KIND_STRUCT || k == schema::KIND_STRUCT && a < i,
        Role::InList => k != schema::KIND_STRUCT,
        Role::InUnion => matches!(
            k,
            schema::KIND_TEXT..=schema::KIND_TABLE | schema::KIND_DIRECT_LIST
        ),
        Role::InTable => true,
    }
}

// Whether a record there may say optional.
#[tactic(auto, unfolding(coding::specs::Lawful::optional_ok))]
fn optional_ok(role: Role, k: usize) -> bool
    ensures { result ≡ L.optional_ok role k }
{
    match role {
        Role::InStruct(_) | Role::InList | Role::InUnion => false,
        Role::InTable => k < schema::KIND_ENUM || k == schema::KIND_STRUCT,
    }
}

// Whether a record there may say in place.
#[tactic(auto, unfolding(coding::specs::Lawful::inplace_ok))]
fn inplace_ok(role: Role, k: usize) -> bool
    ensures { result ≡ L.inplace_ok role k }
{
    match role {
        Role::InStruct(_) | Role::InList | Role::InUnion => false,
        Role::InTable => matches!(k, schema::KIND_TEXT..=schema::KIND_UNION),
    }
}

// Whether the record at `at`, of kind k, has a flag only where it may.
#[tactic(auto, unfolding(coding::specs::Lawful::flags_ok))]
fn flags_ok(b: &[u8], role: Role, k: usize, at: usize) -> bool
    requires { (k ≡ P.kind_at b.now at) × (at + 1 < length b.now) }
    ensures { result ≡ L.flags_ok b.now role at }
{
    (!schema::optional_at(b, at) || optional_ok(role, k))
        && (!schema::inplace_at(b, at) || inplace_ok(role, k))
}

// ---- members in place
// How many records of the table at `at` are in place.
fn inplaces(b: &[u8], at: usize) -> usize
    requires { (at < 65536) × (at + 4 + 1 + 2 * P.records b.now 4 at ≤ length b.now) }
    ensures { result ≡ L.inplaces b.now at (P.records b.now 4 at) }
{
    (0..schema::records(b, schema::TABLE_HEAD, at))
        .filter(|j| schema::inplace_at(b, schema::record_place(schema::TABLE_HEAD, at, *j)))
        .count()
}

// ---- the rules of direct lists
// Whether the table at `at` may be that of a direct list's elements: it has a member, and none in place.
#[tactic(auto, unfolding(coding::specs::Lawful::direct_table))]
fn direct_table(b: &[u8], at: usize) -> bool
    requires { (at < 65536) × (at + 4 + 1 + 2 * P.records b.now 4 at ≤ length b.now) }
    ensures { result ≡ L.direct_table b.now at }
{
    0 < schema::records(b, schema::TABLE_HEAD, at) && inplaces(b, at) == 0
}

// Whether a table may hold the union at `at` in place: no case is a direct list.
pub fn held_union(b: &[u8], at: usize) -> bool
    requires { (at < 65536) × (at + 1 + 2 * P.records b.now 0 at ≤ length b.now) }
    ensures { result ≡ L.held_union b.now at }
{
    (0..schema::records(b, 0, at)).all(|j| {
        let p = schema::record_place(0, at, j);
        schema::kind_at(b, p) != schema::KIND_DIRECT_LIST
    })
}

// Whether the record at `at`, of kind k with the argument a, keeps the rules of direct lists: one has its table, and a union in
// place has none among its cases.
#[tactic(auto, unfolding(coding::specs::Lawful::direct_ok))]
fn direct_ok(packed: &Packed, k: usize, a: usize, at: usize) -> bool
    requires { (at + 1 < length packed.now.bytes.now) × (k ≡ P.kind_at packed.now.bytes.now at) × (a ≡ P.argument_at packed.now.bytes.now at) × (L.argument_ok packed.now.bytes.now k a ≡ true) }
    ensures { result ≡ L.direct_ok packed.now.bytes.now at }
{
    match k {
        schema::KIND_DIRECT_LIST => direct_table(packed.bytes, packed.table_place(a)),
        schema::KIND_UNION if schema::inplace_at(packed.bytes, at) => {
            held_union(packed.bytes, packed.union_place(a))
        }
        _ => true,
    }
}

// ---- the whole record
// Whether the record at `at` is right.
#[tactic(auto, unfolding(coding::specs::Lawful::record_ok))]
fn record_ok(packed: &Packed, role: Role, at: usize) -> bool
    requires { at + 1 < length packed.now.bytes.now }
    ensures { result ≡ L.record_ok packed.now.bytes.now role at }
{
    let k = schema::kind_at(packed.bytes, at);
    let a = usize::from(schema::argument_at(packed.bytes, at));
    schema::zero_at(packed.bytes, at)
        && argument_ok(packed.bytes, k, a)
        && kind_ok(role, k, a)
        && flags_ok(packed.bytes, role, k, at)
        && direct_ok(packed, k, a, at)
}

// ---- the rules of a block
// Whether all records of the block at `at` are right.
pub fn records_ok(packed: &Packed, role: Role, head: usize, at: usize) -> bool
    requires { (head ≤ 4) × (at < 65536) × (at + head + 1 + 2 * P.records packed.now.bytes.now head at ≤ length packed.now.bytes.now) }
    ensures { result ≡ L.records_ok packed.now.bytes.now role head at }
{
    (0..schema::records(packed.bytes, head, at)).all(|j| record_ok(
        packed,
        role,
        schema::record_place(head, at, j),
    ))
}

// The first byte of an enum's record without a flag: below it stand bools, numbers and floats.
const FIRST_ENUM: u8 = 88;

// Whether the record at `at` is a bool, a number or a float, optional or not, with the argument 0 and no other flag: most
// records of a table are, and no more is asked of them there.
fn is_number(b: &[u8], at: usize) -> bool
    requires { at + 1 < length b.now }
    ensures { result ≡ true → L.record_ok b.now Role.InTable at ≡ true }
{
    b[at] < FIRST_ENUM && b[at] & 3 == 0 && b[at + 1] == 0
}

// Whether all records of the table at `at` are right.
fn members_ok(packed: &Packed, at: usize) -> bool
    requires { (at < 65536) × (at + 4 + 1 + 2 * P.records packed.now.bytes.now 4 at ≤ length packed.now.bytes.now) }
    ensures { result ≡ L.records_ok packed.now.bytes.now Role.InTable 4 at }
{
    (0..schema::records(packed.bytes, schema::TABLE_HEAD, at)).all(|j| {
        let p = schema::record_place(schema::TABLE_HEAD, at, j);
        is_number(packed.bytes, p) || record_ok(packed, Role::InTable, p)
    })
}

// ---- the rules of lists, unions and tables
// Whether list i is right.
#[tactic(auto, unfolding(coding::specs::Lawful::list_lawful))]
pub fn list_ok(packed: &Packed, i: usize) -> bool
    requires { i < P.list_count packed.now.bytes.now }
    ensures { result ≡ L.list_lawful packed.now.bytes.now i }
{
    record_ok(packed, Role::InList, packed.list_place(i))
}

// Whether union i is right.
#[tactic(auto, unfolding(coding::specs::Lawful::union_lawful))]
pub fn union_ok(packed: &Packed, i: usize) -> bool
    requires { i < P.union_count packed.now.bytes.now }
    ensures { result ≡ L.union_lawful packed.now.bytes.now i }
{
    records_ok(packed, Role::InUnion, 0, packed.union_place(i))
}

// Whether table i is right, and has at most one member in place.
#[tactic(auto, unfolding(coding::specs::Lawful::table_lawful))]
pub fn table_ok(packed: &Packed, i: usize) -> bool
    requires { i < P.table_count packed.now.bytes.now }
    ensures { result ≡ L.table_lawful packed.now.bytes.now i }
{
    let at = packed.table_place(i);
    members_ok(packed, at) && inplaces(packed.bytes, at) <= 1
}
