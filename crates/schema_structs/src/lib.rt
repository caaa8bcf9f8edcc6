// The rules of the structs. Their sizes and representatives are stored in the directory.
#![tactic(auto)]

ghost use Rattle.std.specs.Prelude.{◌≡◌, ◌<◌, ◌≤◌, length};
ghost use Rattle.coding.specs.Packed as P;
ghost use Rattle.coding.specs.Lawful as L;
ghost use Rattle.coding.specs.Schema as Sc;
ghost use Rattle.coding.specs.Structs as S;
ghost use Rattle.laws.specs.Sound.{Sound};
ghost use Rattle.schema.specs.Directory.{Directory, StructsJudged, Sizes, SmallBelow, Represented};
ghost use Rattle.schema.specs.Representatives.{Represents, Representatives, FieldFree, StructFree};

use coding::{Flat, Role};
use schema::Packed;

// ---- struct sizes, by recursion on the struct index, which falls at every inner struct. The sizes of the first `known`
// structs are taken from the directory, so that a chain of structs is gone over once.
// The bytes of a member of struct s.
#[cycle(sizes)]
#[tactic(auto, unfolding(coding::specs::Structs::flat_width))]
fn field_size(packed: &Packed, known: usize, s: usize, f: Flat) -> usize
    requires { (Sizes packed.now.bytes.now packed.now.directory.now known) × (s < P.struct_count packed.now.bytes.now) × SmallBelow packed.now.bytes.now s }
    ensures { (result ≡ S.flat_width (S.lower 0 (S.size_by (P.parse packed.now.bytes.now)) s) f) × (result ≤ 4096) }
{
    match f {
        Flat::Boolean | Flat::Enumerated(_) => 1,
        Flat::Integer(_, w) | Flat::Float(w) => usize::from(w),
        Flat::Struct(a) => {
            let i = usize::from(a);
            if i < s {
                struct_size(packed, known, i)
            } else {
                0
            }
        }
    }
}

// The bytes of struct s.
#[cycle(sizes)]
fn struct_size(packed: &Packed, known: usize, s: usize) -> usize
    requires { (Sizes packed.now.bytes.now packed.now.directory.now known) × (s < P.struct_count packed.now.bytes.now) × SmallBelow packed.now.bytes.now s }
    ensures { (result ≡ S.struct_size (P.parse packed.now.bytes.now) s) × (result ≤ 1048576) }
{
    if s < known {
        return schema::entry(packed.directory, schema::STRUCT_SIZES, s);
    }
    let mut size: usize = 0;
    for j in 0..packed.field_count(s) {
        size += field_size(packed, known, s, packed.field(s, j));
    }
    size
}

// ---- the rules of the structs, whose sizes are stored on the way
// Whether the members of struct i are right.
fn fields_ok(packed: &Packed, i: usize) -> bool
    requires { i < P.struct_count packed.now.bytes.now }
    ensures { result ≡ L.records_ok packed.now.bytes.now (Role.InStruct i) 0 (P.struct_place packed.now.bytes.now i) }
{
    schema_rules::records_ok(packed, Role::InStruct(i), 0, packed.struct_place(i))
}

// Whether all structs are right; their sizes are stored in the directory.
pub fn structs_ok(b: &[u8], dir: &mut [u16]) -> bool
    requires { Directory b.now dir.old }
    ensures { StructsJudged b.now dir.new result }
{
    for i in 0..schema::count(b, schema::STRUCTS) {
        let packed = Packed {
            bytes: b,
            directory: dir,
        };
        if !fields_ok(&packed, i) {
            return false;
        }
        let size = struct_size(&packed, i, i);
        if schema::LARGEST_STRUCT < size {
            return false;
        }
        schema_shape::put(dir, schema::STRUCT_SIZES + i, size);
    }
    true
}

// ---- representatives: the struct by which the booleans of a struct are judged. A struct whose one member is a struct has
// the representative of that member, so that a chain of such structs is gone over once for the whole schema and not for
// every value; NO_BOOL stands for a struct without a bool.
// Whether a member of struct i has no bool.
#[tactic(auto, unfolding(coding::specs::Structs::flat_ok))]
fn field_free(packed: &Packed, i: usize, k: Flat) -> bool
    requires { (Representatives packed.now.bytes.now packed.now.directory.now i) × (i < P.struct_count packed.now.bytes.now) }
    ensures { FieldFree (P.parse packed.now.bytes.now) k result }
{
    match k {
        Flat::Boolean => false,
        Flat::Integer(_, _) | Flat::Float(_) | Flat::Enumerated(_) => true,
        Flat::Struct(a) => {
            let s = usize::from(a);
            s < i && schema::entry(packed.directory, schema::REPRESENTATIVES, s) == schema::NO_BOOL
        }
    }
}

// Whether struct i has no bool.
fn fields_free(packed: &Packed, i: usize) -> bool
    requires { (Representatives packed.now.bytes.now packed.now.directory.now i) × (i < P.struct_count packed.now.bytes.now) × Sound (P.parse packed.now.bytes.now) }
    ensures { StructFree (P.parse packed.now.bytes.now) i result }
{
    (0..packed.field_count(i)).all(|j| field_free(packed, i, packed.field(i, j)))
}

// The representative of struct i, whose one member is k.
fn of_one(packed: &Packed, i: usize, k: Flat) -> usize
    requires directory { (Representatives packed.now.bytes.now packed.now.directory.now i) × (i < P.struct_count packed.now.bytes.now) × Sound (P.parse packed.now.bytes.now) }
    requires i_len { (length (Sc.struct_of (P.parse packed.now.bytes.now) i) ≡ 1) × (k ≡ Sc.field_of (P.parse packed.now.bytes.now) i 0) }
    ensures { (Represents (P.parse packed.now.bytes.now) i result) × (result < 65536) }
{
    match k {
        Flat::Struct(a) => {
            let s = usize::from(a);
            if s < i {
                schema::entry(packed.directory, schema::REPRESENTATIVES, s)
            } else {
                i
            }
        }
        _ => i,
    }
}

// The representative of struct i.
fn find_representative(packed: &Packed, i: usize) -> usize
    requires { (Representatives packed.now.bytes.now packed.now.directory.now i) × (i < P.struct_count packed.now.bytes.now) × Sound (P.parse packed.now.bytes.now) }
    ensures { (Represents (P.parse packed.now.bytes.now) i result) × (result < 65536) }
{
    if fields_free(packed, i) {
        return schema::NO_BOOL;
    }
    if packed.field_count(i) == 1 {
        return of_one(packed, i, packed.field(i, 0));
    }
    i
}

// Stores the representatives of all structs in the directory.
pub fn store_representatives(b: &[u8], dir: &mut [u16])
    requires { (Directory b.now dir.old) × (Sizes b.now dir.old (P.struct_count b.now)) × Sound (P.parse b.now) }
    ensures { Represented b.now dir.new }
{
    for i in 0..schema::count(b, schema::STRUCTS) {
        let packed = Packed {
            bytes: b,
            directory: dir,
        };
        let r = find_representative(&packed, i);
        schema_shape::put(dir, schema::REPRESENTATIVES + i, r);
    }
}
