// A schema in which only the in-place flag of its unions is cleared: messages with such unions are moved over to it (02, K12).
#![tactic(auto)]

ghost use Rattle.std.specs.Prelude.{◌≡◌, true, ◌+◌, ◌<◌, ◌≤◌, length, get_or, set};
ghost use Rattle.coding.specs.Lawful.{lawful};
ghost use Rattle.coding.specs.Packed as P;
ghost use Rattle.coding.specs.Message.{write_room, write_over};
ghost use Rattle.coding.specs.Moving as M;
ghost use Rattle.laws.specs.MemberPlaces.{tables_start};
ghost use Rattle.schema.specs.Parsed.{bytes_of};
ghost use Rattle.schema_cleared.specs.Rest.{first, rest, Kept};

use coding::WriteAnswer;
use schema::{Packed, Schema};

// The in-place flag in the first byte of a record.
const IN_PLACE: u8 = 2;

// The first byte of a member's record, without the in-place flag if it is a union's.
fn first_byte(b: &[u8], at: usize) -> u8
    requires { at + 1 < length b.now }
    ensures { result ≡ first b.now at }
{
    let x = wire::byte_in(b, at);
    if !schema::is_union_kind(schema::kind_at(b, at)) {
        return x;
    }
    if !schema::inplace_at(b, at) {
        return x;
    }
    x - IN_PLACE
}

// The two bytes of a member's record.
fn clear_record(b: &[u8], at: usize, out: &mut [u8])
    requires { (at + 1 < length b.now) × (length b.now ≤ length out.old) }
    ensures { out.new ≡ set (set out.old at (first b.now at)) (at + 1) (get_or b.now (at + 1) 0) }
{
    let x = first_byte(b, at);
    let y = wire::byte_in(b, at + 1);
    out[at] = x;
    out[at + 1] = y;
}

// The bytes from one place to another, of which nothing is cleared.
fn copy(b: &[u8], from: usize, to: usize, out: &mut [u8])
    requires { (from ≤ to) × (to ≤ length b.now) × (length b.now ≤ length out.old) × Kept b.now from to }
    ensures { rest b.now out.new to ≡ rest b.now out.old from }
{
    for p in from..to {
        out[p] = wire::byte_in(b, p);
    }
}

// The records of table i.
fn clear_records(packed: &Packed, i: usize, out: &mut [u8])
    requires { (i < P.table_count packed.now.bytes.now) × (length packed.now.bytes.now ≤ length out.old) }
    ensures { rest packed.now.bytes.now out.new (P.table_place packed.now.bytes.now (i + 1)) ≡ rest packed.now.bytes.now out.old (P.table_place packed.now.bytes.now i + 5) }
{
    let at = packed.table_place(i);
    let n = schema::records(packed.bytes, schema::TABLE_HEAD, at);
    for j in 0..n {
        clear_record(
            packed.bytes,
            schema::record_place(schema::TABLE_HEAD, at, j),
            out,
        );
    }
}

// Table i: its id and its count, and its records.
fn clear_table(packed: &Packed, i: usize, out: &mut [u8])
    requires { (i < P.table_count packed.now.bytes.now) × (length packed.now.bytes.now ≤ length out.old) }
    ensures { rest packed.now.bytes.now out.new (P.table_place packed.now.bytes.now (i + 1)) ≡ rest packed.now.bytes.now out.old (P.table_place packed.now.bytes.now i) }
{
    let at = packed.table_place(i);
    copy(packed.bytes, at, at + schema::TABLE_HEAD + 1, out);
    clear_records(packed, i, out);
}

// Every table.
fn clear_tables(packed: &Packed, out: &mut [u8])
    requires { length packed.now.bytes.now ≤ length out.old }
    ensures { out.new ≡ rest packed.now.bytes.now out.old (tables_start packed.now.bytes.now) }
{
    let n = schema::count(packed.bytes, schema::TABLES);
    for i in 0..n {
        clear_table(packed, i, out);
    }
}

// The answer that nothing was stored, and why.
fn refused(number: u8) -> WriteAnswer
    ensures { result ≡ record { number = number; length = 0 } }
{
    WriteAnswer { number, length: 0 }
}

// A schema that is lawful under the 48-bit coding: 14, or else its bytes with the flags cleared.
fn clear_lawful(schema: &Schema, out: &mut [u8]) -> WriteAnswer
    requires allowed { lawful schema.now.width (bytes_of schema.now) ≡ true }
    requires six { schema.now.width ≡ 6 }
    ensures value { result ≡ write_room (M.clearing (bytes_of schema.now)) (length out.old) }
    ensures out_after { out.new ≡ write_over (M.clearing (bytes_of schema.now)) out.old }
{
    let b = schema.packed.bytes;
    let n = b.len();
    if out.len() < n {
        return refused(14);
    }
    copy(b, 0, schema.packed.table_place(0), out);
    clear_tables(&schema.packed, out);
    WriteAnswer {
        number: 0,
        length: n,
    }
}

// Any bytes as a schema of the 48-bit coding: 1 or 14; else the schema's length, and in the output the schema in which only the
// in-place flag of its unions is cleared. The bytes after it keep what they held, and on refusal all do.
pub fn clear_unions(b: &[u8], out: &mut [u8]) -> WriteAnswer
    ensures value { result ≡ write_room (M.clearing b.now) (length out.old) }
    ensures out_after { out.new ≡ write_over (M.clearing b.now) out.old }
{
    let mut directory: [u16; schema::DIRECTORY] = [0; schema::DIRECTORY];
    match schema_lawful::judge_schema(b, &mut directory, wire::U48) {
        Some(schema) => clear_lawful(&schema, out),
        None => refused(1),
    }
}
