// The table of member positions: it is made from a lawful schema, a table that is handed in is held to it, and members are found by it.
#![tactic(auto)]

ghost use Rattle.std.specs.Prelude.{◌≡◌, true, ◌+◌, ◌*◌, ◌<◌, ◌≤◌, ◌^◌, length, take};
ghost use Rattle.std.proofs.lemmas.List.Edits.{sets};
ghost use Rattle.coding.specs.Lawful.{lawful};
ghost use Rattle.coding.specs.Layout as L;
ghost use Rattle.coding.specs.Lists.{pick, same};
ghost use Rattle.coding.specs.Packed as P;
ghost use Rattle.coding.specs.Positions as Po;
ghost use Rattle.coding.specs.Schema as Sc;
ghost use Rattle.laws.specs.PositionRows.{member_total};
ghost use Rattle.laws.specs.RowBounds.{RowSmall};
ghost use Rattle.laws.specs.SameLists.{stands};
ghost use Rattle.laws.specs.Sound.{MemberSound};
ghost use Rattle.message_layout.specs.Bounds.{Laid};
ghost use Rattle.positions.specs.Placements as Pl;
ghost use Rattle.positions.specs.Lent.{HeldWith};
ghost use Rattle.positions.specs.Rows.{Low, Next, table_bytes};
ghost use Rattle.schema.specs.Parsed.{parsed, bytes_of};

use coding::{Cursor, Placement, Row, Slot, WriteAnswer};
use schema::Schema;

pub mod indexed;

pub use indexed::Indexed;

// The bytes of a row: three U32s.
const ROW: usize = 12;

// The flag's bit of a member that has no flag.
const NO_FLAG: usize = 4294967295;

// ---- a member by its record
// Whether a flag stands before the value: the record says optional, and is of no float.
fn flagged_at(b: &[u8], at: usize) -> bool
    requires { (at + 1 < length b.now) × MemberSound (P.parse b.now) (P.member_at b.now at) }
    ensures { result ≡ L.has_flag (P.member_at b.now at) }
{
    if !schema::optional_at(b, at) {
        return false;
    }
    let k = schema::kind_at(b, at);
    if k < schema::KIND_FLOAT {
        return true;
    }
    schema::KIND_ENUM <= k
}

// The bytes of the value.
fn width_at(schema: &Schema, at: usize) -> usize
    requires { (at + 1 < length (bytes_of schema.now)) × MemberSound (parsed schema.now) (P.member_at (bytes_of schema.now) at) }
    ensures { (result ≡ L.width schema.now.width (parsed schema.now) (P.element_at (bytes_of schema.now) at)) × (result ≤ 4096) }
{
    let k = schema::kind_at(schema.packed.bytes, at);
    if k < schema::KIND_ENUM {
        return wire::index(schema::width_of(k));
    }
    if k == schema::KIND_ENUM {
        return 1;
    }
    if k == schema::KIND_STRUCT {
        return schema.stored_size(wire::index(schema::argument_at(schema.packed.bytes, at)));
    }
    if schema::is_union_kind(k) {
        return wire::union_size(schema.width);
    }
    schema.width
}

// ---- a row
// The first bit of the bool or flag that comes next.
fn next_bit(c: Cursor) -> usize
    requires { (c.end < 2 ^ 24) × (c.byte ≤ c.end) }
    ensures { (result ≡ Po.first_bit (L.bit_slot c)) × (result < 4294967296) }
{
    8 * message_layout::bit_byte(c) + message_layout::bit_index(c)
}

// The first bit of the flag, if there is one.
fn flag_bit(flagged: bool, c: Cursor) -> usize
    requires { (c.end < 2 ^ 24) × (c.byte ≤ c.end) }
    ensures { (result ≡ pick flagged (Po.first_bit (L.bit_slot c)) Po.no_flag) × (result < 4294967296) }
{
    if flagged {
        return next_bit(c);
    }
    NO_FLAG
}

// A member's row, and the cursor behind the member.
#[derive(Clone, Copy)]
struct RowStep {
    row: Row,
    next: Cursor,
}

// The row of the member whose record stands at `at`, where the cursor stands.
fn record_row(schema: &Schema, at: usize, c: Cursor) -> RowStep
    requires { (at + 1 < length (bytes_of schema.now)) × (MemberSound (parsed schema.now) (P.member_at (bytes_of schema.now) at)) × Low c }
    ensures { Next schema.now.width (parsed schema.now) (P.member_at (bytes_of schema.now) at) c result.row result.next }
{
    let flagged = flagged_at(schema.packed.bytes, at);
    let behind = message_layout::after_flag(flagged, c);
    let flag = flag_bit(flagged, c);
    if schema::kind_at(schema.packed.bytes, at) == schema::KIND_BOOL {
        let value = next_bit(behind);
        let next = message_layout::after_bit(behind);
        let row = Row {
            value,
            flag,
            size: 1,
        };
        return RowStep { row, next };
    }
    let w = width_at(schema, at);
    let next = message_layout::after_bytes(behind, w);
    let row = Row {
        value: 8 * behind.end,
        flag,
        size: 8 * w,
    };
    RowStep { row, next }
}

// The row of member j of table t, where the cursor stands.
fn next_row(schema: &Schema, t: usize, j: usize, c: Cursor) -> RowStep
    requires { (t < P.table_count (bytes_of schema.now)) × (j < length (Sc.table_of (parsed schema.now) t).members) × (j < 256) × Laid (4097 * j) c }
    ensures { Next schema.now.width (parsed schema.now) (Sc.member_of (parsed schema.now) t j) c result.row result.next }
{
    record_row(schema, schema.record_of(t, j), c)
}

// ---- where the rows of a table stand
// Where the first row of table t stands: a table takes five bytes of the schema, and two for each member.
pub fn first_row(schema: &Schema, t: usize) -> usize
    requires { t < P.table_count (bytes_of schema.now) }
    ensures { (result ≡ 12 * member_total (take t (parsed schema.now).tables)) × (result < 2 ^ 20) }
{
    let start = schema.packed.table_place(0);
    let records = schema.packed.table_place(t) - start - 5 * t;
    ROW * (records / 2)
}

// The bytes of the whole table of positions.
fn size(schema: &Schema) -> usize
    ensures { (result ≡ 12 * member_total (parsed schema.now).tables) × (result < 2 ^ 21) }
{
    let last = schema::count(schema.packed.bytes, schema::TABLES) - 1;
    first_row(schema, last) + ROW * schema.packed.member_count(last)
}

// ---- making the table
// A row, from byte `at` on.
fn put_row(out: &mut [u8], at: usize, x: Row)
    requires { (at < 2 ^ 61) × (at + 12 ≤ length out.old) }
    ensures { out.new ≡ sets out.old at (Po.row_bytes x) }
{
    wire::put_u32_in(out, at, x.value);
    wire::put_u32_in(out, at + 4, x.flag);
    wire::put_u32_in(out, at + 8, x.size);
}

// The rows of table t, from byte `at` on; and where they end.
fn put_table(schema: &Schema, out: &mut [u8], t: usize, at: usize) -> usize
    requires { (t < P.table_count (bytes_of schema.now)) × (at < 2 ^ 60) × (at + 12 * length (Sc.table_of (parsed schema.now) t).members ≤ length out.old) }
    ensures { (out.new ≡ sets out.old at (table_bytes schema.now.width (bytes_of schema.now) t)) × (result ≡ at + 12 * length (Sc.table_of (parsed schema.now) t).members) }
{
    let n = schema.packed.member_count(t);
    let mut c = message_layout::begin();
    let mut pos = at;
    for j in 0..n {
        let s = next_row(schema, t, j, c);
        put_row(out, pos, s.row);
        c = s.next;
        pos += ROW;
    }
    pos
}

// The rows of all tables.
fn put_tables(schema: &Schema, out: &mut [u8])
    requires { (length (Po.positions_of schema.now.width (bytes_of schema.now)) ≤ length out.old) × (length (Po.positions_of schema.now.width (bytes_of schema.now)) < 2 ^ 60) }
    ensures { out.new ≡ sets out.old 0 (Po.positions_of schema.now.width (bytes_of schema.now)) }
{
    let n = schema::count(schema.packed.bytes, schema::TABLES);
    let mut at: usize = 0;
    for t in 0..n {
        at = put_table(schema, out, t, at);
    }
}

// The answer of a refusal, by its number.
fn refused(number: u8) -> WriteAnswer
    ensures { (result.number ≡ number) × (result.length ≡ 0) }
{
    WriteAnswer { number, length: 0 }
}

// The table of a schema that was found lawful: 14, or the table's length, and the table in the output.
fn positions_judged(schema: &Schema, out: &mut [u8]) -> WriteAnswer
    requires allowed { lawful schema.now.width (bytes_of schema.now) ≡ true }
    ensures value { result ≡ Po.positions_answer schema.now.width (bytes_of schema.now) out.old }
    ensures out_after { out.new ≡ Po.positions_out schema.now.width (bytes_of schema.now) out.old }
{
    let n = size(schema);
    if out.len() < n {
        return refused(14);
    }
    put_tables(schema, out);
    WriteAnswer {
        number: 0,
        length: n,
    }
}

// The table of positions of a schema: 1, then 14, with nothing written; else the table's length, and the table in the output, whose
// bytes after it keep what they held.
// Under an o that is no coding's width no schema is lawful.
pub fn positions(b: &[u8], out: &mut [u8], o: usize) -> WriteAnswer
    ensures value { result ≡ Po.positions_answer o b.now out.old }
    ensures out_after { out.new ≡ Po.positions_out o b.now out.old }
{
    let mut directory: [u16; schema::DIRECTORY] = [0; schema::DIRECTORY];
    match schema_lawful::judge_schema(b, &mut directory, o) {
        Some(schema) => positions_judged(&schema, out),
        None => refused(1),
    }
}

// ---- a table that is handed in
// Whether a row stands from byte `at` on.
fn row_is(rows: &[u8], at: usize, x: Row) -> bool
    requires { (at < 2 ^ 61) × (at + 12 ≤ length rows.now) × RowSmall x }
    ensures { result ≡ stands rows.now at (Po.row_bytes x) }
{
    if wire::u32_in(rows, at) as usize != x.value {
        return false;
    }
    if wire::u32_in(rows, at + 4) as usize != x.flag {
        return false;
    }
    wire::u32_in(rows, at + 8) as usize == x.size
}

// Whether the rows of table t stand from byte `at` on.
fn table_is(schema: &Schema, rows: &[u8], t: usize, at: usize) -> bool
    requires { (t < P.table_count (bytes_of schema.now)) × (at < 2 ^ 60) × (at + 12 * length (Sc.table_of (parsed schema.now) t).members ≤ length rows.now) }
    ensures { result ≡ stands rows.now at (table_bytes schema.now.width (bytes_of schema.now) t) }
{
    let n = schema.packed.member_count(t);
    let mut c = message_layout::begin();
    let mut pos = at;
    for j in 0..n {
        let s = next_row(schema, t, j, c);
        if !row_is(rows, pos, s.row) {
            return false;
        }
        c = s.next;
        pos += ROW;
    }
    true
}

// Whether the rows of all tables stand from the first byte on.
fn tables_are(schema: &Schema, rows: &[u8]) -> bool
    requires { (length rows.now ≡ length (Po.positions_of schema.now.width (bytes_of schema.now))) × (length (Po.positions_of schema.now.width (bytes_of schema.now)) < 2 ^ 60) }
    ensures { result ≡ stands rows.now 0 (Po.positions_of schema.now.width (bytes_of schema.now)) }
{
    let n = schema::count(schema.packed.bytes, schema::TABLES);
    let mut at: usize = 0;
    for t in 0..n {
        if !table_is(schema, rows, t, at) {
            return false;
        }
        at += ROW * schema.packed.member_count(t);
    }
    true
}

// Whether the bytes are the table of positions of a schema: first their length, then row by row.
pub fn matches(schema: &Schema, rows: &[u8]) -> bool
    ensures { result ≡ same rows.now (Po.positions_of schema.now.width (bytes_of schema.now)) }
{
    if rows.len() != size(schema) {
        return false;
    }
    tables_are(schema, rows)
}

// The schema with its table, if the bytes b are a lawful one under the coding of width o, and rows are its table of positions.
// `directory` is the room for where everything stands.
pub fn judge_schema<'a>(
    b: &'a [u8],
    rows: &'a [u8],
    directory: &'a mut [u16],
    o: usize,
) -> Option<Indexed<'a>>
    requires { length directory.old ≡ 384 }
    ensures { HeldWith o b.now rows.now result }
{
    match schema_lawful::judge_schema(b, directory, o) {
        None => None,
        Some(schema) => {
            if !matches(&schema, rows) {
                return None;
            }
            Some(Indexed { schema, rows })
        }
    }
}

// ---- a member by its row
// The slot of a first bit, of so many bytes.
fn slot_at(bit: usize, size: usize) -> Slot
    ensures { result ≡ Pl.slot_at bit size }
{
    Slot {
        at: wire::eighth(bit),
        bit: wire::low_three(bit),
        size,
    }
}

// The placement that the row from byte `at` on gives. Where its member has no flag, the flag's slot says nothing.
pub fn placement_in(rows: &[u8], at: usize) -> Placement
    requires { (at < 2 ^ 61) × (at + 12 ≤ length rows.now) }
    ensures { result ≡ Pl.placement_in rows.now at }
{
    let bits = wire::u32_in(rows, at + 8) as usize;
    let value = slot_at(wire::u32_in(rows, at) as usize, wire::eighth(bits + 7));
    let flag = slot_at(wire::u32_in(rows, at + 4) as usize, 1);
    Placement { value, flag }
}

// Where member j of table t stands, by the table of positions of its schema: the members before it are not looked at.
pub fn placement_at(schema: &Schema, rows: &[u8], t: usize, j: usize) -> Placement
    requires { (rows.now ≡ Po.positions_of schema.now.width (bytes_of schema.now)) × (t < P.table_count (bytes_of schema.now)) × (j < length (Sc.table_of (parsed schema.now) t).members) × (j < 256) }
    ensures { Pl.ByTable schema.now.width (parsed schema.now) (Sc.member_of (parsed schema.now) t j) (Pl.cursor_at schema.now.width (bytes_of schema.now) t j) result }
{
    placement_in(rows, first_row(schema, t) + ROW * j)
}
