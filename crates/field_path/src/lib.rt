// What a path comes to, from the root on. Only the objects and members on the path are judged.
#![tactic(auto)]

ghost use Rattle.std.specs.Prelude.{◌≡◌, ◌≤◌};
ghost use Rattle.coding.specs.Field as F;
ghost use Rattle.coding.specs.Packed as P;
ghost use Rattle.coding.specs.Positions as Po;
ghost use Rattle.field_arrival.specs.Within.{FoundIn, FoundWithin};
ghost use Rattle.field_arrival.specs.Parts.{along_by};
ghost use Rattle.wire.specs.Sizes.{HasStart};
ghost use Rattle.schema.specs.Parsed.{parsed, bytes_of};

use coding::Found;
use field_part::IndexedReading;
use positions::Indexed;
use schema::Reading;

// The most numbers that a path may have.
pub const LONGEST_PATH: usize = 96;

// How many objects deep a message may go, the root counted.
const DEEPEST: usize = 32;

// What all numbers of a path lead to, one after the other, from what was found before.
fn along(indexed: &IndexedReading, from: Found, path: &[u32]) -> Found
    requires { FoundIn indexed.now.reading from }
    ensures { (result ≡ along_by indexed.now.reading from path.now) × FoundIn indexed.now.reading result }
{
    let mut found = from;
    for number in path {
        // Kept: the new form is no plainer: std has no `From<u32>` for `usize`.
        found = field_part::part_of(indexed, found, *number as usize);
    }
    found
}

// What a path comes to from the root, in a message that has its start.
#[tactic(auto, unfolding(coding::specs::Field::found, coding::specs::Bytes::deepest))]
fn from_root(indexed: &IndexedReading, path: &[u32]) -> Found
    requires { HasStart indexed.now.reading.schema.width indexed.now.reading.message.now }
    ensures { (result ≡ F.found indexed.now.reading.schema.width (parsed indexed.now.reading.schema) indexed.now.reading.message.now path.now) × FoundIn indexed.now.reading result }
{
    let reading = &indexed.reading;
    let ob = message_start::root_object(&reading.schema);
    let p = message_start::root_place(reading.message, reading.schema.width);
    let f = field_arrival::arrive(reading, DEEPEST, ob, p);
    along(indexed, f, path)
}

// What a path comes to, by a schema with its table of positions.
#[tactic(auto, unfolding(coding::specs::Field::field_found, coding::specs::Field::before))]
pub fn found_by(indexed: &Indexed, m: &[u8], path: &[u32]) -> Found
    ensures { (result ≡ F.field_found indexed.now.schema.width (bytes_of indexed.now.schema) m.now path.now) × FoundWithin indexed.now.schema.width (parsed indexed.now.schema) m.now result }
{
    let schema = indexed.schema;
    if LONGEST_PATH < path.len() {
        return field_arrival::refuse(15, 0);
    }
    if !message_start::size_ok(m, schema.width) {
        return field_arrival::refuse(2, 0);
    }
    if !message_start::start_ok(m) {
        return field_arrival::refuse(3, 0);
    }
    let reading = Reading { schema, message: m };
    let rows = indexed.rows;
    from_root(&IndexedReading { reading, rows }, path)
}

// What a path comes to, of any message by any schema with any table of positions.
pub fn field_found(b: &[u8], rows: &[u8], m: &[u8], path: &[u32], o: usize) -> Found
    ensures { (result ≡ F.field_found o (Po.with_table o b.now rows.now) m.now path.now) × FoundWithin o (P.parse b.now) m.now result }
{
    let mut directory: [u16; schema::DIRECTORY] = [0; schema::DIRECTORY];
    match positions::judge_schema(b, rows, &mut directory, o) {
        Some(indexed) => found_by(&indexed, m, path),
        None => field_arrival::refuse(1, 0),
    }
}
