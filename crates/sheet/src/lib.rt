// Reading to a sheet: an accepted message's entries are counted and then stored, and the answer.
#![tactic(auto)]

ghost use Rattle.std.specs.Prelude.{◌≡◌, ◌≤◌, true, length};
ghost use Rattle.coding.specs.Lawful.{lawful};
ghost use Rattle.coding.specs.Bits.{packed, byte_count};
ghost use Rattle.coding.specs.Message as M;
ghost use Rattle.coding.specs.Positions as Po;
ghost use Rattle.bitio.specs.Puts.{saturated};
ghost use Rattle.sheet_walk.specs.Clauses as C;
ghost use Rattle.sheet.specs.Answers as An;
ghost use Rattle.schema.specs.Parsed.{bytes_of};

use coding::{Budget, ReadAnswer, Verdict};
use schema::{Reading, Schema};

// How many bits the sheet has, or one more than a sheet may have; nothing is written.
fn count_bits(reading: &Reading, out: &mut [u8]) -> usize
    requires { C.MessageReadable reading.now.schema.width (bytes_of reading.now.schema) reading.now.message.now }
    ensures value { result ≡ saturated (length (C.root_bits reading.now.schema.width (bytes_of reading.now.schema) reading.now.message.now)) }
    ensures out_unchanged { out.new ≡ out.old }
{
    sheet_walk::put_root(reading, &mut out[..0])
}

// The sheet, into a buffer of its size.
fn fill(reading: &Reading, out: &mut [u8])
    requires readable { C.MessageReadable reading.now.schema.width (bytes_of reading.now.schema) reading.now.message.now }
    requires out_len { length out.old ≡ byte_count (C.root_bits reading.now.schema.width (bytes_of reading.now.schema) reading.now.message.now) }
    requires out_len_bound { length out.old ≤ 16777215 }
    ensures { out.new ≡ packed (C.root_bits reading.now.schema.width (bytes_of reading.now.schema) reading.now.message.now) }
{
    bitio::clear_last(out);
    sheet_walk::put_root(reading, out);
}

// No room in the output, or a sheet over the size.
fn no_room(v: Verdict) -> ReadAnswer
    ensures { result ≡ An.no_room v }
{
    let verdict = Verdict {
        number: 14,
        place: 0,
        member: wire::NO_MEMBER,
        ..v
    };
    ReadAnswer { verdict, length: 0 }
}

// The sheet of an accepted message, whose verdict is v.
fn read_accepted(reading: &Reading, v: Verdict, out: &mut [u8]) -> ReadAnswer
    requires { C.MessageReadable reading.now.schema.width (bytes_of reading.now.schema) reading.now.message.now }
    ensures value { result ≡ An.sheet_answer (C.root_bits reading.now.schema.width (bytes_of reading.now.schema) reading.now.message.now) v out.old }
    ensures out_after { out.new ≡ An.sheet_over (C.root_bits reading.now.schema.width (bytes_of reading.now.schema) reading.now.message.now) out.old }
{
    let n = count_bits(reading, out);
    if sheet_values::MOST < n {
        return no_room(v);
    }
    let k = (n + 7) / 8;
    if out.len() < k {
        return no_room(v);
    }
    fill(reading, &mut out[..k]);
    ReadAnswer {
        verdict: v,
        length: k,
    }
}

// Reads a message by a schema that was found lawful.
fn read_judged(schema: &Schema, m: &[u8], budget: Budget, out: &mut [u8]) -> ReadAnswer
    requires allowed { lawful schema.now.width (bytes_of schema.now) ≡ true }
    ensures value { result ≡ M.read_answer schema.now.width (bytes_of schema.now) m.now budget out.old }
    ensures out_after { out.new ≡ M.read_out schema.now.width (bytes_of schema.now) m.now budget out.old }
{
    let v = judge::judged(schema, m, budget.visits, budget.content);
    if v.number == 0 {
        let reading = Reading {
            schema: *schema,
            message: m,
        };
        return read_accepted(&reading, v, out);
    }
    ReadAnswer {
        verdict: v,
        length: 0,
    }
}

// Reads a message to its sheet, with the schema's table of positions: the verdict's refusal, or 14 where there is no room or the
// sheet is over the size; else the sheet's length, and the sheet in the output, whose bytes after it keep what they held.
pub fn read(b: &[u8], rows: &[u8], m: &[u8], budget: Budget, out: &mut [u8], o: usize) -> ReadAnswer
    ensures value { result ≡ M.read_answer o (Po.with_table o b.now rows.now) m.now budget out.old }
    ensures out_after { out.new ≡ M.read_out o (Po.with_table o b.now rows.now) m.now budget out.old }
{
    let mut directory: [u16; schema::DIRECTORY] = [0; schema::DIRECTORY];
    match positions::judge_schema(b, rows, &mut directory, o) {
        Some(indexed) => read_judged(&indexed.schema, m, budget, out),
        None => ReadAnswer {
            verdict: judge::early(1),
            length: 0,
        },
    }
}
