// Writing a message from a value sheet: the sheet is surveyed first, and then one pass over it stores the message.
#![tactic(auto)]

ghost use Rattle.std.specs.Prelude.{◌≡◌, true, false, ℕ, ◌+◌, ◌*◌, ◌≤◌, length, drop};
ghost use Rattle.coding.specs.Lawful.{lawful};
ghost use Rattle.coding.specs.Bits.{bits};
ghost use Rattle.coding.specs.Bytes as B;
ghost use Rattle.coding.specs.Message as M;
ghost use Rattle.coding.specs.Packed as P;
ghost use Rattle.wire.specs.Sizes.{WithinSize, Width};
ghost use Rattle.write_measure.specs.Survey as Sv;
ghost use Rattle.write_measure.specs.Surveyed.{Small};
ghost use Rattle.write_measure.specs.SurveyBy.{Inside};
ghost use Rattle.write_pass.specs.EmitSheet as Es;
ghost use Rattle.write_pass.specs.Emitting as Eg;
ghost use Rattle.write_pass.specs.Measure.{Measured};
ghost use Rattle.write.specs.Writing as Wr;
ghost use Rattle.schema.specs.Parsed.{parsed, bytes_of};

use coding::{Object, Verdict, WriteAnswer};
use message_header::TableObject;
use schema::Schema;
use write_measure::Extent;
use write_pass::Emitted;
use write_store::Places;

// The answer of a refusal, by its number.
fn refused(number: u8) -> WriteAnswer
    ensures { (result.number ≡ number) × (result.length ≡ 0) }
{
    WriteAnswer { number, length: 0 }
}

// Whether less than a byte of the sheet is left, and zero bits only.
fn closed(s: &[u8], pos: usize) -> bool
    requires { Inside s.now pos }
    ensures { result ≡ Wr.only_end (drop pos (bits s.now)) }
{
    let left = 8 * s.len() - pos;
    left < 8 && bitio::get(s, pos, left) == 0
}

// The length of the message whose root table takes e: the message's start, the table's header, and what it takes.
fn message_size(e: Extent, o: usize) -> usize
    requires { (Width o) × Small e }
    ensures { result ≡ Wr.message_size o e }
{
    let content = e.width + e.chain;
    wire::start_size(o) + TableObject::header_size(o) + content + e.below
}

// The message's start and the root table, which takes e, into a buffer of the message's length.
fn emit_message(schema: &Schema, s: &[u8], e: Extent, out: &mut [u8]) -> Option<Emitted>
    requires { (WithinSize s.now) × (Measured false (Sv.survey B.deepest schema.now.width (parsed schema.now) (Object.Table (parsed schema.now).root) (bits s.now)) e) }
    ensures { Eg.MessageAt s.now (Es.emit_message schema.now.width (parsed schema.now) out.old (bits s.now)) result out.new }
{
    let size = wire::start_size(schema.width);
    let start = Places {
        at: 0,
        last: 0,
        free: 0,
        held: 0,
        tail: size,
        next: size,
    };
    let ob = message_start::root_object(schema);
    let places = write_store::put_number(out, start, wire::MAGIC, message_start::MAGIC);
    let from = Emitted { places, next: 0 };
    write_pass::emit_measured(schema, s, out, 32, ob, false, e, from)
}

// Writes a lawful sheet, whose root table takes e: 12, 13 or 14, or else the message.
fn write_lawful(schema: &Schema, s: &[u8], e: Extent, out: &mut [u8]) -> WriteAnswer
    requires allowed { lawful schema.now.width (bytes_of schema.now) ≡ true }
    requires sheet_lawful { Wr.LawfulSheet schema.now.width (bytes_of schema.now) s.now e }
    ensures value { result ≡ M.write_answer schema.now.width (bytes_of schema.now) s.now out.old }
    ensures out_after { out.new ≡ M.write_out schema.now.width (bytes_of schema.now) s.now out.old }
{
    if !e.writable {
        return refused(12);
    }
    let n = message_size(e, schema.width);
    if wire::LARGEST < n {
        return refused(13);
    }
    if out.len() < n {
        return refused(14);
    }
    emit_message(schema, s, e, &mut out[..n]);
    WriteAnswer {
        number: 0,
        length: n,
    }
}

// Writes a sheet by a schema that was found lawful: 11, or as a lawful sheet.
fn write_judged(schema: &Schema, s: &[u8], out: &mut [u8]) -> WriteAnswer
    requires allowed { lawful schema.now.width (bytes_of schema.now) ≡ true }
    ensures value { result ≡ M.write_answer schema.now.width (bytes_of schema.now) s.now out.old }
    ensures out_after { out.new ≡ M.write_out schema.now.width (bytes_of schema.now) s.now out.old }
{
    if wire::LARGEST < s.len() {
        return refused(11);
    }
    let ob = message_start::root_object(schema);
    match write_measure::object(schema, s, 32, ob, 0) {
        None => refused(11),
        Some(x) => {
            if !closed(s, x.next) {
                return refused(11);
            }
            write_lawful(schema, s, x.extent, out)
        }
    }
}

// Writes a sheet as a message: 1, 11, 12, 13 or 14, each over the whole sheet; else the message's length, and the message in
// the output, whose bytes after it keep what they held.
// Under an o that is no coding's width no schema is lawful.
pub fn write(b: &[u8], s: &[u8], out: &mut [u8], o: usize) -> WriteAnswer
    ensures value { result ≡ M.write_answer o b.now s.now out.old }
    ensures out_after { out.new ≡ M.write_out o b.now s.now out.old }
{
    let mut directory: [u16; schema::DIRECTORY] = [0; schema::DIRECTORY];
    match schema_lawful::judge_schema(b, &mut directory, o) {
        Some(schema) => write_judged(&schema, s, out),
        None => refused(1),
    }
}

// The verdict of a writer's answer: 0 or the refusal's number, at 0, about no member, with nothing spent.
pub fn verdict_of(answer: WriteAnswer) -> Verdict
    ensures { result ≡ M.write_verdict answer }
{
    Verdict {
        number: answer.number,
        place: 0,
        member: wire::NO_MEMBER,
        visits: 0,
        content: 0,
    }
}
