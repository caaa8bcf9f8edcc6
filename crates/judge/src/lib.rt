// The verdict of a message.
#![tactic(auto)]

ghost use Rattle.std.specs.Prelude.{◌≡◌, ◌≤◌, true};
ghost use Rattle.coding.specs.Lawful.{lawful};
ghost use Rattle.coding.specs.Packed as P;
ghost use Rattle.coding.specs.Positions as Po;
ghost use Rattle.coding.specs.Walk as W;
ghost use Rattle.outcome.specs.Answers as As;
ghost use Rattle.outcome.specs.Left as Left;
ghost use Rattle.wire.specs.Sizes.{HasStart};
ghost use Rattle.schema.specs.Parsed.{parsed, bytes_of};

use coding::{Budget, Verdict};
use outcome::Outcome;
use schema::{Reading, Schema};

// The verdict of a walk that has ended, by what it was given and what is left of that.
fn verdict_of(w: Outcome, visits: u32, content: u64) -> Verdict
    requires { (w.code ≤ 256) × (w.visits ≤ visits) × (w.content ≤ content) }
    ensures { result ≡ W.verdict_of (Left.spent_of (W.allowing visits content) (As.walked_of w)) }
{
    if w.code == 0 {
        return Verdict {
            number: 0,
            place: 0,
            member: wire::NO_MEMBER,
            visits: visits - w.visits,
            content: content - w.content,
        };
    }
    Verdict {
        number: (w.code - 1) as u8,
        place: w.place,
        member: w.member,
        visits: visits - w.visits,
        content: content - w.content,
    }
}

// A refusal before the walk.
pub fn early(n: u8) -> Verdict
    ensures { result ≡ W.early n }
{
    Verdict {
        number: n,
        place: 0,
        member: wire::NO_MEMBER,
        visits: 0,
        content: 0,
    }
}

// The walk from the root.
fn walk_from_root(reading: &Reading, visits: u32, content: u64) -> Outcome
    requires { HasStart reading.now.schema.width reading.now.message.now }
    ensures content_value { W.walk reading.now.schema.width (parsed reading.now.schema) reading.now.message.now (W.allowing visits content) ≡ Left.spent_of (W.allowing visits content) (As.walked_of result) }
    ensures visits_le_visits { (result.visits ≤ visits) × (result.content ≤ content) }
{
    let ob = message_start::root_object(&reading.schema);
    let p = message_start::root_place(reading.message, reading.schema.width);
    judge_walk::visit(reading, outcome::DEEPEST, ob, p, visits, content)
}

// The verdict by a schema that was judged before: internal, since no user can show that it was.
pub fn judged(schema: &Schema, m: &[u8], visits: u32, content: u64) -> Verdict
    requires allowed { lawful schema.now.width (bytes_of schema.now) ≡ true }
    ensures { result ≡ W.verdict schema.now.width (bytes_of schema.now) m.now (W.allowing visits content) }
{
    if message_start::size_ok(m, schema.width) {
        if message_start::start_ok(m) {
            let reading = Reading {
                schema: *schema,
                message: m,
            };
            let w = walk_from_root(&reading, visits, content);
            return verdict_of(w, visits, content);
        }
        return early(3);
    }
    early(2)
}

// Judges a message by a packed schema, with the schema's table of positions, under the coding of width o: number, place, member,
// visits and content. A width of no coding and any other table are refused as an unlawful schema is.
pub fn judge(b: &[u8], rows: &[u8], m: &[u8], budget: Budget, o: usize) -> Verdict
    ensures { result ≡ W.verdict o (Po.with_table o b.now rows.now) m.now budget }
{
    let mut directory: [u16; schema::DIRECTORY] = [0; schema::DIRECTORY];
    match positions::judge_schema(b, rows, &mut directory, o) {
        Some(indexed) => judged(&indexed.schema, m, budget.visits, budget.content),
        None => early(1),
    }
}
