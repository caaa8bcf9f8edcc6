// What the papers demand of the running functions. Each function here calls public functions of the library, and its contract is
// the demand itself, in the words of `coding` and `demands`: it follows from the contracts of what is called and a theorem. A budget
// is both allowances (02, K7). Every reader is lent a table of member positions, `rows` (02, K10): a contract says what it answers with any
// table, by `lent`; demands that join several functions suppose the table that is built from the schema, `TableOf`.
#![tactic(auto)]

ghost use Rattle.std.specs.Prelude.{◌≡◌, [], ◌∷◌, ◌++◌, ◌↔◌, ◌⊎◌, true, false, ℕ, suc, ◌+◌, ◌/◌, ◌<◌, ◌≤◌, length, take, drop, IsSome, IfSome};
ghost use Rattle.std.proofs.Math.Option.{some};
ghost use Rattle.coding.specs.Append as Ap;
ghost use Rattle.coding.specs.Field as F;
ghost use Rattle.coding.specs.Lawful.{lawful};
ghost use Rattle.coding.specs.Message as M;
ghost use Rattle.coding.specs.Moving as Mv;
ghost use Rattle.coding.specs.Packed.{parse, table_count};
ghost use Rattle.coding.specs.Positions as Po;
ghost use Rattle.coding.specs.Schema.{member_of};
ghost use Rattle.coding.specs.Value.{Value};
ghost use Rattle.coding.specs.Walk as W;
ghost use Rattle.demands.specs.Arrivals.{LawfulMessage};
ghost use Rattle.demands.specs.BiggerAllowance.{Raises, Settled, Becomes};
ghost use Rattle.demands.specs.FieldEntries.{shown};
ghost use Rattle.demands.specs.InTurn.{total};
ghost use Rattle.demands.specs.Moved.{MovedAs};
ghost use Rattle.demands.specs.Positions.{RowSays, SameAnswers};
ghost use Rattle.demands.specs.RoundTrip.{enough, sheet_lengths, Short};
ghost use Rattle.demands.specs.Spending.{Affords};
ghost use Rattle.demands.specs.Texts.{IsText};
ghost use Rattle.demands.specs.WrittenSheet.{WrittenAs};
ghost use Rattle.promises.specs.Reader.{Stepped};
ghost use Rattle.promises.specs.Words.{Accepts, costs, arrivals, contents, values, tree_of, Fits, NoRoom, HandsOut, KeepsOnRefusal, CutDown};
ghost use Rattle.promises.specs.Words.{lent, TableOf, members_of, row_place, old_placement};
ghost use Rattle.promises.specs.Words.{entry_at, text_at, LeadsToList, HoldsAnswers, LawfulSheet, Writable, layout_of, was_writable, UnionInPlace, NoUnionInPlace};

use coding::{Answer, Budget, Content, Object, ReadAnswer, Refusal, Verdict, WriteAnswer};
use field_element::ListStep;
use field_reader::ListReader;

// The table of member positions.
pub fn table_made(schema: &[u8], out: &mut [u8], o: usize) -> WriteAnswer
    // the answer and the output are the definition's, of refusals too
    ensures whole { result ≡ Po.positions_answer o schema.now out.old }
    ensures output { out.new ≡ Po.positions_out o schema.now out.old }
    // "built once from a lawful schema under its coding (else 1, then 14, nothing written)"
    ensures unlawful { lawful o schema.now ≡ false → (result ≡ record { number = 1; length = 0 }) × (out.new ≡ out.old) }
    ensures room { lawful o schema.now ≡ true → length out.old < length (Po.positions_of o schema.now) → (result ≡ record { number = 14; length = 0 }) × (out.new ≡ out.old) }
    ensures made { lawful o schema.now ≡ true → length (Po.positions_of o schema.now) ≤ length out.old → (result ≡ record { number = 0; length = length (Po.positions_of o schema.now) }) × (out.new ≡ Po.positions_of o schema.now ++ drop (length (Po.positions_of o schema.now)) out.old) }
    // "for each table member in schema order three little-endian U32s": "Each row equals what the old rule gives"
    ensures rows { result.number ≡ 0 → (i j : ℕ) → i < table_count schema.now → j < length (members_of schema.now i) → RowSays o (parse schema.now) (take result.length out.new) (row_place schema.now i j) (member_of (parse schema.now) i j) (old_placement o schema.now i j) }
{
    positions::positions(schema, out, o)
}

// The table that was made, and a verdict with it.
#[derive(Clone, Copy)]
pub struct TableAndVerdict {
    pub table: WriteAnswer,
    pub verdict: Verdict,
}

// Making the table of member positions in a room, and judging with that table.
pub fn table_then_judge(
    schema: &[u8],
    room: &mut [u8],
    message: &[u8],
    budget: Budget,
    o: usize,
) -> TableAndVerdict
    // the answer, the room and the verdict are the definition's, of refusals too; the table is what was made in the room
    ensures table { result.table ≡ Po.positions_answer o schema.now room.old }
    ensures made { room.new ≡ Po.positions_out o schema.now room.old }
    ensures verdict { result.verdict ≡ W.verdict o (Po.with_table o schema.now (take result.table.length room.new)) message.now budget }
    // "with that table every public answer is equal to the old one": the verdict, of a schema that is not lawful too
    ensures old { (result.table.number ≡ 14 → ⊥) → result.verdict ≡ W.verdict o schema.now message.now budget }
    // and the answers of all other readers
    ensures every { (result.table.number ≡ 14 → ⊥) → SameAnswers o (Po.with_table o schema.now (take result.table.length room.new)) schema.now }
{
    let table = positions::positions(schema, room, o);
    let n = table.length;
    let verdict = judge::judge(schema, &room[..n], message, budget, o);
    TableAndVerdict { table, verdict }
}

// Judging a message.
pub fn judged(schema: &[u8], rows: &[u8], message: &[u8], budget: Budget, o: usize) -> Verdict
    // "Judging answers number, place and visits", the member and the content (02, K6 and K7), as the walk gives them, of refusals too
    ensures whole { result ≡ W.verdict o (lent o schema rows) message.now budget }
    // a message is accepted exactly when every object reached by its schema is lawful, within depth and budget
    ensures exactly { (result.number ≡ 0) ↔ LawfulMessage o (lent o schema rows) message.now budget }
    // "visits in the verdict equal the arrivals of the walk's definition, shared objects counted each time"
    ensures arrivals { result.number ≡ 0 → result.visits ≡ arrivals o (lent o schema rows) message.now }
    // "Each arrival whose content fits adds its content length": the content in the verdict is that of these arrivals together
    ensures content { result.number ≡ 0 → result.content ≡ contents o (lent o schema rows) message.now }
    // "with that table every public answer is equal to the old one"
    ensures right_table { TableOf o schema.now rows.now → result ≡ W.verdict o schema.now message.now budget }
    // "Any other table handed in gets refusal 1"
    ensures other_table { (TableOf o schema.now rows.now → ⊥) → result ≡ W.early 1 }
{
    judge::judge(schema, rows, message, budget, o)
}

// Reading a message to a sheet.
pub fn read(
    schema: &[u8],
    rows: &[u8],
    message: &[u8],
    budget: Budget,
    out: &mut [u8],
    o: usize,
) -> ReadAnswer
    // the answer and the output are the definition's, of refusals too
    ensures whole { result ≡ M.read_answer o (lent o schema rows) message.now budget out.old }
    ensures output { out.new ≡ M.read_out o (lent o schema rows) message.now budget out.old }
    // a message is accepted exactly when every object reached by its schema is lawful, within depth and budget: number 0 comes
    // exactly then, if the sheet is within the size and the room
    ensures exactly { (result.verdict.number ≡ 0) ↔ ((LawfulMessage o (lent o schema rows) message.now budget) × (Fits (M.message_sheet o (lent o schema rows) message.now) out.old)) }
    // "visits in the verdict equal the arrivals of the walk's definition, shared objects counted each time"
    ensures arrivals { result.verdict.number ≡ 0 → result.verdict.visits ≡ arrivals o (lent o schema rows) message.now }
    // "Each arrival whose content fits adds its content length": the content in the verdict is that of these arrivals together
    ensures content { result.verdict.number ≡ 0 → result.verdict.content ≡ contents o (lent o schema rows) message.now }
    // "then 14 with the full visits", and the full content
    ensures room { LawfulMessage o (lent o schema rows) message.now budget → NoRoom (M.message_sheet o (lent o schema rows) message.now) out.old → result ≡ record { verdict = W.at_zero 14 (costs o (lent o schema rows) message.now); length = 0 } }
    // "on refusal the length is 0 and the output is unchanged"
    ensures kept { KeepsOnRefusal result.verdict.number result.length out.old out.new }
    // what is handed out is the sheet of the rules
    ensures sheet { HandsOut result out.new (M.message_sheet o (lent o schema rows) message.now) }
    // the sheet of an accepted message is lawful: what is handed out decodes to the values that the message holds
    ensures lawful { result.verdict.number ≡ 0 → tree_of (lent o schema rows) (take result.length out.new) ≡ some (values o (lent o schema rows) message.now) }
    // "with that table every public answer is equal to the old one"
    ensures right_table { TableOf o schema.now rows.now → (result ≡ M.read_answer o schema.now message.now budget out.old) × (out.new ≡ M.read_out o schema.now message.now budget out.old) }
    // "Any other table handed in gets refusal 1"
    ensures other_table { (TableOf o schema.now rows.now → ⊥) → (result ≡ record { verdict = W.early 1; length = 0 }) × (out.new ≡ out.old) }
{
    sheet::read(schema, rows, message, budget, out, o)
}

// The answers with two budgets. In `Readings` the first goes to the first output.
#[derive(Clone, Copy)]
pub struct Stories {
    pub less: Verdict,
    pub more: Verdict,
}

#[derive(Clone, Copy)]
pub struct Readings {
    pub less: ReadAnswer,
    pub more: ReadAnswer,
}

// Judging one message with two budgets.
pub fn judged_with_more(
    schema: &[u8],
    rows: &[u8],
    message: &[u8],
    less: Budget,
    more: Budget,
    o: usize,
) -> Stories
    // each verdict is the definition's
    ensures by_less { result.less ≡ W.verdict o (lent o schema rows) message.now less }
    ensures by_more { result.more ≡ W.verdict o (lent o schema rows) message.now more }
    // "raising either or both leaves an acceptance with the same visits and content, and leaves every refusal other than 4 and 17 the
    // same in all its parts"
    ensures same { Raises less more → Settled result.less → result.more ≡ result.less }
    // what more makes of a 4 or a 17: the same, or no less is spent of either, and more of the one that was lacking than was allowed
    ensures further { Raises less more → Becomes less result.less result.more }
    // the smaller budget has told the same story exactly where it allows what the bigger has spent
    ensures exactly { Raises less more → (result.more ≡ result.less) ↔ Affords less (W.spent_of result.more) }
{
    let by_less = judge::judge(schema, rows, message, less, o);
    let by_more = judge::judge(schema, rows, message, more, o);
    Stories {
        less: by_less,
        more: by_more,
    }
}

// Reading one message to its sheet with two budgets.
pub fn read_with_more(
    schema: &[u8],
    rows: &[u8],
    message: &[u8],
    less: Budget,
    more: Budget,
    first: &mut [u8],
    second: &mut [u8],
    o: usize,
) -> Readings
    // each answer and each output is the definition's
    ensures by_less { result.less ≡ M.read_answer o (lent o schema rows) message.now less first.old }
    ensures less_out { first.new ≡ M.read_out o (lent o schema rows) message.now less first.old }
    ensures by_more { result.more ≡ M.read_answer o (lent o schema rows) message.now more second.old }
    ensures more_out { second.new ≡ M.read_out o (lent o schema rows) message.now more second.old }
    // "raising either or both leaves an acceptance with the same visits and content, and leaves every refusal other than 4 and 17 the
    // same in all its parts": the whole answer, with as much room
    ensures same { Raises less more → Settled result.less.verdict → length second.old ≡ length first.old → result.more ≡ result.less }
    // and the output, if it held the same
    ensures output { Raises less more → Settled result.less.verdict → second.old ≡ first.old → second.new ≡ first.new }
{
    let by_less = sheet::read(schema, rows, message, less, first, o);
    let by_more = sheet::read(schema, rows, message, more, second, o);
    Readings {
        less: by_less,
        more: by_more,
    }
}

// The verdicts of two schemas, of which the newer appends to the older.
#[derive(Clone, Copy)]
pub struct Verdicts {
    pub older: Verdict,
    pub newer: Verdict,
}

// Judging one message by two schemas.
pub fn judged_by_both(
    older: &[u8],
    oldrows: &[u8],
    newer: &[u8],
    newrows: &[u8],
    message: &[u8],
    budget: Budget,
    o: usize,
) -> Verdicts
    // each verdict is the definition's
    ensures by_older { result.older ≡ W.verdict o (lent o older oldrows) message.now budget }
    ensures by_newer { result.newer ≡ W.verdict o (lent o newer newrows) message.now budget }
    // whatever bytes the newer accepts with a budget, the older accepts with the same budget, and spends no more of either
    ensures accepts { Ap.Appends o older.now newer.now → TableOf o older.now oldrows.now → TableOf o newer.now newrows.now → result.newer.number ≡ 0 → (result.older.number ≡ 0) × (result.older.visits ≤ result.newer.visits) × (result.older.content ≤ result.newer.content) }
{
    let by_older = judge::judge(older, oldrows, message, budget, o);
    let by_newer = judge::judge(newer, newrows, message, budget, o);
    Verdicts {
        older: by_older,
        newer: by_newer,
    }
}

// The sheets by two schemas, of which the newer appends to the older. The older's goes to the first output.
#[derive(Clone, Copy)]
pub struct Sheets {
    pub older: ReadAnswer,
    pub newer: ReadAnswer,
}

// Reading one message to its sheets by two schemas.
pub fn read_by_both(
    older: &[u8],
    oldrows: &[u8],
    newer: &[u8],
    newrows: &[u8],
    message: &[u8],
    budget: Budget,
    first: &mut [u8],
    second: &mut [u8],
    o: usize,
) -> Sheets
    // each answer and each output is the definition's
    ensures by_older { result.older ≡ M.read_answer o (lent o older oldrows) message.now budget first.old }
    ensures older_out { first.new ≡ M.read_out o (lent o older oldrows) message.now budget first.old }
    ensures by_newer { result.newer ≡ M.read_answer o (lent o newer newrows) message.now budget second.old }
    ensures newer_out { second.new ≡ M.read_out o (lent o newer newrows) message.now budget second.old }
    // what the newer accepts, its sheet having room or not, the older reads if the older's sheet has room
    ensures accepts { Ap.Appends o older.now newer.now → TableOf o older.now oldrows.now → Accepts o newer.now message.now budget → (result.older.verdict.number ≡ 0) ⊎ (result.older.verdict.number ≡ 14) }
    // the older's sheet is the newer's sheet without the appended members, as bytes; "the rules give a sheet over the size too",
    // so the newer's sheet is the one of the rules, handed out or not
    ensures without { Ap.Appends o older.now newer.now → TableOf o older.now oldrows.now → Accepts o newer.now message.now budget → HandsOut result.older first.new (Ap.sheet_without older.now newer.now (M.message_sheet o newer.now message.now)) }
    // and where it is handed out, it stands in the second output
    ensures handed { HandsOut result.newer second.new (M.message_sheet o (lent o newer newrows) message.now) }
{
    let by_older = sheet::read(older, oldrows, message, budget, first, o);
    let by_newer = sheet::read(newer, newrows, message, budget, second, o);
    Sheets {
        older: by_older,
        newer: by_newer,
    }
}

// The sheets by three schemas, each of which appends to the one before. The oldest's goes to the first output, the middle's to the
// second, the newest's to the third.
#[derive(Clone, Copy)]
pub struct ThreeSheets {
    pub oldest: ReadAnswer,
    pub middle: ReadAnswer,
    pub newest: ReadAnswer,
}

// Reading one message to its sheets by three schemas.
pub fn read_by_three(
    oldest: &[u8],
    oldrows: &[u8],
    middle: &[u8],
    midrows: &[u8],
    newest: &[u8],
    newrows: &[u8],
    message: &[u8],
    budget: Budget,
    first: &mut [u8],
    second: &mut [u8],
    third: &mut [u8],
    o: usize,
) -> ThreeSheets
    // each answer and each output is the definition's
    ensures by_oldest { result.oldest ≡ M.read_answer o (lent o oldest oldrows) message.now budget first.old }
    ensures oldest_out { first.new ≡ M.read_out o (lent o oldest oldrows) message.now budget first.old }
    ensures by_middle { result.middle ≡ M.read_answer o (lent o middle midrows) message.now budget second.old }
    ensures middle_out { second.new ≡ M.read_out o (lent o middle midrows) message.now budget second.old }
    ensures by_newest { result.newest ≡ M.read_answer o (lent o newest newrows) message.now budget third.old }
    ensures newest_out { third.new ≡ M.read_out o (lent o newest newrows) message.now budget third.old }
    // "for three schemas, each appending to the one before, and given room and bytes the newest accepts: the newest sheet cut down to
    // the middle schema and then to the oldest, as demand 3 does it, equals the newest cut down to the oldest at once, and both are the
    // oldest reader's sheet"; the newest sheet is the one of the rules, handed out or not
    ensures three { Ap.Appends o oldest.now middle.now → Ap.Appends o middle.now newest.now → TableOf o oldest.now oldrows.now → TableOf o middle.now midrows.now → Accepts o newest.now message.now budget → CutDown result.oldest first.new result.middle second.new oldest.now middle.now newest.now (M.message_sheet o newest.now message.now) }
    // and where it is handed out, it stands in the third output
    ensures handed { HandsOut result.newest third.new (M.message_sheet o (lent o newest newrows) message.now) }
{
    let by_oldest = sheet::read(oldest, oldrows, message, budget, first, o);
    let by_middle = sheet::read(middle, midrows, message, budget, second, o);
    let by_newest = sheet::read(newest, newrows, message, budget, third, o);
    ThreeSheets {
        oldest: by_oldest,
        middle: by_middle,
        newest: by_newest,
    }
}

// One field and the whole sheet of a message.
#[derive(Clone, Copy)]
pub struct FieldAndSheet {
    pub field: Answer,
    pub sheet: ReadAnswer,
}

// One field.
pub fn field_and_sheet(
    schema: &[u8],
    rows: &[u8],
    message: &[u8],
    budget: Budget,
    path: &[u32],
    out: &mut [u8],
    o: usize,
) -> FieldAndSheet
    // the field, the sheet's answer and the output are the definition's, at every path and of refusals too
    ensures field { result.field ≡ F.field o (lent o schema rows) message.now path.now }
    ensures sheet { result.sheet ≡ M.read_answer o (lent o schema rows) message.now budget out.old }
    ensures output { out.new ≡ M.read_out o (lent o schema rows) message.now budget out.old }
    // "On an accepted message it equals the sheet's entry.": of the sheet that the rules give, handed out or not
    ensures entry { Accepts o (lent o schema rows) message.now budget → length path.now ≤ 96 → shown result.field ≡ entry_at (lent o schema rows) (M.message_sheet o (lent o schema rows) message.now) path.now }
    // and where it is handed out, it stands in the output
    ensures handed { HandsOut result.sheet out.new (M.message_sheet o (lent o schema rows) message.now) }
    // on an accepted message no refusal comes but 15
    ensures refused { Accepts o (lent o schema rows) message.now budget → length path.now ≤ 96 → (q : Refusal) → result.field ≡ Answer.Refused q → q.number ≡ 15 }
    // "with that table every public answer is equal to the old one"
    ensures right_table { TableOf o schema.now rows.now → result.field ≡ F.field o schema.now message.now path.now }
    // "Any other table handed in gets refusal 1"
    ensures other_table { (TableOf o schema.now rows.now → ⊥) → result.field ≡ Answer.Refused (W.refusal 1 0) }
{
    let answer = field::field(schema, rows, message, path, o);
    let read = sheet::read(schema, rows, message, budget, out, o);
    FieldAndSheet {
        field: answer,
        sheet: read,
    }
}

// Where a text stands, and the whole sheet of a message.
#[derive(Clone, Copy)]
pub struct TextAndSheet {
    pub text: Option<Content>,
    pub sheet: ReadAnswer,
}

// A text or bytes.
pub fn text_and_sheet(
    schema: &[u8],
    rows: &[u8],
    message: &[u8],
    budget: Budget,
    path: &[u32],
    out: &mut [u8],
    o: usize,
) -> TextAndSheet
    // the part, the sheet's answer and the output are the definition's, at every path and of refusals too
    ensures part { result.text ≡ F.field_span o (lent o schema rows) message.now path.now }
    ensures sheet { result.sheet ≡ M.read_answer o (lent o schema rows) message.now budget out.old }
    ensures output { out.new ≡ M.read_out o (lent o schema rows) message.now budget out.old }
    // the part lies in the message
    ensures within { IfSome result.text (λ c. c.start + c.length ≤ length message.now) }
    // "texts and bytes can be had as a part of the message": there is a part exactly where the field's answer is a text or bytes
    ensures exactly { IsSome result.text ↔ ((k at n : ℕ) × (F.field o (lent o schema rows) message.now path.now ≡ Answer.Object k at n) × IsText k) }
    // and it has the answer's length
    ensures long { (k at n : ℕ) → F.field o (lent o schema rows) message.now path.now ≡ Answer.Object k at n → IsText k → (start : ℕ) × (result.text ≡ Some (W.content_at start n)) }
    // "On an accepted message it equals the sheet's entry.": it is the text of the sheet that the rules give, handed out or not
    ensures text { Accepts o (lent o schema rows) message.now budget → length path.now ≤ 96 → F.text_of message.now result.text ≡ text_at (lent o schema rows) (M.message_sheet o (lent o schema rows) message.now) path.now }
    // and where the sheet is handed out, it stands in the output
    ensures handed { HandsOut result.sheet out.new (M.message_sheet o (lent o schema rows) message.now) }
    // "with that table every public answer is equal to the old one"
    ensures right_table { TableOf o schema.now rows.now → result.text ≡ F.field_span o schema.now message.now path.now }
    // "Any other table handed in gets refusal 1"
    ensures other_table { (TableOf o schema.now rows.now → ⊥) → result.text ≡ None }
{
    let text = field::text_span(schema, rows, message, path, o);
    let read = sheet::read(schema, rows, message, budget, out, o);
    TextAndSheet { text, sheet: read }
}

// A step of the list reader and the field at the element's path, which is given whole.
#[derive(Clone, Copy)]
pub struct StepAndField {
    pub step: ListStep,
    pub field: Answer,
}

// The list reader. "It starts from a path to a list whose elements are of kinds 13 to 17".
pub fn step_and_field(
    schema: &[u8],
    rows: &[u8],
    message: &[u8],
    path: &[u32],
    element: usize,
    whole: &[u32],
    o: usize,
) -> StepAndField
    // the step's answer, where the reader goes and the field are the definition's
    ensures step { result.step.answer ≡ F.reader_gives o (lent o schema rows) message.now path.now element }
    ensures next { result.step.next ≡ F.reader_next (F.reader_count o (lent o schema rows) message.now path.now) element }
    ensures field { result.field ≡ F.field o (lent o schema rows) message.now whole.now }
    // "Each step answers as that element's path would and moves on, refused or not"
    ensures same { (ob : Object) (at start n left : ℕ) → LeadsToList o (lent o schema rows) message.now path.now ob at start n left → (whole.now ≡ path.now ++ element ∷ [] → result.step.answer ≡ result.field) × (element < n → result.step.next ≡ element + 1) }
    // "after the last it answers 15 at the list and stays"
    ensures end { (ob : Object) (at start n left : ℕ) → LeadsToList o (lent o schema rows) message.now path.now ob at start n left → n ≤ element → result.step ≡ record { answer = Answer.Refused (W.refusal 15 at); next = element } }
    // "a refused path gives its own refusal"
    ensures own { (q : Refusal) → F.field o (lent o schema rows) message.now path.now ≡ Answer.Refused q → result.step ≡ record { answer = Answer.Refused q; next = element } }
    // "any other answer is 15 at 0"
    ensures other { ((q : Refusal) → F.field o (lent o schema rows) message.now path.now ≡ Answer.Refused q → ⊥) → ((ob : Object) (at start n left : ℕ) → LeadsToList o (lent o schema rows) message.now path.now ob at start n left → ⊥) → result.step ≡ record { answer = Answer.Refused (W.refusal 15 0); next = element } }
    // "with that table every public answer is equal to the old one"
    ensures right_table { TableOf o schema.now rows.now → (result.step.answer ≡ F.reader_gives o schema.now message.now path.now element) × (result.step.next ≡ F.reader_next (F.reader_count o schema.now message.now path.now) element) }
    // "Any other table handed in gets refusal 1"
    ensures other_table { (TableOf o schema.now rows.now → ⊥) → result.step ≡ record { answer = Answer.Refused (W.refusal 1 0); next = element } }
{
    let step = field_element::step(schema, rows, message, path, element, o);
    let answer = field::field(schema, rows, message, whole, o);
    StepAndField {
        step,
        field: answer,
    }
}

// The list reader that "keeps the message and its present place together": a step of it, of which `Stepped` says what is demanded.
pub fn reader_step<'s, 'a, 'b, 'c, 'd>(r: &'s mut ListReader<'a, 'b, 'c, 'd>) -> Answer
    ensures { Stepped r.old result r.new }
{
    field_reader::step(r)
}

// Many steps of the list reader at once.
pub fn steps(
    schema: &[u8],
    rows: &[u8],
    message: &[u8],
    path: &[u32],
    from: usize,
    out: &mut [u64],
    o: usize,
) -> usize
    // the count and the output are the definition's
    ensures whole { result ≡ F.reader_count o (lent o schema rows) message.now path.now }
    ensures output { out.new ≡ F.reader_over o (lent o schema rows) message.now path.now from out.old }
    // the count is the list's, and each step has the numbers of the answer at the element's path
    ensures each { (ob : Object) (at start n left : ℕ) → LeadsToList o (lent o schema rows) message.now path.now ob at start n left → (result ≡ n) × (HoldsAnswers out.new (length out.old / 4) (λ k. F.field o (lent o schema rows) message.now (path.now ++ (from + k) ∷ []))) }
    // "a refused path gives its own refusal": each step has its numbers, and the count is 0
    ensures own { (q : Refusal) → F.field o (lent o schema rows) message.now path.now ≡ Answer.Refused q → (result ≡ 0) × (HoldsAnswers out.new (length out.old / 4) (λ _. Answer.Refused q)) }
    // "any other answer is 15 at 0": the same
    ensures other { ((q : Refusal) → F.field o (lent o schema rows) message.now path.now ≡ Answer.Refused q → ⊥) → ((ob : Object) (at start n left : ℕ) → LeadsToList o (lent o schema rows) message.now path.now ob at start n left → ⊥) → (result ≡ 0) × (HoldsAnswers out.new (length out.old / 4) (λ _. Answer.Refused (W.refusal 15 0))) }
    // "with that table every public answer is equal to the old one"
    ensures right_table { TableOf o schema.now rows.now → (result ≡ F.reader_count o schema.now message.now path.now) × (out.new ≡ F.reader_over o schema.now message.now path.now from out.old) }
    // "Any other table handed in gets refusal 1"
    ensures other_table { (TableOf o schema.now rows.now → ⊥) → (result ≡ 0) × (HoldsAnswers out.new (length out.old / 4) (λ _. Answer.Refused (W.refusal 1 0))) }
{
    field_list::read_list(schema, rows, message, path, from, out, o)
}

// Writing a message of a sheet.
pub fn written(schema: &[u8], sheet: &[u8], out: &mut [u8], o: usize) -> WriteAnswer
    // the answer and the output are the definition's, of refusals too
    ensures whole { result ≡ M.write_answer o schema.now sheet.now out.old }
    ensures output { out.new ≡ M.write_out o schema.now sheet.now out.old }
    // every writable sheet becomes the one message of the stated layout, within the size and given room
    ensures every { (v : Value) → Writable o schema.now sheet.now v → Fits (layout_of o schema.now v) out.old → (result ≡ record { number = 0; length = length (layout_of o schema.now v) }) × (out.new ≡ layout_of o schema.now v ++ drop (length (layout_of o schema.now v)) out.old) }
    // and nothing else is written
    ensures only { result.number ≡ 0 → WrittenAs o schema.now sheet.now (take result.length out.new) }
    // "on refusal the length is 0 and the output is unchanged"
    ensures kept { KeepsOnRefusal result.number result.length out.old out.new }
    // 02, K12: "the writer refuses a present one under the 48-bit coding of document 000": a lawful sheet with a present union in place
    // is 12
    ensures unions { (v : Value) → LawfulSheet o schema.now sheet.now v → o ≡ 6 → UnionInPlace schema.now v → result ≡ record { number = 12; length = 0 } }
    // "absent is still written", "The 32-bit coding keeps them.": of any other lawful sheet 12 comes exactly where it came before
    ensures others { (v : Value) → LawfulSheet o schema.now sheet.now v → (o ≡ 4) ⊎ NoUnionInPlace schema.now v → (result.number ≡ 12) ↔ (was_writable o schema.now v ≡ false) }
{
    write::write(schema, sheet, out, o)
}

// A message that was written, and what reading it gives.
#[derive(Clone, Copy)]
pub struct Trip {
    pub written: WriteAnswer,
    pub read: ReadAnswer,
}

// Writing a sheet's message into a room, and reading that message to its sheet.
pub fn write_then_read(
    schema: &[u8],
    rows: &[u8],
    sheet: &[u8],
    room: &mut [u8],
    budget: Budget,
    out: &mut [u8],
    o: usize,
) -> Trip
    // the answers, the room and the output are the definition's, of refusals too; what is read is what was written in the room
    ensures written { result.written ≡ M.write_answer o schema.now sheet.now room.old }
    ensures message { room.new ≡ M.write_out o schema.now sheet.now room.old }
    ensures read { result.read ≡ M.read_answer o (lent o schema rows) (take result.written.length room.new) budget out.old }
    ensures output { out.new ≡ M.read_out o (lent o schema rows) (take result.written.length room.new) budget out.old }
    // reading that message with enough budget gives the same sheet
    ensures same { result.written.number ≡ 0 → TableOf o schema.now rows.now → Affords budget (enough o schema.now sheet.now) → length sheet.now ≤ length out.old → (result.read ≡ record { verdict = W.at_zero 0 (enough o schema.now sheet.now); length = length sheet.now }) × (out.new ≡ sheet.now ++ drop (length sheet.now) out.old) }
    // the rules give that sheet of the message, with any budget and any room
    ensures sheet { result.written.number ≡ 0 → M.message_sheet o schema.now (take result.written.length room.new) ≡ sheet.now }
    // with less of either allowance the answer is 4 or 17, and `Short` says what is spent then
    ensures less { result.written.number ≡ 0 → TableOf o schema.now rows.now → (budget.visits < (enough o schema.now sheet.now).visits) ⊎ (budget.content < (enough o schema.now sheet.now).content) → Short budget (sheet_lengths o schema.now sheet.now) result.read.verdict × (result.read.length ≡ 0) × (out.new ≡ out.old) }
    // with less visits and enough content it is 4, and all visits are spent
    ensures few_visits { result.written.number ≡ 0 → TableOf o schema.now rows.now → budget.visits < (enough o schema.now sheet.now).visits → (enough o schema.now sheet.now).content ≤ budget.content → (at : ℕ) × (result.read ≡ record { verdict = W.verdict_at (W.refusal 4 at) (W.spending budget.visits (total (take budget.visits (sheet_lengths o schema.now sheet.now)))); length = 0 }) × (out.new ≡ out.old) }
    // with enough visits and less content it is 17, at the first object with which the content would pass the allowance
    ensures little_content { result.written.number ≡ 0 → TableOf o schema.now rows.now → (enough o schema.now sheet.now).visits ≤ budget.visits → budget.content < (enough o schema.now sheet.now).content → (k at : ℕ) × (total (take k (sheet_lengths o schema.now sheet.now)) ≤ budget.content) × (budget.content < total (take (suc k) (sheet_lengths o schema.now sheet.now))) × (result.read ≡ record { verdict = W.verdict_at (W.refusal 17 at) (W.spending (k + 1) (total (take k (sheet_lengths o schema.now sheet.now)))); length = 0 }) × (out.new ≡ out.old) }
{
    let written = write::write(schema, sheet, room, o);
    let n = written.length;
    let read = sheet::read(schema, rows, &room[..n], budget, out, o);
    Trip { written, read }
}

// Writing a sheet's message under the older schema into a room, and reading that message to its sheet by the newer.
pub fn write_then_read_newer(
    older: &[u8],
    newer: &[u8],
    rows: &[u8],
    sheet: &[u8],
    room: &mut [u8],
    budget: Budget,
    out: &mut [u8],
    o: usize,
) -> Trip
    // the answers, the room and the output are the definition's, of refusals too; what is read is what was written in the room
    ensures written { result.written ≡ M.write_answer o older.now sheet.now room.old }
    ensures message { room.new ≡ M.write_out o older.now sheet.now room.old }
    ensures read { result.read ≡ M.read_answer o (lent o newer rows) (take result.written.length room.new) budget out.old }
    ensures output { out.new ≡ M.read_out o (lent o newer rows) (take result.written.length room.new) budget out.old }
    // the newer reads the message and spends as much of both as the older, if its sheet has room
    ensures accepts { Ap.Appends o older.now newer.now → result.written.number ≡ 0 → TableOf o newer.now rows.now → Affords budget (enough o older.now sheet.now) → ((result.read.verdict.number ≡ 0) ⊎ (result.read.verdict.number ≡ 14)) × (W.spent_of result.read.verdict ≡ enough o older.now sheet.now) }
    // the newer's sheet is the older's with the added members, as bytes: what is handed out
    ensures added { Ap.Appends o older.now newer.now → result.written.number ≡ 0 → TableOf o newer.now rows.now → HandsOut result.read out.new (Ap.sheet_with o older.now newer.now sheet.now) }
    // and what the rules give of the message, with any budget and any room
    ensures sheet { Ap.Appends o older.now newer.now → result.written.number ≡ 0 → M.message_sheet o newer.now (take result.written.length room.new) ≡ Ap.sheet_with o older.now newer.now sheet.now }
{
    let written = write::write(older, sheet, room, o);
    let n = written.length;
    let read = sheet::read(newer, rows, &room[..n], budget, out, o);
    Trip { written, read }
}

// A message that was written, and its verdicts by two schemas.
#[derive(Clone, Copy)]
pub struct Judgements {
    pub written: WriteAnswer,
    pub older: Verdict,
    pub newer: Verdict,
}

// Writing a sheet's message under the older schema into a room, and judging that message by both.
pub fn write_then_judge(
    older: &[u8],
    oldrows: &[u8],
    newer: &[u8],
    newrows: &[u8],
    sheet: &[u8],
    room: &mut [u8],
    budget: Budget,
    o: usize,
) -> Judgements
    // the answer, the room and the verdicts are the definition's, of refusals too; what is judged is what was written in the room
    ensures written { result.written ≡ M.write_answer o older.now sheet.now room.old }
    ensures message { room.new ≡ M.write_out o older.now sheet.now room.old }
    ensures by_older { result.older ≡ W.verdict o (lent o older oldrows) (take result.written.length room.new) budget }
    ensures by_newer { result.newer ≡ W.verdict o (lent o newer newrows) (take result.written.length room.new) budget }
    // whatever message the writer made under the older schema, the newer accepts with every budget with which the older does (and
    // spends the same of both): the whole verdict is the same
    ensures same { Ap.Appends o older.now newer.now → result.written.number ≡ 0 → TableOf o older.now oldrows.now → TableOf o newer.now newrows.now → result.newer ≡ result.older }
{
    let written = write::write(older, sheet, room, o);
    let n = written.length;
    let by_older = judge::judge(older, oldrows, &room[..n], budget, o);
    let by_newer = judge::judge(newer, newrows, &room[..n], budget, o);
    Judgements {
        written,
        older: by_older,
        newer: by_newer,
    }
}

// A stored message that is moved over (02, K12): reading its sheet, clearing the schema, writing the sheet with that schema, and
// reading the sheet back.
#[derive(Clone, Copy)]
pub struct Moved {
    pub stored: ReadAnswer,
    pub cleared: WriteAnswer,
    pub written: WriteAnswer,
    pub back: ReadAnswer,
}

// Moving a stored message over, under the 48-bit coding. Each step has a buffer for what it gives; each reading has its own budget, and
// is lent a table of member positions.
pub fn moved_over(
    schema: &[u8],
    rows: &[u8],
    message: &[u8],
    first: Budget,
    sheet: &mut [u8],
    newer: &mut [u8],
    newrows: &[u8],
    room: &mut [u8],
    second: Budget,
    out: &mut [u8],
) -> Moved
    // each answer and each buffer is the definition's, of refusals too; what a step takes is what the steps before it gave
    ensures stored { result.stored ≡ M.read_answer 6 (lent 6 schema rows) message.now first sheet.old }
    ensures sheet { sheet.new ≡ M.read_out 6 (lent 6 schema rows) message.now first sheet.old }
    ensures cleared { result.cleared ≡ M.write_room (Mv.clearing schema.now) (length newer.old) }
    ensures newer { newer.new ≡ M.write_over (Mv.clearing schema.now) newer.old }
    ensures written { result.written ≡ M.write_answer 6 (take result.cleared.length newer.new) (take result.stored.length sheet.new) room.old }
    ensures message { room.new ≡ M.write_out 6 (take result.cleared.length newer.new) (take result.stored.length sheet.new) room.old }
    ensures back { result.back ≡ M.read_answer 6 (Po.with_table 6 (take result.cleared.length newer.new) newrows.now) (take result.written.length room.new) second out.old }
    ensures output { out.new ≡ M.read_out 6 (Po.with_table 6 (take result.cleared.length newer.new) newrows.now) (take result.written.length room.new) second out.old }
    // the schema of a message that is read can be cleared, given room; it is "a schema in which only the in-place flag of those unions is
    // cleared"
    ensures clears { result.stored.verdict.number ≡ 0 → length schema.now ≤ length newer.old → result.cleared ≡ record { number = 0; length = length schema.now } }
    ensures schema { result.stored.verdict.number ≡ 0 → result.cleared.number ≡ 0 → take result.cleared.length newer.new ≡ Mv.without_inplace_unions schema.now }
    // the write is refused by "12 for an older reason, 13 or 14", and by nothing else: `MovedAs` has the reasons, and 14 is for the room
    ensures reasons { result.stored.verdict.number ≡ 0 → result.cleared.number ≡ 0 → (result.written ≡ M.write_room (Mv.moved schema.now message.now) (length room.old)) × MovedAs schema.now message.now (Mv.moved schema.now message.now) }
    // "where that write is not refused .., the sheet read back with enough allowance and room is the same": as bytes
    ensures same { result.stored.verdict.number ≡ 0 → result.cleared.number ≡ 0 → result.written.number ≡ 0 → TableOf 6 (Mv.without_inplace_unions schema.now) newrows.now → Affords second (enough 6 (Mv.without_inplace_unions schema.now) (take result.stored.length sheet.new)) → result.stored.length ≤ length out.old → (result.back ≡ record { verdict = W.at_zero 0 (enough 6 (Mv.without_inplace_unions schema.now) (take result.stored.length sheet.new)); length = result.stored.length }) × (out.new ≡ take result.stored.length sheet.new ++ drop result.stored.length out.old) }
    // the rules give that sheet of the message, with any budget and any room
    ensures rules { result.stored.verdict.number ≡ 0 → result.cleared.number ≡ 0 → result.written.number ≡ 0 → M.message_sheet 6 (take result.cleared.length newer.new) (take result.written.length room.new) ≡ take result.stored.length sheet.new }
{
    let stored = sheet::read(schema, rows, message, first, sheet, wire::U48);
    let s = stored.length;
    let cleared = schema_cleared::clear_unions(schema, newer);
    let c = cleared.length;
    let written = write::write(&newer[..c], &sheet[..s], room, wire::U48);
    let n = written.length;
    let back = sheet::read(&newer[..c], newrows, &room[..n], second, out, wire::U48);
    Moved {
        stored,
        cleared,
        written,
        back,
    }
}
