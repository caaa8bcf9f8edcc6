// What C calls: an export for each function of `scalgo`, with the same clauses and no logic of its own. include/scalgo.h declares them.
#![tactic(auto)]

ghost use Rattle.std.specs.Prelude.{◌≡◌, ◌+◌, ◌≤◌};
ghost use Rattle.std.proofs.Math.ListN as N;
ghost use Rattle.coding.specs.Bytes as B;
ghost use Rattle.coding.specs.Field as F;
ghost use Rattle.coding.specs.Message as M;
ghost use Rattle.coding.specs.Moving as Mv;
ghost use Rattle.coding.specs.Positions as Po;
ghost use Rattle.coding.specs.Walk as W;
ghost use Rattle.scalgo.specs.Numbers.{verdict_numbers, there, start_of, length_of, lent};

// Makes the table of member positions of a packed schema: answers the number, and stores the table's length.
#[unsafe(no_mangle)]
pub extern "C" fn scalgo_positions(
    coding: u32,
    schema: &[u8],
    positions: &mut [u8],
    length: &mut u64,
) -> u32
    ensures value { result ≡ (Po.positions_answer (B.width_of coding) schema.now positions.old).number }
    ensures length_after { length.new ≡ (Po.positions_answer (B.width_of coding) schema.now positions.old).length }
    ensures positions_after { positions.new ≡ Po.positions_out (B.width_of coding) schema.now positions.old }
{
    scalgo::scalgo_positions(coding, schema, positions, length)
}

// Judges a message by a packed schema within two allowances: answers the number, and stores the verdict.
#[unsafe(no_mangle)]
pub extern "C" fn scalgo_judge(
    coding: u32,
    schema: &[u8],
    positions: &[u8],
    message: &[u8],
    visits: u32,
    content: u64,
    verdict: &mut [u64; 5],
) -> u32
    ensures value { result ≡ (W.verdict (B.width_of coding) (lent coding schema positions) message.now (W.allowing visits content)).number }
    ensures verdict_after { verdict.new ≡ verdict_numbers (W.verdict (B.width_of coding) (lent coding schema positions) message.now (W.allowing visits content)) }
{
    scalgo::scalgo_judge(coding, schema, positions, message, visits, content, verdict)
}

// One field's answer at a path: answers its case, and stores the case's three numbers.
#[unsafe(no_mangle)]
pub extern "C" fn scalgo_field(
    coding: u32,
    schema: &[u8],
    positions: &[u8],
    message: &[u8],
    path: &[u32],
    a: &mut u64,
    b: &mut u64,
    c: &mut u64,
) -> u32
    ensures value { result ≡ (F.answer_case (F.field (B.width_of coding) (lent coding schema positions) message.now path.now)).case }
    ensures a_after { a.new ≡ (F.answer_case (F.field (B.width_of coding) (lent coding schema positions) message.now path.now)).a }
    ensures b_after { b.new ≡ (F.answer_case (F.field (B.width_of coding) (lent coding schema positions) message.now path.now)).b }
    ensures c_after { c.new ≡ (F.answer_case (F.field (B.width_of coding) (lent coding schema positions) message.now path.now)).c }
{
    scalgo::scalgo_field(coding, schema, positions, message, path, a, b, c)
}

// Where the text or the bytes stand that a path leads to: answers 1 where it leads to such and 0 otherwise, and stores where the
// part of the message starts and its length.
#[unsafe(no_mangle)]
pub extern "C" fn scalgo_text(
    coding: u32,
    schema: &[u8],
    positions: &[u8],
    message: &[u8],
    path: &[u32],
    start: &mut u64,
    length: &mut u64,
) -> u32
    ensures value { result ≡ there (F.field_span (B.width_of coding) (lent coding schema positions) message.now path.now) }
    ensures start_after { start.new ≡ start_of (F.field_span (B.width_of coding) (lent coding schema positions) message.now path.now) }
    ensures length_after { length.new ≡ length_of (F.field_span (B.width_of coding) (lent coding schema positions) message.now path.now) }
    ensures length_bound { start.new + length.new ≤ N.length message.now }
{
    scalgo::scalgo_text(coding, schema, positions, message, path, start, length)
}

// Many steps of a list reader: stores the case and the three numbers of each step from an element on, as many steps as there is
// room for, and answers how many elements the list has.
#[unsafe(no_mangle)]
pub extern "C" fn scalgo_list(
    coding: u32,
    schema: &[u8],
    positions: &[u8],
    message: &[u8],
    path: &[u32],
    from: u64,
    cases: &mut [u64],
) -> u64
    ensures value { result ≡ F.reader_count (B.width_of coding) (lent coding schema positions) message.now path.now }
    ensures cases_after { cases.new ≡ F.reader_over (B.width_of coding) (lent coding schema positions) message.now path.now from cases.old }
{
    scalgo::scalgo_list(coding, schema, positions, message, path, from, cases)
}

// Reads a message to its value sheet within two allowances: answers the number, and stores the verdict and the sheet's length.
#[unsafe(no_mangle)]
pub extern "C" fn scalgo_read(
    coding: u32,
    schema: &[u8],
    positions: &[u8],
    message: &[u8],
    visits: u32,
    content: u64,
    sheet: &mut [u8],
    verdict: &mut [u64; 5],
    length: &mut u64,
) -> u32
    ensures value { result ≡ (M.read_answer (B.width_of coding) (lent coding schema positions) message.now (W.allowing visits content) sheet.old).verdict.number }
    ensures verdict_after { verdict.new ≡ verdict_numbers (M.read_answer (B.width_of coding) (lent coding schema positions) message.now (W.allowing visits content) sheet.old).verdict }
    ensures length_after { length.new ≡ (M.read_answer (B.width_of coding) (lent coding schema positions) message.now (W.allowing visits content) sheet.old).length }
    ensures sheet_after { sheet.new ≡ M.read_out (B.width_of coding) (lent coding schema positions) message.now (W.allowing visits content) sheet.old }
{
    scalgo::scalgo_read(
        coding, schema, positions, message, visits, content, sheet, verdict, length,
    )
}

// Writes a value sheet as a message: answers the number, and stores the message's length.
#[unsafe(no_mangle)]
pub extern "C" fn scalgo_write(
    coding: u32,
    schema: &[u8],
    sheet: &[u8],
    message: &mut [u8],
    length: &mut u64,
) -> u32
    ensures value { result ≡ (M.write_answer (B.width_of coding) schema.now sheet.now message.old).number }
    ensures length_after { length.new ≡ (M.write_answer (B.width_of coding) schema.now sheet.now message.old).length }
    ensures message_after { message.new ≡ M.write_out (B.width_of coding) schema.now sheet.now message.old }
{
    scalgo::scalgo_write(coding, schema, sheet, message, length)
}

// The schema to which stored messages of the 48-bit coding are moved over: only the in-place flag of its unions is cleared. Answers the
// number, and stores the schema and its length.
#[unsafe(no_mangle)]
pub extern "C" fn scalgo_clear_unions(schema: &[u8], cleared: &mut [u8], length: &mut u64) -> u32
    ensures value { result ≡ (M.write_room (Mv.clearing schema.now) (N.length cleared.old)).number }
    ensures length_after { length.new ≡ (M.write_room (Mv.clearing schema.now) (N.length cleared.old)).length }
    ensures cleared_after { cleared.new ≡ M.write_over (Mv.clearing schema.now) cleared.old }
{
    scalgo::scalgo_clear_unions(schema, cleared, length)
}
