// Many steps of the list reader at once.
#![tactic(auto)]

ghost use Rattle.std.specs.Prelude.{◌≡◌, ◌+◌, ◌≤◌, length, take, drop, ◌++◌};
ghost use Rattle.coding.specs.Field as F;
ghost use Rattle.coding.specs.Positions as Po;
ghost use Rattle.field_element.specs.Listed.{gives, count};

use coding::{Case, Refusal};
use field_element::ListAt;

// The four numbers of a case, stored at a place of the output.
fn put_case(out: &mut [u64], at: usize, x: Case)
    requires { at + 4 ≤ length out.old }
    ensures { out.new ≡ take at out.old ++ (F.case_numbers x ++ drop (at + 4) out.old) }
{
    out[at..at + 4].copy_from_slice(&[u64::from(x.case), x.a, x.b, x.c]);
}

// As many steps as the output has room for, from an element on, of the list that a reader goes over; where there is none, each is
// the refusal of its start.
fn put_steps(list: &Result<ListAt, Refusal>, from: usize, out: &mut [u64])
    ensures { out.new ≡ F.steps_over (gives list.now) (count list.now) from out.old }
{
    let n = field_element::list_count(list);
    let mut j = from;
    for i in 0..out.len() / 4 {
        let answer = field_element::step_answer(list, j);
        put_case(out, 4 * i, field::case_of(answer));
        j = field_element::reader_next(n, j);
    }
}

// Many steps of a list reader, of any message by any schema with any table of positions: from an element on, the case and the three
// numbers of each step, as many as the output has room for. Answers how many elements the list has.
pub fn read_list(
    b: &[u8],
    rows: &[u8],
    m: &[u8],
    path: &[u32],
    from: usize,
    out: &mut [u64],
    o: usize,
) -> usize
    ensures value { result ≡ F.reader_count o (Po.with_table o b.now rows.now) m.now path.now }
    ensures out_after { out.new ≡ F.reader_over o (Po.with_table o b.now rows.now) m.now path.now from out.old }
{
    let mut directory: [u16; schema::DIRECTORY] = [0; schema::DIRECTORY];
    let list = field_element::reader_start(b, rows, m, path, &mut directory, o);
    put_steps(&list, from, out);
    field_element::list_count(&list)
}
