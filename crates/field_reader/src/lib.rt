// The list reader: a schema, its table of positions, a message, a path to a list, the element at which the next step answers, and the
// width of an offset in bytes. Its functions are thin: the work is done by functions on slices and numbers.
#![tactic(auto)]

ghost use Rattle.std.specs.Prelude.{◌≡◌};
ghost use Rattle.field_reader.specs.Reading.{gives, after};

use coding::Answer;

#[derive(Clone, Copy)]
pub struct ListReader<'a, 'b, 'c, 'd> {
    pub schema: &'a [u8],
    pub positions: &'b [u8],
    pub message: &'c [u8],
    pub path: &'d [u32],
    pub element: usize,
    pub width: usize,
}

// A reader before its first step.
pub fn new<'a, 'b, 'c, 'd>(
    schema: &'a [u8],
    positions: &'b [u8],
    message: &'c [u8],
    path: &'d [u32],
    o: usize,
) -> ListReader<'a, 'b, 'c, 'd>
    ensures { (result.schema ≡ schema.entry) × (result.positions ≡ positions.entry) × (result.message ≡ message.entry) × (result.path ≡ path.entry) × (result.element ≡ 0) × (result.width ≡ o) }
{
    ListReader {
        schema,
        positions,
        message,
        path,
        element: 0,
        width: o,
    }
}

// A step: the answer at the reader's element. The reader moves on, refused or not; after the list's last element, and where there is
// no list, it stays.
pub fn step<'s, 'a, 'b, 'c, 'd>(r: &'s mut ListReader<'a, 'b, 'c, 'd>) -> Answer
    ensures { (result ≡ gives r.old) × (r.new ≡ after r.old) }
{
    let s = field_element::step(r.schema, r.positions, r.message, r.path, r.element, r.width);
    r.element = s.next;
    s.answer
}

// The reader at another element.
pub fn moved<'a, 'b, 'c, 'd>(
    r: ListReader<'a, 'b, 'c, 'd>,
    element: usize,
) -> ListReader<'a, 'b, 'c, 'd>
    ensures { (result.schema ≡ r.entry.schema) × (result.positions ≡ r.entry.positions) × (result.message ≡ r.entry.message) × (result.path ≡ r.entry.path) × (result.element ≡ element) × (result.width ≡ r.entry.width) }
{
    ListReader { element, ..r }
}
