// The fixed part of a table that is read: where its members stand.

ghost use Rattle.std.specs.Prelude.{◌+◌, ◌≤◌, length};

use coding::Content;
use schema::Reading;

// A table's fixed part, which lies within the message.
#[derive(Clone, Copy)]
pub struct FixedPart<'a, 'r> {
    pub reading: &'r Reading<'a>,
    pub part: Content,
    pub ghost inside: { part.start + part.length ≤ length reading.now.message.now },
}
