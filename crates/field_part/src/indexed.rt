// A message that is read by a schema with its table of positions: what those who read single members of it are lent.
#![tactic(auto)]

ghost use Rattle.std.specs.Prelude.{◌≡◌};
ghost use Rattle.coding.specs.Positions.{positions_of};

use schema::Reading;

// A message that is read, and the table of positions of its schema.
#[derive(Clone, Copy)]
pub struct IndexedReading<'a> {
    pub reading: Reading<'a>,
    pub rows: &'a [u8],
    pub ghost right: { rows.now ≡ positions_of reading.schema.width reading.schema.packed.bytes.now },
}
