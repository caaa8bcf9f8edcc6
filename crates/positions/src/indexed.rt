// A lawful schema with its table of positions: what those who read single members of a message are lent.
#![tactic(auto)]

ghost use Rattle.std.specs.Prelude.{◌≡◌, true};
ghost use Rattle.coding.specs.Lawful.{lawful};
ghost use Rattle.coding.specs.Positions.{positions_of};

use schema::Schema;

// A lawful schema, and its table of positions.
#[derive(Clone, Copy)]
pub struct Indexed<'a> {
    pub schema: Schema<'a>,
    pub rows: &'a [u8],
    pub ghost allowed: { lawful schema.width schema.packed.bytes.now ≡ true },
    pub ghost right: { rows.now ≡ positions_of schema.width schema.packed.bytes.now },
}
