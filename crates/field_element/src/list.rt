// The list that a list reader goes over.
#![tactic(auto)]

ghost use Rattle.std.specs.Prelude.{◌≡◌, ℕ, ◌+◌, ◌<◌, ◌≤◌, ◌^◌, length};
ghost use Rattle.coding.specs.Packed.{parse};
ghost use Rattle.coding.specs.Walk.{content_size};
ghost use Rattle.field_element.specs.Elements.{object_of};
ghost use Rattle.field_element.specs.declared.list.Elements.TheVariants as E;

use field_arrival::Arrival;
use schema::Reading;

// What a list has for elements: those of a list of the schema, by its index there; or, of a direct list, tables, by theirs.
#[derive(Clone, Copy)]
pub enum Elements {
    List(u8),
    Direct(u8),
}

// A list that a reader goes over, in the message that is read.
#[derive(Clone, Copy)]
pub struct ListAt<'a> {
    pub reading: Reading<'a>,
    pub elements: Elements,
    pub arrival: Arrival,
    pub ghost listed: { (i : ℕ) → elements ≡ E.List i → i < length (parse reading.schema.packed.bytes.now).lists },
    pub ghost direct: { (t : ℕ) → elements ≡ E.Direct t → t < length (parse reading.schema.packed.bytes.now).tables },
    pub ghost placed: { arrival.place < 2 ^ 60 },
    pub ghost inside: { arrival.start + content_size reading.schema.width (parse reading.schema.packed.bytes.now) reading.message.now (object_of elements) arrival.place arrival.length ≤ length reading.message.now },
}
