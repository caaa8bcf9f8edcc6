// The message's start: its size, its magic, and the root table's offset.
#![tactic(auto)]

ghost use Rattle.std.specs.Prelude.{◌≡◌, ◌≤◌, length};
ghost use Rattle.coding.specs.Packed as P;
ghost use Rattle.coding.specs.Walk as W;
ghost use Rattle.laws.specs.Sound.{ObjectSound};
ghost use Rattle.message_step.specs.Lead as D;
ghost use Rattle.wire.specs.Sizes.{HasStart, Width};
ghost use Rattle.schema.specs.Parsed.{parsed, bytes_of};

use coding::{Object, Place};
use schema::Schema;

// Whether the message has its start and is within the size.
#[tactic(auto, unfolding(coding::specs::Walk::size_ok, coding::specs::Walk::start_size, coding::specs::Bytes::largest))]
pub fn size_ok(m: &[u8], o: usize) -> bool
    requires { Width o }
    ensures { result ≡ W.size_ok o m.now }
{
    wire::start_size(o) <= m.len() && m.len() <= wire::LARGEST
}

// What a message starts with.
pub const MAGIC: u64 = 0xB5C0_C4B3;

// Whether the message starts with its magic.
#[tactic(auto, unfolding(coding::specs::Walk::start_ok))]
pub fn start_ok(m: &[u8]) -> bool
    requires { 4 ≤ length m.now }
    ensures { result ≡ W.start_ok m.now }
{
    wire::u32_in(m, 0) == MAGIC
}

// The root table.
pub fn root_object(schema: &Schema) -> Object
    ensures { (result ≡ Object.Table (parsed schema.now).root) × ObjectSound (parsed schema.now) result }
{
    Object::Table(schema::root(schema.packed.bytes) as u8)
}

// Where the message's start says that the root table stands.
#[tactic(auto, unfolding(coding::specs::Walk::root_place))]
pub fn root_place(m: &[u8], o: usize) -> Place
    requires { (Width o) × HasStart o m.now }
    ensures { (result ≡ W.root_place o m.now) × D.PlaceSmall result }
{
    Place::ByOffset(wire::offset_in(m, wire::MAGIC, o))
}
