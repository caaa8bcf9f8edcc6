// An arrival at an object of the message, and what the step of a part of an object finds.
#![tactic(auto)]

ghost use Rattle.std.specs.Prelude.{◌≡◌};
ghost use Rattle.coding.specs.Field as F;
ghost use Rattle.coding.specs.Walk as W;
ghost use Rattle.laws.specs.Sound.{ObjectSound};
ghost use Rattle.message_step.specs.Lead as D;
ghost use Rattle.field_arrival.specs.Within.{StepIn};
ghost use Rattle.field_arrival.specs.Parts.{arrived_by, chosen_by, stepped_by};
ghost use Rattle.schema.specs.Parsed.{parsed};

use coding::{Found, Kind, Object, Place, Refusal, Step};
use schema::Reading;

// An object that a path has come to: its place, where its content starts, its length, and how many objects of depth are left
// below it.
#[derive(Clone, Copy)]
pub struct Arrival {
    pub place: usize,
    pub start: usize,
    pub length: usize,
    pub left: usize,
}

// A part of an object: the place of the object that holds it, its number there, its kind, and how many objects of depth are
// left below the holder.
#[derive(Clone, Copy)]
pub struct Part {
    pub holder: usize,
    pub number: u32,
    pub kind: Kind,
    pub left: usize,
}

// ---- refusals
// The refusal of a number at a place, about no member.
#[tactic(auto, unfolding(coding::specs::Walk::no_member))]
pub fn refusal(number: u8, place: usize) -> Refusal
    ensures { result ≡ W.refusal number place }
{
    Refusal {
        number,
        place,
        member: wire::NO_MEMBER,
    }
}

// The same as what a path has come to.
pub fn refuse(number: u8, place: usize) -> Found
    ensures { result ≡ Found.Refused (W.refusal number place) }
{
    Found::Refused(refusal(number, place))
}

// The refusal of a number of a part of the object at `place`.
#[tactic(auto, unfolding(coding::specs::Field::part_refused))]
fn refuse_part(number: u8, place: usize, member: u32) -> Found
    ensures { result ≡ F.part_refused number place member }
{
    Found::Refused(Refusal {
        number,
        place,
        member,
    })
}

// ---- arrivals
// An arrival at an object with d objects of depth left, this one counted.
#[tactic(auto, unfolding(coding::specs::Field::arrived, coding::specs::Field::opened))]
pub fn arrive(reading: &Reading, d: usize, ob: Object, p: Place) -> Found
    requires { (ObjectSound (parsed reading.now.schema) ob) × D.PlaceSmall p }
    ensures { result ≡ arrived_by reading.now d ob p }
{
    let at = message_object::placed(p);
    if d == 0 {
        return refuse(5, at);
    }
    match message_object::open_object(reading, ob, p) {
        Err(e) => refuse(e, at),
        Ok(content) => Found::Object(ob, at, content.start, content.length, d - 1),
    }
}

// The object of the known choice of a union that is a part.
#[tactic(auto, unfolding(coding::specs::Field::chosen))]
fn choose(reading: &Reading, part: Part, ob: Object, p: Place) -> Found
    requires { (ObjectSound (parsed reading.now.schema) ob) × D.PlaceSmall p }
    ensures { result ≡ chosen_by reading.now part ob p }
{
    match p {
        Place::ByOffset(0) => refuse_part(9, part.holder, part.number),
        Place::ByOffset(_) | Place::InPlace(_, _) => arrive(reading, part.left, ob, p),
    }
}

// ---- what a step finds
// What the step of a part finds.
#[tactic(auto, unfolding(coding::specs::Field::stepped))]
pub fn follow(reading: &Reading, part: Part, step: Step) -> Found
    requires { StepIn reading.now step }
    ensures { result ≡ stepped_by reading.now part step }
{
    match step {
        Step::Refused(e) => refuse_part(e, part.holder, part.number),
        Step::Absent => Found::Absent,
        Step::Value(x) => Found::Value(part.kind, x, part.holder),
        Step::Unknown(x) => Found::Unknown(x),
        Step::Struct(i, at) => Found::Struct(i, at, part.holder),
        Step::Object(ob, p) => arrive(reading, part.left, ob, p),
        Step::Choice(_, ob, p) => choose(reading, part, ob, p),
    }
}
