// What a walker answers, and what is left of its allowances after an arrival and after content. A walker is given what is left of
// both, as two numbers: of a struct the compiler makes a copy at each call.
#![tactic(auto)]

ghost use Rattle.std.specs.Prelude.{◌≡◌, ◌-◌, ◌<◌, ◌≤◌, ltb, Ok};
ghost use Rattle.coding.specs.Walk as W;
ghost use Rattle.outcome.specs.Answers as As;

// ---- what walkers are given
// The objects of depth that a message may have, the root being 1.
pub const DEEPEST: usize = 32;

// An object's content: the place of the object, where its content starts, and the length that is announced.
#[derive(Clone, Copy)]
pub struct Content {
    pub holder: usize,
    pub start: usize,
    pub length: usize,
}

// A member or an element: the place of the object that holds it, and its number there, from 0.
#[derive(Clone, Copy)]
pub struct Part {
    pub holder: usize,
    pub number: u32,
}

// ---- a walker's answer
// What a walker answers: 0 to go on, or a refusal's number and 1; its place and its member; the visits and the content that are
// left.
// Kept: an enum was tried and was slower, being copied in pieces (docs/DECISIONS.md, "Answers of the walkers").
#[derive(Clone, Copy)]
pub struct Outcome {
    pub code: usize,
    pub place: usize,
    pub member: u32,
    pub visits: u32,
    pub content: u64,
}

// The walk goes on.
pub fn going(visits: u32, content: u64) -> Outcome
    ensures { As.walked_of result ≡ Ok (W.spending visits content) }
{
    Outcome {
        code: 0,
        place: 0,
        member: wire::NO_MEMBER,
        visits,
        content,
    }
}

// Refusal n at an object's place.
pub fn refuse(n: u8, at: usize, visits: u32, content: u64) -> Outcome
    ensures { As.walked_of result ≡ W.refuse n at (W.spending visits content) }
{
    let none = Part {
        holder: at,
        number: wire::NO_MEMBER,
    };
    refuse_part(n, none, visits, content)
}

// Refusal n for a part of an object, at the object's place.
pub fn refuse_part(n: u8, part: Part, visits: u32, content: u64) -> Outcome
    ensures { As.walked_of result ≡ W.refuse_part n part.holder part.number (W.spending visits content) }
{
    Outcome {
        code: usize::from(n) + 1,
        place: part.holder,
        member: part.number,
        visits,
        content,
    }
}

// ---- an arrival
// Charges an arrival at the object at `at`, before anything of it is read: a visit, if one is left, then the depth.
pub fn charge(depth: usize, at: usize, visits: u32, content: u64) -> Outcome
    ensures { As.walked_of result ≡ As.charged depth at (W.spending visits content) }
{
    if visits == 0 {
        return refuse(4, at, visits, content);
    }
    if depth == 0 {
        return refuse(5, at, visits - 1, content);
    }
    going(visits - 1, content)
}

// The number of the refusal of content that is more than what is left.
pub const TOO_MUCH: u8 = 17;

// Whether n bytes of content are more than what is left.
pub fn exceeds(n: usize, content: u64) -> bool
    ensures { result ≡ ltb content n }
{
    content < n as u64
}

// What is left behind n bytes of content.
pub fn rest(n: usize, content: u64) -> u64
    requires { n ≤ content }
    ensures { result ≡ content - n }
{
    content - n as u64
}

// The objects of depth that are left below an object that was arrived at.
pub fn below(depth: usize) -> usize
    requires { 0 < depth }
    ensures { result ≡ depth - 1 }
{
    depth - 1
}
