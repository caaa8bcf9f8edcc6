// The types that the definitions in specs/ and the code of every crate share. No function stands here.
#![tactic(auto)]

// ---- the schema

// What leads to no object. An integer has its sign and its bytes, a float its bytes, an enum the number of its values, a
// struct its index.
#[derive(Clone, Copy)]
pub enum Flat {
    Boolean,
    Integer(bool, u8),
    Float(u8),
    Enumerated(u8),
    Struct(u8),
}

// What a reference leads to. A list and a table have their index, a direct list has that of its elements' table.
#[derive(Clone, Copy)]
pub enum Object {
    Text,
    Bytes,
    List(u8),
    Table(u8),
    DirectList(u8),
}

// What a table member or a list element is. A union has its index.
#[derive(Clone, Copy)]
pub enum Kind {
    OfFlat(Flat),
    OfObject(Object),
    OfUnion(u8),
}

#[derive(Clone, Copy)]
pub struct Member {
    pub kind: Kind,
    pub optional: bool,
    pub inplace: bool,
}

// Where a record of the packed schema stands: in the struct of an index, in a list, in a union, in a table.
#[derive(Clone, Copy)]
pub enum Role {
    InStruct(usize),
    InList,
    InUnion,
    InTable,
}

// ---- the fixed part of a table

// The layout cursor: the bytes laid out so far, the last bool byte and its next free bit (8: none is free).
// Kept: the next free bit is the count of the bits taken; 8 is the count of a full byte and is compared as a number (bit < 8).
#[derive(Clone, Copy)]
pub struct Cursor {
    pub end: usize,
    pub byte: usize,
    pub bit: usize,
}

// Where a value stands in its fixed part: its first byte, its bit there (of a bool), and its bytes.
#[derive(Clone, Copy)]
pub struct Slot {
    pub at: usize,
    pub bit: usize,
    pub size: usize,
}

// Where a member stands in its fixed part: its value's slot, and its flag's, which counts only where the member has one.
// Kept: whether there is a flag is said by the member (has_flag); an Option would say it once more, with an arm that never comes.
#[derive(Clone, Copy)]
pub struct Placement {
    pub value: Slot,
    pub flag: Slot,
}

// A member's row in the table of positions: the first bit of its value in the fixed part, that of its flag (4294967295 where it
// has none), and its size in bits.
// Kept: a row is the three numbers that the stored table has (row_bytes), 4294967295 among them.
#[derive(Clone, Copy)]
pub struct Row {
    pub value: usize,
    pub flag: usize,
    pub size: usize,
}

// ---- the walk

// Where an object stands: its offset; or, in place, where its content starts and the length that its holder gives. An element of a
// direct list stands in place in the list.
#[derive(Clone, Copy)]
pub enum Place {
    ByOffset(usize),
    InPlace(usize, usize),
}

// What stands at a member or an element: a refusal's number; no value; a value's bits; an unknown enum or choice; a
// struct with its index and place; an object; a union's choice and its object.
// Kept: a refusal is one of seven cases, which one match tells apart; a Result would need that match and one around it.
#[derive(Clone, Copy)]
pub enum Step {
    Refused(u8),
    Absent,
    Value(u64),
    Unknown(u16),
    Struct(u8, usize),
    Object(Object, Place),
    Choice(u16, Object, Place),
}

// An object's content: where it starts, and its length. An arrival finds it, or a refusal's number; a text or bytes as a part of
// the message are it too.
#[derive(Clone, Copy)]
pub struct Content {
    pub start: usize,
    pub length: usize,
}

// What may be spent: visits, and bytes of content.
#[derive(Clone, Copy)]
pub struct Budget {
    pub visits: u32,
    pub content: u64,
}

// What the walk has spent so far.
#[derive(Clone, Copy)]
pub struct Spent {
    pub visits: u32,
    pub content: u64,
}

// Its number and place, and the number in its holder of the member or element that it is about; 4294967295 where it is about none.
// Kept: these are the numbers that the C interface hands out (scalgo_judge, scalgo_field), and that the theorems name.
#[derive(Clone, Copy)]
pub struct Refusal {
    pub number: u8,
    pub place: usize,
    pub member: u32,
}

// What a path has come to: a refusal; no value; an unknown enum or choice; a value of a kind; a struct with its index and
// place; an object with its place, where its content starts, its length, and how many objects of depth are left below it.
// Value and Struct end with the place of the last object judged.
// Kept: a refusal is one of three cases that end a path (with Absent and Unknown); a Result would take out one of them.
#[derive(Clone, Copy)]
pub enum Found {
    Refused(Refusal),
    Absent,
    Unknown(u16),
    Value(Kind, u64, usize),
    Struct(u8, usize, usize),
    Object(Object, usize, usize, usize, usize),
}

// ---- the answers

// The member is a refusal's; 4294967295 where there is none.
// Kept: the five numbers of the C interface's verdict, in which 0 says that the message is accepted.
#[derive(Clone, Copy)]
pub struct Verdict {
    pub number: u8,
    pub place: usize,
    pub member: u32,
    pub visits: u32,
    pub content: u64,
}

// Reading to a sheet: the verdict, or 14 with what it spent, and the length of what was written.
// Kept: the C interface hands out both on every answer (scalgo_read), on a refusal with the length 0.
#[derive(Clone, Copy)]
pub struct ReadAnswer {
    pub verdict: Verdict,
    pub length: usize,
}

// Writing a message: 0, 1, 11, 12, 13 or 14, and the length of what was written. Making the table of positions: 0, 1 or 14 of these.
// Kept: the C interface hands out both on every answer (scalgo_write, scalgo_positions), on a refusal with the length 0.
#[derive(Clone, Copy)]
pub struct WriteAnswer {
    pub number: u8,
    pub length: usize,
}

// One field: a boolean; a number's bits, its width in bits and whether it has a sign; a float's bits and its width; an
// object's record kind (13 to 16, 18), place and length; a struct's place; absent; unknown with its number; a refusal.
// Kept: the cases are the answers of the C interface one by one (scalgo_field), a refusal among them.
#[derive(Clone, Copy)]
pub enum Answer {
    Boolean(bool),
    Number(u64, u8, bool),
    Float(u64, u8),
    Object(u8, usize, usize),
    Struct(usize),
    Absent,
    Unknown(u16),
    Refused(Refusal),
}

// An answer as a case number and three numbers; what a case does not use is 0.
// Kept: the C interface takes these four numbers (scalgo_field, scalgo_list), which cannot be given an enum.
#[derive(Clone, Copy)]
pub struct Case {
    pub case: u32,
    pub a: u64,
    pub b: u64,
    pub c: u64,
}
