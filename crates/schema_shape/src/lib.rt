// The shape of a packed schema: counts, places and the end. It stores where each block stands in the directory.
#![tactic(auto)]

ghost use Rattle.std.specs.Prelude.{◌≡◌, true, ◌+◌, ◌*◌, ◌<◌, ◌≤◌, length, set, IfSome};
ghost use Rattle.coding.specs.Lawful as L;
ghost use Rattle.schema.specs.Directory.{Stored, Placed};

// Stores a number in the directory.
// Kept: a function, since `places` doesn't prove with `dir[i] = x as u16` between two calls that are lent `dir` (tried).
pub fn put(dir: &mut [u16], i: usize, x: usize)
    requires { (i < length dir.old) × (x < 65536) }
    ensures { dir.new ≡ set dir.old i x }
{
    dir[i] = x as u16;
}

// Stores where each of n blocks stands, from `base` on, and answers where they end, if each has from `low` to `high` records.
fn blocks(
    b: &[u8],
    dir: &mut [u16],
    base: usize,
    n: usize,
    head: usize,
    low: usize,
    high: usize,
    start: usize,
) -> Option<usize>
    requires { (length dir.old ≡ 384) × (head ≤ 4) × (high ≤ 64) × (n ≤ 64) × (base ≤ 192) × (start + 133 * n < 65536) }
    ensures { (Stored b.now head low high start n base dir.old dir.new result) × IfSome result (λ end. end ≤ start + 133 * n) }
{
    let mut at = start;
    for i in 0..n {
        put(dir, base + i, at);
        let c = schema::records(b, head, at);
        if c < low || high < c {
            return None;
        }
        at = schema::record_place(head, at, c);
    }
    Some(at)
}

// Whether the counts are in their ranges, and the root is one of the tables.
#[tactic(auto, unfolding(coding::specs::Lawful::counts_ok))]
fn counts_ok(b: &[u8]) -> bool
    ensures { result ≡ L.counts_ok b.now }
{
    let tables = schema::count(b, schema::TABLES);
    schema::count(b, schema::STRUCTS) <= schema::MOST
        && schema::count(b, schema::LISTS) <= schema::MOST
        && schema::count(b, schema::UNIONS) <= schema::MOST
        && 1 <= tables
        && tables <= schema::MOST
        && schema::count(b, schema::ROOT) < tables
}

// Whether the structs, lists, unions and tables stand one behind another to the schema's end; their places are stored.
fn places(b: &[u8], dir: &mut [u16]) -> bool
    requires { (length dir.old ≡ 384) × (L.counts_ok b.now ≡ true) }
    ensures { Placed b.now dir.new (L.places_ok b.now) result }
{
    let Some(lists) = blocks(
        b,
        dir,
        schema::STRUCT_PLACES,
        schema::count(b, schema::STRUCTS),
        0,
        1,
        schema::MOST_FIELDS,
        schema::FIRST,
    ) else {
        return false;
    };
    put(dir, schema::LIST_PLACE, lists);
    let Some(tables) = blocks(
        b,
        dir,
        schema::UNION_PLACES,
        schema::count(b, schema::UNIONS),
        0,
        1,
        schema::MOST_FIELDS,
        lists + 2 * schema::count(b, schema::LISTS),
    ) else {
        return false;
    };
    let Some(end) = blocks(
        b,
        dir,
        schema::TABLE_PLACES,
        schema::count(b, schema::TABLES),
        schema::TABLE_HEAD,
        0,
        schema::MOST,
        tables,
    ) else {
        return false;
    };
    end == b.len()
}

// Whether the bytes have the shape of a schema; where they do, the directory says where everything stands.
#[tactic(auto, unfolding(coding::specs::Lawful::shape_ok))]
pub fn shape(b: &[u8], dir: &mut [u16]) -> bool
    requires { length dir.old ≡ 384 }
    ensures { Placed b.now dir.new (L.shape_ok b.now) result }
{
    counts_ok(b) && places(b, dir)
}
