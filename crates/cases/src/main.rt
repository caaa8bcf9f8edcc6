// Judges stored cases. cases.bin, in the folder it is run in, holds for each case its coding (48 or 32), the length of its schema,
// the length of its message and its budget, four bytes each, the lowest first, and then the bytes of both. Each case
// has the largest content allowance, and the program prints its number, place and visits on a line. A case that the file does not
// hold whole, or with a length over 64 KiB, ends the run.
#![tactic(auto)]

ghost use Rattle.std.specs.Prelude.{◌≡◌, ◌≤◌, length, take, IfSome};
ghost use Rattle.std.specs.Io.KnownBytes.{Consumes};
ghost use Rattle.coding.specs.Walk as W;

use coding::{Budget, Verdict};
use std::fs::File;
use std::io;
use std::io::Read;

// How many bytes of the file were read to the start of buf: so many as are wanted, or none where the file does not give them all
// or buf is too small.
fn load<R: Read>(file: &mut R, buf: &mut [u8], count: usize) -> Option<usize>
    ensures bound { IfSome result (λ n. n ≤ length buf.new) }
    ensures prefix { IfSome result (λ n. n ≡ length (take n buf.new)) }
    ensures all_or_none { IfSome result (λ n. n ≡ count) }
    ensures bytes { IfSome result (λ n. Consumes (R.remaining file.old) (R.remaining file.new) (take n buf.new)) }
{
    if buf.len() < count {
        return None;
    }
    match file.read_exact(&mut buf[..count]) {
        Ok(()) => Some(count),
        Err(_) => None,
    }
}

// The number of four bytes from `at` on; bytes that are not there count as 0.
fn number(head: &[u8], at: u8) -> u32 {
    let i = usize::from(at);
    u32::from_le_bytes([
        wire::byte(head, i),
        wire::byte(head, i + 1),
        wire::byte(head, i + 2),
        wire::byte(head, i + 3),
    ])
}

// The verdict by a schema, whose table of positions is made here. No table has more than 64 times 64 rows of twelve bytes, so that there is
// room for every one.
fn verdict(schema: &[u8], message: &[u8], visits: u32, o: usize) -> Verdict
    ensures { result ≡ W.verdict o schema.now message.now (W.allowing visits 18446744073709551615) }
{
    let budget = Budget {
        visits,
        content: u64::MAX,
    };
    let mut rows = [0u8; 49152];
    let made = positions::positions(schema, &mut rows, o);
    let n = made.length;
    judge::judge(schema, &rows[..n], message, budget, o)
}

fn print_verdict(rt: &impl Print, v: Verdict) -> io::Result<()> {
    print!(rt; "{} ", v.number)?;
    print!(rt; "{} ", v.place)?;
    println!(rt; "{}", v.visits)
}

// One case, whose width, lengths and budget were read: answers whether the file holds it whole.
fn judged<R: Read>(
    rt: &impl Print,
    file: &mut R,
    schema_length: usize,
    message_length: usize,
    budget: u32,
    o: usize,
) -> io::Result<bool> {
    let mut schema = [0u8; 65536];
    let Some(s) = load(file, &mut schema, schema_length) else {
        return Ok(false);
    };
    let mut message = [0u8; 65536];
    let Some(m) = load(file, &mut message, message_length) else {
        return Ok(false);
    };
    print_verdict(rt, verdict(&schema[..s], &message[..m], budget, o))?;
    Ok(true)
}

// One case: answers whether the file holds it whole.
fn one<R: Read>(rt: &impl Print, file: &mut R) -> io::Result<bool> {
    let mut head = [0u8; 16];
    let Some(n) = load(file, &mut head, 16) else {
        return Ok(false);
    };
    let o = wire::width_of(number(&head[..n], 0));
    let schema_length = number(&head[..n], 4) as usize;
    let message_length = number(&head[..n], 8) as usize;
    let budget = number(&head[..n], 12);
    judged(rt, file, schema_length, message_length, budget, o)
}

// A proved loop has to end, and nothing says that a file does: the turns are as many as no file has cases.
fn all<R: Read>(rt: &impl Print, file: &mut R) -> io::Result<()> {
    for _ in 0..u32::MAX {
        if !one(rt, file)? {
            break;
        }
    }
    Ok(())
}

fn main(rt: HostRuntime) -> io::Result<()> {
    match File::open(&rt, "cases.bin") {
        Ok(mut file) => all(&rt, &mut file),
        Err(_) => Ok(()),
    }
}
