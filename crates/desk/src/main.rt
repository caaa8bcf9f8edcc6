// The desk program: judges message.bin by schema.bin, both in the folder it is run in, under the coding of 48 bits, with a budget of
// 100000 visits and the largest content allowance, and prints number, place and visits. A file that cannot be read or is over 64 KiB
// counts as one that is not lawful: 1 or 2.
#![tactic(auto)]

ghost use Rattle.std.specs.Prelude.{◌≡◌, ◌≤◌, ◌<◌, length, take, IfSome};
ghost use Rattle.coding.specs.Walk as W;

use coding::{Budget, Verdict};
use std::fs::File;
use std::io;
use std::io::Read;
use std::rt::Files;

// How many bytes the open file has, all of them read to the start of buf; none where a read fails or buf is filled: then the file
// is unreadable, or has more bytes than a file may have. Each answer of a read is tested, since a count alone cannot tell a
// failure from the file's end.
fn whole<R: Read>(file: &mut R, buf: &mut [u8]) -> Option<usize>
    ensures bound { IfSome result (λ n. n ≤ length buf.new) }
    ensures prefix { IfSome result (λ n. n ≡ length (take n buf.new)) }
    ensures bytes { IfSome result (λ n. 0 < n → IfSome (R.remaining file.old) (λ xs. xs ≡ take n buf.new)) }
{
    let mut done = 0;
    while done < buf.len() {
        match file.read(&mut buf[done..]) {
            Ok(0) => return Some(done),
            Ok(n) => done += n,
            Err(_) => return None,
        }
    }
    None
}

// How many bytes of the file were read to buf, which holds one more than a file may have; 0 where the file cannot be read to
// its end or is too long. No bytes are no lawful schema, and no lawful message.
fn load<F: Files>(files: &F, path: &str, buf: &mut [u8]) -> usize
    ensures bound { result ≤ length buf.new }
    ensures prefix { result ≡ length (take result buf.new) }
{
    match File::open(files, path) {
        Ok(mut file) => whole(&mut file, buf).unwrap_or(0),
        Err(_) => 0,
    }
}

// The verdict by a schema, whose table of positions is made here. No table has more than 64 times 64 rows of twelve bytes, so that there is
// room for every one.
fn verdict(schema: &[u8], message: &[u8]) -> Verdict
    ensures { result ≡ W.verdict 6 schema.now message.now (W.allowing 100000 18446744073709551615) }
{
    let budget = Budget {
        visits: 100000,
        content: u64::MAX,
    };
    let mut rows = [0u8; 49152];
    let made = positions::positions(schema, &mut rows, wire::U48);
    let n = made.length;
    judge::judge(schema, &rows[..n], message, budget, wire::U48)
}

fn main(rt: HostRuntime) -> io::Result<()> {
    let mut schema = [0u8; 65537];
    let s = load(&rt, "schema.bin", &mut schema);
    let mut message = [0u8; 65537];
    let m = load(&rt, "message.bin", &mut message);
    let v = verdict(&schema[..s], &message[..m]);
    print!(rt; "{} ", v.number)?;
    print!(rt; "{} ", v.place)?;
    println!(rt; "{}", v.visits)
}
