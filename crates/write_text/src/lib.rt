// Whether the bytes of a text in a sheet are text by RFC 3629. They stand at any bit position, and are taken 64 at a time.
#![tactic(auto)]

ghost use Rattle.std.specs.Prelude.{◌≡◌, ◌≤◌, length, drop};
ghost use Rattle.coding.specs.Bits.{bits, pack};
ghost use Rattle.coding.specs.Utf8.{is_text};
ghost use Rattle.utf8.specs.Steps.{HoldsState};
ghost use Rattle.write_text.specs.Texts.{Fits, Passes, blob_fine};

// The word after the bytes from bit pos on, as many as `part` has; they are put into `part`.
fn after_part(s: &[u8], pos: usize, part: &mut [u8], w: u64) -> u64
    requires { (HoldsState w) × Fits s.now pos (length part.old) }
    ensures { Passes s.now pos (length part.old) w result }
{
    bitio::get_bytes(s, pos, part);
    utf8::after_block(part, 0, part.len(), w)
}

// The word after the k bytes from bit pos on, for k up to 64.
fn after_bytes(s: &[u8], pos: usize, k: usize, w: u64) -> u64
    requires { (HoldsState w) × (k ≤ 64) × Fits s.now pos k }
    ensures { Passes s.now pos k w result }
{
    let mut part: [u8; 64] = [0; 64];
    after_part(s, pos, &mut part[..k], w)
}

// Whether the n bytes from bit pos on are text.
fn is_text(s: &[u8], pos: usize, n: usize) -> bool
    requires { Fits s.now pos n }
    ensures { result ≡ is_text (pack n (drop pos (bits s.now))) }
{
    let blocks = n / 64;
    let mut w = utf8::BEGIN;
    for j in 0..blocks {
        w = after_bytes(s, pos + 512 * j, 64, w);
    }
    utf8::may_end(after_bytes(s, pos + 512 * blocks, n % 64, w))
}

// Whether the n bytes from bit pos on can be written, with `more` bytes behind them: 1 of a text, 0 of bytes.
// Kept: `more` is a count, which `write_measure` adds to the length, and `Texts.blob_fine` goes by it.
pub fn blob_fine(s: &[u8], pos: usize, n: usize, more: usize) -> bool
    requires { Fits s.now pos n }
    ensures { result ≡ blob_fine more (pack n (drop pos (bits s.now))) }
{
    more == 0 || is_text(s, pos, n)
}
