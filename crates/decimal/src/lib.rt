// Decimal numbers and texts, put into a lent buffer from a place on. Each call answers the place after what it put.
#![tactic(auto)]

ghost use Rattle.std.specs.Prelude.{[], ◌∷◌, ◌+◌, ◌≤◌, ◌<◌, length};
ghost use Rattle.decimal.specs.Digits.{decimal_of};
ghost use Rattle.decimal.specs.Text.{Put};

// Kept: buffer and place are two arguments, and no struct: of one that holds the buffer behind a `&mut` the prover does not know, once it is let go, that
// the buffer is what its methods left (tried with a book).

// One byte.
pub fn put(out: &mut [u8], at: usize, byte: u8) -> usize
    requires { at < length out.old }
    ensures { Put out.old at (byte ∷ []) result out.new }
{
    out[at] = byte;
    at + 1
}

// The bytes of a text, in order.
pub fn put_text(out: &mut [u8], at: usize, text: &[u8]) -> usize
    requires { at + length text.now ≤ length out.old }
    ensures { Put out.old at text.now result out.new }
{
    let end = at + text.len();
    out[at..end].copy_from_slice(text);
    end
}

// The digits of n: those of n / 10, then the last.
pub fn put_decimal(out: &mut [u8], at: usize, n: u64) -> usize
    requires { at + length (decimal_of n) ≤ length out.old }
    ensures { Put out.old at (decimal_of n) result out.new }
{
    if n < 10 {
        return put(out, at, b'0' + n as u8);
    }
    let next = put_decimal(out, at, n / 10);
    put(out, next, b'0' + (n % 10) as u8)
}
