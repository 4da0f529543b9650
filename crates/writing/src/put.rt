// Bytes, numbers and classes put into a buffer at a place; each function gives the place after them. That there is room (`Room`) is said of the buffer, the
// place and the bytes of each call, so no one value could carry it.
ghost use Rattle.std.specs.Prelude.{◌≡◌, ◌∷◌, ◌+◌, ◌%◌};
ghost use Rattle.paper.specs.Bytes.{comma};
ghost use Rattle.paper.specs.Answer.{decimal, decimals};
ghost use Rattle.verdicts.specs.Said.{classes_of};
ghost use Rattle.writing.specs.Put.{Put, Room, digits_of};

use verdicts::{CriticalPair, NO_CLASS};

// The bytes as they stand.
pub fn put_bytes(out: &mut [u8], at: usize, bs: &[u8]) -> usize
    requires { Room out.old at bs.now }
    ensures { Put out.old at bs.now result out.new }
{
    let mut end = at;
    // One by one: for `copy_from_slice` the archive for C would need `memmove` from outside.
    for b in bs {
        out[end] = *b;
        end += 1;
    }
    end
}

// A number's digits, at the end of ten bytes: no number of 32 bits has more. Where they start has a name, which a pair would not give it.
#[derive(Clone, Copy)]
pub struct Digits {
    pub bytes: [u8; 10],
    pub start: usize,
}

// The decimal of a number, behind zero bytes.
pub fn digits_of(n: u32) -> Digits
    ensures { result ≡ digits_of n }
{
    let mut bytes = [0u8; 10];
    let mut rest = n;
    for start in (1..10).rev() {
        bytes[start] = digit(rest);
        if rest < 10 {
            return Digits { bytes, start };
        }
        rest /= 10;
    }
    bytes[0] = digit(rest);
    Digits { bytes, start: 0 }
}

// The last digit of a number.
fn digit(n: u32) -> u8
    ensures { result ≡ 48 + n % 10 }
{
    48 + (n % 10) as u8
}

// A number in decimal.
pub fn put_decimal(out: &mut [u8], at: usize, n: u32) -> usize
    requires { Room out.old at (decimal n) }
    ensures { Put out.old at (decimal n) result out.new }
{
    let d = digits_of(n);
    put_bytes(out, at, &d.bytes[d.start..])
}

// A comma and a number.
fn put_next(out: &mut [u8], at: usize, n: u8) -> usize
    requires { Room out.old at (comma ∷ decimal n) }
    ensures { Put out.old at (comma ∷ decimal n) result out.new }
{
    out[at] = b',';
    put_decimal(out, at + 1, n as u32)
}

// The classes of a critical pair, parted by commas.
pub fn put_classes(out: &mut [u8], at: usize, pair: CriticalPair) -> usize
    requires { Room out.old at (decimals (classes_of pair)) }
    ensures { Put out.old at (decimals (classes_of pair)) result out.new }
{
    if pair.x0 == NO_CLASS {
        return at;
    }
    let mut end = put_decimal(out, at, pair.x0 as u32);
    for x in [pair.x1, pair.x2, pair.x3] {
        if x == NO_CLASS {
            return end;
        }
        end = put_next(out, end, x);
    }
    end
}
