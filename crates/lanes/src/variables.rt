// The classes that the variables have in the lanes. Their sheets stand behind those of a rule's tokens.
ghost use Rattle.std.specs.Prelude.{◌≡◌, [], ℕ, ◌+◌, ◌*◌, ◌≤◌, ◌<◌, length, get_or};
ghost use Rattle.sets.specs.Sets.{none, plus, under};
ghost use Rattle.values.specs.Lanes.{given};
ghost use Rattle.values.specs.Rows.{Room, Within};
ghost use Rattle.lanes.specs.Batches.{Roomy, Touched, Fixable, Prefix, Fixed, Full, Lighted, PairedRoom, Paired, BothTouched};

use sets::{ALL, WIDTH};
use tables::{RULE, VARIABLES};
use values::WORDS;

// Each word of the rows of the sheet at row a is w.
fn fill(m: &mut [[u64; WORDS]], k: usize, a: usize, w: u64)
    requires { Room k m.old a }
    ensures { Full k m.new a w × Within k m.old a m.new }
{
    m[a..a + k].fill([w; WORDS]);
}

// The variable x has this class in every lane.
pub fn fix(m: &mut [[u64; WORDS]], k: usize, x: usize, class: usize)
    requires { Fixable k m.old x class }
    ensures { ((l : ℕ) → l < 512 → given k m.new l x ≡ plus none class)
        × Touched k x (x + 1) m.old m.new }
{
    let a = (RULE + x) * k;
    fill(m, k, a, 0);
    m[a + class] = [ALL; WORDS];
}

// The first variables have these classes in every lane.
pub fn fix_all(m: &mut [[u64; WORDS]], k: usize, xs: &[u8])
    requires { Roomy k m.old × Prefix k 4 xs.now × (k ≤ 64) }
    ensures { Fixed k m.new xs.now × Touched k 0 (length xs.now) m.old m.new }
{
    for (x, class) in xs.iter().enumerate() {
        fix(m, k, x, *class as usize);
    }
}

// The variable x may have any class in every lane.
pub fn free(m: &mut [[u64; WORDS]], k: usize, x: usize)
    requires { Roomy k m.old × (x < 4) × (k ≤ 64) }
    ensures { ((l : ℕ) → l < 512 → given k m.new l x ≡ under k) × Touched k x (x + 1) m.old m.new }
{
    fill(m, k, (RULE + x) * k, ALL);
}

// The variables from x on may have any class.
pub fn free_from(m: &mut [[u64; WORDS]], k: usize, x: usize)
    requires { Roomy k m.old × (x ≤ 4) × (k ≤ 64) }
    ensures { ((y l : ℕ) → x ≤ y → y < 4 → l < 512 → given k m.new l y ≡ under k)
        × Touched k x 4 m.old m.new }
{
    for y in x..VARIABLES {
        free(m, k, y);
    }
}

// Lane l of row i is lit. That the row has eight words is asked, since nothing tells it of a row in a slice.
fn light(m: &mut [[u64; WORDS]], i: usize, l: usize)
    requires { (i < length m.old) × (length (get_or m.old i []) ≡ 8) × (l < 512) }
    ensures { Lighted m.old i l m.new }
{
    let w = l / WIDTH;
    let bit = 1u64 << (l % WIDTH) as u64;
    m[i][w] |= bit;
}

// The variables hi and lo have in each of the first n lanes the two digits of the lane's number to the base k, counted from `start` on,
// and no class in the others. Past the last pair of classes hi has none.
pub fn pair_up(m: &mut [[u64; WORDS]], k: usize, hi: usize, lo: usize, start: usize, n: usize)
    requires { PairedRoom k m.old hi lo start n }
    ensures paired { Paired k m.new hi lo start n }
    ensures both_touched { BothTouched k hi lo m.old m.new }
{
    let high = (RULE + hi) * k;
    let low = (RULE + lo) * k;
    fill(m, k, high, 0);
    fill(m, k, low, 0);
    let mut y = start / k;
    let mut z = start % k;
    for l in 0..n {
        if y < k {
            light(m, high + y, l);
        }
        light(m, low + z, l);
        z += 1;
        if z == k {
            z = 0;
            y += 1;
        }
    }
}
