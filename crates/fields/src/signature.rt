// The signature that the line `arities` gives: what each line of transitions is read over.
ghost use Rattle.std.specs.Prelude.{ℕ, ◌≤◌, length, get_or};
ghost use Rattle.paper.specs.Limits.{most_arity, most_symbols};

// The listed symbols' arities: from 1 to 64 of them, each of 3 at most.
#[derive(Clone, Copy)]
pub struct Signature<'a> {
    pub arities: &'a [u8],
    pub ghost some: { 1 ≤ length arities.now },
    pub ghost few: { length arities.now ≤ most_symbols },
    pub ghost low: { (k : ℕ) → get_or arities.now k 0 ≤ most_arity },
}
