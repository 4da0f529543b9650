// The search for the first critical pair. Of a rule's variables before the last two only those classes are gone into that are needed and with which
// there is a critical pair; the rest is counted whole.
#![tactic(auto)]

ghost use Rattle.std.specs.Prelude.{◌≡◌, ◌*◌, ◌≤◌, length};
ghost use Rattle.theory.specs.Rewriting.{Rule};
ghost use Rattle.verdicts.specs.Said.{said_closure, EndedIn};
ghost use Rattle.lanes.specs.Automaton.{meant};
ghost use Rattle.lanes.specs.Batches.{Judgeable, Prefix, Long};
ghost use Rattle.alike.specs.Needed.{RuleGiven, Led};
ghost use Rattle.search.specs.Searched.{Searchable, Told, Opened, searched};

use alike::needed;
use lanes::batch::batch;
use lanes::opening::open;
use lanes::prefixes::{many, pair, tries};
use lanes::sides::critical;
use sets::{ALL, has};
use tables::{Rules, SIDE};
use values::{WORDS, sheet_of};
use verdicts::Closure;
use woven::Automaton;

// How many classes are few: then there is little to pass over.
const FEW: usize = 8;

// The classes of the variable x, of v, that lead: for every other one a smaller class gives both sides the same value. All of them where the variable
// is one of the last two, which are not chosen one after the other, and where no class of the variable before it is gone into.
fn leading<'a>(delta: Automaton<'a>, tokens: &'a [u8], v: u8, x: u8, before: u64) -> u64
    requires { RuleGiven delta.arities.now tokens.now x }
    ensures { (rule : Rule) → Told delta.entry.arities.now tokens.now v rule
        → Led (meant delta.entry) rule x result }
{
    if v < x + 3 || delta.states <= FEW || before == 0 {
        return ALL;
    }
    needed(delta, tokens, x)
}

// The classes of the variable after the prefix that are gone into, of those that lead: with every other one there is no critical pair, or a
// smaller class gives both sides the same value. This is `open`, told what leads: the search's proof cites this clause.
fn opened<'a>(
    delta: Automaton<'a>,
    tokens: &'a [u8],
    v: usize,
    xs: &'a [u8],
    leads: u64,
    m: &mut [[u64; WORDS]],
) -> u64
    requires { Judgeable delta.arities.now tokens.now delta.states m.old × (v ≤ 4) × Prefix delta.states 2 xs.now }
    ensures { ((rule : Rule) → Told delta.entry.arities.now tokens.now v rule
        → Led (meant delta.entry) rule (length xs.now) leads
        → Opened (meant delta.entry) rule v xs.now result)
        × Long m.old m.new }
{
    open(delta, tokens, v, xs, leads, m)
}

// The first critical pair among the first `budget` substitutions; closed where there is none at all. The rows are lent for the values.
#[tactic(auto, unfolding(tables::specs::Held::no_rule, verdicts::specs::Said::EndedIn))]
pub fn search<'a>(
    delta: Automaton<'a>,
    rules: &'a Rules,
    budget: u32,
    m: &mut [[u64; WORDS]],
) -> Closure
    requires { Searchable delta.arities.now rules.now × (52 * delta.states ≤ length m.old) }
    ensures said { said_closure result ≡ searched delta.entry rules.now budget }
    ensures ended { EndedIn result }
{
    let k = delta.states;
    let most = budget as u64;
    let size = k as u64;
    let mut examined: u64 = 0;
    'search: {
        'rules: for rule in 0..rules.count {
            let own = &rules.rules[rule];
            let tokens = &own.tokens;
            let v = own.variables;
            let lanes = many(size, v, 3);
            let passed1 = many(size, v, 2);
            let passed0 = many(size, v, 1);
            let m0 = tries(size, v, 0);
            let m1 = tries(size, v, 1);
            let m2 = tries(size, v, 2);
            let variables = v as usize;
            let right = sheet_of(tokens, SIDE) * k;
            let leads0 = leading(delta, tokens, v, 0, ALL);
            let open0 = opened(delta, tokens, variables, &[], leads0, m);
            let leads1 = leading(delta, tokens, v, 1, open0);
            'first: for x0 in 0..m0 {
                if has(open0, x0) {
                    let one = [x0 as u8];
                    let open1 = opened(delta, tokens, variables, &one, leads1, m);
                    'second: for x1 in 0..m1 {
                        if has(open1, x1) {
                            'third: for x2 in 0..m2 {
                                let three = [x0 as u8, x1 as u8, x2 as u8];
                                if batch(delta, tokens, variables, &three, m) {
                                    'lanes: for j in 0..lanes {
                                        if examined == most {
                                            break 'search Closure::Stopped { examined: budget };
                                        }
                                        examined += 1;
                                        'classes: for q in 0..k {
                                            if critical(m, k, right, q, j) {
                                                let found = pair(rule, v, x0, x1, x2, j, q as u64);
                                                break 'search Closure::Critical {
                                                    pair: found,
                                                    examined: examined as u32,
                                                };
                                            }
                                        }
                                    }
                                } else {
                                    if most - examined < lanes {
                                        break 'search Closure::Stopped { examined: budget };
                                    }
                                    examined += lanes;
                                }
                            }
                        } else {
                            if most - examined < passed1 {
                                break 'search Closure::Stopped { examined: budget };
                            }
                            examined += passed1;
                        }
                    }
                } else {
                    if most - examined < passed0 {
                        break 'search Closure::Stopped { examined: budget };
                    }
                    examined += passed0;
                }
            }
        }
        Closure::Closed {
            examined: examined as u32,
        }
    }
}
