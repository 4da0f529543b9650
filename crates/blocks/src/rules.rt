// The rules' lines: two for each rule, whose tokens are kept as bytes.
ghost use Rattle.std.specs.Prelude.{◌≡◌, ◌≤◌, length, drop, take};
ghost use Rattle.paper.specs.Limits.{most_rules};
ghost use Rattle.paper.specs.Format.{rule as paper_rule, times};
ghost use Rattle.fields.specs.Said.{Placed};
ghost use Rattle.blocks.specs.Packed.{rule_of, packed_rules};
ghost use Rattle.blocks.specs.Handed.{Handed};

use fields::cursor::Cursor;
use fields::signature::Signature;
use sides::{Side, left_line, right_line};
use tables::{RULE, RULES, Rule, Rules, SIDE};
use verdicts::Refusal;

// What stands where there is no rule.
const NO_RULE: Rule = Rule {
    tokens: [0u8; RULE],
    left: 0,
    right: 0,
    variables: 0,
};

// Writes a side's tokens, and the zeros behind them.
fn put_side(tokens: &mut [u8], side: &Side)
    requires { length tokens.old ≡ SIDE }
    ensures { tokens.new ≡ take SIDE side.now.tokens }
{
    tokens.copy_from_slice(&side.tokens[..SIDE]);
}

// A line `l=` and a line `r=`.
#[tactic(auto, using(crate::proofs::RuleLaws::rule_lines))]
fn rule(c: Cursor, file: &[u8], signature: Signature) -> Result<(Rule, Cursor), Refusal>
    requires placed { Placed file.now c }
    ensures { Handed file.now rule_of (paper_rule signature.entry.arities.now c.line (drop c.at file.now)) result }
{
    let (left, second) = left_line(c, file, signature.arities)?;
    let (right, next) = right_line(second, file, signature.arities, left.variables)?;
    let mut tokens = [0u8; RULE];
    put_side(&mut tokens[..SIDE], &left);
    put_side(&mut tokens[SIDE..], &right);
    let one = Rule {
        tokens,
        left: left.count as u8,
        right: right.count as u8,
        variables: left.variables,
    };
    Ok((one, next))
}

// The n rules from `start` on.
pub fn read_rules(
    start: Cursor,
    file: &[u8],
    signature: Signature,
    n: usize,
) -> Result<(Rules, Cursor), Refusal>
    requires n_bound { n ≤ most_rules }
    requires placed { Placed file.now start }
    ensures { Handed file.now packed_rules
        (times n (paper_rule signature.entry.arities.now) start.line (drop start.at file.now)) result }
{
    let mut c = start;
    let mut rules = [NO_RULE; RULES];
    for i in 0..n {
        let (one, next) = rule(c, file, signature)?;
        rules[i] = one;
        c = next;
    }
    Ok((Rules { count: n, rules }, c))
}
