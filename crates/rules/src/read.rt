// A text read as a rule.
ghost use Rattle.std.specs.Prelude.{◌≡◌};
ghost use Rattle.rules.specs.Rules.{read_rule, rule_answer};

use super::Rule;
use super::draft::{begun, put, rule_in};
use super::part::part_of;

// A text as a rule: FREQ, and the other parts behind it; none for any other text.
pub fn read_rule(text: &[u8]) -> Option<Rule>
    ensures { rule_answer result ≡ read_rule text.now }
{
    let mut parts = text.split(|b| *b == b';');
    let mut draft = begun(parts.next()?)?;
    for part in parts {
        draft = put(draft, part_of(part)?)?;
    }
    Some(rule_in(draft))
}
