// Laws of the rule that takes the calls one by one.
ghost use Rattle.replay_check.specs.Rule.{OrderIsOne, RuleDecides, RuleIsExact};

/// The rule takes all calls where there is a legal history, and stops before only where there is none.
pub fn rule_is_exact()
    ensures { RuleIsExact }
{}

/// At each point the rule takes the call of one caller, or of none.
pub fn rule_decides()
    ensures { RuleDecides }
{}

/// The order of the rule is one.
pub fn order_is_one()
    ensures { OrderIsOne }
{}
