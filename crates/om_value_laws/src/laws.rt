// The rules of symbolic values. The function does nothing when it is called: its contract is a law on the definitions of om_value,
// proved for all operations and values.
ghost use Rattle.om_value_laws.specs.Rules.{RulesAgree};

/// Whatever one of the rules of symbolic values gives for an operation on two values whose numbers and offsets have 64 bits is
/// what the operation gives, in whichever order the rules are tried; and the operation observes exactly where no rule applies.
pub fn rules_agree()
    ensures { RulesAgree }
{}
