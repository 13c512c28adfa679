// Tables of rules: a reader tests one rule after the other, and this is why it names the least.
ghost use Rattle.om_fields.specs.Rules.{TablesAreRead};

/// The fault that a table of rules names, the first rule of it that has a place with the least of its places, is the least
/// broken rule with its least place; and where it names none, no rule of the table is broken anywhere. So it is for every
/// table whose numbers rise and every file. It does nothing: its clause is the law.
pub fn first_fault_is_least()
    ensures { TablesAreRead }
{}
