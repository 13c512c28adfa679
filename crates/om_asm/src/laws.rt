// Laws of the definitions.
ghost use Rattle.om_asm.specs.Parsing.{TextsAreRead};

/// A text has at most one instruction whose hidden fields are usual, and that of the text of an instruction is that
/// instruction, but for hidden fields.
pub fn texts_are_read()
    ensures { TextsAreRead }
{}
