// What a reader may answer: one thing, but for want of memory.
ghost use Rattle.om_strength_low.specs.OneAnswer.{ReadersAreOne, ObjectsAreOne};

/// Two answers that meet `Reads` for the same rules, file and value are equal, or memory was wanting for one of them. So no
/// reader of headers, symbols or relocation entries can name another rule or place, or give something else. It does nothing:
/// its clause is the law.
pub fn readers_are_one()
    ensures { ReadersAreOne }
{}

/// Two answers that meet `ReadsParts` for a file are equal, or memory was wanting for one of them; and so are two that meet
/// `MakesObject` for parts. It does nothing: its clause is the law.
pub fn objects_are_one()
    ensures { ObjectsAreOne }
{}
