// A written object is read as itself.
ghost use Rattle.om_objwrite.specs.RoundTrip.{WrittenIsRead};

/// The file of an object's parts holds just these parts, and breaks no rule of object files, for all parts that are
/// an object, whose numbers fit the fields of the format, and whose lists have fewer than 2 ^ 28 items in all.
pub fn written_is_read()
    ensures { WrittenIsRead }
{}
