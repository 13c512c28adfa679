// When objects have a program. The function does nothing when it is called: its contract is a law on the definitions in
// specs/, proved for all objects.
ghost use Rattle.om_resolve.specs.Laws.{ObjectsMakePrograms};

/// Fewer than 2^32 objects, each of which breaks no rule of object files, have a program where no cause applies: the
/// one that `resolve` gives.
pub fn objects_make_programs()
    ensures { ObjectsMakePrograms }
{}
