// Callers of the reader, the maker and the writer of objects.
ghost use Rattle.std.specs.Prelude.{◌≡◌, ◌<◌, ◌^◌, IfOk};
ghost use Rattle.om_object.specs.File.{ReadsParts, MakesObject};
ghost use Rattle.om_objwrite.specs.Lengths.{total_length};
ghost use Rattle.om_objwrite.specs.Written.{file_of};

use om_io::{Bytes, NoMemory};
use om_object::{MakeErr, ObjErr, Object, Parts, read_object};
use om_objwrite::write_object;
use std::alloc::Global;

pub fn object(alloc: Global, bytes: &[u8]) -> Result<Object, ObjErr>
    ensures { ReadsParts bytes.now result }
{
    read_object(alloc, bytes)
}

pub fn made(alloc: Global, parts: Parts) -> Result<Object, MakeErr>
    ensures { MakesObject parts result }
{
    Object::make(alloc, parts)
}

pub fn file(alloc: Global, o: &Object) -> Result<Bytes, NoMemory>
    requires { total_length o.now < 2 ^ 28 }
    ensures { IfOk result (λ file. file ≡ file_of o.now) }
{
    write_object(alloc, o)
}
