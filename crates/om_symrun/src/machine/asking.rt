// What a system call asks for, by the registers that it uses.
ghost use Rattle.std.specs.Prelude.{◌≡◌, Some};
ghost use Rattle.om_isa.specs.SystemCall.{heap_call, read_call, write_call, take_call, numbered_call};
ghost use Rattle.om_prog.specs.Step as def;
ghost use Rattle.om_symrun.specs.Calls.{call_in, IsServed, view_bytes, view_room, descriptor_number};
ghost use Rattle.om_symrun.specs.Memory.{heap_size};
ghost use Rattle.om_symrun.specs.View.{view_script, view_state, view_register, view_call};

use super::SymRun;
use crate::actions::lies_within;
use crate::requests::{Descriptor, Request, Span};
use om_value::{Region, Value};

const HEAP_LIMIT: u64 = 0x100_0000;

impl SymRun<'_> {
    fn heap_request(&self, a0: Value) -> Request
        ensures value { call_in self.now result ≡ heap_call (heap_size self.now.memory) (def.heap_ask (view_script self.now) (view_state self.now) a0) }
        ensures served { IsServed self.now result }
    {
        match a0 {
            Value::Num(n) => {
                if n == 0 {
                    Request::HeapEnd
                } else if n < 0x1_0000 {
                    Request::Answer(12, 1)
                } else {
                    Request::Observe
                }
            }
            Value::Ptr {
                region: Region::Heap,
                off,
            } => {
                if off <= HEAP_LIMIT {
                    Request::Resize(off)
                } else if off < 0x8000_0000_0000_0000 {
                    Request::Answer(12, 1)
                } else {
                    Request::Observe
                }
            }
            _ => Request::Observe,
        }
    }

    fn read_request(&self, a0: u64, n: u64) -> Request
        ensures value { call_in self.now result ≡ read_call (view_bytes self.now) (view_room self.now) a0 (Some n) }
        ensures served { IsServed self.now result }
    {
        if a0 != 0 {
            Request::Answer(9, 1)
        } else if n == 0 {
            Request::Answer(0, 0)
        } else {
            self.take_request(n)
        }
    }

    fn take_request(&self, n: u64) -> Request
        ensures value { call_in self.now result ≡ take_call n (view_room self.now n) }
        ensures served { IsServed self.now result }
    {
        match self.registers[17] {
            Value::Num(a) => {
                if a < 0x1_0000 {
                    Request::Answer(14, 1)
                } else {
                    Request::Observe
                }
            }
            Value::Ptr { region, off } => {
                if lies_within(off, n, self.memory.size(region)) {
                    Request::Take(Span {
                        region,
                        at: off,
                        count: n,
                    })
                } else {
                    Request::Observe
                }
            }
            _ => Request::Observe,
        }
    }

    fn put_request(&self, descriptor: Descriptor, n: u64) -> Request
        ensures value { call_in self.now result ≡ write_call (view_bytes self.now) (view_room self.now) (descriptor_number descriptor) (Some n) }
        ensures served { IsServed self.now result }
    {
        if n == 0 {
            return Request::Answer(0, 0);
        }
        match self.registers[17] {
            Value::Num(a) => {
                if a < 0x1_0000 {
                    Request::Answer(14, 1)
                } else {
                    Request::Observe
                }
            }
            Value::Ptr { region, off } => {
                if lies_within(off, n, self.memory.size(region))
                    && self.memory.are_bytes(region, off, n)
                {
                    Request::Put(
                        descriptor,
                        Span {
                            region,
                            at: off,
                            count: n,
                        },
                    )
                } else {
                    Request::Observe
                }
            }
            _ => Request::Observe,
        }
    }

    fn write_request(&self, a0: u64, n: u64) -> Request
        ensures value { call_in self.now result ≡ write_call (view_bytes self.now) (view_room self.now) a0 (Some n) }
        ensures served { IsServed self.now result }
    {
        if a0 == 1 {
            self.put_request(Descriptor::Out, n)
        } else if a0 == 2 {
            self.put_request(Descriptor::Err, n)
        } else {
            Request::Answer(9, 1)
        }
    }

    // What a system call asks for that has a number in a0.
    fn numbered_request(&self, v0: u64, a0: u64) -> Request
        ensures value { call_in self.now result ≡ numbered_call (view_bytes self.now) (view_room self.now) v0 (Some a0) (def.number (view_register self.now 18)) }
        ensures served { IsServed self.now result }
    {
        if v0 == 1 {
            Request::Exit((a0 % 256) as u8)
        } else if v0 == 3 {
            match self.registers[18] {
                Value::Num(n) => self.read_request(a0, n),
                _ => Request::Observe,
            }
        } else if v0 == 4 {
            match self.registers[18] {
                Value::Num(n) => self.write_request(a0, n),
                _ => Request::Observe,
            }
        } else {
            Request::Answer(78, 1)
        }
    }

    /// What the system call asks for, by the registers that it uses.
    pub(super) fn request(&self) -> Request
        ensures value { call_in self.now result ≡ view_call self.now }
        ensures served { IsServed self.now result }
    {
        let Value::Num(v0) = self.registers[0] else {
            return Request::Observe;
        };
        if v0 == 17 {
            return self.heap_request(self.registers[16]);
        }
        match self.registers[16] {
            Value::Num(a0) => self.numbered_request(v0, a0),
            _ => Request::Observe,
        }
    }
}
