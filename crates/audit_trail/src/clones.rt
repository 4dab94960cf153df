//! Clones: each is equal to its original. The only error is want of memory.

ghost use Rattle.std.specs.Prelude.{◌≡◌};

use crate::entry::{Deed, Entry};
use std::alloc::AllocError;

impl Clone for Deed {
    ghost is_clone = { λ deed copy. copy ≡ deed };

    fn clone(&self) -> Result<Deed, AllocError> {
        match self {
            Deed::Done { call, reply } => {
                let call = call.clone()?;
                match reply.clone() {
                    Ok(reply) => Ok(Deed::Done { call, reply }),
                    Err(why) => {
                        drop(call);
                        Err(why)
                    }
                }
            }
            Deed::Refused { change, call } => Ok(Deed::Refused {
                change: *change,
                call: call.clone()?,
            }),
            Deed::Kept => Ok(Deed::Kept),
            Deed::Opened { term } => Ok(Deed::Opened { term: *term }),
        }
    }
}

impl Clone for Entry {
    ghost is_clone = { λ entry copy. copy ≡ entry };

    fn clone(&self) -> Result<Entry, AllocError> {
        let name = self.name.clone()?;
        let deed = self.deed.clone()?;
        Ok(Entry {
            ticket: self.ticket,
            late: self.late,
            name,
            deed,
        })
    }
}
