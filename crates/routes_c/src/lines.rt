//! Command lines: each call takes a line, and stores the bytes of its reply.
ghost use Rattle.std.specs.Prelude.{◌≡◌};
ghost use Rattle.routes_c.specs.Answered.{Answered};
ghost use Rattle.routes_c.specs.Handles.{Copies, GoesOn, IsHandle, session_of};

use crate::handle::Handle;
use crate::last_lists::copy_from;
use crate::session::Session;
use std::alloc::Global;

/// Carries out a command line, given without its line end, and stores the reply, which `routes_reply` reads.
///
/// Returns 0. Fails with 2 if an allocation for the reply fails, and 3 if the handle is closed. At 2, the table is the one after the
/// line, and a beginning of the reply is stored. If an allocation for the command itself fails, it returns 0, and the reply is `refused`.
#[unsafe(no_mangle)]
pub extern "C" fn routes_line(alloc: Global, handle: &mut Handle, line: &[u8]) -> u32
    requires { IsHandle handle.old }
    ensures { GoesOn session_of handle.old handle.new (result ≡ 3) (λ s t. Answered s t line.now result) }
{
    handle.on(3, |session: &mut Session| session.line(alloc, line))
}

/// Copies the stored reply, from a place on, as far as there is room. Returns the number of bytes copied. A closed handle has an empty
/// reply.
#[unsafe(no_mangle)]
pub extern "C" fn routes_reply(handle: &mut Handle, from: usize, out: &mut [u8]) -> usize
    requires { IsHandle handle.old }
    ensures { Copies session_of handle.old handle.new (λ s. s.reply.items) from result out.old out.new }
{
    handle.on_slice(out, 0, |session: &mut Session, out| {
        copy_from(session.reply.as_slice(), from, out)
    })
}
