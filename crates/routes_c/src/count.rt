//! The number of stored networks.
ghost use Rattle.std.specs.Prelude.{◌≡◌};
ghost use Rattle.ipnet_addr.specs.Addresses.{Ipv4, Ipv6};
ghost use Rattle.route_laws.specs.Networks.{routes_of};
ghost use Rattle.route_laws.specs.Onwards.{count_of};
ghost use Rattle.routes_c.specs.Handles.{IsHandle, KeepsContent, session_of};

use crate::handle::Handle;
use crate::session::Session;

/// Sets `ipv4` and `ipv6` to the number of stored networks of each family. Does not allocate.
///
/// Returns 0. Fails with 3 if the handle is closed; then both numbers are unchanged.
#[unsafe(no_mangle)]
pub extern "C" fn routes_count(handle: &mut Handle, ipv4: &mut usize, ipv6: &mut usize) -> u32
    requires { IsHandle handle.old }
    ensures { KeepsContent session_of handle.old handle.new ((result ≡ 3) × (ipv4.new ≡ ipv4.old) × (ipv6.new ≡ ipv6.old)) (λ s. (result ≡ 0) × (ipv4.new ≡ count_of Ipv4 (routes_of s.table)) × (ipv6.new ≡ count_of Ipv6 (routes_of s.table))) }
{
    let Some((v4, v6)) = handle.on(None, |session: &mut Session| {
        Some(session.table.count())
    }) else {
        return 3;
    };
    *ipv4 = v4;
    *ipv6 = v6;
    0
}
