//! The host of a match.
ghost use Rattle.std.specs.Prelude.{◌≡◌, option_copied};
ghost use Rattle.host_ident.specs.Hosts.{host_of};

use f2b_base::Addr;

/// What the groups of a host matched in a line, where they took part.
#[derive(Clone, Copy)]
pub struct HostGroups<'l> {
    pub ip4: Option<&'l str>,
    pub ip6: Option<&'l str>,
    /// The name of a host. No name is looked up, so it gives no address.
    pub name: Option<&'l str>,
}

/// The address of the host.
pub fn host_of(groups: HostGroups<'_>) -> Option<Addr>
    ensures { result ≡ host_of (option_copied groups.entry.ip4) (option_copied groups.entry.ip6) }
{
    match (groups.ip4, groups.ip6) {
        (Some(ip4), _) => Addr::read(ip4.as_bytes()),
        (None, Some(ip6)) => Addr::read(ip6.as_bytes()),
        (None, None) => None,
    }
}
