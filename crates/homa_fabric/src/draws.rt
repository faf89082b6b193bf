//! Draws: words of the generator, taken modulo a number.
ghost use Rattle.std.specs.Prelude.{◌≡◌, ◌+◌, ◌<◌, ◌≤◌, ◌^◌};
ghost use Rattle.generated_runs.specs.Draws.{draw, sized, next_traffic};
ghost use Rattle.homa_fabric.specs.Draws.{plain_traffic};

use homa_plain::HostId;
use rand_core::utils::NextWord;
use rand_pcg::Lcg64Xsh32;

/// A call that is to be made: its client, its server, the number of its service, and how many bytes its request has.
#[derive(Clone, Copy, Debug, PartialEq, Eq)]
pub struct Traffic {
    pub client: HostId,
    pub server: HostId,
    pub number: u8,
    pub len: u32,
}

/// A number below `n`.
pub(crate) fn draw(random: &mut Lcg64Xsh32, n: u32) -> u32
    requires { 0 < n }
    ensures drawn { (result, random.new) ≡ draw n random.old }
    ensures below { result < n }
{
    random.next_word() % n
}

// How many bytes a request has, by the number that was drawn for its kind.
fn sized(random: &mut Lcg64Xsh32, kind: u32) -> u32
    ensures sized { (result, random.new) ≡ sized kind random.old }
    ensures some { 1 ≤ result }
    ensures most { result ≤ 100000 }
{
    if kind < 70 {
        1 + draw(random, 1000)
    } else if kind < 95 {
        1 + draw(random, 10_000)
    } else {
        10_001 + draw(random, 90_000)
    }
}

/// The next call between so many hosts (at least 2).
pub(crate) fn next_traffic(random: &mut Lcg64Xsh32, hosts: u32) -> Traffic
    requires from { 2 ≤ hosts }
    requires to { hosts ≤ 2 ^ 16 }
    ensures drawn { (plain_traffic result, random.new) ≡ next_traffic hosts random.old }
    ensures client { result.client.0 < hosts }
    ensures server { result.server.0 < hosts }
    ensures some { 1 ≤ result.len }
    ensures most { result.len ≤ 100000 }
{
    let client = draw(random, hosts);
    let distance = draw(random, hosts - 1);
    let number = draw(random, 4);
    let kind = draw(random, 100);
    Traffic {
        client: HostId(client as u16),
        server: HostId(((client + 1 + distance) % hosts) as u16),
        number: number as u8,
        len: sized(random, kind),
    }
}
