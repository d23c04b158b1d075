// What every call tests first: the network and the lengths of the table's slices.
ghost use Rattle.std.specs.Prelude.{◌≡◌};
ghost use Rattle.network.specs.Handed.{network};
ghost use Rattle.table.specs.Answers.{ready_of};

use network::Network;
use refusal::Refusal;

// Refusals 1, 2 and 3, the last by the slices' lengths `costs`, `ways` and `waits`; how many stacks there are where none applies.
pub fn ready(net: &Network, costs: usize, ways: usize, waits: usize) -> Result<usize, Refusal>
    ensures { result ≡ ready_of (network net.now) costs ways waits }
{
    let stacks = net.check()?;
    let rows = net.n * (net.n * stacks);
    if (costs == rows) & ((ways == rows) & (waits == rows)) {
        return Ok(stacks);
    }
    Err(Refusal::Table)
}
