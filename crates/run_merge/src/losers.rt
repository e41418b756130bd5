//! The games on the way of a new head to the root. Node 0 names the winner of all, and each node n above it the loser of the
//! game between those who won at 2 n and at 2 n + 1: so one look at each node of the way tells whom to play.
ghost use Rattle.std.specs.Prelude.{◌≡◌, ◌<◌, ◌≤◌, ◌+◌, ◌^◌, ◌*◌, ◌⊎◌, ℕ, None, IfOk, IfErr, length, get_or};
ghost use Rattle.run_merge.specs.Leading.{NoneDone, compares_of};
ghost use Rattle.run_merge.specs.Tournaments.{IsWinner, IsWon};
ghost use Rattle.run_merge.specs.Losers.{IsLost, IsReplay};

use crate::head::Head;
use crate::tournament::winner;
use keybytes::Fault;
use std::alloc::Global;

// Who wins the game between two heads and who loses it, and how many comparisons of pairs that took.
fn game(heads: &[Head], one: usize, other: usize) -> (usize, usize, u64)
    requires one { one < length heads.now }
    requires other { other < length heads.now }
    ensures winner { IsWinner heads.now result.0 one other }
    ensures loser { ((result.0 ≡ one) × (result.1 ≡ other)) ⊎ ((result.0 ≡ other) × (result.1 ≡ one)) }
    ensures compares { result.2 ≡ compares_of (get_or heads.now one None) (get_or heads.now other None) }
{
    let (won, compares) = winner(heads, one, other);
    // (the other one of the two, by no branch: who wins can't be foretold)
    (won, one + other - won, compares)
}

// Plays the games on the way from a leaf to the root, and tells how many comparisons of pairs they took.
#[inline]
pub(crate) fn replay(nodes: &mut [usize], heads: &[Head], leaf: usize) -> u64
    requires leaf { leaf < length heads.now }
    requires replay { IsReplay heads.now nodes.old (length heads.now + leaf) leaf }
    ensures lost { IsLost heads.now nodes.new }
    ensures compares { (d : ℕ) → length heads.now ≤ 2 ^ d → result ≤ d }
    ensures counted { NoneDone heads.now → length heads.now + leaf < 2 * 2 ^ result }
{
    let mut winner = leaf;
    let mut node = heads.len() + leaf;
    let mut compares = 0;
    while node > 1 {
        node /= 2;
        let (won, lost, made) = game(heads, winner, nodes[node]);
        nodes[node] = lost;
        winner = won;
        compares += made;
    }
    nodes[0] = winner;
    compares
}

// The losers of games of which the winners are known.
pub(crate) fn losers_of(alloc: Global, heads: &[Head], wins: &[usize]) -> Result<Vec<usize>, Fault>
    requires { IsWon heads.now wins.now }
    ensures lost { IfOk result (λ nodes. IsLost heads.now nodes.items) }
    ensures memory { IfErr result (λ fault. fault ≡ Fault.Memory) }
{
    let count = heads.len();
    let mut nodes = Vec::new(alloc);
    if count == 0 {
        return Ok(nodes);
    }
    nodes.push(wins[1])?;
    for node in 1..count {
        let left = wins[2 * node];
        let right = wins[2 * node + 1];
        let loser = if wins[node] == left { right } else { left };
        nodes.push(loser)?;
    }
    Ok(nodes)
}
