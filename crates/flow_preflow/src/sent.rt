//! What a node sends out.

ghost use Rattle.std.specs.Prelude.{◌≡◌, ◌==◌, ◌≤◌, ◌^◌, All, cond, length, pos};
ghost use Rattle.std.specs.Prelude.{neg_ℤ, ◌≤ℤ◌};
ghost use Rattle.plain_certificates.specs.Numbered.{net};
ghost use Rattle.plain_certificates.specs.Rooms.{as_flow};
ghost use Rattle.push_flow.specs.Slices.{at, graph_of};

use push_flow::Ends;

/// The flow, where this end of its arc is the node.
fn part(end: u32, node: u32, flow: u64) -> u64
    ensures { result ≡ cond (end == node) flow 0 }
{
    if end == node { flow } else { 0 }
}

/// What the node sends out minus what it takes in.
pub fn sent_by(ends: &[Ends], flow: &[u64], node: u32) -> i64
    requires sizes { length flow.now ≡ length ends.now }
    requires few { length ends.now ≤ 4194304 }
    requires short { All (λ f. f ≤ 2 ^ 36) flow.now }
    ensures is { result ≡ net (graph_of 0 ends.now) (as_flow (at flow.now)) node }
    ensures low { neg_ℤ (pos (2 ^ 58)) ≤ℤ result }
    ensures high { result ≤ℤ pos (2 ^ 58) }
{
    let mut sent: u64 = 0;
    let mut taken: u64 = 0;
    let mut arc = 0;
    while arc < ends.len() {
        sent += part(ends[arc].from, node, flow[arc]);
        taken += part(ends[arc].to, node, flow[arc]);
        arc += 1;
    }
    sent as i64 - taken as i64
}
