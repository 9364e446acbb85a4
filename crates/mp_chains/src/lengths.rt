ghost use Rattle.std.specs.Prelude.{◌≡◌, map};
ghost use Rattle.mp_results.specs.Chains.{longest_of};

use mp_nums::Places;

/// The place of the longest chain, the first of several. It is `None` exactly where there is no chain.
pub fn longest(chains: &[Places]) -> Option<usize>
    ensures { result ≡ longest_of (map (λ chain. chain.items) chains.now) }
{
    if chains.is_empty() {
        return None;
    }
    let mut longest = 0;
    for place in 1..chains.len() {
        if chains[place].as_slice().len() > chains[longest].as_slice().len() {
            longest = place;
        }
    }
    Some(longest)
}
