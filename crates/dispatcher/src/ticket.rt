// The ticket of a dispatcher: how many commits and mark calls were served so far, modulo 2 to the 64th.
ghost use Rattle.std.specs.Prelude.{◌≡◌};
ghost use Rattle.rules.specs.Tickets as tickets;

// The ticket after one more.
#[tactic(auto, unfolding(rules::specs::Tickets::raised))]
pub fn raised(ticket: u64) -> u64
    ensures { result ≡ tickets.raised ticket }
{
    ticket.wrapping_add(1)
}
